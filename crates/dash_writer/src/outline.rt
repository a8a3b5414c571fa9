// The structure of a written MPD: its root, its Periods, and the tracks in each of them.
ghost use Rattle.std.specs.Prelude.{◌≡◌, ◌+◌, ◌<◌, ◌⊎◌, ℕ, List, length, OnErr, OnOk};
ghost use Rattle.bridge_io.specs.Fault.{HasCause};
ghost use Rattle.bridge_io.specs.Outside.{put, Changes};
ghost use Rattle.bridge_io.specs.Written.{HasFront};
ghost use Rattle.bridge_io.specs.Adding.{Adds};
ghost use Rattle.bridge_io.specs.declared.out_fault.OutFault.TheVariants.{WriteFault};
ghost use Rattle.dash_writer.specs.Elements as elements;
ghost use Rattle.dash_writer.specs.Given.{CanBeListed, given_text, outline_of};
ghost use Rattle.dash_writer.specs.Outline as spec;
ghost use Rattle.dash_writer.specs.Written.{all_told, element_text, elements_text};

use crate::attribute::Attribute;
use crate::element::{push_end, push_start};
use crate::sets::{TrackLists, push_sets};
use bridge_io::{Fail, FileWriter, Name, OutFault, Piece, Sheet, Store};
use presentation::Track;
use std::alloc::Global;

/// A Period to write (ISO/IEC 23009-1, 5.3.2).
pub(crate) trait Period {
    /// Its attributes, given its index.
    ghost head: { ℕ → Self → List elements.Attribute };

    /// Its attributes, given its index.
    fn attributes(&self, place: usize) -> [Attribute<'_>; 3]
        ensures { all_told result ≡ head place self.now };
}

/// An MPD to write (5.3.1).
#[derive(Drop)]
pub(crate) struct Outline<'a, P, T> {
    /// The attributes of the MPD.
    pub(crate) root: &'a [Attribute<'a>],
    pub(crate) periods: &'a [P],
    pub(crate) tracks: &'a [Track],
    /// The contents of the tracks in the Periods.
    pub(crate) lists: &'a T,
}

impl<P: Period, T> Outline<'_, P, T> {
    /// Writes the text to a file. An error leaves the file as it was, or with a prefix of the text.
    pub(crate) fn write<S, F: Store>(
        &self,
        alloc: Global,
        store: &mut F,
        name: &Name,
        steps: &mut S,
    ) -> Result<(), OutFault>
    where
        T: TrackLists<S>,
        requires { CanBeListed T.can_list T.lists self.now }
        ensures ok { OnOk result (Changes (put name.now (given_text P.head T.lists self.now)) (F.files store.old) (F.files store.new)) }
        ensures err { OnErr result ((F.files store.new ≡ F.files store.old)
            ⊎ HasFront name.now (given_text P.head T.lists self.now) (F.files store.old) (F.files store.new)) }
        ensures cause { HasCause WriteFault (F.write_faults store.old) (F.write_faults store.new) result }
        ensures reads { F.read_faults store.new ≡ F.read_faults store.old }
    {
        let writer = &mut FileWriter::create(alloc, store, name)?;
        self.push_to(alloc, &mut Sheet { writer, store }, steps)?;
        writer.flush(store)?;
        Ok(())
    }

    /// Writes the whole text.
    fn push_to<S, F: Store>(
        &self,
        alloc: Global,
        sheet: &mut Sheet<F>,
        steps: &mut S,
    ) -> Result<(), Fail>
    where
        T: TrackLists<S>,
        requires { CanBeListed T.can_list T.lists self.now }
        ensures { Adds F.Store (given_text P.head T.lists self.now) sheet.old sheet.new result }
    {
        let childless = self.periods.is_empty();
        let declaration = b"<?xml version=\"1.0\" encoding=\"UTF-8\"?>\n";
        sheet.push_pieces(&[Piece::Text(declaration)])?;
        push_start(sheet, "MPD", self.root, childless)?;
        self.push_periods(alloc, sheet, steps)?;
        push_end(sheet, "MPD", childless)
    }

    /// Writes the Periods (5.3.2).
    fn push_periods<S, F: Store>(
        &self,
        alloc: Global,
        sheet: &mut Sheet<F>,
        steps: &mut S,
    ) -> Result<(), Fail>
    where
        T: TrackLists<S>,
        requires { CanBeListed T.can_list T.lists self.now }
        ensures { let outline = outline_of P.head T.lists self.now in
            Adds F.Store (elements_text (spec.period_elements outline 0 outline.periods)) sheet.old sheet.new result }
    {
        for (place, period) in self.periods.iter().enumerate() {
            self.push_period(alloc, place, period, sheet, steps)?;
        }
        Ok(())
    }

    /// Writes the Period at an index.
    fn push_period<S, F: Store>(
        &self,
        alloc: Global,
        place: usize,
        period: &P,
        sheet: &mut Sheet<F>,
        steps: &mut S,
    ) -> Result<(), Fail>
    where
        T: TrackLists<S>,
        requires { spec.AreListed (T.can_list self.now.lists.now place) (T.lists self.now.lists.now place) 0 (length self.now.tracks.now) }
        ensures { Adds F.Store (element_text (spec.period_element (outline_of P.head T.lists self.now) place (P.head place period.now)))
            sheet.old sheet.new result }
    {
        let childless = self.tracks.is_empty();
        let attributes = period.attributes(place);
        push_start(sheet, "Period", &attributes, childless)?;
        push_sets(alloc, self.lists, place, self.tracks, sheet, steps)?;
        push_end(sheet, "Period", childless)
    }
}
