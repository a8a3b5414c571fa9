// One of the two presentations.
ghost use Rattle.std.specs.Prelude.{◌≡◌, ◌<◌, ◌==◌, ◌^◌, ◌++◌, ◌∷◌, [], if◌then◌else◌, length, slice_get, IfOk, IfSome, OnOk};
ghost use Rattle.presentation.specs.Meanings.{entry_at};
ghost use Rattle.presentation.specs.Presented.{listed_at};
ghost use Rattle.presentation.specs.Printing.{IsCounted};
ghost use Rattle.comparison.specs.Comparing.{entry_made};
ghost use Rattle.differences.specs.Sides as spec;
ghost use Rattle.differences.specs.Sections.{AreCounted, IsListable, has_content, kept_sections};

use crate::segments::Entry;
use bridge_io::{NoMemory, Sequence};
use comparison::Walk;
use exact_time::Digits;
use presentation::Presentation;
use std::alloc::Global;

/// A presentation, with its sections in which some track has content.
#[derive(Drop)]
pub(crate) struct Side<'a> {
    pub(crate) presentation: &'a Presentation,
    pub(crate) digits: Digits,
    /// Their indices in order.
    pub(crate) sections: Sequence<usize>,
}

impl<'a> Side<'a> {
    pub(crate) fn of(
        alloc: Global,
        presentation: &'a Presentation,
        digits: Digits,
    ) -> Result<Side<'a>, NoMemory>
        requires { IsListable (10 ^ digits) presentation.now }
        ensures { IfOk result (λ side. spec.IsSideOf side (10 ^ digits) presentation.now) }
    {
        let sections = kept_sections(alloc, presentation)?;
        Ok(Side {
            presentation,
            digits,
            sections,
        })
    }

    /// The section at an index of those that have content; `None` after the last one.
    pub(crate) fn section(&self, place: usize) -> Option<usize>
        requires side { spec.IsSide self.now }
        ensures section { result ≡ slice_get self.now.sections place }
        ensures within { IfSome result (λ section. section < length self.now.presentation.now.sections) }
    {
        let section = self.sections.as_slice().get(place)?;
        Some(*section)
    }

    /// The content of a track in a section.
    pub(crate) fn entry(&self, section: usize, track: usize) -> Entry<'_>
        requires side { spec.IsSide self.now }
        requires section { section < length self.now.presentation.now.sections }
        requires track { track < length self.now.presentation.now.tracks }
        ensures entry { entry_made result.initialization.now result.segments ≡ entry_at self.now.presentation.now section track }
        ensures listed { length result.segments ≡ length (listed_at self.now.presentation.now section track) }
    {
        let presentation = self.presentation;
        Entry {
            initialization: presentation.initialization(section, track),
            segments: Walk::over(presentation.segments(section, track, self.digits)),
        }
    }

    /// How many segments of a track are listed in a section.
    pub(crate) fn listed(&self, section: usize, track: usize) -> usize
        requires side { spec.IsSide self.now }
        requires section { section < length self.now.presentation.now.sections }
        requires track { track < length self.now.presentation.now.tracks }
        ensures { result ≡ length (listed_at self.now.presentation.now section track) }
    {
        listed(self.presentation, section, track)
    }
}

/// The indices of the sections in which some track has content, in order.
fn kept_sections(alloc: Global, presentation: &Presentation) -> Result<Sequence<usize>, NoMemory>
    requires { AreCounted presentation.now }
    ensures { IfOk result (λ sections. sections ≡ kept_sections presentation.now) }
{
    let mut sections = Sequence::new(alloc);
    for section in 0..presentation.sections().len() {
        add_section(presentation, section, &mut sections)?;
    }
    Ok(sections)
}

/// Adds a section in which some track has content.
fn add_section(
    presentation: &Presentation,
    section: usize,
    sections: &mut Sequence<usize>,
) -> Result<(), NoMemory>
    requires counted { AreCounted presentation.now }
    requires section { section < length presentation.now.sections }
    ensures { OnOk result (sections.new ≡ (if has_content presentation.now section then sections.old ++ section ∷ [] else sections.old)) }
{
    if has_content(presentation, section) {
        return sections.push(section);
    }
    Ok(())
}

/// Whether some track has content in a section.
fn has_content(presentation: &Presentation, section: usize) -> bool
    requires counted { AreCounted presentation.now }
    requires section { section < length presentation.now.sections }
    ensures { result ≡ has_content presentation.now section }
{
    for track in 0..presentation.tracks().len() {
        if listed(presentation, section, track) > 0 {
            return true;
        }
    }
    false
}

/// How many segments of a track are listed in a section.
fn listed(presentation: &Presentation, section: usize, track: usize) -> usize
    requires counted { IsCounted presentation.now section track }
    requires section { section < length presentation.now.sections }
    requires track { track < length presentation.now.tracks }
    ensures { result ≡ length (listed_at presentation.now section track) }
{
    let window = presentation.window(section);
    presentation
        .runs(section, track)
        .count(&window)
        .unwrap_or(0) as usize
}
