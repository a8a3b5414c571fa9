// The playlists of a presentation.
ghost use Rattle.std.specs.Prelude.{◌≡◌, ◌<◌, length, IfOk, None, OnOk, OnErr, Some};
ghost use Rattle.bridge_io.specs.Fault.{HasCause};
ghost use Rattle.bridge_io.specs.InOrder.{put_all, MayBegin, AreBegun};
ghost use Rattle.bridge_io.specs.Outside.{put, Changes};
ghost use Rattle.bridge_io.specs.declared.out_fault.OutFault.TheVariants.{WriteFault};
ghost use Rattle.bridge_jobs.specs.Laws.{in_folder, playlist_of};
ghost use Rattle.bridge_steps.specs.Playlists as spec;

use crate::manifest::Ready;
use bridge_io::{Ledger, Name, NoMemory, Steps, Store};
use bridge_jobs::Addresses;
use hls_writer::{OutFault, Targets, write_master, write_media};
use presentation::Presentation;
use std::alloc::Global;
use std::marker::Model;
use track_hints::Hints;
use url_parts::{Base, Spelling};

/// Where playlists are written, and how their URLs are spelled.
///
/// In a contract it is the folder, and the URL of the store's root where URLs are relative to the playlists.
#[derive(Drop)]
pub struct Output<'a> {
    folder: &'a Name,
    base: Option<&'a Base>,
}

impl<'a> Model for Output<'a> {
    ghost use Rattle.std.specs.Prelude.{option_map};
    ghost use Rattle.bridge_steps.specs.Playlists.{OutputPlace};

    ghost Value = { OutputPlace };

    ghost view = { λ output. record { folder = output.folder.now; base = option_map (λ base. base.now) output.base } };
}

impl<'a> Output<'a> {
    /// A folder in which all URLs are absolute.
    pub fn absolute(folder: &'a Name) -> Output<'a>
        ensures { result ≡ record { folder = folder.now; base = None } }
    {
        Output { folder, base: None }
    }

    /// A folder in which the URLs below the root are relative to the playlists.
    pub fn relative(base: &'a Base, folder: &'a Name) -> Output<'a>
        ensures { result ≡ record { folder = folder.now; base = Some base.now } }
    {
        Output {
            folder,
            base: Some(base),
        }
    }

    /// A folder of the store with this root, and how URLs are given.
    pub fn of(addresses: Addresses, base: &'a Base, folder: &'a Name) -> Output<'a>
        ensures { result ≡ spec.output_of addresses base.now folder.now }
    {
        match addresses {
            Addresses::Absolute => Output::absolute(folder),
            Addresses::Relative => Output::relative(base, folder),
        }
    }

    /// The folder.
    pub fn folder(&self) -> &Name
        ensures { result.now ≡ self.now.folder }
    {
        self.folder
    }

    /// The name of a track's playlist, for which the folder of a command leaves room, and how URLs are spelled in it.
    pub fn playlist(&self, alloc: Global, track: usize) -> Result<(Name, Spelling), NoMemory>
        ensures { IfOk result (λ file. (file.0 ≡ in_folder self.now.folder (playlist_of track))
            × (file.1 ≡ spec.spelling_in self.now track)) }
    {
        let name = playlist_name(alloc, self.folder, track)?;
        Ok((name, self.spelling(alloc, track)?))
    }

    /// How URLs are spelled in a track's playlist.
    fn spelling(&self, alloc: Global, track: usize) -> Result<Spelling, NoMemory>
        ensures { IfOk result (λ spelling. spelling ≡ spec.spelling_in self.now track) }
    {
        let Some(base) = self.base else {
            return Ok(Spelling::absolute());
        };
        let file = format!(in alloc; "t{track}.m3u8")?;
        Spelling::beside(alloc, base, self.folder, file.as_str())
    }
}

/// Writes the playlists of a presentation to the files of a folder: that of each track in order, and the master
/// playlist last.
///
/// After an error the files before one of them are complete, and that one is as it was or truncated.
/// [`OutFault::WriteFault`] comes only where the store's count of failed writes rose.
pub fn write_playlists<F: Store, L: Ledger>(
    alloc: Global,
    output: &Output<'_>,
    ready: &Ready,
    store: &mut F,
    steps: &mut Steps<L>,
) -> Result<(), OutFault>
    ensures ok { OnOk result (Changes (put_all (spec.playlists output.now ready.now.players ready.now.digits ready.now.presentation))
        (F.files store.old)
        (F.files store.new)) }
    ensures err { OnErr result (AreBegun (spec.playlists output.now ready.now.players ready.now.digits ready.now.presentation)
        (F.files store.old)
        (F.files store.new)) }
    ensures cause { HasCause WriteFault (F.write_faults store.old) (F.write_faults store.new) result }
    ensures reads { F.read_faults store.new ≡ F.read_faults store.old }
{
    write_tracks(alloc, output, ready, store, steps)?;
    write_the_master(
        alloc,
        output.folder(),
        &ready.players,
        &ready.presentation,
        store,
    )
}

/// Writes the playlist of each track in order.
fn write_tracks<F: Store, L: Ledger>(
    alloc: Global,
    output: &Output<'_>,
    ready: &Ready,
    store: &mut F,
    steps: &mut Steps<L>,
) -> Result<(), OutFault>
    ensures ok { OnOk result (Changes (put_all (spec.track_files output.now ready.now.players ready.now.digits ready.now.presentation))
        (F.files store.old)
        (F.files store.new)) }
    ensures err { OnErr result (AreBegun (spec.track_files output.now ready.now.players ready.now.digits ready.now.presentation)
        (F.files store.old)
        (F.files store.new)) }
    ensures cause { HasCause WriteFault (F.write_faults store.old) (F.write_faults store.new) result }
    ensures reads { F.read_faults store.new ≡ F.read_faults store.old }
{
    for track in 0..ready.presentation.tracks().len() {
        write_track(alloc, output, ready, track, store, steps)?;
    }
    Ok(())
}

fn write_track<F: Store, L: Ledger>(
    alloc: Global,
    output: &Output<'_>,
    ready: &Ready,
    track: usize,
    store: &mut F,
    steps: &mut Steps<L>,
) -> Result<(), OutFault>
    requires { track < length ready.now.presentation.tracks }
    ensures ok { OnOk result (let file = spec.track_file output.now ready.now.players ready.now.digits ready.now.presentation track in
        Changes (put file.0 file.1) (F.files store.old) (F.files store.new)) }
    ensures err { OnErr result (MayBegin (spec.track_file output.now ready.now.players ready.now.digits ready.now.presentation track)
        (F.files store.old)
        (F.files store.new)) }
    ensures cause { HasCause WriteFault (F.write_faults store.old) (F.write_faults store.new) result }
    ensures reads { F.read_faults store.new ≡ F.read_faults store.old }
{
    let Ok((name, spelling)) = output.playlist(alloc, track) else {
        return Err(OutFault::Memory);
    };
    write_media(
        alloc,
        &ready.presentation,
        track,
        &ready.longest,
        Targets::of(ready.players.as_ref()),
        ready.digits,
        &spelling,
        store,
        &name,
        steps,
    )
}

/// Writes the master playlist of a presentation into a folder, as `master.m3u8`; for players, where it is given what its MPD
/// says for them.
pub fn write_the_master<F: Store>(
    alloc: Global,
    out: &Name,
    players: &Option<Hints>,
    presentation: &Presentation,
    store: &mut F,
) -> Result<(), OutFault>
    ensures ok { OnOk result (let file = spec.master_file out.now players.now presentation.now in
        Changes (put file.0 file.1) (F.files store.old) (F.files store.new)) }
    ensures err { OnErr result (MayBegin (spec.master_file out.now players.now presentation.now) (F.files store.old) (F.files store.new)) }
    ensures cause { HasCause WriteFault (F.write_faults store.old) (F.write_faults store.new) result }
    ensures reads { F.read_faults store.new ≡ F.read_faults store.old }
{
    match file_in(alloc, out, "master.m3u8") {
        Ok(name) => write_master(alloc, presentation, players.as_ref(), store, &name),
        Err(NoMemory) => Err(OutFault::Memory),
    }
}

fn playlist_name(alloc: Global, out: &Name, track: usize) -> Result<Name, NoMemory>
    ensures { IfOk result (λ name. name ≡ in_folder out.now (playlist_of track)) }
{
    let out = out.as_str();
    let name = format!(in alloc; "{out}/t{track}.m3u8")?;
    Name::read(alloc, name.as_str()).map_err(|_| NoMemory)
}

/// The name of a file in a folder. The folder of a command leaves room for it.
pub fn file_in(alloc: Global, out: &Name, file: &str) -> Result<Name, NoMemory>
    ensures { IfOk result (λ name. name ≡ in_folder out.now file.now) }
{
    let out = out.as_str();
    let name = format!(in alloc; "{out}/{file}")?;
    Name::read(alloc, name.as_str()).map_err(|_| NoMemory)
}
