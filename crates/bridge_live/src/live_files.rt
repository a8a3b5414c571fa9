// The files of a followed presentation.
ghost use Rattle.std.specs.Prelude.{◌≡◌, ◌<◌, length, OnOk, OnErr};
ghost use Rattle.bridge_io.specs.Fault.{HasCause};
ghost use Rattle.bridge_io.specs.InOrder.{put_all, MayBegin, AreBegun};
ghost use Rattle.bridge_io.specs.Outside.{put, Changes};
ghost use Rattle.bridge_io.specs.declared.out_fault.OutFault.TheVariants.{WriteFault};
ghost use Rattle.bridge_live.specs.LiveMpds as spec;

use bridge_io::Store;
use bridge_steps::{Output, write_the_master};
use hls_writer::OutFault;
use live_session::Session;
use std::alloc::Global;
use track_hints::Hints;

/// Writes the playlists of a followed presentation to the files of a folder: that of each track in order, and after the first
/// accepted frame the master playlist last; for players, where it is given what the first MPD says for them.
///
/// After an error the files before one of them are complete, and that one is as it was or truncated. [`OutFault::WriteFault`]
/// comes only where the store's count of failed writes rose.
pub fn write_live_files<F: Store>(
    alloc: Global,
    output: &Output<'_>,
    session: &Session,
    players: &Option<Hints>,
    store: &mut F,
) -> Result<(), OutFault>
    ensures ok { OnOk result (Changes (put_all (spec.live_files output.now players.now session.now)) (F.files store.old)
        (F.files store.new)) }
    ensures err { OnErr result (AreBegun (spec.live_files output.now players.now session.now) (F.files store.old) (F.files store.new)) }
    ensures cause { HasCause WriteFault (F.write_faults store.old) (F.write_faults store.new) result }
    ensures reads { F.read_faults store.new ≡ F.read_faults store.old }
{
    write_tracks(alloc, output, session, store)?;
    if session.accepted() == 1 {
        return write_the_master(alloc, output.folder(), players, session.first(), store);
    }
    Ok(())
}

/// Writes the playlist of each track in order.
fn write_tracks<F: Store>(
    alloc: Global,
    output: &Output<'_>,
    session: &Session,
    store: &mut F,
) -> Result<(), OutFault>
    ensures ok { OnOk result (Changes (put_all (spec.track_files output.now session.now)) (F.files store.old) (F.files store.new)) }
    ensures err { OnErr result (AreBegun (spec.track_files output.now session.now) (F.files store.old) (F.files store.new)) }
    ensures cause { HasCause WriteFault (F.write_faults store.old) (F.write_faults store.new) result }
    ensures reads { F.read_faults store.new ≡ F.read_faults store.old }
{
    for track in 0..session.first().tracks().len() {
        write_track(alloc, output, session, track, store)?;
    }
    Ok(())
}

fn write_track<F: Store>(
    alloc: Global,
    output: &Output<'_>,
    session: &Session,
    track: usize,
    store: &mut F,
) -> Result<(), OutFault>
    requires { track < length session.now.tracks }
    ensures ok { OnOk result (let file = spec.track_file output.now session.now track in
        Changes (put file.0 file.1) (F.files store.old) (F.files store.new)) }
    ensures err { OnErr result (MayBegin (spec.track_file output.now session.now track) (F.files store.old) (F.files store.new)) }
    ensures cause { HasCause WriteFault (F.write_faults store.old) (F.write_faults store.new) result }
    ensures reads { F.read_faults store.new ≡ F.read_faults store.old }
{
    let Ok((name, spelling)) = output.playlist(alloc, track) else {
        return Err(OutFault::Memory);
    };
    session.write(track, &spelling, store, &name)
}
