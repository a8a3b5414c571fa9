// Files that take their places one after another.
ghost use Rattle.std.specs.Prelude.{◌≡◌, ◌∷◌, [], OnOk, OnErr};
ghost use Rattle.bridge_io.specs.Fault.{HasCause};
ghost use Rattle.bridge_io.specs.Outside.{Changes};
ghost use Rattle.bridge_io.specs.declared.out_fault.OutFault.TheVariants.{WriteFault};
ghost use Rattle.publish_core.specs.Placed as spec;

use crate::decision::NewFile;
use bridge_ends::Shelf;
use bridge_io::{FileWriter, Name, OutFault};
use std::alloc::Global;

/// Writes files, each to the pending name first, which then takes its place.
pub(crate) fn write_files<F: Shelf>(
    alloc: Global,
    pending: &Name,
    files: &[NewFile],
    store: &mut F,
) -> Result<(), OutFault>
    ensures ok { OnOk result (Changes (spec.all_placed pending.now files.now) (F.files store.old) (F.files store.new)) }
    ensures err { OnErr result (spec.AreCut pending.now files.now (F.files store.old) (F.files store.new)) }
    ensures cause { HasCause WriteFault (F.write_faults store.old) (F.write_faults store.new) result }
    ensures reads { F.read_faults store.new ≡ F.read_faults store.old }
{
    for file in files {
        write_file(alloc, pending, file, store)?;
    }
    Ok(())
}

fn write_file<F: Shelf>(
    alloc: Global,
    pending: &Name,
    file: &NewFile,
    store: &mut F,
) -> Result<(), OutFault>
    ensures ok { OnOk result (Changes (spec.placed pending.now file.now) (F.files store.old) (F.files store.new)) }
    ensures err { OnErr result (spec.MayChange pending.now (F.files store.old) (F.files store.new)) }
    ensures cause { HasCause WriteFault (F.write_faults store.old) (F.write_faults store.new) result }
    ensures reads { F.read_faults store.new ≡ F.read_faults store.old }
{
    let mut writer = FileWriter::create(alloc, store, pending)?;
    writer.push(store, file.text.as_slice())?;
    writer.flush(store)?;
    store.put_in_place(pending, &file.name)?;
    Ok(())
}
