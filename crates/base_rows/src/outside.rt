// What no clause says: that calls succeed, and what the operating system does.
use bridge_ends::*;
use bridge_io::*;
use std::alloc::Global;
use std::env;
use std::test::Fail as TestFail;

fn bytes(alloc: Global, text: &[u8]) -> Result<Bytes, NoMemory> {
    let mut bytes = Bytes::new(alloc);
    bytes.extend(text)?;
    Ok(bytes)
}

#[test]
fn source_in_memory(rt: HostRuntime) -> Result<(), TestFail> {
    let alloc = rt.alloc();
    let mut listed = CallList::new(alloc);
    listed.push(1)?;
    let mut source = MemSource::new(bytes(alloc, b"abc")?, listed);
    let mut buf = [0; 2];
    for answer in [Ok(2), Err(Fail::Failed), Ok(1), Ok(0)] {
        assert_eq!(rt; source.read(&mut buf), answer);
    }
    Ok(())
}

#[test]
fn standard_input(rt: HostRuntime) {
    let mut source = StdSource::new(b"abc".as_slice());
    let mut buf = [0; 2];
    for answer in [Ok(2), Ok(1), Ok(0)] {
        assert_eq!(rt; source.read(&mut buf), answer);
    }
}

#[test]
fn standard_output(rt: HostRuntime) {
    let mut sink = StdSink::new(std::io::writer(&rt));
    assert_eq!(rt; sink.write(b"a line of a report\n"), Ok(()));
}

fn write_and_read<F: Store>(store: &mut F, name: &Name, buf: &mut [u8; 4]) -> Result<usize, Fail> {
    store.append(name, b"old")?;
    store.create(name)?;
    store.append(name, b"abc")?;
    store.append(name, b"def")?;
    store.read_at(name, 2, buf)
}

#[test]
fn folder(rt: HostRuntime) -> Result<(), TestFail> {
    let alloc = rt.alloc();
    let temp = env::temp_dir(&rt)?;
    let folder = format!(in alloc; "{}/bridge-io-test", temp.as_path().as_str())?;
    let mut store = FolderStore::new(rt, alloc, folder.as_str())?;
    let mut buf = [0; 4];
    let count = write_and_read(&mut store, &Name::read(alloc, "deep/er/new")?, &mut buf)?;
    assert_eq!(rt; count, 4);
    assert_eq!(rt; buf.as_slice(), b"cdef".as_slice());
    for (file, found) in [
        ("deep/er/new", true),
        ("deep/er/new/below", false),
        ("deep", false),
        ("old", false),
    ] {
        let name = Name::read(alloc, file)?;
        assert_eq!(rt; store.has(&name), Ok(found), "{file}");
        let bytes = if found { 4 } else { 0 };
        assert_eq!(rt; store.read_at(&name, 0, &mut buf), Ok(bytes), "{file}");
    }
    Ok(())
}
