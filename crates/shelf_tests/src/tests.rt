use shelf_io::{Failed, MemShelf, MemSink, RealShelf, RealSink, Shelf, Sink, TakeFault, take_file};
use std::io::Write;
use std::os::fd::AsRawFd;
use std::test::Fail;
use std::{fs, io, mem};

// The result of `take_file`, as a word.
fn word(answer: &Result<Vec<u8>, TakeFault>) -> &'static str {
    match answer {
        Ok(_) => "whole",
        Err(TakeFault::Fault) => "fault",
        Err(TakeFault::TooLong) => "too long",
        Err(TakeFault::Memory) => "memory",
    }
}

#[test]
fn takes_whole_files(rt: HostRuntime) -> Result<(), Fail> {
    let mut shelf = MemShelf::empty(rt.alloc(), 0, 0)?;
    shelf.put_file("five", b"a,b\nc")?;
    shelf.put_file("none", b"")?;
    for (name, limit, want) in [
        ("five", 5, "whole"),
        ("five", u64::MAX, "whole"),
        ("five", 4, "too long"),
        ("none", 0, "whole"),
        ("five", 0, "too long"),
        ("lost", 5, "fault"),
    ] {
        let answer = take_file(rt.alloc(), &mut shelf, name, limit);
        assert_eq!(rt; word(&answer), want, "{name} within {limit}");
    }
    let bytes = take_file(rt.alloc(), &mut shelf, "five", 5)?;
    assert_eq!(rt; bytes.as_slice(), b"a,b\nc".as_slice());
    assert_eq!(rt; shelf.read_faults("lost"), 1);
    assert_eq!(rt; shelf.read_faults("five"), 0);
    // 5 whole, 5 whole, 5 past a limit of 4, 1 past a limit of 0, 5 whole
    assert_eq!(rt; shelf.handed("five"), 21);
    assert_eq!(rt; shelf.handed("lost"), 0);
    Ok(())
}

#[test]
fn takes_pieces(rt: HostRuntime) -> Result<(), Fail> {
    let mut sink = MemSink::empty(rt.alloc(), 9)?;
    sink.fail_at(2)?;
    for (piece, done, faults, want) in [
        ("abc", true, 0, "abc"),
        ("defgh", false, 1, "abcde"),
        ("", true, 1, "abcde"),
        ("fghi", true, 1, "abcdefghi"),
        ("j", false, 2, "abcdefghi"),
    ] {
        assert_eq!(rt; sink.put(piece.as_bytes()).is_ok(), done, "{piece}");
        assert_eq!(rt; sink.faults(), faults, "{piece}");
        assert_eq!(rt; sink.taken(), want.as_bytes(), "{piece}");
    }
    Ok(())
}

// The counts of failed reads and of failed writes of the name.
fn faults(shelf: &impl Shelf, name: &str) -> (u64, u64) {
    (shelf.read_faults(name), shelf.write_faults(name))
}

// The bytes under the name.
fn bytes_of<'a>(shelf: &'a MemShelf, name: &str) -> &'a [u8] {
    shelf.file(name).unwrap_or(b"not held")
}

#[test]
fn writes_in_memory(rt: HostRuntime) -> Result<(), Fail> {
    let mut buffer = [0; 4];
    let mut shelf = MemShelf::empty(rt.alloc(), 9, 1)?;
    shelf.fail_at(4)?;
    assert_eq!(rt; shelf.create("a"), Ok(()));
    for (piece, done, want) in [
        ("abc", true, "abc"),
        ("", true, "abc"),
        ("defgh", false, "abcde"),
        ("fghij", false, "abcdefghi"),
    ] {
        assert!(rt; shelf.file("a").is_some());
        assert_eq!(rt;
            shelf.append("a", piece.as_bytes()).is_ok(),
            done,
            "{piece}"
        );
        assert_eq!(rt; bytes_of(&shelf, "a"), want.as_bytes(), "{piece}");
    }
    assert_eq!(rt; faults(&shelf, "a"), (0, 2));
    assert_eq!(rt; shelf.create("b"), Err(Failed));
    let lost = shelf.read_at("c", 0, &mut buffer);
    assert_eq!(rt; lost, Err(Failed));
    shelf.put_file("b", b"four")?;
    assert_eq!(rt; faults(&shelf, "b"), (1, 1));
    assert_eq!(rt; shelf.create("a"), Ok(()));
    assert_eq!(rt; bytes_of(&shelf, "a"), b"".as_slice());
    shelf.read_most(3);
    let short = shelf.read_at("b", 0, &mut buffer);
    assert_eq!(rt; short, Ok(3));
    assert_eq!(rt; faults(&shelf, "a"), (0, 2));
    Ok(())
}

#[test]
fn reaches_the_system(rt: HostRuntime) -> Result<(), Fail> {
    fs::write(&rt, "test-old.tmp", "nm,p50\n")?;
    let mut shelf = RealShelf::new(rt.clone()?);
    let bytes = take_file(rt.alloc(), &mut shelf, "test-old.tmp", 7)?;
    assert_eq!(rt; bytes.as_slice(), b"nm,p50\n".as_slice());
    let long = take_file(rt.alloc(), &mut shelf, "test-old.tmp", 6);
    assert_eq!(rt; word(&long), "too long");
    let lost = take_file(rt.alloc(), &mut shelf, "test-lost.tmp", 6);
    assert_eq!(rt; word(&lost), "fault");
    assert_eq!(rt; shelf.create("test-new.tmp"), Ok(()));
    assert_eq!(rt; shelf.append("test-new.tmp", b"ab"), Ok(()));
    assert_eq!(rt; shelf.append("test-old.tmp", b"400"), Ok(()));
    assert_eq!(rt; shelf.append("test-new.tmp", b"cd"), Ok(()));
    assert_eq!(rt; shelf.append("test-none/new.tmp", b"cd"), Err(Failed));
    assert_eq!(rt; faults(&shelf, "test-old.tmp"), (1, 1));
    assert_eq!(rt; fs::read_to_string(&rt, "test-new.tmp")?.as_str(), "abcd");
    assert_eq!(rt;
        fs::read_to_string(&rt, "test-old.tmp")?.as_str(),
        "nm,p50\n400"
    );
    Ok(())
}

#[test]
fn writes_through(rt: HostRuntime) -> Result<(), Fail> {
    let mut bytes = Vec::new(rt.alloc());
    {
        let mut sink = RealSink::new(&mut bytes);
        assert_eq!(rt; sink.put(b"abc"), Ok(()));
        assert_eq!(rt; sink.put(b""), Ok(()));
        assert_eq!(rt; sink.put(b"d"), Ok(()));
        assert_eq!(rt; sink.faults(), 0);
    }
    assert_eq!(rt; bytes.as_slice(), b"abcd".as_slice());
    Ok(())
}

#[test]
fn reads_a_replaced_file_whole(rt: HostRuntime) -> Result<(), Fail> {
    fs::write(&rt, "test-replaced.tmp", "oldold")?;
    fs::write(&rt, "test-other.tmp", "newnew!")?;
    let mut buffer = [0; 3];
    let mut shelf = RealShelf::new(rt.clone()?);
    let name = "test-replaced.tmp";
    assert_eq!(rt; shelf.read_at(name, 0, &mut buffer), Ok(3));
    fs::rename(&rt, "test-other.tmp", name)?;
    assert_eq!(rt; shelf.read_at(name, 3, &mut buffer), Ok(3));
    assert_eq!(rt; buffer.as_slice(), b"old".as_slice());
    assert_eq!(rt; shelf.read_at(name, 6, &mut buffer), Ok(0));
    let bytes = take_file(rt.alloc(), &mut shelf, name, 7)?;
    assert_eq!(rt; bytes.as_slice(), b"newnew!".as_slice());
    // an offset other than that of the open file
    assert_eq!(rt; shelf.read_at(name, 4, &mut buffer), Ok(3));
    assert_eq!(rt; buffer.as_slice(), b"ew!".as_slice());
    Ok(())
}

#[test]
fn reads_a_pipe(rt: HostRuntime) -> Result<(), Fail> {
    let sent = vec![in rt.alloc(); b'x'; 10_000]?;
    let (reader, mut writer) = io::pipe(&rt)?;
    writer.write_all(sent.as_slice())?;
    mem::drop(writer);
    let fd = reader.as_raw_fd();
    let name = format!(in rt.alloc(); "/proc/self/fd/{fd}")?;
    let mut shelf = RealShelf::new(rt.clone()?);
    let came = take_file(rt.alloc(), &mut shelf, name.as_str(), 10_000)?;
    assert_eq!(rt; came.as_slice(), sent.as_slice());
    Ok(())
}
