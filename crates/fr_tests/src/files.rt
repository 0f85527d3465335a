use fr_io::{
    DirShelf, Failed, FileStop, MemShelf, MemSink, Shelf, Sink, StdSink, SureShelf, SureSink,
    read_up_to, write_all,
};
use std::alloc::{AllocError, Global};
use std::test::Fail;
use std::{env, fs, process};

fn files_of(alloc: Global, texts: &[(&str, &str)]) -> Result<Vec<(String, Vec<u8>)>, AllocError> {
    let mut files = Vec::new(alloc);
    for (name, text) in texts {
        let name = String::from_str(alloc, name)?;
        files.push((name, Vec::from_slice(alloc, text.as_bytes())?))?;
    }
    Ok(files)
}

/// Reads of a name at a position with so much room, at most 8 bytes, and what comes of each; `!` is a fault.
type Reads = &'static [(&'static str, u64, usize, &'static str)];

fn is_read<S: Shelf>(shelf: &mut S, name: &str, position: u64, room: usize, want: &str) -> bool {
    let mut buf = [0u8; 8];
    let room = room.min(8);
    match shelf.read(name, position, &mut buf[..room]) {
        Ok(n) => buf.get(..n) == Some(want.as_bytes()),
        Err(Failed) => want == "!",
    }
}

fn reads<S: Shelf>(shelf: &mut S, rows: Reads) -> bool {
    for (name, position, room, want) in rows {
        if !is_read(shelf, name, *position, *room, want) {
            return false;
        }
    }
    true
}

/// Pieces, and how many bytes are taken of each; 9 is a fault.
type Writes = &'static [(&'static str, usize)];

fn writes<O: Sink>(sink: &mut O, rows: Writes) -> bool {
    for (piece, want) in rows {
        if sink.write(piece.as_bytes()).unwrap_or(9) != *want {
            return false;
        }
    }
    true
}

const TEXTS: [(&str, &str); 3] = [("a", "hello"), ("b", "xyz"), ("a", "second")];

const READS_THAT_FAIL: Reads = &[
    ("a", 0, 3, "hel"),
    ("a", 3, 3, "!"),
    ("a", 3, 3, "lo"),
    ("a", 5, 3, ""),
    ("b", 0, 8, "!"),
    ("b", 0, 8, "xyz"),
    ("c", 0, 8, "!"),
    ("a", 0, 0, ""),
    ("b", u64::MAX, 8, ""),
    ("b", 1, 1, "y"),
];

const SURE_READS: Reads = &[
    ("a", 1, 8, "ello"),
    ("b", 0, 8, "xyz"),
    ("c", 0, 8, ""),
    ("b", 3, 8, ""),
];

#[test]
fn shelves_in_memory_fail_the_listed_calls_or_none(rt: HostRuntime) -> Result<(), Fail> {
    let alloc = rt.alloc();
    let failing = Vec::from_slice(alloc, &[2, 5])?;
    let mut shelf = MemShelf::new(alloc, files_of(alloc, &TEXTS)?, failing)?;
    assert!(rt; reads(&mut shelf, READS_THAT_FAIL));
    let mut sure = SureShelf::new(alloc, files_of(alloc, &TEXTS)?)?;
    assert!(rt; reads(&mut sure, SURE_READS));
    Ok(())
}

const WRITES: Writes = &[
    ("abc", 3),
    ("de", 9),
    ("", 0),
    ("defg", 2),
    ("x", 9),
    ("", 0),
];

/// Whether two pieces leave these bytes in a sink of so much room of which one call fails, and whether both are written.
fn leaves(
    alloc: Global,
    room: usize,
    failing: u64,
    is_written: bool,
    bytes: &str,
) -> Result<bool, AllocError> {
    let mut sink = MemSink::new(alloc, room, Vec::from_slice(alloc, &[failing])?)?;
    let written = write_all(&mut sink, b"abc").is_ok() && write_all(&mut sink, b"def").is_ok();
    Ok(written == is_written && sink.bytes() == bytes.as_bytes())
}

#[test]
fn sinks_in_memory_take_what_they_have_room_for(rt: HostRuntime) -> Result<(), Fail> {
    let alloc = rt.alloc();
    let mut sink = MemSink::new(alloc, 5, Vec::from_slice(alloc, &[2])?)?;
    assert!(rt; writes(&mut sink, WRITES));
    assert!(rt; sink.bytes() == b"abcde".as_slice());
    for (room, failing, is_written, bytes) in [
        (8, 9, true, "abcdef"),
        (4, 9, false, "abcd"),
        (8, 2, false, "abc"),
        (8, 1, false, ""),
    ] {
        assert!(rt; leaves(alloc, room, failing, is_written, bytes)?);
    }
    assert!(rt; write_all(&mut SureSink::new(), b"abc").is_ok());
    Ok(())
}

/// The number of bytes that are read of a file of 5,000 bytes up to a limit, where one call fails; 0 where that call is made.
fn read_of(alloc: Global, limit: usize, failing: u64) -> Result<usize, AllocError> {
    let mut files = Vec::new(alloc);
    files.push((
        String::from_str(alloc, "long")?,
        Vec::from_elem(alloc, 7u8, 5000)?,
    ))?;
    let mut shelf = MemShelf::new(alloc, files, Vec::from_slice(alloc, &[failing])?)?;
    match read_up_to(alloc, &mut shelf, "long", limit) {
        Ok(bytes) => Ok(bytes.len()),
        Err(FileStop::Failed) => Ok(0),
        Err(FileStop::Memory(e)) => Err(e),
    }
}

#[test]
fn a_file_is_read_up_to_one_byte_past_the_limit(rt: HostRuntime) -> Result<(), Fail> {
    for (limit, failing, want) in [
        (usize::MAX, 9, 5000),
        (5000, 9, 5000),
        (4999, 9, 5000),
        (4096, 9, 4097),
        (5000, 2, 0),
    ] {
        assert_eq!(rt; read_of(rt.alloc(), limit, failing)?, want);
    }
    Ok(())
}

#[test]
fn a_file_of_the_system_is_read_from_a_position(rt: HostRuntime) -> Result<(), Fail> {
    let mut path = env::temp_dir(&rt)?;
    path.push(format!(in rt.alloc(); "frtime-{}", process::id(rt.process()))?.as_str())?;
    let name = path.to_string_lossy();
    let mut shelf = DirShelf::new(&rt);
    assert!(rt; is_read(&mut shelf, name, 0, 3, "!"));
    fs::write(&rt, name, "hello")?;
    for (position, want) in [(0, "hel"), (3, "lo"), (5, ""), (9, "")] {
        assert!(rt; is_read(&mut shelf, name, position, 3, want));
    }
    fs::remove_file(&rt, name)?;
    Ok(())
}

const NO_WRITE: Writes = &[("", 0)];

const REAL_WRITES: Writes = &[("abc", 3), ("def", 1), ("ef", 9), ("", 0)];

#[test]
fn a_write_of_the_system_that_takes_nothing_is_a_fault(rt: HostRuntime) {
    let mut room = [0u8; 4];
    assert!(rt; writes(&mut StdSink::over(&mut room[..]), REAL_WRITES));
    assert!(rt; writes(&mut StdSink::output(rt.stdout()), NO_WRITE));
    assert!(rt; writes(&mut StdSink::errors(rt.stderr()), NO_WRITE));
}
