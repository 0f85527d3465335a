//! What the command line can't show: reads and writes that fail, and when texts are written.

use super::frtime;
use fr_io::{MemShelf, MemSink};
use std::alloc::{AllocError, Global};
use std::test::Fail;

const PROGRAM: &str = "(define-event e)(show y (collect-b e 2 (lambda (v sum) (+ sum v))))";

const SCRIPT: &str = "5 e 3\n7 e 4";

const RUN: &[&str] = &["run", "p", "s"];

const AFRESH: &[&str] = &["afresh", "p", "s"];

const CHECK: &[&str] = &["check", "p"];

/// Words over the files `p` and `s`; the number of the read, of the write and of the line that fails, where no call has number 0;
/// and what is left on `out`, on `err` and as status.
const CASES: [(&[&str], [u64; 3], &str, &str, u8); 19] = [
    (RUN, [0, 0, 0], "0 y 2\n5 y 5\n7 y 9\n", "", 0),
    (AFRESH, [0, 0, 0], "0 y 2\n5 y 5\n7 y 9\n", "", 0),
    (CHECK, [0, 0, 0], "accepted\n", "", 0),
    // the program's first read, its last one, and the script's
    (RUN, [1, 0, 0], "", "read fault\n", 6),
    (RUN, [2, 0, 0], "", "read fault\n", 6),
    (RUN, [3, 0, 0], "0 y 2\n", "read fault\n", 6),
    (RUN, [4, 0, 0], "0 y 2\n", "read fault\n", 6),
    (AFRESH, [2, 0, 0], "", "read fault\n", 6),
    (AFRESH, [3, 0, 0], "0 y 2\n", "read fault\n", 6),
    (CHECK, [1, 0, 0], "", "read fault\n", 6),
    // each instant is written by itself, once it is whole
    (RUN, [0, 1, 0], "", "write fault\n", 7),
    (RUN, [0, 2, 0], "0 y 2\n", "write fault\n", 7),
    (RUN, [0, 3, 0], "0 y 2\n5 y 5\n", "write fault\n", 7),
    (AFRESH, [0, 3, 0], "0 y 2\n5 y 5\n", "write fault\n", 7),
    (CHECK, [0, 1, 0], "", "write fault\n", 7),
    // the line that tells why can't be written
    (RUN, [4, 0, 1], "0 y 2\n", "", 6),
    (&["run"], [0, 0, 1], "", "", 1),
    // a file isn't there
    (&["run", "p", "q"], [0, 0, 0], "0 y 2\n", "read fault\n", 6),
    (&["check", "q"], [0, 0, 0], "", "read fault\n", 6),
];

/// What a command left: `out`, `err` and its status.
#[derive(Drop)]
struct Left {
    out: MemSink,
    err: MemSink,
    status: u8,
}

/// Does what the words ask for. Of the reads, the writes and the lines, those of these numbers fail.
fn left_by(
    alloc: Global,
    words: &[&str],
    script: &[u8],
    fails: [u64; 3],
) -> Result<Left, AllocError> {
    let mut given = Vec::new(alloc);
    for word in words {
        given.push(String::from_str(alloc, word)?)?;
    }
    let mut files = Vec::new(alloc);
    for (name, bytes) in [("p", PROGRAM.as_bytes()), ("s", script)] {
        let name = String::from_str(alloc, name)?;
        files.push((name, Vec::from_slice(alloc, bytes)?))?;
    }
    let [reads, writes, lines] = fails;
    let mut shelf = MemShelf::new(alloc, files, Vec::from_slice(alloc, &[reads])?)?;
    let mut out = MemSink::new(alloc, 100, Vec::from_slice(alloc, &[writes])?)?;
    let mut err = MemSink::new(alloc, 100, Vec::from_slice(alloc, &[lines])?)?;
    let status = frtime(alloc, &given, &mut shelf, &mut out, &mut err);
    Ok(Left { out, err, status })
}

#[test]
fn a_fault_stops_a_command_and_takes_nothing_back(rt: HostRuntime) -> Result<(), Fail> {
    for (words, fails, out, err, status) in &CASES {
        let left = left_by(rt.alloc(), words, SCRIPT.as_bytes(), *fails)?;
        assert_eq!(rt; left.out.bytes(), out.as_bytes(), "{words:?} {fails:?}");
        assert_eq!(rt; left.err.bytes(), err.as_bytes(), "{words:?} {fails:?}");
        assert_eq!(rt; left.status, *status, "{words:?} {fails:?}");
    }
    Ok(())
}

#[test]
fn a_script_of_several_pieces_is_run(rt: HostRuntime) -> Result<(), Fail> {
    let mut script = Vec::from_elem(rt.alloc(), b'\n', 5000)?;
    script.extend_from_slice(SCRIPT.as_bytes())?;
    let left = left_by(rt.alloc(), RUN, &script, [0, 0, 0])?;
    assert_eq!(rt; left.out.bytes(), b"0 y 2\n5 y 5\n7 y 9\n".as_slice());
    assert_eq!(rt; left.status, 0);
    Ok(())
}
