use crate::calls::{Call, tells};
use std::alloc::{AllocError, Global};

type Pieces = &'static [(&'static str, usize)];

/// Pieces, each as many times as is said.
fn joined(alloc: Global, pieces: Pieces) -> Result<Vec<u8>, AllocError> {
    let mut text = Vec::new(alloc);
    for (piece, times) in pieces {
        for _ in 0..*times {
            text.extend_from_slice(piece.as_bytes())?;
        }
    }
    Ok(text)
}

/// Texts above the greatest length of a program, and sizes and depths that no call shows.
const ROWS: &[(Call, Pieces, &str)] = &[
    (Call::Count, &[("1 ", 1), ("a", 1_048_575), ("", 0)], "2"),
    (
        Call::Count,
        &[("1 ", 1), ("a", 1_048_576), ("", 0)],
        "refused 2",
    ),
    (
        Call::Count,
        &[("(\"", 1), ("a", 1_048_574), ("\")", 1)],
        "1",
    ),
    (
        Call::Count,
        &[("(\"", 1), ("a", 1_048_575), ("\")", 1)],
        "refused 1",
    ),
    (Call::Count, &[("\"", 1), ("a", 1_048_575), ("\"", 1)], "1"),
    (
        Call::Count,
        &[("\"", 1), ("a", 1_048_576), ("\"", 1)],
        "refused 1",
    ),
    (
        Call::Made,
        &[("\"", 1), ("a", 1_048_574), ("\"", 1)],
        "1048576 1 1048576 1 1048576 1",
    ),
    (
        Call::Made,
        &[("\"", 1), ("a", 1_048_575), ("\"", 1)],
        "too big too big too big",
    ),
    (
        Call::Made,
        &[("(", 63), ("", 0), (")", 63)],
        "64 64 64 64 64 64",
    ),
    (
        Call::Made,
        &[("(", 64), ("", 0), (")", 64)],
        "too big too big too big",
    ),
];

/// The number of the first row of which something else is told, counted from 1, or 0.
fn wrong_row(alloc: Global) -> Result<usize, AllocError> {
    for (at, (call, pieces, want)) in ROWS.iter().enumerate() {
        if !tells(alloc, *call, &joined(alloc, pieces)?, want) {
            return Ok(at + 1);
        }
    }
    Ok(0)
}

#[test]
fn data_and_lists_have_limits(rt: HostRuntime) -> Result<(), AllocError> {
    assert_eq!(rt; wrong_row(rt.alloc())?, 0);
    Ok(())
}
