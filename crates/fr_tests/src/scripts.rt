ghost use Rattle.std.specs.Prelude.{◌≡◌, false};
ghost use Rattle.fr_script.specs.Stands.{is_told};

use crate::calls::{Call, Row, wrong};
use crate::told::Told;
use fr_core::{Program, Sets};
use fr_script::{LineKind, ScriptReader, Turn};
use fr_value::{SrcId, Value};
use std::alloc::{AllocError, Global};

fn kind_word(kind: LineKind) -> &'static str {
    match kind {
        LineKind::Grammar => "grammar",
        LineKind::Name => "name",
        LineKind::Twice => "twice",
        LineKind::Time => "time",
        LineKind::Value => "value",
        LineKind::Long => "long",
        LineKind::Many => "many",
    }
}

fn tell_source(out: &mut Told, sets: &Sets, source: SrcId) {
    out.number(u64::from(source.0));
    match sets.value_of(source) {
        Some(value) => out.value(value),
        None => out.word("none"),
    }
}

/// Each entry as its source's number and its value.
fn tell_sets(out: &mut Told, sets: &Sets) {
    for at in 0..sets.len() {
        if let Some(source) = sets.source_at(at) {
            tell_source(out, sets, source);
        }
    }
}

fn tell_turn(out: &mut Told, turn: &Turn) {
    match turn {
        Turn::Instant(inputs) => {
            out.word("at");
            out.number(inputs.time);
            tell_sets(out, &inputs.sets);
        }
        Turn::More => out.word("more"),
        Turn::End => out.word("end"),
        Turn::Refused { line, kind } => {
            out.word(kind_word(*kind));
            out.number(*line);
        }
    }
}

fn tell_taken(out: &mut Told, taken: Result<Turn, AllocError>) {
    match &taken {
        Ok(turn) => tell_turn(out, turn),
        Err(_) => out.lacks(),
    }
}

/// Feeds a piece, and takes two turns.
fn tell_piece(out: &mut Told, reader: &mut ScriptReader, piece: &str)
    requires { is_told reader.old ≡ false }
    ensures { is_told reader.new ≡ false }
{
    if reader.feed(piece.as_bytes()).is_err() {
        out.lacks();
    }
    tell_taken(out, reader.next());
    tell_taken(out, reader.next());
}

/// Tells the end, and takes three turns.
fn tell_end(out: &mut Told, reader: &mut ScriptReader) {
    reader.end();
    tell_taken(out, reader.next());
    tell_taken(out, reader.next());
    tell_taken(out, reader.next());
}

fn tell_fed(out: &mut Told, mut reader: ScriptReader, pieces: [&str; 3])
    requires { is_told reader ≡ false }
{
    let [first, second, third] = pieces;
    tell_piece(out, &mut reader, first);
    tell_piece(out, &mut reader, second);
    tell_piece(out, &mut reader, third);
    tell_end(out, &mut reader);
    tell_end(out, &mut reader);
}

/// The turns of a reader that is fed three pieces and told the end twice, and asked on and on.
pub(crate) fn tell_turns(alloc: Global, out: &mut Told, program: &Program, pieces: [&str; 3]) {
    match ScriptReader::new(alloc, program) {
        Ok(reader) => tell_fed(out, reader, pieces),
        Err(_) => out.lacks(),
    }
}

fn put_each(alloc: Global, sources: &[u32]) -> Result<Sets, AllocError> {
    let mut sets = Sets::new(alloc);
    for number in sources {
        let source = SrcId(*number);
        if sets.value_of(source).is_none() {
            sets.put(source, Value::Int(i64::from(*number) * 10))?;
        }
    }
    Ok(sets)
}

/// What stands where for each of these sources ten times its number is put.
pub(crate) fn tell_puts(alloc: Global, out: &mut Told, sources: &[u32]) {
    match put_each(alloc, sources) {
        Ok(sets) => tell_sets(out, &sets),
        Err(_) => out.lacks(),
    }
}

const PROGRAM: &str = "(define-input x 0)(define-input y 0)(define-event e)";

const TURNS: &[Row] = &[
    (
        Call::Turns("1 x 1\n2", "", " x 2"),
        PROGRAM,
        "more more more more more more at 1 1 1 at 2 1 2 end end end end",
    ),
    (
        Call::Turns("1 x 1\n2 x", " 2\n2 x 3\n", "4 x 3\n"),
        PROGRAM,
        "more more at 1 1 1 twice 3 twice 3 twice 3 twice 3 twice 3 twice 3 twice 3 twice 3 twice 3",
    ),
    (
        Call::Turns("1 e 5\n1 y 2\n", "1 x (1 [2])\n", "4 y \"a\"\n5 e 1"),
        PROGRAM,
        "more more more more at 1 1 (1 (2)) 2 2 3 5 more at 4 2 \"a\" at 5 3 1 end end end end",
    ),
    (Call::Puts(&[]), "", ""),
    (Call::Puts(&[7]), "", "7 70"),
    (Call::Puts(&[1, 4, 6]), "", "1 10 4 40 6 60"),
    (Call::Puts(&[6, 4, 1]), "", "1 10 4 40 6 60"),
    (Call::Puts(&[4, 6, 1]), "", "1 10 4 40 6 60"),
    (Call::Puts(&[4, 1, 6]), "", "1 10 4 40 6 60"),
];

#[test]
fn a_reader_gives_the_turns_of_its_pieces(rt: HostRuntime) {
    assert_eq!(rt; wrong(rt.alloc(), TURNS), 0);
}
