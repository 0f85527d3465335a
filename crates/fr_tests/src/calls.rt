//! Rows of tables: a call, the text that it is made on, and what is told of the answer.
use crate::told::Told;
use crate::{data, kernels, lowering, names, programs, purity, scripts};
use std::alloc::Global;

/// What is called on the text of a row.
#[derive(Clone, Copy)]
pub(crate) enum Call {
    /// `read_all`: the data.
    Data,
    /// `read_all`: the number of data.
    Count,
    /// `read_one`: the datum.
    Datum,
    /// `symbol`: the text of a symbol.
    Symbol,
    /// Size and depth of a datum and of one more owner; of a list also what it is taken apart into.
    Measures,
    /// Size and depth of a list of a datum, made in three ways.
    Made,
    /// `same` of each two items of a list that is read twice.
    Same,
    /// `apply` on a primitive's name and its arguments, in a list.
    Applied,
    /// `outline_of` a datum.
    Outline,
    /// `Globals::meaning` of a name where forms stand, behind steps of a scope.
    Meaning(&'static str, &'static str),
    /// `core_text` of a program.
    Core,
    /// `core_text` of a shown expression behind some names.
    Shown,
    /// `plain` and `lower` of a program.
    Lowered,
    /// `classify` a program.
    Classes,
    /// `is_pure` and `is_fit` of a shown expression behind some names.
    Fitness,
    /// The kernel of a shown expression behind some names, at a nest with so much fuel.
    Kernel(u32, u64),
    /// The same of a loop over the kernel of its body.
    Looped(u32, u64),
    /// The first error of a program over a script.
    Error(&'static str),
    /// The turns of a reader for a program that is fed three pieces.
    Turns(&'static str, &'static str, &'static str),
    /// What stands in `Sets` where values are put for these sources.
    Puts(&'static [u32]),
}

/// A call, the text that it is made on, and what is told of the answer.
pub(crate) type Row = (Call, &'static str, &'static str);

fn tell(alloc: Global, out: &mut Told, call: Call, text: &[u8]) {
    match call {
        Call::Data | Call::Count => data::tell_all(alloc, out, call, text),
        Call::Symbol => data::tell_symbol(out, text),
        Call::Same => data::tell_same(alloc, out, text),
        Call::Puts(sources) => scripts::tell_puts(alloc, out, sources),
        Call::Lowered => lowering::tell_lowered(alloc, out, text),
        Call::Meaning(steps, name) => names::tell_meaning(alloc, out, text, steps, name),
        Call::Datum | Call::Measures | Call::Made | Call::Applied | Call::Outline => {
            data::tell_one(alloc, out, call, text);
        }
        Call::Shown => programs::tell_behind(alloc, out, call, programs::NAMES, text),
        Call::Fitness => programs::tell_behind(alloc, out, call, purity::NAMES, text),
        Call::Kernel(_, _) | Call::Looped(_, _) => {
            programs::tell_behind(alloc, out, call, kernels::NAMES, text);
        }
        Call::Core | Call::Classes | Call::Error(_) | Call::Turns(_, _, _) => {
            programs::tell_text(alloc, out, call, text);
        }
    }
}

/// Whether a call on a text tells this.
pub(crate) fn tells(alloc: Global, call: Call, text: &[u8], want: &str) -> bool {
    let mut out = Told::new(alloc);
    tell(alloc, &mut out, call, text);
    out.is(want)
}

/// The number of the first row of which something else is told, counted from 1, or 0.
pub(crate) fn wrong(alloc: Global, rows: &'static [Row]) -> usize {
    for (at, (call, text, want)) in rows.iter().enumerate() {
        if !tells(alloc, *call, text.as_bytes(), want) {
            return at + 1;
        }
    }
    0
}

/// Lines, each a text that a call is made on, and behind ` => ` what is told of the answer.
pub(crate) type Lines = &'static [&'static str];

/// Whether a call on the text of a line tells what the line says.
pub(crate) fn is_told(alloc: Global, call: Call, line: &str) -> bool {
    match line.split_once(" => ") {
        Some((text, want)) => tells(alloc, call, text.as_bytes(), want),
        None => false,
    }
}

/// The first line of which something else is told, if there is one.
pub(crate) fn wrong_line(alloc: Global, call: Call, lines: Lines) -> Option<&'static str> {
    for line in lines {
        if !is_told(alloc, call, line) {
            return Some(*line);
        }
    }
    None
}

/// The tables of lines, each with its call.
const TABLES: &[(Call, Lines)] = &[
    (Call::Data, data::TEXTS),
    (Call::Datum, data::SINGLE),
    (Call::Symbol, data::SYMBOLS),
    (Call::Measures, data::VALUES),
    (Call::Same, data::SAME),
    (Call::Applied, data::APPLICATIONS),
    (Call::Outline, names::OUTLINES),
    (Call::Core, programs::FORMS),
    (Call::Shown, programs::EXPRESSIONS),
    (Call::Classes, purity::CLASSES),
    (Call::Fitness, purity::FITNESS),
    (Call::Lowered, lowering::LOWERED),
];

#[test]
fn each_line_is_told(rt: HostRuntime) {
    for (call, lines) in TABLES {
        assert_eq!(rt; wrong_line(rt.alloc(), *call, lines), None);
    }
}
