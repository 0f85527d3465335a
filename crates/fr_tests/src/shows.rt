use crate::told::Told;
use fr_core::Program;
use fr_reader::read_all;
use fr_show::{Shows, accept, all_numbers};
use fr_value::{Now, Value};
use std::alloc::{AllocError, Global};

/// The occurrence of the only item of a list, none for a list without items, and else the plain value.
fn state(value: &Value) -> Result<Now, AllocError> {
    match value {
        Value::List(list) if list.len() < 2 => match list.get(0) {
            Some(payload) => Ok(Now::Occ(Some(payload.share()?))),
            None => Ok(Now::Occ(None)),
        },
        _ => Ok(Now::Plain(value.share()?)),
    }
}

fn states(alloc: Global, data: &[Value]) -> Result<Vec<Now>, AllocError> {
    let mut states = Vec::new(alloc);
    for datum in data {
        states.push(state(datum)?)?;
    }
    Ok(states)
}

fn tell_text(out: &mut Told, text: Result<Vec<u8>, AllocError>) {
    match &text {
        Ok(text) => out.bytes(text),
        Err(_) => out.lacks(),
    }
}

fn tell_states(alloc: Global, out: &mut Told, shows: &mut Shows, time: u64, states: &[Now]) {
    if states.len() != shows.len() {
        return;
    }
    match all_numbers(alloc, states.len()) {
        Ok(numbers) => tell_text(out, shows.text(time, states, &numbers)),
        Err(_) => out.lacks(),
    }
}

fn tell_data(alloc: Global, out: &mut Told, shows: &mut Shows, time: u64, data: &[Value]) {
    match states(alloc, data) {
        Ok(states) => tell_states(alloc, out, shows, time, &states),
        Err(_) => out.lacks(),
    }
}

fn tell_instant(alloc: Global, out: &mut Told, shows: &mut Shows, time: u64, text: &'static str) {
    if text.len() > 1_000 {
        return;
    }
    match read_all(alloc, text.as_bytes()) {
        Ok(data) => tell_data(alloc, out, shows, time, &data),
        Err(_) => out.lacks(),
    }
}

/// Times, and the values of the shows: an event's state is a list of its payload.
const INSTANTS: [(u64, &str); 5] = [
    (0, "-4 () (#t 7)"),
    (2, "-4 (5) (#t 7)"),
    (3, "-4 (5) (#t 7)"),
    (8, "6 (6) (#t 8)"),
    (9, "-4 () (#t 8)"),
];

const PROGRAM: &str = "(define d 1)(show v 0)(show e 0)(show l 0)";

/// The texts of the instants, and behind them the last text of each show.
const PRINTED: &str = "0 v -4\n0 l (#t 7)\n\
    2 e 5\n\
    3 e 5\n\
    8 v 6\n8 e 6\n8 l (#t 8)\n\
    9 v -4\n\
    -4,none,(#t 8),";

fn tell_last(out: &mut Told, shows: &Shows) {
    for at in 0..shows.len() {
        out.bytes(shows.last(at).unwrap_or(b"none"));
        out.end(",");
    }
}

fn tell_instants(alloc: Global, out: &mut Told, mut shows: Shows) {
    for (time, text) in INSTANTS {
        tell_instant(alloc, out, &mut shows, time, text);
    }
    tell_last(out, &shows);
}

fn tell_shows(alloc: Global, out: &mut Told, program: &Program) {
    match Shows::new(alloc, program) {
        Ok(shows) => tell_instants(alloc, out, shows),
        Err(_) => out.lacks(),
    }
}

fn prints(alloc: Global, text: &str, want: &str) -> bool {
    let mut out = Told::new(alloc);
    match accept(alloc, text.as_bytes()) {
        Ok(program) => tell_shows(alloc, &mut out, &program),
        Err(_) => out.lacks(),
    }
    out.is(want)
}

#[test]
fn shows_print_occurrences_and_texts_that_change(rt: HostRuntime) {
    assert!(rt; prints(rt.alloc(), PROGRAM, PRINTED));
}
