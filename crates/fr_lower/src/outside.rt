ghost use Rattle.std.specs.Prelude.{◌≡◌, ◌+◌, ◌<◌, IfOk, OnSome, slice_get};
ghost use Rattle.std.specs.Option.{option_map};
ghost use Rattle.fr_core.specs.Shapes.{outer};
ghost use Rattle.fr_lower.specs.Making.{outside, part_seen};

use fr_core::Core;
use std::alloc::AllocError;

/// A part of an expression, and how many variables the expression binds for it.
#[derive(Clone, Copy)]
pub(crate) struct Part<'a> {
    pub(crate) binds: usize,
    pub(crate) expr: &'a Core,
}

/// One of these parts, for which nothing is bound.
fn part_among(parts: &[Core], number: usize) -> Option<Part<'_>>
    ensures value { option_map part_seen result ≡ slice_get (outer parts.now) number }
    ensures within { OnSome result (number < usize.MAX) }
{
    if number < parts.len() {
        Some(Part {
            binds: 0,
            expr: &parts[number],
        })
    } else {
        None
    }
}

/// The part of a number, where the body of a handler or loop doesn't count; None where there is none.
pub(crate) fn part_outside(e: &Core, number: usize) -> Option<Part<'_>>
    ensures value { option_map part_seen result ≡ slice_get (outside e.now) number }
    ensures within { OnSome result (number < usize.MAX) }
{
    match e {
        Core::Lit(_) | Core::Var(_) | Core::Source(_) => None,
        Core::Apply(_, es)
        | Core::Operator(_, es)
        | Core::Handler(_, es, _)
        | Core::Loop(_, es, _) => part_among(es.as_slice(), number),
        Core::Let(es, body) => {
            let entries = es.as_slice();
            let binds = entries.len();
            if number == binds {
                Some(Part {
                    binds,
                    expr: body.get(),
                })
            } else {
                part_among(entries, number)
            }
        }
        Core::If(a, b, c) => match number {
            0 => Some(Part {
                binds: 0,
                expr: a.get(),
            }),
            1 => Some(Part {
                binds: 0,
                expr: b.get(),
            }),
            2 => Some(Part {
                binds: 0,
                expr: c.get(),
            }),
            _ => None,
        },
        Core::Feedback(a, b) => match number {
            0 => Some(Part {
                binds: 0,
                expr: a.get(),
            }),
            1 => Some(Part {
                binds: 1,
                expr: b.get(),
            }),
            _ => None,
        },
    }
}

/// The number of variables in scope where so many more are bound. It fails only where there are more than can be
/// counted, which no well-formed program has.
pub(crate) fn widened(variables: u32, binds: usize) -> Result<u32, AllocError>
    ensures { IfOk result (λ n. n ≡ variables + binds) }
{
    match u32::try_from(binds) {
        Ok(more) => match variables.checked_add(more) {
            Some(all) => Ok(all),
            None => Err(AllocError),
        },
        Err(_) => Err(AllocError),
    }
}
