//! The rounds of a loop.
ghost use Rattle.std.specs.Prelude.{◌≡◌, ◌<◌, ◌+◌, ◌∷◌, [], MatchOption, IfOk, length};
ghost use Rattle.fr_value.specs.Data.{datum_of};
ghost use Rattle.fr_meaning.specs.Words.{part, on_ok};
ghost use Rattle.fr_meaning.specs.Evaluation.{turns_in, rounds};
ghost use Rattle.fr_forms.specs.Lent.{bound};
ghost use Rattle.fr_forms.specs.Rounds.{ahead, number_of, rounds_left};

use crate::seen::Seen;
use fr_core::Loop;
use fr_value::{Bad, List, Now, Value};

/// The rounds of a loop that are left.
#[derive(Clone, Copy)]
pub enum Rounds<'a> {
    /// One over each item of a list from this index on; the first of them are at hand.
    Over(usize, &'a [Value], &'a List),
    /// Those from this number on, of so many.
    Times(usize, usize),
}

/// A round of a loop.
#[derive(Clone, Copy)]
pub struct Round<'a> {
    /// Its number, which counts from 0.
    pub number: usize,
    /// The item that it goes over, where it goes over one.
    pub item: Option<&'a Value>,
    /// The rounds behind it.
    pub behind: Rounds<'a>,
}

const MOST_TURNS: i64 = 1_048_576;

fn turns_of(count: i64) -> Result<usize, Bad>
    ensures { result ≡ turns_in count }
{
    if count < 0 || count > MOST_TURNS {
        return Err(Bad::Range);
    }
    Ok(count as usize)
}

fn rounds_over(looped: Loop, value: &Seen) -> Result<Rounds<'_>, Bad>
    ensures value { on_ok rounds_left result ≡ rounds looped value.now }
    ensures first { IfOk result (λ r. number_of r ≡ 0) }
{
    match value {
        Err(bad) => Err(*bad),
        Ok(now) => match (looped, now) {
            (Loop::Fold, Now::Plain(Value::List(list))) => Ok(Rounds::Over(0, &[], list)),
            (Loop::Repeat, Now::Plain(Value::Int(count))) => {
                Ok(Rounds::Times(0, turns_of(*count)?))
            }
            _ => Err(Bad::WrongType),
        },
    }
}

/// The rounds of a loop over the values of its parts, the first accumulator and the list or count, or why there are
/// none.
pub fn rounds_of(looped: Loop, parts: &[Seen]) -> Result<Rounds<'_>, Bad>
    ensures value { on_ok rounds_left result ≡ rounds looped (part parts.now 1) }
    ensures first { IfOk result (λ r. number_of r ≡ 0) }
{
    match parts.get(1) {
        Some(value) => rounds_over(looped, value),
        None => Err(Bad::Deep),
    }
}

/// The item at an index, where these are at hand, and those at hand behind it.
fn item_of<'a>(number: usize, at_hand: &'a [Value], list: &'a List) -> (&'a Value, &'a [Value])
    requires { number < length list.now }
    ensures { ahead list.now number at_hand.now ≡ datum_of result.0.now ∷ ahead list.now (number + 1) result.1.now }
{
    match at_hand.split_first() {
        Some((item, behind)) => (item, behind),
        None => list.run(number),
    }
}

impl<'a> Rounds<'a> {
    /// The next round; None where none is left.
    pub fn next(self) -> Option<Round<'a>>
        ensures { MatchOption result (rounds_left self.entry ≡ []) (λ r. (rounds_left self.entry ≡ bound r.item ∷ rounds_left r.behind) × (r.number ≡ number_of self.entry) × (number_of r.behind ≡ r.number + 1)) }
    {
        match self {
            Rounds::Over(number, at_hand, list) => {
                if number >= list.len() {
                    return None;
                }
                let (item, rest) = item_of(number, at_hand, list);
                Some(Round {
                    number,
                    item: Some(item),
                    behind: Rounds::Over(number + 1, rest, list),
                })
            }
            Rounds::Times(number, count) => {
                if number >= count {
                    return None;
                }
                Some(Round {
                    number,
                    item: None,
                    behind: Rounds::Times(number + 1, count),
                })
            }
        }
    }
}
