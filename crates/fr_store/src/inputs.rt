ghost use Rattle.std.specs.Prelude.{◌≡◌, [], ◌∷◌, length, IfOk, IfSome, slice_get};
ghost use Rattle.std.specs.Option.{option_map};
ghost use Rattle.fr_store.specs.Nodes.{number_of, signal_at};
ghost use Rattle.fr_store.specs.Rows.{held_of, signals};

use arrayvec::ArrayVec;
use fr_value::{Held, NodeId, Value};
use std::alloc::{AllocError, Global};
use std::marker::Model;

/// What a node is computed of, in order. Contracts see the list. It is kept in little memory where all of up to four are signals.
#[derive(Drop)]
pub struct Inputs {
    row: Row,
}

/// The inputs by what is among them.
#[derive(Drop)]
enum Row {
    /// Few signals alone, by the numbers of their nodes.
    Few(ArrayVec<u32, 4>),
    /// Signals alone, by the numbers of their nodes.
    Many(Vec<u32>),
    /// The only input, a steady value.
    Steady(Value),
    Mixed(Vec<Held>),
}

/// An input as it is read.
#[derive(Clone, Copy)]
pub enum Input<'a> {
    /// A value that never changes.
    Steady(&'a Value),
    /// The value of this node.
    Signal(NodeId),
}

impl Model for Inputs {
    ghost use Rattle.std.specs.Prelude.{List};
    ghost use Rattle.std.specs.Coded.{coded_list};
    ghost use Rattle.fr_value.specs.declared.now.Held.{Held};
    ghost use Rattle.fr_value.specs.contracts.now.Held as held;

    ghost Value = { List Held };

    ghost coded = { coded_list held.the_row.coded };

    ghost use Rattle.fr_store.specs.Rows.{held_in};

    ghost view = { λ it. held_in it.row };
}

impl Inputs {
    /// No inputs. It takes no memory.
    pub(crate) fn none() -> Inputs
        ensures { result ≡ [] }
    {
        Inputs {
            row: Row::Few(ArrayVec::new()),
        }
    }

    /// One input. It takes no memory.
    pub(crate) fn one(input: Held) -> Inputs
        ensures { result ≡ input ∷ [] }
    {
        match input {
            Held::Steady(value) => Inputs {
                row: Row::Steady(value),
            },
            Held::Signal(id) => {
                let mut ids = ArrayVec::new();
                ids.push(id.0);
                Inputs { row: Row::Few(ids) }
            }
        }
    }

    /// These inputs, with one more owner of each value.
    pub(crate) fn of(alloc: Global, inputs: &[Held]) -> Result<Inputs, AllocError>
        ensures { IfOk result (λ it. it ≡ inputs.now) }
    {
        if let Some(ids) = few_of(inputs) {
            return Ok(Inputs { row: Row::Few(ids) });
        }
        if let Some(ids) = many_of(alloc, inputs)? {
            return Ok(Inputs {
                row: Row::Many(ids),
            });
        }
        if let [Held::Steady(value)] = inputs {
            return Ok(Inputs {
                row: Row::Steady(value.share()?),
            });
        }
        let row = Row::Mixed(shared(alloc, inputs)?);
        Ok(Inputs { row })
    }

    /// How many there are.
    pub fn len(&self) -> usize
        ensures { result ≡ length self.now }
    {
        match &self.row {
            Row::Few(ids) => ids.len(),
            Row::Many(ids) => ids.len(),
            Row::Steady(_) => 1,
            Row::Mixed(inputs) => inputs.len(),
        }
    }

    /// The input at a place, or None exactly where there are no more than so many.
    pub fn get(&self, place: usize) -> Option<Input<'_>>
        ensures { option_map held_of result ≡ slice_get self.now place }
    {
        match &self.row {
            Row::Few(ids) => Some(Input::Signal(NodeId(*ids.as_slice().get(place)?))),
            Row::Many(ids) => Some(Input::Signal(NodeId(*ids.get(place)?))),
            Row::Steady(value) => {
                if place == 0 {
                    Some(Input::Steady(value))
                } else {
                    None
                }
            }
            Row::Mixed(inputs) => Some(read(inputs.get(place)?)),
        }
    }

    /// The node whose value is the input at a place, or None where there is none or the input is steady.
    pub fn signal(&self, place: usize) -> Option<NodeId>
        ensures { number_of result ≡ signal_at self.now place }
    {
        match self.get(place) {
            Some(Input::Signal(id)) => Some(id),
            _ => None,
        }
    }
}

fn read(input: &Held) -> Input<'_>
    ensures { held_of result ≡ input.now }
{
    match input {
        Held::Steady(value) => Input::Steady(value),
        Held::Signal(id) => Input::Signal(*id),
    }
}

/// The nodes' numbers where all inputs are signals, of which there are up to four, and else None.
fn few_of(inputs: &[Held]) -> Option<ArrayVec<u32, 4>>
    ensures { IfSome result (λ ids. signals ids.items ≡ inputs.now) }
{
    let mut ids = ArrayVec::new();
    for input in inputs {
        match input {
            Held::Signal(id) => ids.try_push(id.0).ok()?,
            Held::Steady(_) => return None,
        }
    }
    Some(ids)
}

/// The nodes' numbers where all inputs are signals, and else None.
fn many_of(alloc: Global, inputs: &[Held]) -> Result<Option<Vec<u32>>, AllocError>
    ensures { IfOk result (λ found. IfSome found (λ ids. signals ids.items ≡ inputs.now)) }
{
    let mut ids = Vec::new(alloc);
    for input in inputs {
        match input {
            Held::Signal(id) => ids.push(id.0)?,
            Held::Steady(_) => return Ok(None),
        }
    }
    Ok(Some(ids))
}

fn shared(alloc: Global, inputs: &[Held]) -> Result<Vec<Held>, AllocError>
    ensures { IfOk result (λ row. row.items ≡ inputs.now) }
{
    let mut row = Vec::with_capacity(alloc, inputs.len())?;
    for input in inputs {
        let input = share(input)?;
        row.push(input)?;
    }
    Ok(row)
}

fn share(input: &Held) -> Result<Held, AllocError>
    ensures { IfOk result (λ held. held ≡ input.now) }
{
    match input {
        Held::Steady(value) => Ok(Held::Steady(value.share()?)),
        Held::Signal(id) => Ok(Held::Signal(*id)),
    }
}
