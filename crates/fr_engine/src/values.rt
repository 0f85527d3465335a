//! The values of a node's inputs.
ghost use Rattle.std.specs.Prelude.{◌≡◌, ◌<◌, ◌+◌, [], ◌∷◌, ◌++◌, Ok, IfOk, length, take};
ghost use Rattle.std.specs.Option.{option_map};
ghost use Rattle.fr_meaning.specs.Words.{test_of};
ghost use Rattle.fr_store.specs.Rows.{held_of};
ghost use Rattle.fr_graph.specs.Graph.{part_value, part_values};
ghost use Rattle.fr_nodes.specs.Kinds.{Sites, part_of, parts_of};
ghost use Rattle.fr_nodes.specs.Makes.{AreThere};
ghost use Rattle.fr_engine.specs.Rules.{only_of};

use crate::keys::{is_told, key_of};
use fr_forms::Seen;
use fr_nodes::Signals;
use fr_store::{Input, Inputs};
use fr_value::{Bad, Now};
use std::alloc::{AllocError, Global};

/// The value of an input, with one more owner. It fails only where there is no memory.
pub(crate) fn input_value<N: Signals>(nodes: &N, input: Input<'_>) -> Result<Now, AllocError>
    requires { (sites : Sites) → AreThere (N.way nodes.now sites) (part_of (held_of input) ∷ []) }
    ensures { IfOk result (λ now. (sites : Sites) →
        part_value (N.way nodes.now sites).graph (part_of (held_of input.entry)) ≡ Ok now) }
{
    match input {
        Input::Steady(value) => Ok(Now::Plain(value.share()?)),
        Input::Signal(id) => Ok(nodes.node(id).value.share()?),
    }
}

/// Whether an input holds as a test, or why that can't be told.
pub(crate) fn input_test<N: Signals>(nodes: &N, input: Input<'_>) -> Result<bool, Bad>
    requires { (sites : Sites) → AreThere (N.way nodes.now sites) (part_of (held_of input) ∷ []) }
    ensures { (sites : Sites) →
        test_of (part_value (N.way nodes.now sites).graph (part_of (held_of input.entry))) ≡ result }
{
    match input {
        Input::Steady(value) => Ok(is_told(value)),
        Input::Signal(id) => key_of(&nodes.node(id).value),
    }
}

/// The value of the input at a place, with one more owner. It fails only where there is no memory.
fn value_at<N: Signals>(nodes: &N, inputs: &Inputs, place: usize) -> Result<Now, AllocError>
    requires place { place < length inputs.now }
    requires there { (sites : Sites) → AreThere (N.way nodes.now sites) (parts_of inputs.now) }
    ensures { IfOk result (λ now. (sites : Sites) →
        part_values (N.way nodes.now sites).graph (parts_of (take (place + 1) inputs.now))
        ≡ part_values (N.way nodes.now sites).graph (parts_of (take place inputs.now)) ++ Ok now ∷ []) }
{
    match inputs.get(place) {
        None => unreachable!(),
        Some(input) => Ok(input_value(nodes, input)?),
    }
}

/// The values of all inputs, with one more owner of each. It fails only where there is no memory.
pub(crate) fn input_values<N: Signals>(
    alloc: Global,
    nodes: &N,
    inputs: &Inputs,
) -> Result<Vec<Seen>, AllocError>
    requires { (sites : Sites) → AreThere (N.way nodes.now sites) (parts_of inputs.now) }
    ensures { IfOk result (λ values. (sites : Sites) →
        values.items ≡ part_values (N.way nodes.now sites).graph (parts_of inputs.now)) }
{
    let mut values = Vec::with_capacity(alloc, inputs.len())?;
    for place in 0..inputs.len() {
        values.push(Ok(value_at(nodes, inputs, place)?))?;
    }
    Ok(values)
}

/// The only input, or None where there is none or more than one.
pub(crate) fn only_input(inputs: &Inputs) -> Option<Input<'_>>
    ensures { option_map (λ input. part_of (held_of input)) result ≡ only_of (parts_of inputs.now) }
{
    if inputs.len() == 1 {
        inputs.get(0)
    } else {
        None
    }
}
