//! The values of what stands for expressions.
ghost use Rattle.std.specs.Prelude.{◌≡◌, ◌∷◌, [], Ok, IfOk, map};
ghost use Rattle.fr_graph.specs.Graph.{part_value, part_values};
ghost use Rattle.fr_nodes.specs.Kinds.{Sites, part_of, parts_of};
ghost use Rattle.fr_nodes.specs.Makes.{AreThere};

use fr_nodes::Signals;
use fr_value::{Held, Now};
use std::alloc::{AllocError, Global};

/// The value of a part, with one more owner. It fails only where there is no memory.
fn value_of<N: Signals>(nodes: &N, part: &Held) -> Result<Now, AllocError>
    requires { (sites : Sites) → AreThere (N.way nodes.now sites) (part_of part.now ∷ []) }
    ensures { IfOk result (λ now. (sites : Sites) →
        part_value (N.way nodes.now sites).graph (part_of part.now) ≡ Ok now) }
{
    match part {
        Held::Steady(value) => Ok(Now::Plain(value.share()?)),
        Held::Signal(id) => Ok(nodes.node(*id).value.share()?),
    }
}

/// The values of parts, with one more owner of each. It fails only where there is no memory.
pub(crate) fn values_of<N: Signals>(
    alloc: Global,
    nodes: &N,
    parts: &[Held],
) -> Result<Vec<Now>, AllocError>
    requires { (sites : Sites) → AreThere (N.way nodes.now sites) (parts_of parts.now) }
    ensures { IfOk result (λ values. (sites : Sites) → map (λ v. Ok v) values.items
        ≡ part_values (N.way nodes.now sites).graph (parts_of parts.now)) }
{
    let mut values = Vec::with_capacity(alloc, parts.len())?;
    for part in parts {
        values.push(value_of(nodes, part)?)?;
    }
    Ok(values)
}
