//! The key of a watch: which of its choices the value of its test picks.
ghost use Rattle.std.specs.Prelude.{◌≡◌, true, Ok};
ghost use Rattle.fr_meaning.specs.Words.{test_of, plain};
ghost use Rattle.fr_nodes.specs.Kinds.{Sites};
ghost use Rattle.fr_nodes.specs.Signals.{Lives};
ghost use Rattle.fr_engine.specs.Rules.{has_any, KeepsKey};

use fr_nodes::Signals;
use fr_value::{Bad, NodeId, Now, Value};

/// Whether a plain value holds as a test.
pub(crate) fn is_told(value: &Value) -> bool
    ensures { test_of (plain value.now) ≡ Ok result }
{
    match value {
        Value::Bool(holds) => *holds,
        _ => true,
    }
}

/// Whether a value holds as a test, or why that can't be told.
pub fn key_of(value: &Now) -> Result<bool, Bad>
    ensures { test_of (Ok value.now) ≡ result }
{
    match value {
        Now::Occ(_) => Err(Bad::WrongType),
        Now::Plain(value) => Ok(is_told(value)),
    }
}

/// Whether the result of a watch has an input, which it has once the watch has chosen.
fn has_chosen<N: Signals>(nodes: &N, watch: NodeId) -> bool
    requires there { Lives (N.way nodes.now) watch.0 }
    requires result { (sites : Sites) ×
        (N.way nodes.now sites).graph.live ((N.way nodes.now sites).graph.result_of watch.0)
        ≡ true }
    ensures { (sites : Sites) → has_any ((N.way nodes.now sites).graph.inputs
        ((N.way nodes.now sites).graph.result_of watch.0)) ≡ result }
{
    nodes.is_sound();
    let result = nodes.result_of(watch);
    nodes.node(result).inputs.len() != 0
}

/// Whether a watch has chosen before, by the key that it has again where this is its value.
pub fn keeps_key<N: Signals>(nodes: &N, watch: NodeId, value: &Now) -> bool
    requires there { Lives (N.way nodes.now) watch.0 }
    requires result { (sites : Sites) ×
        (N.way nodes.now sites).graph.live ((N.way nodes.now sites).graph.result_of watch.0)
        ≡ true }
    ensures { (sites : Sites) → KeepsKey result (N.way nodes.now sites).graph watch.0 value.now }
{
    has_chosen(nodes, watch) && key_of(value) == key_of(&nodes.node(watch).value)
}
