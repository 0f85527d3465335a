ghost use Rattle.std.specs.Prelude.{IsSome, IsTrue};
ghost use Rattle.fr_store.specs.Nodes.{node_at};

use crate::told::Told;
use fr_store::{Cell, Code, Input, Inputs, MakeStop, Node, NodeKind, Store};
use fr_value::{EraId, Held, NodeId, Now, Primitive, Value};
use std::alloc::Global;

/// What is done with a store of at most three nodes.
#[derive(Clone, Copy)]
enum Step {
    /// A node that reads nothing.
    Make,
    /// A node that reads this one.
    Reader(u32),
    /// The first reads the second alone.
    Rewire(u32, u32),
    Set(u32, i64),
    Latch(u32),
    /// The second is the source of the first.
    Tie(u32, u32),
    Lift(u32, u128),
    Clear(u32),
    GiveUp(u32),
}

/// Steps, and what is told behind each: whether there were too many, and for each node its number, its height, its value, what it
/// reads and what reads it, and whether it has a cell and a source.
const STEPS: &[(Step, &str)] = &[
    (Step::Make, "0 0 #f |"),
    (Step::Make, "0 0 #f | 1 0 #f |"),
    (Step::Reader(0), "0 0 #f > 2 | 1 0 #f | 2 1 #f < 0 |"),
    (
        Step::Reader(0),
        "TooMany 0 0 #f > 2 | 1 0 #f | 2 1 #f < 0 |",
    ),
    (Step::Rewire(2, 1), "0 0 #f | 1 0 #f > 2 | 2 1 #f < 1 |"),
    (Step::GiveUp(0), "1 0 #f > 2 | 2 1 #f < 1 |"),
    (
        Step::Reader(2),
        "0 2 #f < 2 | 1 0 #f > 2 | 2 1 #f < 1 > 0 |",
    ),
    (
        Step::Make,
        "TooMany 0 2 #f < 2 | 1 0 #f > 2 | 2 1 #f < 1 > 0 |",
    ),
    (
        Step::Set(1, 7),
        "0 2 #f < 2 | 1 0 7 cell > 2 | 2 1 #f < 1 > 0 |",
    ),
    (
        Step::Latch(2),
        "0 2 #f < 2 | 1 0 7 cell > 2 | 2 1 #f cell < 1 > 0 |",
    ),
    (
        Step::Tie(2, 0),
        "0 2 #f < 2 | 1 0 7 cell > 2 | 2 1 #f cell source < 1 > 0 |",
    ),
    (
        Step::Lift(0, 5),
        "0 5 #f < 2 | 1 0 7 cell > 2 | 2 1 #f cell source < 1 > 0 |",
    ),
    (
        Step::Clear(2),
        "0 5 #f < 2 | 1 0 7 cell | 2 1 #f cell > 0 |",
    ),
    (Step::Clear(0), "0 5 #f | 1 0 7 cell | 2 1 #f cell |"),
];

fn tell_made(out: &mut Told, made: Result<NodeId, MakeStop>) {
    match made {
        Ok(_) => {}
        Err(MakeStop::TooMany) => out.word("TooMany"),
        Err(MakeStop::Memory(_)) => out.lacks(),
    }
}

fn make(out: &mut Told, store: &mut Store) {
    tell_made(out, store.make(NodeKind::Now, &[], EraId(0), 0, 1, 0));
}

fn make_reader(out: &mut Told, store: &mut Store, id: NodeId) {
    if store.live(id) && store.node(id).height < 8 {
        let kind = NodeKind::Kernel(Code::Prim(Primitive::Add));
        tell_made(
            out,
            store.make(kind, &[Held::Signal(id)], EraId(0), 0, 1, 0),
        );
    }
}

fn rewire(store: &mut Store, id: NodeId, to: NodeId) {
    if store.live(id) && store.live(to) {
        store.rewire(id, Held::Signal(to));
    }
}

fn write(store: &mut Store, id: NodeId, step: Step)
    requires { IsSome (node_at store.old id.0) }
{
    match step {
        Step::Set(_, n) => {
            let cell = Cell::Payload(Some(Value::Int(n)));
            store.set(id, Now::Plain(Value::Int(n)), Some(cell), 1);
        }
        Step::Latch(_) => store.latch(id, Cell::Kept(Value::Int(0))),
        Step::Tie(_, source) => store.tie(id, Held::Signal(NodeId(source))),
        Step::Lift(_, height) => store.lift(id, height),
        Step::Clear(_) => store.clear(id),
        _ => {}
    }
}

fn give_up(store: &mut Store, id: NodeId) {
    if store.live(id) && store.node(id).inputs.len() == 0 {
        store.give_up(id);
    }
}

fn take(out: &mut Told, store: &mut Store, step: Step) {
    match step {
        Step::Make => make(out, store),
        Step::Reader(id) => make_reader(out, store, NodeId(id)),
        Step::Rewire(id, to) => rewire(store, NodeId(id), NodeId(to)),
        Step::GiveUp(id) => give_up(store, NodeId(id)),
        Step::Set(id, _)
        | Step::Latch(id)
        | Step::Tie(id, _)
        | Step::Lift(id, _)
        | Step::Clear(id) => {
            if store.live(NodeId(id)) {
                write(store, NodeId(id), step);
            }
        }
    }
}

fn tell_inputs(out: &mut Told, inputs: &Inputs) {
    if inputs.signal(0).is_some() {
        out.word("<");
    }
    for place in 0..inputs.len() {
        match inputs.get(place) {
            Some(Input::Signal(id)) => out.number(u64::from(id.0)),
            Some(Input::Steady(value)) => out.value(value),
            None => {}
        }
    }
}

fn tell_readers(out: &mut Told, store: &Store, id: NodeId)
    requires { IsSome (node_at store.now id.0) }
{
    let mut at = store.first_dependent(id);
    if at.is_some() {
        out.word(">");
    }
    for _ in 0..3 {
        if let Some(edge) = at {
            out.number(u64::from(store.edge_node(edge).0));
            at = store.next_dependent(edge);
        }
    }
}

fn tell_state(out: &mut Told, node: &Node, value: &Now) {
    out.number(u64::try_from(node.height).unwrap_or(u64::MAX));
    if let Now::Plain(value) = value {
        out.value(value);
    }
    if node.cell.get().is_some() {
        out.word("cell");
    }
    if node.source.get().is_some() {
        out.word("source");
    }
    tell_inputs(out, &node.inputs);
}

fn tell_nodes(out: &mut Told, store: &Store) {
    for number in 0..3u32 {
        let id = NodeId(number);
        if store.live(id) {
            out.number(u64::from(number));
            tell_state(out, store.node(id), store.value(id));
            tell_readers(out, store, id);
            out.word("|");
        }
    }
}

/// The number of the first step behind which the store holds something else, counted from 1, or 0.
fn wrong_step(alloc: Global, store: &mut Store) -> usize {
    for (at, (step, want)) in STEPS.iter().enumerate() {
        let mut out = Told::new(alloc);
        take(&mut out, store, *step);
        tell_nodes(&mut out, store);
        if !out.is(want) {
            return at + 1;
        }
    }
    0
}

#[test]
fn nodes_are_made_up_to_the_limit_and_read_what_was_wired(rt: HostRuntime) {
    let mut store = Store::new(rt.alloc(), 3);
    assert_eq!(rt; wrong_step(rt.alloc(), &mut store), 0);
}
