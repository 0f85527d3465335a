//! The machine of a run: an answer is one small word, and what it tells of lies here.
ghost use Rattle.std.specs.Prelude.{◌≡◌, ◌++◌, ◌∷◌, [], ◌≤◌, None, Ok, IfOk, OnOk, length, map, take, drop};
ghost use Rattle.fr_meaning.specs.Primitives.{applied};
ghost use Rattle.fr_meaning.specs.Words.{own, part, plain};
ghost use Rattle.fr_forms.specs.Lent.{bound};
ghost use Rattle.fr_kernel.specs.Answers.{scope, Answers, Begins, TakesOr, PutsOr, TestsOr, BindsOr, AppliesHeld, BindsTurnOr, SpendsOr};

use crate::fuel::KernStop;
use fr_forms::{Seen, apply_primitive, share_part, share_seen, test_in};
use fr_value::{Bad, Now, Primitive, Value};
use sqlite_items::Items;
use std::alloc::{AllocError, Global};
use std::mem::replace;

/// What a walk says of its answer, which lies in the machine.
#[derive(Clone, Copy)]
pub enum Kind {
    /// An integer, in `int`.
    Int,
    /// The value `#f`.
    False,
    /// The value `#t`.
    True,
    /// Any value, in `other`.
    Other,
    /// None: `stop` says why.
    Stop,
}

/// The state of a run. It is kept from one run to the next, so that its stacks need not grow again.
#[derive(Drop)]
pub struct Machine {
    /// What is left to be spent.
    pub(crate) fuel: u64,
    pub(crate) int: i64,
    pub(crate) other: Seen,
    pub(crate) stop: KernStop,
    /// The values of variables.
    pub(crate) slots: Items<Seen>,
    /// The values of parts, before they are applied or bound.
    pub(crate) held: Items<Seen>,
}

impl Machine {
    /// A machine that has run nothing yet. It takes no memory.
    pub fn new(alloc: Global) -> Machine {
        Machine {
            fuel: 0,
            int: 0,
            other: Err(Bad::Deep),
            stop: KernStop::Fuel,
            slots: Items::new(alloc),
            held: Items::new(alloc),
        }
    }
}

/// Puts these values behind those of a stack. It fails only where there is no memory.
pub(crate) fn share_behind(stack: &mut Items<Seen>, values: &[Now]) -> Result<(), AllocError>
    ensures { OnOk result (stack.new ≡ stack.old ++ map (λ n. Ok n) values.now) }
{
    for value in values {
        stack.push(Ok(value.share()?))?;
    }
    Ok(())
}

/// Puts these values behind those of a stack, some of which may be Bad. It fails only where there is no memory.
fn share_seen_behind(stack: &mut Items<Seen>, values: &[Seen]) -> Result<(), AllocError>
    ensures { OnOk result (stack.new ≡ stack.old ++ values.now) }
{
    for value in values {
        stack.push(share_seen(value)?)?;
    }
    Ok(())
}

/// Begins a run with so much fuel, where these values are the slots, first the former, and some may be Bad. It fails
/// only where there is no memory.
pub(crate) fn begin_over(
    m: &mut Machine,
    first: &[Seen],
    others: &[Seen],
    fuel: u64,
) -> Result<(), AllocError>
    ensures { OnOk result (Begins m.new fuel (first.now ++ others.now)) }
{
    m.fuel = fuel;
    cut(&mut m.held, 0);
    cut(&mut m.slots, 0);
    share_seen_behind(&mut m.slots, first)?;
    share_seen_behind(&mut m.slots, others)
}

/// Begins a run with so much fuel, where these values are the slots, first the former. It fails only where there is no
/// memory.
pub(crate) fn begin(
    m: &mut Machine,
    first: &[Now],
    others: &[Now],
    fuel: u64,
) -> Result<(), AllocError>
    ensures { OnOk result (Begins m.new fuel (map (λ n. Ok n) first.now ++ map (λ n. Ok n) others.now)) }
{
    m.fuel = fuel;
    cut(&mut m.held, 0);
    cut(&mut m.slots, 0);
    share_behind(&mut m.slots, first)?;
    share_behind(&mut m.slots, others)
}

/// No answer, for this reason.
#[cold]
#[inline(never)]
pub(crate) fn stopped(m: &mut Machine, stop: KernStop) -> Kind
    ensures { (result ≡ Kind.Stop) × (m.new ≡ record m.old { stop = stop }) }
{
    m.stop = stop;
    Kind::Stop
}

#[inline(always)]
pub(crate) fn int(m: &mut Machine, n: i64) -> Kind
    ensures { (result ≡ Kind.Int) × (m.new ≡ record m.old { int = n }) }
{
    m.int = n;
    Kind::Int
}

/// A value as an answer; Bad is none.
pub(crate) fn give(m: &mut Machine, value: Seen) -> Kind
    ensures { Answers result m.old m.new value 0 (own value) }
{
    match value {
        Ok(Now::Plain(Value::Int(n))) => int(m, n),
        Ok(Now::Plain(Value::Bool(true))) => Kind::True,
        Ok(Now::Plain(Value::Bool(false))) => Kind::False,
        Err(bad) => stopped(m, KernStop::Bad(bad)),
        Ok(now) => {
            m.other = Ok(now);
            Kind::Other
        }
    }
}

/// A literal as an answer.
#[inline(never)]
pub(crate) fn give_literal(m: &mut Machine, value: &Value) -> Kind
    ensures { Answers result m.old m.new (plain value.now) 0 None }
{
    match value.share() {
        Ok(value) => give(m, Ok(Now::Plain(value))),
        Err(e) => stopped(m, KernStop::Memory(e)),
    }
}

/// The value of a slot as an answer, where the slots are numbered from `base` on.
#[inline(never)]
pub(crate) fn give_slot(m: &mut Machine, base: usize, at: u32) -> Kind
    requires { base ≤ length m.old.slots }
    ensures { let v = part (scope base m.old) at in Answers result m.old m.new v 0 (own v) }
{
    match share_part(&m.slots.as_slice()[base..], at as usize) {
        Ok(value) => give(m, value),
        Err(e) => stopped(m, KernStop::Memory(e)),
    }
}

/// The value of an answer; None where it is none.
pub(crate) fn value_of(m: &mut Machine, kind: Kind) -> Option<Seen>
    ensures { TakesOr result kind m.old m.new }
{
    match kind {
        Kind::Int => Some(Ok(Now::Plain(Value::Int(m.int)))),
        Kind::False => Some(Ok(Now::Plain(Value::Bool(false)))),
        Kind::True => Some(Ok(Now::Plain(Value::Bool(true)))),
        Kind::Other => Some(replace(&mut m.other, Err(Bad::Deep))),
        Kind::Stop => None,
    }
}

/// Puts an answer behind the held values; false where it is none, or where there is no memory, and `stop` says why.
#[inline(never)]
pub(crate) fn hold(m: &mut Machine, kind: Kind) -> bool
    ensures { PutsOr result kind m.old m.new }
{
    let Some(value) = value_of(m, kind) else {
        return false;
    };
    match m.held.push(value) {
        Ok(()) => true,
        Err(e) => {
            m.stop = KernStop::Memory(e);
            false
        }
    }
}

/// Whether a test holds that has this answer; None where it has none or where that can't be told, and `stop` says why.
#[inline(always)]
pub(crate) fn tested(m: &mut Machine, kind: Kind) -> Option<bool>
    ensures { TestsOr result kind m.old m.new }
{
    match kind {
        Kind::Int => Some(true),
        Kind::True => Some(true),
        Kind::False => Some(false),
        Kind::Other => other_tested(m),
        Kind::Stop => None,
    }
}

#[cold]
#[inline(never)]
fn other_tested(m: &mut Machine) -> Option<bool>
    ensures { TestsOr result Kind.Other m.old m.new }
{
    match test_in(&m.other) {
        Ok(holds) => Some(holds),
        Err(bad) => {
            m.stop = KernStop::Bad(bad);
            None
        }
    }
}

/// Cuts a stack to its first `len` values.
fn cut(stack: &mut Items<Seen>, len: usize)
    ensures { stack.new ≡ take len stack.old }
{
    while stack.len() > len {
        let _last = stack.pop();
    }
}

/// Lets go of the slots from a number on.
pub(crate) fn cut_slots(m: &mut Machine, len: usize)
    ensures { m.new ≡ record m.old { slots = take len m.old.slots } }
{
    cut(&mut m.slots, len);
}

/// Moves the values of a stack from an index on to the end of another. It fails only where there is no memory.
#[tactic(auto, using(crate::proofs::Runs::moved_one, crate::proofs::Runs::front_one))]
fn move_behind(stack: &mut Items<Seen>, from: usize, to: &mut Items<Seen>) -> Result<(), AllocError>
    ensures { OnOk result ((to.new ≡ to.old ++ drop from stack.old) × (stack.new ≡ take from stack.old)) }
{
    while stack.len() > from {
        let value = stack.remove(from);
        to.push(value)?;
    }
    Ok(())
}

/// Makes slots of the held values from an index on. Where there is no memory `stop` says so.
pub(crate) fn bind_held(m: &mut Machine, from: usize) -> bool
    ensures { BindsOr result from m.old m.new }
{
    match move_behind(&mut m.held, from, &mut m.slots) {
        Ok(()) => true,
        Err(e) => {
            m.stop = KernStop::Memory(e);
            false
        }
    }
}

/// Takes the held values from an index on away. It fails only where there is no memory.
pub(crate) fn take_held(
    alloc: Global,
    m: &mut Machine,
    from: usize,
) -> Result<Items<Seen>, AllocError>
    ensures { IfOk result (λ vs. (vs ≡ drop from m.old.held) × (m.new ≡ record m.old { held = take from m.old.held })) }
{
    let mut values = Items::new(alloc);
    move_behind(&mut m.held, from, &mut values)?;
    Ok(values)
}

/// A primitive over the held values from an index on.
#[inline(never)]
pub(crate) fn apply_held(alloc: Global, m: &mut Machine, prim: Primitive, from: usize) -> Kind
    requires { from ≤ length m.old.held }
    ensures { AppliesHeld result from m.old m.new (applied prim (drop from m.old.held)) }
{
    let made = apply_primitive(alloc, prim, &m.held.as_slice()[from..]);
    cut(&mut m.held, from);
    match made {
        Ok(value) => give(m, value),
        Err(e) => stopped(m, KernStop::Memory(e)),
    }
}

/// Puts the accumulator of a loop behind the slots, and the item, where the turn goes over one. Where there is no
/// memory `stop` says so.
pub(crate) fn bind_turn(m: &mut Machine, acc: Seen, item: Option<&Value>) -> bool
    ensures { BindsTurnOr result m.old m.new (acc ∷ bound item.entry) }
{
    match push_turn(&mut m.slots, acc, item) {
        Ok(()) => true,
        Err(e) => {
            m.stop = KernStop::Memory(e);
            false
        }
    }
}

fn push_turn(slots: &mut Items<Seen>, acc: Seen, item: Option<&Value>) -> Result<(), AllocError>
    ensures { OnOk result (slots.new ≡ slots.old ++ acc ∷ bound item.entry) }
{
    slots.push(acc)?;
    match item {
        None => Ok(()),
        Some(item) => slots.push(Ok(Now::Plain(item.share()?))),
    }
}

/// Spends one of the fuel, if any is left; otherwise `stop` says that there is none.
#[inline(always)]
pub(crate) fn spend(m: &mut Machine) -> bool
    ensures { SpendsOr result m.old m.new }
{
    if m.fuel == 0 {
        m.stop = KernStop::Fuel;
        return false;
    }
    m.fuel -= 1;
    true
}
