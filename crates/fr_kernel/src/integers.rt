//! Integers that are read in place, and primitives over two of them.
ghost use Rattle.std.specs.Prelude.{◌≡◌, ◌≤◌, ◌∷◌, ◌++◌, ◌+ℤ◌, ◌-ℤ◌, ◌*ℤ◌, [], None, IfOk, OnOk, List, length, drop};
ghost use Rattle.std.specs.Int.RustNames.{int_lt, int_le};
ghost use Rattle.std.specs.Ordering.{int_eq};
ghost use Rattle.fr_value.specs.declared.value.Value.TheVariants as value;
ghost use Rattle.fr_core.specs.declared.kept.Kept.{Kept};
ghost use Rattle.fr_core.specs.declared.program.Function.{Function as AnyFunction};
ghost use Rattle.fr_prims.specs.Integers.{fitting, given};
ghost use Rattle.fr_prims.specs.Table.{prim_on};
ghost use Rattle.fr_meaning.specs.Primitives.{applied, answer_seen};
ghost use Rattle.fr_meaning.specs.Words.{own, part, plain, Done as Evaluated};
ghost use Rattle.std.specs.Option.{option_or};
ghost use Rattle.fr_kernel.specs.declared.machine.Machine.{Machine as AnyMachine};
ghost use Rattle.fr_kernel.specs.Answers.{here, scope, IntOr, LeafOr, PushesOr, Answers, Tells};

use crate::fuel::KernStop;
use crate::machine::{
    Kind, Machine, apply_held, give, give_literal, give_slot, int, stopped, value_of,
};
use fr_core::Core;
use fr_forms::Seen;
use fr_prims::{PrimStop, apply};
use fr_value::{Bad, Now, Primitive, Value};
use sqlite_items::Items;
use std::alloc::{AllocError, Global};

#[inline(always)]
fn literal_int(value: &Value) -> Option<i64>
    ensures { IntOr result (plain value.now) }
{
    match value {
        Value::Int(n) => Some(*n),
        _ => None,
    }
}

#[inline(always)]
fn slot_int(slots: &[Seen], at: u32) -> Option<i64>
    ensures { IntOr result (part slots.now at) }
{
    match slots.get(at as usize) {
        Some(seen) => seen_int(seen),
        None => None,
    }
}

#[inline(always)]
fn seen_int(seen: &Seen) -> Option<i64>
    ensures { IntOr result seen.now }
{
    match seen {
        Ok(Now::Plain(Value::Int(n))) => Some(*n),
        _ => None,
    }
}

/// The integer that an expression is as a literal or a slot, where a level is left for it. The slots are numbered from
/// `base` on.
#[inline(always)]
pub(crate) fn leaf_int(left: u32, slots: &[Seen], base: usize, expr: &Core) -> Option<i64>
    requires { base ≤ length slots.now }
    ensures { (fs : List AnyFunction) (k : Kept) → LeafOr result (here fs left expr.now (drop base slots.now) k) }
{
    if left == 0 {
        return None;
    }
    match expr {
        Core::Lit(value) => literal_int(value),
        Core::Var(id) => slot_int(&slots[base..], id.0),
        _ => None,
    }
}

/// A literal as an answer. An integer is neither shared nor moved.
#[inline(always)]
pub(crate) fn literal(m: &mut Machine, value: &Value) -> Kind
    ensures { Answers result m.old m.new (plain value.now) 0 None }
{
    match literal_int(value) {
        Some(n) => int(m, n),
        None => give_literal(m, value),
    }
}

/// The value of a slot as an answer, where the slots are numbered from `base` on. An integer is neither shared nor
/// moved.
#[inline(always)]
pub(crate) fn slot(m: &mut Machine, base: usize, at: u32) -> Kind
    requires { base ≤ length m.old.slots }
    ensures { let v = part (scope base m.old) at in Answers result m.old m.new v 0 (own v) }
{
    match slot_int(&m.slots.as_slice()[base..], at) {
        Some(n) => int(m, n),
        None => give_slot(m, base, at),
    }
}

/// What the table of primitives says. It fails only where there is no memory.
fn by_table(alloc: Global, prim: Primitive, args: &[Value]) -> Result<Seen, AllocError>
    ensures { IfOk result (λ v. v ≡ answer_seen (prim_on prim args.now)) }
{
    match apply(alloc, prim, args) {
        Ok(value) => Ok(Ok(Now::Plain(value))),
        Err(PrimStop::Bad(bad)) => Ok(Err(bad)),
        Err(PrimStop::Memory(e)) => Err(e),
    }
}

/// A primitive over two integers, by the table.
#[inline(never)]
fn table_ints(alloc: Global, m: &mut Machine, prim: Primitive, x: i64, y: i64) -> Kind
    ensures { let v = applied prim (plain (value.Int x) ∷ plain (value.Int y) ∷ []) in Answers result m.old m.new v 0 (own v) }
{
    match by_table(alloc, prim, &[Value::Int(x), Value::Int(y)]) {
        Ok(value) => give(m, value),
        Err(e) => stopped(m, KernStop::Memory(e)),
    }
}

#[inline(always)]
fn sum(x: i64, y: i64) -> Option<i64>
    ensures { result ≡ fitting (x +ℤ y) }
{
    x.checked_add(y)
}

#[inline(always)]
fn difference(x: i64, y: i64) -> Option<i64>
    ensures { result ≡ fitting (x -ℤ y) }
{
    x.checked_sub(y)
}

#[inline(always)]
fn product(x: i64, y: i64) -> Option<i64>
    ensures { result ≡ fitting (x *ℤ y) }
{
    x.checked_mul(y)
}

#[inline(always)]
fn less(x: i64, y: i64) -> bool
    ensures { result ≡ int_lt x y }
{
    x < y
}

#[inline(always)]
fn at_most(x: i64, y: i64) -> bool
    ensures { result ≡ int_le x y }
{
    x <= y
}

#[inline(always)]
fn equal(x: i64, y: i64) -> bool
    ensures { result ≡ int_eq x y }
{
    x == y
}

/// An integer as an answer; Range where there is none.
#[inline(always)]
fn int_or_range(m: &mut Machine, n: Option<i64>) -> Kind
    ensures { let v = answer_seen (given n) in Answers result m.old m.new v 0 (own v) }
{
    match n {
        Some(n) => int(m, n),
        None => stopped(m, KernStop::Bad(Bad::Range)),
    }
}

/// A truth value as an answer.
#[inline(always)]
fn truth(holds: bool) -> Kind
    ensures { (m : AnyMachine) → Answers result m m (plain (value.Bool holds)) 0 None }
{
    if holds { Kind::True } else { Kind::False }
}

/// A primitive over two integers. Sums and comparisons are made here, and others by the table.
#[inline(always)]
pub(crate) fn on_ints(alloc: Global, m: &mut Machine, prim: Primitive, x: i64, y: i64) -> Kind
    ensures { let v = applied prim (plain (value.Int x) ∷ plain (value.Int y) ∷ []) in Answers result m.old m.new v 0 (own v) }
{
    match prim {
        Primitive::Add => int_or_range(m, sum(x, y)),
        Primitive::Sub => int_or_range(m, difference(x, y)),
        Primitive::Mul => int_or_range(m, product(x, y)),
        Primitive::Less => truth(less(x, y)),
        Primitive::Greater => truth(less(y, x)),
        Primitive::AtMost => truth(at_most(x, y)),
        Primitive::AtLeast => truth(at_most(y, x)),
        Primitive::Equal => truth(equal(x, y)),
        _ => table_ints(alloc, m, prim, x, y),
    }
}

/// Holds an integer and a value. Where there is no memory `stop` says so.
fn push_two(m: &mut Machine, x: i64, second: Seen) -> bool
    ensures { PushesOr result m.old m.new (plain (value.Int x) ∷ second ∷ []) }
{
    match pushed(&mut m.held, x, second) {
        Ok(()) => true,
        Err(e) => {
            m.stop = KernStop::Memory(e);
            false
        }
    }
}

fn pushed(held: &mut Items<Seen>, x: i64, second: Seen) -> Result<(), AllocError>
    ensures { OnOk result (held.new ≡ held.old ++ plain (value.Int x) ∷ second ∷ []) }
{
    held.push(Ok(Now::Plain(Value::Int(x))))?;
    held.push(second)
}

/// A primitive over an integer and a part with this answer.
#[tactic(auto, using(crate::proofs::Operands::second_none))]
#[cold]
#[inline(never)]
pub(crate) fn apply_second(
    alloc: Global,
    m: &mut Machine,
    prim: Primitive,
    x: i64,
    kind: Kind,
) -> Kind
    ensures { (start : AnyMachine) (d : Evaluated) → Tells kind start m.old d → let v = applied prim (plain (value.Int x) ∷ d.value ∷ []) in Answers result start m.new v d.cost (option_or d.first (own v)) }
{
    let Some(second) = value_of(m, kind) else {
        return Kind::Stop;
    };
    let from = m.held.len();
    if !push_two(m, x, second) {
        return Kind::Stop;
    }
    apply_held(alloc, m, prim, from)
}
