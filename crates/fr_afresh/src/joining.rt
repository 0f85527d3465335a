//! How an expression's evaluation is made of those of its parts. What the recursion calls is kept out of line, so that a level
//! takes little stack.
ghost use Rattle.std.specs.Prelude.{◌≡◌, ◌∷◌, [], IfOk, Err, None};
ghost use Rattle.std.specs.Option.{option_or};
ghost use Rattle.fr_meaning.specs.Words.{under, own};
ghost use Rattle.fr_meaning.specs.States.{handler_end, state_now, of_operator, of_feedback, no_call};
ghost use Rattle.fr_meaning.specs.Cells.{with_cell};
ghost use Rattle.fr_meaning.specs.Evaluation.{leaf, deep, refusal_first};
ghost use Rattle.fr_forms.specs.Lent.{earlier, next_of, form_line};
ghost use Rattle.fr_forms.specs.Begins.{args_of};
ghost use Rattle.fr_afresh.specs.Outcomes.{without_cost, unbegun_around, with_part, with_kept, erred, ended_as, lined, called_as};

use fr_core::{Handler, Kept, Key, Operator, Path};
use fr_forms::{CallArgs, Cell, LentCell, Line, Seen, end_handler, feedback_line, operator_line};
use fr_value::Bad;
use sqlite_items::{Boxed, Items};
use std::alloc::{AllocError, Global};

/// The way to the first error and its kind, or none.
pub type First = Option<(Path, Bad)>;

/// What an evaluation gives: its value, what it keeps, and its first error.
#[derive(Drop)]
pub struct Done {
    pub value: Seen,
    pub kept: Kept,
    pub first: First,
}

/// What the parts of a form give beside their values: what they keep, and their first error.
#[derive(Drop)]
pub struct Around {
    pub kepts: Items<Kept>,
    pub first: First,
}

/// What the parts of a form give.
#[derive(Drop)]
pub struct Parts {
    pub values: Items<Seen>,
    pub around: Around,
}

/// What the turns of a loop give.
#[derive(Drop)]
pub struct Turns {
    pub value: Seen,
    pub first: First,
}

/// Lets a value go.
fn drop_value(value: Seen) {
    let _gone = value;
}

/// Lets a tree go that nothing reads.
fn drop_kept(kept: Kept) {
    let _gone = kept;
}

fn under_part(part: usize, first: First) -> Result<First, AllocError>
    ensures { IfOk result (λ f. f ≡ under part first) }
{
    match first {
        None => Ok(None),
        Some((mut path, bad)) => {
            path.enter_from(part)?;
            Ok(Some((path, bad)))
        }
    }
}

fn either(a: First, b: First) -> First
    ensures { result ≡ option_or a b }
{
    match a {
        None => b,
        Some(f) => Some(f),
    }
}

/// The first error of what was evaluated so far and of a part behind it. It fails only where there is no memory.
pub fn first_of(first: First, part: usize, inner: First) -> Result<First, AllocError>
    ensures { IfOk result (λ f. f ≡ option_or first (under part inner)) }
{
    Ok(either(first, under_part(part, inner)?))
}

/// The error of an expression that gives this value.
fn own_error(alloc: Global, value: &Seen) -> First
    ensures { result ≡ own value.now }
{
    match value {
        Ok(_) => None,
        Err(bad) => Some((Path::empty(alloc), *bad)),
    }
}

fn refusal_error(alloc: Global, refusal: Option<Bad>) -> First
    ensures { result ≡ refusal_first refusal }
{
    match refusal {
        None => None,
        Some(bad) => Some((Path::empty(alloc), bad)),
    }
}

/// Before the first part.
pub fn nothing_around(alloc: Global) -> Around
    ensures { result ≡ unbegun_around }
{
    Around {
        kepts: Items::new(alloc),
        first: None,
    }
}

/// Before the first part.
pub fn no_parts(alloc: Global) -> Parts
    ensures { result ≡ record { values = []; around = unbegun_around } }
{
    Parts {
        values: Items::new(alloc),
        around: nothing_around(alloc),
    }
}

/// The parts so far, and behind them what the part of this number keeps and its first error. It fails only where there
/// is no memory.
pub fn with_kept(
    around: Around,
    number: usize,
    kept: Kept,
    inner: First,
) -> Result<Around, AllocError>
    ensures { IfOk result (λ a. a ≡ with_kept around number kept inner) }
{
    let Around { mut kepts, first } = around;
    kepts.push(kept)?;
    Ok(Around {
        kepts,
        first: first_of(first, number, inner)?,
    })
}

/// The parts so far, and behind them the part of this number. It fails only where there is no memory.
#[inline(never)]
pub fn part_behind(parts: Parts, number: usize, part: Done) -> Result<Parts, AllocError>
    ensures { IfOk result (λ p. p ≡ with_part parts number part) }
{
    let Parts { mut values, around } = parts;
    let Done { value, kept, first } = part;
    let around = with_kept(around, number, kept, first)?;
    values.push(value)?;
    Ok(Parts { values, around })
}

/// The parts so far, and behind them what the part of this number leaves beside its value. It fails only where there is
/// no memory.
fn behind(around: Around, number: usize, part: Done) -> Result<Around, AllocError>
    ensures { IfOk result (λ a. a ≡ with_kept around number part.kept part.first) }
{
    let Done { value, kept, first } = part;
    drop_value(value);
    with_kept(around, number, kept, first)
}

/// What a test leaves beside its value. It fails only where there is no memory.
#[inline(never)]
pub fn test_behind(alloc: Global, test: Done) -> Result<Around, AllocError>
    ensures { IfOk result (λ a. a ≡ with_kept unbegun_around 0 test.kept test.first) }
{
    behind(nothing_around(alloc), 0, test)
}

/// An evaluation that gives this value behind its parts, and keeps what they keep.
#[inline(never)]
pub fn ended(alloc: Global, value: Seen, around: Around) -> Done
    ensures { result ≡ ended_as value around }
{
    let Around { kepts, first } = around;
    let own = own_error(alloc, &value);
    Done {
        value,
        kept: Kept::Group(kepts),
        first: either(first, own),
    }
}

/// The evaluation of an expression without parts.
#[inline(never)]
pub fn leaf_of(alloc: Global, value: Seen) -> Done
    ensures { result ≡ without_cost (leaf value) }
{
    let first = own_error(alloc, &value);
    Done {
        value,
        kept: Kept::Nothing,
        first,
    }
}

/// The evaluation beyond the last level.
#[inline(never)]
pub fn too_deep(alloc: Global) -> Done
    ensures { result ≡ without_cost deep }
{
    leaf_of(alloc, Err(Bad::Deep))
}

/// An evaluation whose value is that of a last part, which has this number. It fails only where there is no memory.
#[inline(never)]
pub fn last_done(
    alloc: Global,
    around: Around,
    number: usize,
    last: Done,
) -> Result<Done, AllocError>
    ensures { IfOk result (λ d.
        d ≡ ended_as last.value (with_kept around number last.kept last.first)) }
{
    let Done { value, kept, first } = last;
    let around = with_kept(around, number, kept, first)?;
    Ok(ended(alloc, value, around))
}

/// A switch behind its test, whose value is that of the choice, which is the part of this number. It fails only where
/// there is no memory.
#[inline(never)]
pub fn choice_done(
    alloc: Global,
    around: Around,
    key: Key,
    number: usize,
    choice: Done,
) -> Result<Done, AllocError>
    ensures { IfOk result (λ d. d ≡ ended_as choice.value
        (with_kept around number (Kept.Switch key choice.kept) choice.first)) }
{
    let Done { value, kept, first } = choice;
    let kept = Kept::Switch(key, Boxed::new(alloc, kept)?);
    last_done(alloc, around, number, Done { value, kept, first })
}

/// A switch whose test can't be told. It fails only where there is no memory.
#[inline(never)]
pub fn untested(alloc: Global, around: Around, bad: Bad) -> Result<Done, AllocError>
    ensures { IfOk result (λ d. d ≡ ended_as (Err bad) (with_kept around 1 Kept.Nothing None)) }
{
    let around = with_kept(around, 1, Kept::Nothing, None)?;
    Ok(ended(alloc, Err(bad), around))
}

/// The turns so far, of which one more was made, which has this number. It fails only where there is no memory.
#[inline(never)]
pub fn turned(number: usize, first: First, turn: Done) -> Result<Turns, AllocError>
    ensures { IfOk result (λ t.
        t ≡ record { value = turn.value; first = option_or first (under number turn.first) }) }
{
    let Done {
        value,
        kept,
        first: inner,
    } = turn;
    drop_kept(kept);
    let first = first_of(first, number, inner)?;
    Ok(Turns { value, first })
}

/// A loop behind its turns, which are the part of this number. It fails only where there is no memory.
#[inline(never)]
pub fn turns_done(
    alloc: Global,
    around: Around,
    number: usize,
    turns: Turns,
) -> Result<Done, AllocError>
    ensures { IfOk result (λ d. d ≡ ended_as turns.value (erred around number turns.first)) }
{
    let Turns { value, first } = turns;
    let around = behind_error(around, number, first)?;
    Ok(ended(alloc, value, around))
}

/// The parts so far, and behind them the first error of the part of this number, which keeps nothing. It fails only
/// where there is no memory.
fn behind_error(around: Around, number: usize, inner: First) -> Result<Around, AllocError>
    ensures { IfOk result (λ a. a ≡ erred around number inner) }
{
    let Around { kepts, first } = around;
    Ok(Around {
        kepts,
        first: first_of(first, number, inner)?,
    })
}

fn around_cell(alloc: Global, next: Option<Cell>, kepts: Items<Kept>) -> Result<Kept, AllocError>
    ensures { IfOk result (λ k. k ≡ with_cell (next_of next) (Kept.Group kepts)) }
{
    match next {
        None => Ok(Kept::Group(kepts)),
        Some(Cell::Datum(value)) => Ok(Kept::Datum(value, Boxed::new(alloc, Kept::Group(kepts))?)),
        Some(Cell::Payload(payload)) => Ok(Kept::Payload(
            payload,
            Boxed::new(alloc, Kept::Group(kepts))?,
        )),
    }
}

/// A form's line behind its parts. It fails only where there is no memory.
#[inline(never)]
pub fn line_done(alloc: Global, around: Around, line: Line) -> Result<Done, AllocError>
    ensures { IfOk result (λ d. d ≡ lined around (form_line line)) }
{
    let Around { kepts, first } = around;
    let Line {
        value,
        next,
        refusal,
    } = line;
    let kept = around_cell(alloc, next, kepts)?;
    let own = either(own_error(alloc, &value), refusal_error(alloc, refusal));
    Ok(Done {
        value,
        kept,
        first: either(first, own),
    })
}

/// An operator behind its parts. It fails only where there is no memory.
#[inline(never)]
pub fn operator_done(
    alloc: Global,
    operator: Operator,
    cell: Option<LentCell<'_>>,
    parts: Parts,
) -> Result<Done, AllocError>
    ensures { IfOk result (λ d. d ≡ lined parts.around
        (state_now (of_operator operator) (earlier cell.entry) parts.values no_call)) }
{
    let Parts { values, around } = parts;
    let line = operator_line(alloc, operator, cell, values.as_slice())?;
    line_done(alloc, around, line)
}

/// What INIT and BODY of a `feedback` leave beside their values. It fails only where there is no memory.
fn both_behind(alloc: Global, init: Done, body: Done) -> Result<Around, AllocError>
    ensures { IfOk result (λ a. a ≡
        with_kept (with_kept unbegun_around 0 init.kept init.first) 1 body.kept body.first) }
{
    let around = behind(nothing_around(alloc), 0, init)?;
    behind(around, 1, body)
}

/// A `feedback` behind INIT and BODY. It fails only where there is no memory.
#[inline(never)]
pub fn feedback_done(
    alloc: Global,
    cell: Option<LentCell<'_>>,
    init: Done,
    body: Done,
) -> Result<Done, AllocError>
    ensures { IfOk result (λ d. d ≡ lined
        (with_kept (with_kept unbegun_around 0 init.kept init.first) 1 body.kept body.first)
        (state_now of_feedback (earlier cell.entry) (init.value ∷ body.value ∷ []) no_call)) }
{
    let line = feedback_line(cell, &init.value, &body.value)?;
    let around = both_behind(alloc, init, body)?;
    line_done(alloc, around, line)
}

/// A form behind its handler's call with these arguments, whose body is the part of this number. It fails only where
/// there is no memory.
#[inline(never)]
pub fn handled(
    alloc: Global,
    handler: Handler,
    around: Around,
    number: usize,
    args: CallArgs<'_>,
    body: Done,
) -> Result<Done, AllocError>
    ensures { IfOk result (λ d. d ≡ lined around
        (handler_end handler (args_of args.entry) (called_as number body))) }
{
    let Done { value, kept, first } = body;
    drop_kept(kept);
    let around = behind_error(around, number, first)?;
    let line = end_handler(handler, args, &value)?;
    drop_value(value);
    line_done(alloc, around, line)
}
