//! The lines of the operators and of `feedback`.
ghost use Rattle.std.specs.Prelude.{◌≡◌, ◌∷◌, [], IfOk, None};
ghost use Rattle.std.specs.Option.{option_copied};
ghost use Rattle.fr_core.specs.declared.core_form.Operator.TheVariants as operator;
ghost use Rattle.fr_meaning.specs.Words.{on_ok, part, event_of};
ghost use Rattle.fr_meaning.specs.States.{base_of, leftmost, change, is_spent, once_line as line_once, plain_or_bad, occurrence, fed, datum_next as next_datum, payload_next as next_payload, beside, refusal_in, refused_by, of_operator, of_feedback, no_call, state_now};
ghost use Rattle.fr_forms.specs.Lent.{lent, earlier, cell_of, form_line};

use crate::applying::apply_primitive;
use crate::lines::{Cell, LentCell, Line, bad_line, keeping_line, plain_line};
use crate::seen::{Seen, event_at, event_in, plain_at, plain_in, share_option, share_seen};
use fr_core::Operator;
use fr_value::{Bad, Now, Value, same};
use std::alloc::{AllocError, Global};

fn base_in<'a>(cell: Option<LentCell<'a>>, init: &'a Seen) -> Result<&'a Value, Bad>
    ensures { on_ok lent result ≡ base_of (earlier cell.entry) init.now }
{
    match init {
        Err(bad) => Err(*bad),
        Ok(_) => match cell {
            Some(LentCell::Datum(value)) => Ok(value),
            _ => plain_in(init),
        },
    }
}

/// The datum in the cell, else INIT, which is the part at an index; or why there is neither.
pub fn base_at<'a>(
    cell: Option<LentCell<'a>>,
    parts: &'a [Seen],
    at: usize,
) -> Result<&'a Value, Bad>
    ensures { on_ok lent result ≡ base_of (earlier cell.entry) (part parts.now at) }
{
    match parts.get(at) {
        Some(init) => base_in(cell, init),
        None => Err(Bad::Deep),
    }
}

/// The leftmost occurrence, where all are events.
fn first_occurrence(parts: &[Seen]) -> Result<Option<&Value>, Bad>
    ensures { on_ok option_copied result ≡ leftmost parts.now }
{
    let mut found: Option<&Value> = None;
    for value in parts {
        match event_in(value) {
            Err(bad) => return Err(bad),
            Ok(payload) => found = found.or(payload),
        }
    }
    Ok(found)
}

fn merge_line(parts: &[Seen]) -> Result<Line, AllocError>
    ensures { IfOk result (λ l. form_line l ≡ state_now (of_operator operator.MergeE) None parts.now no_call) }
{
    match first_occurrence(parts) {
        Err(bad) => Ok(bad_line(bad)),
        Ok(payload) => Ok(plain_line(Ok(Now::Occ(share_option(payload)?)), None)),
    }
}

fn hold_line(cell: Option<LentCell<'_>>, parts: &[Seen]) -> Result<Line, AllocError>
    ensures { IfOk result (λ l. form_line l ≡ state_now (of_operator operator.Hold) (earlier cell.entry) parts.now no_call) }
{
    match event_at(parts, 0) {
        Err(bad) => Ok(bad_line(bad)),
        Ok(payload) => match base_at(cell, parts, 1) {
            Err(bad) => Ok(bad_line(bad)),
            Ok(base) => keeping_line(payload.unwrap_or(base)),
        },
    }
}

/// The value, where a cell is kept and isn't the same. It fails only where there is no memory.
fn change_from(cell: Option<LentCell<'_>>, value: &Value) -> Result<Option<Value>, AllocError>
    ensures { IfOk result (λ o. o ≡ change (earlier cell.entry) value.now) }
{
    match cell {
        Some(LentCell::Datum(old)) => {
            if same(old, value) {
                Ok(None)
            } else {
                Ok(Some(value.share()?))
            }
        }
        _ => Ok(None),
    }
}

fn changes_line(cell: Option<LentCell<'_>>, parts: &[Seen]) -> Result<Line, AllocError>
    ensures { IfOk result (λ l. form_line l ≡ state_now (of_operator operator.Changes) (earlier cell.entry) parts.now no_call) }
{
    match plain_at(parts, 0) {
        Err(bad) => Ok(bad_line(bad)),
        Ok(value) => {
            let next = Some(Cell::Datum(value.share()?));
            Ok(plain_line(Ok(Now::Occ(change_from(cell, value)?)), next))
        }
    }
}

fn is_spent_in(cell: Option<LentCell<'_>>) -> bool
    ensures { result ≡ is_spent (earlier cell.entry) }
{
    match cell {
        Some(LentCell::Datum(Value::Bool(b))) => *b,
        _ => false,
    }
}

fn occurrence_line(spent: bool, payload: Option<&Value>) -> Result<Line, AllocError>
    ensures { IfOk result (λ l. form_line l ≡ line_once spent (option_copied payload.entry)) }
{
    if spent {
        return Ok(plain_line(Ok(Now::Occ(None)), Some(Cell::Datum(Value::Bool(true)))));
    }
    let next = Some(Cell::Datum(Value::Bool(payload.is_some())));
    Ok(plain_line(Ok(Now::Occ(share_option(payload)?)), next))
}

fn once_line(cell: Option<LentCell<'_>>, parts: &[Seen]) -> Result<Line, AllocError>
    ensures { IfOk result (λ l. form_line l ≡ state_now (of_operator operator.OnceE) (earlier cell.entry) parts.now no_call) }
{
    match event_at(parts, 0) {
        Err(bad) => Ok(bad_line(bad)),
        Ok(payload) => occurrence_line(is_spent_in(cell), payload),
    }
}

/// A value now beside the next cell, or beside the refusal of the part that should give it.
fn line_beside(now: Seen, next: Result<Cell, Bad>) -> Line
    ensures { form_line result ≡ beside now (on_ok cell_of next) }
{
    match next {
        Ok(cell) => plain_line(now, Some(cell)),
        Err(bad) => Line {
            value: now,
            next: None,
            refusal: Some(bad),
        },
    }
}

fn shared_or_bad(value: Result<&Value, Bad>) -> Result<Seen, AllocError>
    ensures { IfOk result (λ v. v ≡ plain_or_bad (on_ok lent value.entry)) }
{
    match value {
        Err(bad) => Ok(Err(bad)),
        Ok(value) => Ok(Ok(Now::Plain(value.share()?))),
    }
}

/// The cell next that keeps a plain value, or why there is none. It fails only where there is no memory.
fn datum_next(value: Result<&Value, Bad>) -> Result<Result<Cell, Bad>, AllocError>
    ensures { IfOk result (λ c. on_ok cell_of c ≡ next_datum (on_ok lent value.entry)) }
{
    match value {
        Err(bad) => Ok(Err(bad)),
        Ok(value) => Ok(Ok(Cell::Datum(value.share()?))),
    }
}

fn delay_line(cell: Option<LentCell<'_>>, parts: &[Seen]) -> Result<Line, AllocError>
    ensures { IfOk result (λ l. form_line l ≡ state_now (of_operator operator.Delay) (earlier cell.entry) parts.now no_call) }
{
    let next = datum_next(plain_at(parts, 1))?;
    Ok(line_beside(shared_or_bad(base_at(cell, parts, 0))?, next))
}

fn kept_occurrence(cell: Option<LentCell<'_>>) -> Result<Option<Value>, AllocError>
    ensures { IfOk result (λ o. o ≡ occurrence (earlier cell.entry)) }
{
    match cell {
        Some(LentCell::Payload(Some(payload))) => Ok(Some(payload.share()?)),
        _ => Ok(None),
    }
}

/// The cell next that keeps the state of the event at an index, or why there is none. It fails only where there is no
/// memory.
fn payload_next(parts: &[Seen], at: usize) -> Result<Result<Cell, Bad>, AllocError>
    ensures { IfOk result (λ c. on_ok cell_of c ≡ next_payload (event_of (part parts.now at))) }
{
    match event_at(parts, at) {
        Err(bad) => Ok(Err(bad)),
        Ok(payload) => Ok(Ok(Cell::Payload(share_option(payload)?))),
    }
}

fn delay_e_line(cell: Option<LentCell<'_>>, parts: &[Seen]) -> Result<Line, AllocError>
    ensures { IfOk result (λ l. form_line l ≡ state_now (of_operator operator.DelayE) (earlier cell.entry) parts.now no_call) }
{
    let next = payload_next(parts, 0)?;
    Ok(line_beside(Ok(Now::Occ(kept_occurrence(cell)?)), next))
}

/// The line of an operator, over what its cell holds and the values of its parts. It fails only where there is no
/// memory.
pub fn operator_line(
    alloc: Global,
    operator: Operator,
    cell: Option<LentCell<'_>>,
    parts: &[Seen],
) -> Result<Line, AllocError>
    ensures { IfOk result (λ l. form_line l ≡ state_now (of_operator operator) (earlier cell.entry) parts.now no_call) }
{
    match operator {
        Operator::Prim(prim) => Ok(plain_line(apply_primitive(alloc, prim, parts)?, None)),
        Operator::MergeE => merge_line(parts),
        Operator::Hold => hold_line(cell, parts),
        Operator::Changes => changes_line(cell, parts),
        Operator::OnceE => once_line(cell, parts),
        Operator::Delay => delay_line(cell, parts),
        Operator::DelayE => delay_e_line(cell, parts),
    }
}

/// What the name of a `feedback` is bound to: the datum in the cell, else the value of INIT. It fails only where there is
/// no memory.
pub fn fed_value(cell: Option<LentCell<'_>>, init: &Seen) -> Result<Seen, AllocError>
    ensures { IfOk result (λ v. v ≡ fed (earlier cell.entry) init.now) }
{
    match cell {
        Some(LentCell::Datum(value)) => Ok(Ok(Now::Plain(value.share()?))),
        _ => share_seen(init),
    }
}

fn refusal_of(value: Result<&Value, Bad>) -> Option<Bad>
    ensures { result ≡ refusal_in (on_ok lent value.entry) }
{
    match value {
        Err(bad) => Some(bad),
        Ok(_) => None,
    }
}

fn with_refusal(refusal: Option<Bad>, line: Line) -> Line
    ensures { form_line result ≡ refused_by refusal (form_line line) }
{
    Line {
        value: line.value,
        next: line.next,
        refusal: refusal.or(line.refusal),
    }
}

/// The line of a `feedback`, over what its cell holds and the values of INIT and BODY. It fails only where there is no
/// memory.
pub fn feedback_line(
    cell: Option<LentCell<'_>>,
    init: &Seen,
    body: &Seen,
) -> Result<Line, AllocError>
    ensures { IfOk result (λ l. form_line l ≡ state_now of_feedback (earlier cell.entry) (init.now ∷ body.now ∷ []) no_call) }
{
    let next = datum_next(plain_in(body))?;
    let line = line_beside(share_seen(body)?, next);
    Ok(with_refusal(refusal_of(base_in(cell, init)), line))
}
