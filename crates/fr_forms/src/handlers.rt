//! Forms with a handler: what stands before its call, and what the form makes of the call's value.
ghost use Rattle.std.specs.Prelude.{◌≡◌, [], IfOk};
ghost use Rattle.fr_core.specs.declared.core_form.Handler.TheVariants as handler;
ghost use Rattle.fr_meaning.specs.States.{event_begin, collect_begin, handler_begin, handler_line, passed};
ghost use Rattle.fr_forms.specs.Lent.{earlier, form_line};
ghost use Rattle.fr_forms.specs.Begins.{begun_of, args_of, quiet};

use crate::lines::{Cell, LentCell, Line, bad_line, keeping_line, plain_line, staying_line};
use crate::operators::base_at;
use crate::seen::{Seen, event_at, plain_in, test_in};
use fr_core::Handler;
use fr_value::{Now, Value};
use std::alloc::AllocError;

/// The arguments of a handler's call, borrowed from the parts and the cell of its form.
#[derive(Clone, Copy)]
pub struct CallArgs<'a> {
    /// The event's payload.
    pub payload: &'a Value,
    /// The state, where the form has one.
    pub state: Option<&'a Value>,
}

/// A form with a handler, begun.
#[derive(Drop)]
pub enum Begun<'a> {
    /// Its line, without a call.
    Gives(Line),
    /// The arguments of the handler's call.
    Asks(CallArgs<'a>),
}

fn begin_event(parts: &[Seen]) -> Begun<'_>
    ensures { begun_of result ≡ event_begin parts.now }
{
    match event_at(parts, 0) {
        Err(bad) => Begun::Gives(bad_line(bad)),
        Ok(None) => Begun::Gives(plain_line(Ok(Now::Occ(None)), None)),
        Ok(Some(payload)) => Begun::Asks(CallArgs {
            payload,
            state: None,
        }),
    }
}

/// The line of a form with a state where its event doesn't occur.
fn quiet_line(handler: Handler, base: &Value) -> Result<Line, AllocError>
    ensures { IfOk result (λ l. form_line l ≡ quiet handler base.now) }
{
    match handler {
        Handler::CollectE => staying_line(base),
        _ => keeping_line(base),
    }
}

fn begin_collect<'a>(
    handler: Handler,
    cell: Option<LentCell<'a>>,
    parts: &'a [Seen],
) -> Result<Begun<'a>, AllocError>
    ensures { IfOk result (λ b. begun_of b ≡ collect_begin (quiet handler) (earlier cell.entry) parts.now) }
{
    match event_at(parts, 0) {
        Err(bad) => Ok(Begun::Gives(bad_line(bad))),
        Ok(payload) => match base_at(cell, parts, 1) {
            Err(bad) => Ok(Begun::Gives(bad_line(bad))),
            Ok(base) => match payload {
                None => Ok(Begun::Gives(quiet_line(handler, base)?)),
                Some(payload) => Ok(Begun::Asks(CallArgs {
                    payload,
                    state: Some(base),
                })),
            },
        },
    }
}

/// Begins a form with a handler, over what its cell holds and the values of its parts: it gives its line, or asks for
/// the handler's call. It fails only where there is no memory.
pub fn begin_handler<'a>(
    handler: Handler,
    cell: Option<LentCell<'a>>,
    parts: &'a [Seen],
) -> Result<Begun<'a>, AllocError>
    ensures { IfOk result (λ b. begun_of b ≡ handler_begin handler (earlier cell.entry) parts.now) }
{
    match handler {
        Handler::MapE => Ok(begin_event(parts)),
        Handler::FilterE => Ok(begin_event(parts)),
        Handler::CollectB => begin_collect(Handler::CollectB, cell, parts),
        Handler::CollectE => begin_collect(Handler::CollectE, cell, parts),
    }
}

/// The payload, where the test holds. It fails only where there is no memory.
fn passed_payload(args: CallArgs<'_>, holds: bool) -> Result<Option<Value>, AllocError>
    ensures { IfOk result (λ o. o ≡ passed (args_of args.entry) holds) }
{
    if holds {
        Ok(Some(args.payload.share()?))
    } else {
        Ok(None)
    }
}

fn end_filter(args: CallArgs<'_>, given: &Seen) -> Result<Line, AllocError>
    ensures { IfOk result (λ l. form_line l ≡ handler_line handler.FilterE (args_of args.entry) given.now) }
{
    match test_in(given) {
        Err(bad) => Ok(bad_line(bad)),
        Ok(holds) => Ok(plain_line(Ok(Now::Occ(passed_payload(args, holds)?)), None)),
    }
}

fn end_map(given: &Seen) -> Result<Line, AllocError>
    ensures { IfOk result (λ l. form_line l ≡ handler_line handler.MapE [] given.now) }
{
    match plain_in(given) {
        Err(bad) => Ok(bad_line(bad)),
        Ok(value) => Ok(plain_line(Ok(Now::Occ(Some(value.share()?))), None)),
    }
}

fn end_collect_b(given: &Seen) -> Result<Line, AllocError>
    ensures { IfOk result (λ l. form_line l ≡ handler_line handler.CollectB [] given.now) }
{
    match plain_in(given) {
        Err(bad) => Ok(bad_line(bad)),
        Ok(value) => keeping_line(value),
    }
}

fn end_collect_e(given: &Seen) -> Result<Line, AllocError>
    ensures { IfOk result (λ l. form_line l ≡ handler_line handler.CollectE [] given.now) }
{
    match plain_in(given) {
        Err(bad) => Ok(bad_line(bad)),
        Ok(value) => {
            let next = Some(Cell::Datum(value.share()?));
            Ok(plain_line(Ok(Now::Occ(Some(value.share()?))), next))
        }
    }
}

/// The line of a form with a handler, over the arguments of the handler's call and the value that it gave. It fails only
/// where there is no memory.
pub fn end_handler(handler: Handler, args: CallArgs<'_>, given: &Seen) -> Result<Line, AllocError>
    ensures { IfOk result (λ l. form_line l ≡ handler_line handler (args_of args.entry) given.now) }
{
    match handler {
        Handler::MapE => end_map(given),
        Handler::FilterE => end_filter(args, given),
        Handler::CollectB => end_collect_b(given),
        Handler::CollectE => end_collect_e(given),
    }
}
