#![tactic(auto, using(crate::proofs::Opened::opened))]

ghost use Rattle.std.specs.Prelude.{◌≡◌};
ghost use Rattle.std.specs.Option.{option_map, option_and_then};
ghost use Rattle.fr_value.specs.Data.{data_of, value_of};
ghost use Rattle.fr_syntax.specs.declared.expr.Expr.TheVariants as expr;
ghost use Rattle.fr_value.specs.declared.value.Value.TheVariants as value;
ghost use Rattle.fr_syntax.specs.Keywords.{keyword_named as named};
ghost use Rattle.fr_syntax.specs.Shapes.{Below, one_in, one_part, two_parts, three_parts, let_form, fold_form, repeat_form, feedback_form, event_handler_form, collect_form, merge_form, keyword_form, named_form, expr_at};
ghost use Rattle.fr_syntax.specs.Layouts.{filled, single_of, handler_of, double_of, collector_of, triple_of, binder_of, AreItems};

use crate::bindings::{binding, lone_binding};
use crate::handlers::{one_param, two_params};
use crate::keyword::{Keyword, keyword_named};
use crate::layouts::{Binder, Collector, Double, Handler, Layout, Many, Single, Triple};
use crate::lists::{list_of, one_in, three_in, two_in};
use crate::outlines::symbol_of;
use fr_value::{Symbol, Value};

/// What an expression is by its outermost list, of these items; None where the list is no form by that.
pub(crate) fn layout_of<'a>(v: &'a Value, items: &'a [Value]) -> Option<Layout<'a>>
    requires { AreItems v.now items.now }
    ensures { (below : Below) → option_and_then (filled below) result ≡ expr_at below v.now }
{
    match v {
        Value::Int(_) | Value::Bool(_) | Value::Str(_) => Some(Layout::Literal(v)),
        Value::Sym(name) => Some(Layout::Name(name)),
        Value::List(_) => list_layout(items),
    }
}

/// What a list of these items is by its first.
fn list_layout(items: &[Value]) -> Option<Layout<'_>>
    ensures { (below : Below) → option_and_then (filled below) result ≡ expr_at below (value.List (data_of items.now)) }
{
    let (head, rest) = items.split_first()?;
    named_layout(symbol_of(head)?, rest)
}

/// What a list is that begins with this name.
fn named_layout<'a>(name: &'a Symbol, rest: &'a [Value]) -> Option<Layout<'a>>
    ensures { (below : Below) → option_and_then (filled below) result ≡ named_form below (named name.now) name.now (data_of rest.now) }
{
    match keyword_named(name.as_str()) {
        Some(keyword) => keyword_layout(keyword, rest),
        None => Some(Layout::Many(Many::Call(name), rest)),
    }
}

/// What a list is that begins with this keyword.
fn keyword_layout(keyword: Keyword, rest: &[Value]) -> Option<Layout<'_>>
    ensures { (below : Below) → option_and_then (filled below) result ≡ keyword_form below keyword (data_of rest.now) }
{
    match keyword {
        Keyword::Quote => quote(rest),
        Keyword::If => triple(Triple::If, rest),
        Keyword::Let => bound(Binder::Let, rest),
        Keyword::LetStar => bound(Binder::LetStar, rest),
        Keyword::Cond => Some(Layout::Cond(rest)),
        Keyword::And => Some(Layout::Many(Many::And, rest)),
        Keyword::Or => Some(Layout::Many(Many::Or, rest)),
        Keyword::ForFold => fold(rest),
        Keyword::Repeat => repeat(rest),
        Keyword::MapE => handled(Handler::MapE, rest),
        Keyword::FilterE => handled(Handler::FilterE, rest),
        Keyword::MergeE => merge_e(rest),
        Keyword::Hold => double(Double::Hold, rest),
        Keyword::CollectB => collected(Collector::CollectB, rest),
        Keyword::CollectE => collected(Collector::CollectE, rest),
        Keyword::Changes => single(Single::Changes, rest),
        Keyword::OnceE => single(Single::OnceE, rest),
        Keyword::Delay => double(Double::Delay, rest),
        Keyword::DelayE => single(Single::DelayE, rest),
        Keyword::Feedback => feedback(rest),
        _ => None,
    }
}

/// `DATUM`
fn quote(rest: &[Value]) -> Option<Layout<'_>>
    ensures { (below : Below) → option_and_then (filled below) result ≡ option_map (λ d. expr.Literal (value_of d)) (one_in (data_of rest.now)) }
{
    Some(Layout::Literal(one_in(rest)?))
}

/// `EXPR`
fn single(form: Single, rest: &[Value]) -> Option<Layout<'_>>
    ensures { (below : Below) → option_and_then (filled below) result ≡ one_part below (single_of form) (data_of rest.now) }
{
    Some(Layout::One(form, one_in(rest)?))
}

/// `EXPR EXPR`
fn double<'a>(form: Double<'a>, rest: &'a [Value]) -> Option<Layout<'a>>
    ensures { (below : Below) → option_and_then (filled below) result ≡ two_parts below (double_of form.entry) (data_of rest.now) }
{
    let (first, second) = two_in(rest)?;
    Some(Layout::Two(form, first, second))
}

/// `EXPR EXPR EXPR`
fn triple<'a>(form: Triple<'a>, rest: &'a [Value]) -> Option<Layout<'a>>
    ensures { (below : Below) → option_and_then (filled below) result ≡ three_parts below (triple_of form.entry) (data_of rest.now) }
{
    let (first, second, third) = three_in(rest)?;
    Some(Layout::Three(form, first, second, third))
}

/// `((NAME EXPR) ...) BODY`
fn bound(form: Binder, rest: &[Value]) -> Option<Layout<'_>>
    ensures { (below : Below) → option_and_then (filled below) result ≡ let_form below (binder_of form) (data_of rest.now) }
{
    let (bindings, body) = two_in(rest)?;
    Some(Layout::Bindings(form, list_of(bindings)?, body))
}

/// `((ACC INIT)) ((ITEM LIST)) BODY`
fn fold(rest: &[Value]) -> Option<Layout<'_>>
    ensures { (below : Below) → option_and_then (filled below) result ≡ fold_form below (data_of rest.now) }
{
    let (accs, items, body) = three_in(rest)?;
    let (acc, init) = lone_binding(accs)?;
    let (item, list) = lone_binding(items)?;
    Some(Layout::Three(Triple::Fold(acc, item), init, list, body))
}

/// `(ACC INIT) COUNT BODY`
fn repeat(rest: &[Value]) -> Option<Layout<'_>>
    ensures { (below : Below) → option_and_then (filled below) result ≡ repeat_form below (data_of rest.now) }
{
    let (acc, count, body) = three_in(rest)?;
    let (acc, init) = binding(acc)?;
    Some(Layout::Three(Triple::Repeat(acc), init, count, body))
}

/// `(NAME INIT) BODY`
fn feedback(rest: &[Value]) -> Option<Layout<'_>>
    ensures { (below : Below) → option_and_then (filled below) result ≡ feedback_form below (data_of rest.now) }
{
    let (name, body) = two_in(rest)?;
    let (name, init) = binding(name)?;
    Some(Layout::Two(Double::Feedback(name), init, body))
}

/// `(lambda (PAYLOAD) BODY) EVENT`
fn handled(form: Handler, rest: &[Value]) -> Option<Layout<'_>>
    ensures { (below : Below) → option_and_then (filled below) result ≡ event_handler_form below (handler_of form) (data_of rest.now) }
{
    let (lambda, event) = two_in(rest)?;
    let (payload, body) = one_param(lambda)?;
    Some(Layout::Two(Double::Handler(form, payload), body, event))
}

/// `EVENT INIT (lambda (PAYLOAD STATE) BODY)`
fn collected(form: Collector, rest: &[Value]) -> Option<Layout<'_>>
    ensures { (below : Below) → option_and_then (filled below) result ≡ collect_form below (collector_of form) (data_of rest.now) }
{
    let (event, first, lambda) = three_in(rest)?;
    let (payload, state, body) = two_params(lambda)?;
    Some(Layout::Three(Triple::Collector(form, payload, state), event, first, body))
}

/// `EVENT EVENT ...`, two or more
fn merge_e(rest: &[Value]) -> Option<Layout<'_>>
    ensures { (below : Below) → option_and_then (filled below) result ≡ merge_form below (data_of rest.now) }
{
    match rest {
        [_, _, ..] => Some(Layout::Many(Many::MergeE, rest)),
        _ => None,
    }
}
