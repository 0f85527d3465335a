//! How deep a core expression nests, read off the expression that it stands for.
ghost use Rattle.std.specs.Prelude.{◌≡◌, ◌+◌, ◌≤◌, List, map, max, min, take};
ghost use Rattle.fr_core.specs.WellFormed.{nesting};
ghost use Rattle.fr_scope.specs.Meanings.{Binder};
ghost use Rattle.fr_syntax.specs.Outlines.{Global};
ghost use Rattle.fr_value.specs.Data.{greatest};
ghost use Rattle.fr_expand.specs.Depths.{depth, around, and_depth, or_depth, count_end};
ghost use Rattle.fr_expand.specs.Translation.{core_of};

use fr_syntax::Expr;

/// Where the count of levels ends: one above what a program may nest to.
const END: u32 = 501;

/// How deep the core expression nests that an expression stands for, whatever its names mean. 501 stands for all above 500.
///
/// It takes time in the expression's size, no memory, and stack only for what nests in the text itself.
pub(crate) fn depth(expr: &Expr) -> u32
    ensures { (globals : List Global) (scope : List Binder) → result ≡ min count_end (nesting (core_of globals expr.now scope)) }
{
    depth_of(expr)
}

/// One level above parts of that depth.
fn above(parts: u32) -> u32
    requires { parts ≤ count_end }
    ensures { result ≡ min count_end (1 + parts) }
{
    (1 + parts).min(END)
}

/// The depth of an expression.
#[cycle(depth)]
#[tactic(auto, using(crate::proofs::Views::depth_opens, crate::proofs::Opened::opened, crate::proofs::Chains::capped))]
fn depth_of(expr: &Expr) -> u32
    ensures { result ≡ min count_end (depth expr.now) }
{
    match expr {
        Expr::Literal(_) | Expr::Name(_) => 1,
        Expr::Let(_, parts, body) => {
            let greatest = depth_of_each(parts.as_slice());
            above(greatest.max(depth_of(body.get())))
        }
        Expr::LetStar(names, parts, body) => {
            depth_of_chain(parts.as_slice(), names.len(), depth_of(body.get()))
        }
        Expr::Cond(tests, parts, other) => {
            let other = depth_of(other.get());
            let first = depth_of_chain(tests.as_slice(), parts.len(), other);
            first.max(depth_of_chain(parts.as_slice(), tests.len(), other))
        }
        Expr::And(parts) => depth_of_and(parts.as_slice()),
        Expr::Or(parts) => depth_of_or(parts.as_slice()),
        Expr::MergeE(parts) | Expr::Call(_, parts) => above(depth_of_each(parts.as_slice())),
        Expr::If(a, b, c)
        | Expr::Fold(_, _, a, b, c)
        | Expr::Repeat(_, a, b, c)
        | Expr::CollectB(a, b, _, _, c)
        | Expr::CollectE(a, b, _, _, c) => {
            above(
                depth_of(a.get())
                    .max(depth_of(b.get()))
                    .max(depth_of(c.get())),
            )
        }
        Expr::MapE(_, b, a)
        | Expr::FilterE(_, b, a)
        | Expr::Hold(a, b)
        | Expr::Delay(a, b)
        | Expr::Feedback(_, a, b) => above(depth_of(a.get()).max(depth_of(b.get()))),
        Expr::Changes(a) | Expr::OnceE(a) | Expr::DelayE(a) => above(depth_of(a.get())),
    }
}

/// The greatest depth of any, and 0 where there is none.
#[cycle(depth)]
fn depth_of_each(exprs: &[Expr]) -> u32
    ensures { result ≡ min count_end (greatest (map depth exprs.now)) }
{
    let mut greatest = 0;
    for expr in exprs {
        greatest = depth_of(expr).max(greatest);
    }
    greatest
}

/// The depth where each of the first parts, so many at most, stands in an expression around what is behind it, and what
/// stands last has that depth.
#[cycle(depth)]
fn depth_of_chain(parts: &[Expr], count: usize, last: u32) -> u32
    requires { last ≤ count_end }
    ensures { result ≡ min count_end (around (take count (map depth parts.now)) last) }
{
    let mut rest = last;
    for at in (0..count.min(parts.len())).rev() {
        rest = above(depth_of(&parts[at]).max(rest));
    }
    rest
}

/// The depth where each part but the last is a test around what is behind it.
#[cycle(depth)]
fn depth_of_and(parts: &[Expr]) -> u32
    ensures { result ≡ min count_end (and_depth (map depth parts.now)) }
{
    let Some(last) = parts.last() else {
        return 1;
    };
    let mut rest = depth_of(last);
    for at in (0..parts.len() - 1).rev() {
        rest = above(depth_of(&parts[at]).max(rest));
    }
    rest
}

/// The depth where each part but the last is bound and tested around what is behind it.
#[cycle(depth)]
fn depth_of_or(parts: &[Expr]) -> u32
    ensures { result ≡ min count_end (or_depth (map depth parts.now)) }
{
    let Some(last) = parts.last() else {
        return 1;
    };
    let mut rest = depth_of(last);
    for at in (0..parts.len() - 1).rev() {
        rest = above(depth_of(&parts[at]).max(above(rest)));
    }
    rest
}
