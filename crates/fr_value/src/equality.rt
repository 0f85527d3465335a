ghost use Rattle.std.specs.Prelude.{◌≡◌, ◌↔◌, IsTrue, length};
ghost use Rattle.fr_value.specs.Same.{is_same};

use crate::list::List;
use crate::value::Value;

/// Whether two values have the same structure.
pub fn same(a: &Value, b: &Value) -> bool
    ensures value { IsTrue result ↔ (a.now ≡ b.now) }
    ensures test { result ≡ is_same a.now b.now }
{
    same_value(a, b)
}

#[cycle(same)]
fn same_value(a: &Value, b: &Value) -> bool
    ensures { IsTrue result ↔ (a.now ≡ b.now) }
{
    match (a, b) {
        (Value::Int(x), Value::Int(y)) => x == y,
        (Value::Bool(x), Value::Bool(y)) => x == y,
        (Value::Sym(x), Value::Sym(y)) => x.same(y),
        (Value::Str(x), Value::Str(y)) => x.same(y),
        (Value::List(x), Value::List(y)) => same_lists(x, y),
        _ => false,
    }
}

#[cycle(same)]
fn same_lists(a: &List, b: &List) -> bool
    ensures { IsTrue result ↔ (a.now ≡ b.now) }
{
    if a.len() != b.len() {
        return false;
    }
    let mut at = 0;
    while at < a.len() {
        let (x, xs) = a.run(at);
        let (y, ys) = b.run(at);
        let near = xs.len().min(ys.len());
        if !same_value(x, y) || !same_items(&xs[..near], &ys[..near]) {
            return false;
        }
        at += 1 + near;
    }
    true
}

#[cycle(same)]
fn same_items(a: &[Value], b: &[Value]) -> bool
    requires { length a.now ≡ length b.now }
    ensures { IsTrue result ↔ (a.now ≡ b.now) }
{
    for i in 0..a.len() {
        if !same_value(&a[i], &b[i]) {
            return false;
        }
    }
    true
}
