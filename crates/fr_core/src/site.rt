ghost use Rattle.std.specs.Prelude.{◌≡◌, [], ◌∷◌, IsTrue, ◌↔◌, Some, map};
ghost use Rattle.std.specs.Option.{option_copied};
ghost use Rattle.fr_core.specs.Sites.{Finds, site_of, bodies, item_expr};

use crate::lowered::{Low, LowFunction, LowItem, Lowered};
use fr_value::SiteId;

/// Whether an expression carries this site.
fn carries(e: &Low, site: SiteId) -> bool
    ensures { IsTrue result ↔ (site_of e.now ≡ Some site) }
{
    match e {
        Low::If(own, _, _, _) => *own == site,
        _ => false,
    }
}

/// The expression that carries the site among this one and what stands in it.
fn site_in(e: &Low, site: SiteId) -> Option<&Low>
    ensures { Finds site (e.now ∷ []) (option_copied result) }
{
    if carries(e, site) {
        return Some(e);
    }
    let mut number = 0;
    while let Some(part) = e.part(number) {
        if let Some(found) = site_in(part, site) {
            return Some(found);
        }
        number += 1;
    }
    None
}

fn site_in_functions(functions: &[LowFunction], site: SiteId) -> Option<&Low>
    ensures { Finds site (map (λ f. f.body) functions.now) (option_copied result) }
{
    for function in functions {
        if let Some(found) = site_in(&function.body, site) {
            return Some(found);
        }
    }
    None
}

fn expr_of(item: &LowItem) -> &Low
    ensures { result.now ≡ item_expr item.now }
{
    match item {
        LowItem::Define(e) => e,
        LowItem::Show(_, e) => e,
    }
}

fn site_in_items(items: &[LowItem], site: SiteId) -> Option<&Low>
    ensures { Finds site (map item_expr items.now) (option_copied result) }
{
    for item in items {
        if let Some(found) = site_in(expr_of(item), site) {
            return Some(found);
        }
    }
    None
}

impl Lowered {
    /// The whole expression that carries a site; None exactly where the site's number stands nowhere in the program.
    pub fn site(&self, site: SiteId) -> Option<&Low>
        ensures { Finds site (bodies self.now) (option_copied result) }
    {
        match site_in_functions(self.functions.as_slice(), site) {
            Some(found) => Some(found),
            None => site_in_items(self.body.as_slice(), site),
        }
    }
}
