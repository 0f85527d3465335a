//! The two choices of the switch at each site.
ghost use Rattle.std.specs.Prelude.{◌≡◌, ◌≢◌, ◌++◌, ℕ, Some, IfOk, OnOk, map};
ghost use Rattle.std.specs.Option.{option_map};
ghost use Rattle.fr_core.specs.Sites.{item_expr, parts, HasSitesOnce};
ghost use Rattle.fr_ready.specs.Seen.{branches_seen, entries_seen, lows_seen};
ghost use Rattle.fr_ready.specs.Switches.{found_at, sites_by, HasFoundAll, WasNoted};

use fr_core::{Low, LowFunction, LowItem, Lowered};
use fr_value::{SiteId, Value};
use std::alloc::{AllocError, Global};
use std::marker::Model;

/// The two choices of a switch.
#[derive(Clone, Copy)]
pub struct Branches<'a> {
    /// What is evaluated where the test isn't `#f`.
    pub yes: &'a Low,
    /// What is evaluated where it is.
    pub no: &'a Low,
}

/// The choices at each site of a lowered program, which are borrowed from it. Contracts see for each number of a site what
/// was found there.
#[derive(Drop)]
pub struct ChoicesAt<'a> {
    found: Vec<Option<Branches<'a>>>,
    // what stands for the choices of a site without a switch
    missing: Low,
}

impl<'a> Model for ChoicesAt<'a> {
    ghost use Rattle.fr_ready.specs.Switches.{Found, found_code};

    ghost Value = { Found };

    ghost coded = { found_code };

    ghost use Rattle.fr_ready.specs.Seen.{entries_seen};

    ghost view = { λ c. entries_seen c.found.items };

    ghost use Rattle.std.specs.Prelude.{◌≡◌};
    ghost use Rattle.fr_ready.specs.Switches.{no_choice};

    ghost invariant = { λ c. c.missing ≡ no_choice };
}

/// Puts the choices at a site. It fails only where there is no memory.
fn put<'a>(
    found: &mut Vec<Option<Branches<'a>>>,
    site: SiteId,
    branches: Branches<'a>,
) -> Result<(), AllocError>
    ensures here { OnOk result (found_at (entries_seen found.new.items) site.0 ≡ Some (branches_seen branches.entry)) }
    ensures elsewhere { OnOk result ((n : ℕ) → n ≢ site.0
        → found_at (entries_seen found.new.items) n ≡ found_at (entries_seen found.old.items) n) }
{
    let index = site.0 as usize;
    while found.len() <= index {
        found.push(None)?;
    }
    found[index] = Some(branches);
    Ok(())
}

/// Adds the parts of an expression to those that wait.
fn wait_for_parts<'a>(waiting: &mut Vec<&'a Low>, e: &'a Low) -> Result<(), AllocError>
    ensures { OnOk result (lows_seen waiting.new.items ≡ lows_seen waiting.old.items ++ parts e.now) }
{
    let mut number = 0;
    while let Some(part) = e.part(number) {
        waiting.push(part)?;
        number += 1;
    }
    Ok(())
}

/// Adds the bodies of functions to those that wait.
fn wait_for_functions<'a>(
    waiting: &mut Vec<&'a Low>,
    functions: &'a [LowFunction],
) -> Result<(), AllocError>
    ensures { OnOk result (lows_seen waiting.new.items ≡ lows_seen waiting.old.items ++ map (λ f. f.body) functions.now) }
{
    for function in functions {
        waiting.push(&function.body)?;
    }
    Ok(())
}

fn expr_of(item: &LowItem) -> &Low
    ensures { result.now ≡ item_expr item.now }
{
    match item {
        LowItem::Define(e) => e,
        LowItem::Show(_, e) => e,
    }
}

/// Adds the expressions of items to those that wait.
fn wait_for_items<'a>(waiting: &mut Vec<&'a Low>, items: &'a [LowItem]) -> Result<(), AllocError>
    ensures { OnOk result (lows_seen waiting.new.items ≡ lows_seen waiting.old.items ++ map item_expr items.now) }
{
    for item in items {
        waiting.push(expr_of(item))?;
    }
    Ok(())
}

/// Puts the choices of a switch at its site. It fails only where there is no memory.
fn note<'a>(found: &mut Vec<Option<Branches<'a>>>, e: &'a Low) -> Result<(), AllocError>
    ensures { OnOk result (WasNoted (entries_seen found.old.items) (entries_seen found.new.items) e.now) }
{
    match e {
        Low::If(site, _, yes, no) => put(
            found,
            *site,
            Branches {
                yes: yes.get(),
                no: no.get(),
            },
        ),
        _ => Ok(()),
    }
}

impl<'a> ChoicesAt<'a> {
    /// The choices at the sites of a lowered program, in which each site stands at one place only. It goes over the program
    /// once, takes memory in proportion to it and to the greatest number of a site, and fails only where there is none.
    pub fn of(alloc: Global, lowered: &'a Lowered) -> Result<ChoicesAt<'a>, AllocError>
        requires { HasSitesOnce lowered.now }
        ensures { IfOk result (λ choices. HasFoundAll lowered.now choices) }
    {
        let mut found = Vec::new(alloc);
        let mut waiting = Vec::new(alloc);
        wait_for_functions(&mut waiting, lowered.functions.as_slice())?;
        wait_for_items(&mut waiting, lowered.body.as_slice())?;
        while let Some(e) = waiting.pop() {
            note(&mut found, e)?;
            wait_for_parts(&mut waiting, e)?;
        }
        Ok(ChoicesAt {
            found,
            missing: Low::Lit(Value::Bool(false)),
        })
    }

    /// The choices at a site; None where none were found. It takes no memory, and the time doesn't depend on how many
    /// sites there are.
    pub fn at(&self, site: SiteId) -> Option<Branches<'a>>
        ensures { option_map branches_seen result ≡ found_at self.now site.0 }
    {
        match self.found.get(site.0 as usize) {
            Some(found) => *found,
            None => None,
        }
    }

    /// The choices at a site; where none were found, each is the literal `#f`. It takes no memory, and the time doesn't
    /// depend on how many sites there are.
    pub fn choices(&self, site: SiteId) -> Branches<'_>
        ensures { branches_seen result ≡ sites_by self.now site.0 }
    {
        match self.at(site) {
            Some(found) => Branches {
                yes: found.yes,
                no: found.no,
            },
            None => Branches {
                yes: &self.missing,
                no: &self.missing,
            },
        }
    }
}
