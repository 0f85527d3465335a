ghost use Rattle.std.specs.Prelude.{◌≡◌, IfOk};
ghost use Rattle.fr_core.specs.Classes.{IsFit, IsFitExpr};
ghost use Rattle.fr_lower.specs.Making.{given, AreGiven};
ghost use Rattle.fr_lower.specs.Tops.{WereFunctions, WereItems, WasItem, expr_of_item, item_binds};

use crate::finding::lowered_whole;
use crate::making::Made;
use crate::outside::widened;
use fr_core::{Item, LowFunction, LowItem, Program};
use fr_purity::Classes;
use sqlite_items::Items;
use std::alloc::{AllocError, Global};

/// The lowered functions of a program.
pub(crate) fn lowered_functions(
    alloc: Global,
    program: &Program,
    classes: Option<&Classes>,
    made: &mut Made,
) -> Result<Items<LowFunction>, AllocError>
    requires classes { AreGiven program.now (given classes) }
    requires table { made.old.table.functions ≡ program.now.functions }
    requires fit { IsFit program.now }
    ensures { IfOk result (λ fs. WereFunctions program.now (given classes.entry) made.old made.new fs) }
{
    let mut functions = Items::new(alloc);
    for function in program.functions.as_slice() {
        let name = function.name.share()?;
        let params = function.params;
        let body = lowered_whole(alloc, program, classes, made, params, &function.body)?;
        functions.push(LowFunction { name, params, body })?;
    }
    Ok(functions)
}

/// The lowered form of an item, where so many variables are in scope.
fn lowered_item(
    alloc: Global,
    program: &Program,
    classes: Option<&Classes>,
    made: &mut Made,
    variables: u32,
    item: &Item,
) -> Result<LowItem, AllocError>
    requires classes { AreGiven program.now (given classes) }
    requires table { made.old.table.functions ≡ program.now.functions }
    requires fit { IsFitExpr program.now (expr_of_item item.now) }
    ensures { IfOk result (λ l. WasItem program.now (given classes.entry) variables made.old made.new item.now l) }
{
    match item {
        Item::Define(e) => {
            let low = lowered_whole(alloc, program, classes, made, variables, e)?;
            Ok(LowItem::Define(low))
        }
        Item::Show(name, e) => {
            let name = name.share()?;
            let low = lowered_whole(alloc, program, classes, made, variables, e)?;
            Ok(LowItem::Show(name, low))
        }
    }
}

/// The number of variables that an item binds for those behind it.
fn bound_by_item(item: &Item) -> usize
    ensures { result ≡ item_binds item.now }
{
    match item {
        Item::Define(_) => 1,
        Item::Show(_, _) => 0,
    }
}

/// The lowered items of a program.
pub(crate) fn lowered_items(
    alloc: Global,
    program: &Program,
    classes: Option<&Classes>,
    made: &mut Made,
) -> Result<Items<LowItem>, AllocError>
    requires classes { AreGiven program.now (given classes) }
    requires table { made.old.table.functions ≡ program.now.functions }
    requires fit { IsFit program.now }
    ensures { IfOk result (λ is. WereItems program.now (given classes.entry) made.old made.new is) }
{
    let mut items = Items::new(alloc);
    let mut variables = 0;
    for item in program.body.as_slice() {
        items.push(lowered_item(alloc, program, classes, made, variables, item)?)?;
        variables = widened(variables, bound_by_item(item))?;
    }
    Ok(items)
}
