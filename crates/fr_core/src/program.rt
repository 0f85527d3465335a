use crate::core_form::Core;
use fr_value::{SrcId, Symbol, Value};
use sqlite_items::Items;

/// A behaviour that the script sets.
#[derive(Drop)]
pub struct Input {
    /// Its number among the sources.
    pub source: SrcId,
    pub name: Symbol,
    /// Its value before it is set.
    pub first: Value,
}

/// An event stream whose occurrences the script gives.
#[derive(Drop)]
pub struct Event {
    /// Its number among the sources.
    pub source: SrcId,
    pub name: Symbol,
}

/// A global function. Its parameters are the variables from 0 on.
#[derive(Drop)]
pub struct Function {
    pub name: Symbol,
    /// The number of its parameters.
    pub params: u32,
    pub body: Core,
}

/// An item of a program's body.
#[derive(Drop)]
pub enum Item {
    /// A value, which binds one variable for the items behind it.
    Define(Core),
    /// A displayed value and its name.
    Show(Symbol, Core),
}

/// A program. Its sources are `now`, of number 0, its inputs and its events. Its items are evaluated in their order.
#[derive(Drop)]
pub struct Program {
    /// In rising order of their sources.
    pub inputs: Items<Input>,
    /// In rising order of their sources.
    pub events: Items<Event>,
    /// A call names a function by its place here.
    pub functions: Items<Function>,
    pub body: Items<Item>,
}
