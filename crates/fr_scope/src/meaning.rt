use fr_value::{FunId, Primitive, SrcId, VarId};

/// What a name means at a place of a program.
#[derive(Clone, Copy, Debug, PartialEq, Eq)]
pub enum Meaning {
    /// A variable in scope there.
    Variable(VarId),
    /// `now`, an input or an event.
    Source(SrcId),
    /// A function of the program.
    Function(FunId),
    Primitive(Primitive),
}
