/// A node of the graph.
#[derive(Clone, Copy, Debug, PartialEq, Eq)]
pub struct NodeId(pub u32);

/// An era: the life of one choice of a switch.
#[derive(Clone, Copy, Debug, PartialEq, Eq)]
pub struct EraId(pub u32);

/// A place of a program at which nodes are made.
#[derive(Clone, Copy, Debug, PartialEq, Eq)]
pub struct SiteId(pub u64);

/// A function of a program, by its number.
#[derive(Clone, Copy, Debug, PartialEq, Eq)]
pub struct FunId(pub u32);

/// A kernel: a pure expression that is computed as a whole.
#[derive(Clone, Copy, Debug, PartialEq, Eq)]
pub struct KernId(pub u64);

/// A variable, counted from the outermost one in scope.
#[derive(Clone, Copy, Debug, PartialEq, Eq)]
pub struct VarId(pub u32);

/// A source of a program: 0 is `now`, the others are its inputs and events in their order.
#[derive(Clone, Copy, Debug, PartialEq, Eq)]
pub struct SrcId(pub u32);
