ghost use Rattle.std.specs.Prelude.{◌≡◌, ℕ, Bool, true, List, []};
ghost use Rattle.fr_core.specs.declared.lowered.LowItem.{LowItem};
ghost use Rattle.fr_graph.specs.Graph.{Graph};
ghost use Rattle.fr_graph.specs.Walk.{Plan};
ghost use Rattle.fr_graph.specs.Goes.{IsEmpty};
ghost use Rattle.fr_way.specs.Way.{Way};
ghost use Rattle.fr_way.specs.Ends.{IsBuilt};
ghost use Rattle.fr_way.specs.Fronts.{AreUsed};
ghost use Rattle.fr_way.specs.Loop.{NothingAwaits};
ghost use Rattle.fr_nodes.specs.Kinds.{Sites};
ghost use Rattle.fr_world.specs.Calls.{HasSources};
ghost use Rattle.fr_build.specs.Ready.{IsGround};
ghost use Rattle.fr_start.specs.Start.{BuildsBody, EachHasNode, NoOtherIsSource, OthersAreAmong, ResultsReadNothing, NoneHasChosen};

/// Where only the sources of a program have nodes, what its body needs to be built in the program's era is there.
pub fn a_body_can_be_built_behind_sources()
    ensures { (way : Sites → Way) (has_era : ℕ → Bool) (many : ℕ) → ((sites : Sites) → HasSources (way sites) many) → has_era 0 ≡ true → IsGround way has_era 0 [] many }
{}

/// A program's graph as its first instant begins, once its body was built behind its sources: it is built over a graph
/// without nodes, as a first instant asks; the items use each node but the sources', and nothing awaits burial. Each source
/// has its node, every other node was added for the body, and no watch has chosen yet.
pub fn what_a_body_begins_with()
    ensures built { (p : Plan) (is : List LowItem) (many : ℕ) (old : Graph) (at new : Way) (added : List ℕ) → IsEmpty old → BuildsBody p is many at new added → IsBuilt p is added old new }
    ensures used { (p : Plan) (is : List LowItem) (many : ℕ) (at new : Way) (added : List ℕ) → BuildsBody p is many at new added → AreUsed new.graph p is added }
    ensures awaits { (p : Plan) (is : List LowItem) (many : ℕ) (at new : Way) (added : List ℕ) → BuildsBody p is many at new added → NothingAwaits new }
    ensures sources { (p : Plan) (is : List LowItem) (many : ℕ) (at new : Way) (added : List ℕ) → BuildsBody p is many at new added → EachHasNode many new.graph }
    ensures no_more { (p : Plan) (is : List LowItem) (many : ℕ) (at new : Way) (added : List ℕ) → BuildsBody p is many at new added → NoOtherIsSource many new.graph }
    ensures others { (p : Plan) (is : List LowItem) (many : ℕ) (at new : Way) (added : List ℕ) → BuildsBody p is many at new added → OthersAreAmong added new.graph }
    ensures unread { (p : Plan) (is : List LowItem) (many : ℕ) (at new : Way) (added : List ℕ) → BuildsBody p is many at new added → ResultsReadNothing new.graph }
    ensures unchosen { (p : Plan) (is : List LowItem) (many : ℕ) (at new : Way) (added : List ℕ) → BuildsBody p is many at new added → NoneHasChosen new.graph }
{}
