ghost use Rattle.std.specs.Prelude.{◌≡◌, ℕ, suc, true, List, [], ◌∷◌, Option, None};
ghost use Rattle.fr_value.specs.declared.now.Now.{Now};
ghost use Rattle.fr_core.specs.declared.kept.Kept.{Kept};
ghost use Rattle.fr_core.specs.declared.kept.Kept.TheVariants as kept;
ghost use Rattle.fr_core.specs.declared.lowered.Low.{Low};
ghost use Rattle.fr_core.specs.declared.lowered.LowItem.{LowItem};
ghost use Rattle.fr_core.specs.declared.program.Program.{Program};
ghost use Rattle.fr_meaning.specs.Afresh.{body};
ghost use Rattle.fr_meaning.specs.Cells.{Cell};
ghost use Rattle.fr_queue.specs.Queue.{IsEmpty};
ghost use Rattle.fr_graph.specs.Graph.{Part, Graph};
ghost use Rattle.fr_graph.specs.Walk.{Plan, place};
ghost use Rattle.fr_graph.specs.Sound.{IsPlanOf};
ghost use Rattle.fr_graph.specs.Wired.{Wired, EraStands};
ghost use Rattle.fr_graph.specs.Goes.{IsEmpty as HasNone};
ghost use Rattle.fr_graph.specs.Items.{AreLowered, HasNodes, IsSettled, StandsForTree, IsUnderWay};
ghost use Rattle.fr_way.specs.Frame.{AreCalm, IsFramed};
ghost use Rattle.fr_way.specs.Calm.{KernelsCalm};
ghost use Rattle.fr_way.specs.Stay.{StaysIn};
ghost use Rattle.fr_way.specs.Way.{Way, cell_in, UnderWay};
ghost use Rattle.fr_way.specs.Steps.{SameShape, IsLeast, Computes, Rebuilds};
ghost use Rattle.fr_way.specs.Ends.{IsBuilt, Begins, Takes, HasEndedWell};
ghost use Rattle.fr_way.specs.Fronts.{IsFront, every_node, AreUsed, ErrsAt, ErrsAtEnd};

/// What stands in an era goes on standing in another graph where the nodes of that era stay, whatever becomes of other
/// eras; and so does the era of a watch where its members, its level and its result's inputs are the same.
pub fn eras_stand_alone()
    ensures expression { (old new : Graph) (p : Plan) (x : ℕ) → StaysIn x old new → (n : ℕ) (e : Low) (env : List Part) (ms : List ℕ) → Wired old p x n e env ms → Wired new p x n e env ms }
    ensures era { (old new : Graph) (p : Plan) (w : ℕ) (e : Low) (env : List Part) → StaysIn (suc w) old new → new.members (suc w) ≡ old.members (suc w) → new.level w ≡ old.level w
        → new.inputs (new.result_of w) ≡ old.inputs (old.result_of w) → EraStands old p w e env → EraStands new p w e env }
{}

/// An instant is under way as it begins: the first one over a graph that was built, and each further one over a graph at
/// the end of an instant, where what may change by itself is queued.
pub fn instants_begin()
    ensures first { (p : Plan) (is : List LowItem) (ms : List ℕ) (sources : List Now) (old : Graph) (at : Way) → IsBuilt p is ms old at → UnderWay p is ms sources old at }
    ensures further { (p : Plan) (is : List LowItem) (ms : List ℕ) (sources was : List Now) (before : ℕ → Option Cell) (old : Graph) (at : Way)
        → IsFramed old at.height → HasNodes old p is ms → IsSettled old p was before → Begins sources old at → UnderWay p is ms sources old at }
{}

/// An instant goes on where a queued node of least height is computed.
pub fn instants_go_on()
    ensures { (p : Plan) (is : List LowItem) (ms : List ℕ) (sources : List Now) (old : Graph) (at new : Way) (m : ℕ)
        → UnderWay p is ms sources old at → Computes p sources old at new m → UnderWay p is ms sources old new }
{}

/// An instant has ended where nothing is queued and the late works took the values of their last parts.
pub fn instants_end()
    ensures { (p : Plan) (is : List LowItem) (ms : List ℕ) (sources : List Now) (old : Graph) (at : Way) (new : Graph)
        → UnderWay p is ms sources old at → IsEmpty at.queued → Takes at.graph new → HasEndedWell p is ms sources old new at.height }
{}

/// The nodes below the one that is taken are right, and where nothing is queued all of them are.
pub fn what_is_below_is_right()
    ensures front { (p : Plan) (is : List LowItem) (ms : List ℕ) (sources : List Now) (old : Graph) (at : Way) (m h : ℕ) → UnderWay p is ms sources old at → IsLeast at m h → IsFront p is ms sources old at m h }
    ensures all { (p : Plan) (is : List LowItem) (ms : List ℕ) (sources : List Now) (old : Graph) (at : Way)
        → UnderWay p is ms sources old at → IsEmpty at.queued → IsUnderWay at.graph (λ n. every_node n ≡ true) p is ms sources (cell_in old) }
{}

/// The members of the program's era stay used: in a graph of the same shape, and where the era of a watch is built anew.
pub fn members_stay_used()
    ensures shape { (p : Plan) (is : List LowItem) (ms : List ℕ) (old new : Graph) → SameShape old new → AreUsed old p is ms → AreUsed new p is ms }
    ensures rebuilt { (p : Plan) (is : List LowItem) (ms : List ℕ) (sources : List Now) (old : Graph) (at new : Way) (w : ℕ)
        → Rebuilds p sources old at new w → AreUsed at.graph p is ms → AreUsed new.graph p is ms }
{}

/// Where the node that is taken errs on the values that it reads, evaluating the program's body afresh errs: at the first
/// instant over nothing kept, and at each further one over every tree for which the graph stood before.
pub fn errors_on_the_way_are_those_of_evaluating_afresh()
    ensures first { (pr : Program) (p : Plan) (is : List LowItem) (ms : List ℕ) (sources : List Now) (old : Graph) (at : Way) (m h : ℕ)
        → AreLowered pr p is → HasNone old → UnderWay p is ms sources old at → AreUsed at.graph p is ms → IsLeast at m h → ErrsAt at h p old m
        → (body pr sources kept.Nothing).first ≡ None → ⊥ }
    ensures further { (pr : Program) (p : Plan) (is : List LowItem) (ms : List ℕ) (sources : List Now) (old : Graph) (at : Way) (m h : ℕ) (k : Kept)
        → AreLowered pr p is → HasNodes old p is ms → StandsForTree old p is ms k → UnderWay p is ms sources old at → AreUsed at.graph p is ms → IsLeast at m h → ErrsAt at h p old m
        → (body pr sources k).first ≡ None → ⊥ }
{}

/// So it does where a node errs once nothing is queued any more: a late work that refuses the value of its last part.
pub fn errors_at_the_end_are_those_of_evaluating_afresh()
    ensures first { (pr : Program) (p : Plan) (is : List LowItem) (ms : List ℕ) (sources : List Now) (old : Graph) (at : Way) (m : ℕ)
        → AreLowered pr p is → HasNone old → UnderWay p is ms sources old at → AreUsed at.graph p is ms → IsEmpty at.queued → ErrsAtEnd at p old m
        → (body pr sources kept.Nothing).first ≡ None → ⊥ }
    ensures further { (pr : Program) (p : Plan) (is : List LowItem) (ms : List ℕ) (sources : List Now) (old : Graph) (at : Way) (m : ℕ) (k : Kept)
        → AreLowered pr p is → HasNodes old p is ms → StandsForTree old p is ms k → UnderWay p is ms sources old at → AreUsed at.graph p is ms → IsEmpty at.queued → ErrsAtEnd at p old m
        → (body pr sources k).first ≡ None → ⊥ }
{}

/// What stands for an expression of a program never occurs for ever, where nothing that stands for the variables in scope
/// does: so no work of a graph that is built by its walk reads a steady occurrence.
pub fn what_is_placed_is_calm()
    ensures kernels { (pr : Program) (p : Plan) → IsPlanOf pr p → KernelsCalm p.table }
    ensures placed { (p : Plan) → KernelsCalm p.table → (n : ℕ) (e : Low) (env : List Part) (ms : List ℕ) → AreCalm env → AreCalm ((place p n e env ms).part ∷ []) }
{}
