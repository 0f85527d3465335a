ghost use Rattle.std.specs.Prelude.{◌≡◌, ℕ, true, List, [], ◌∷◌, Option};
ghost use Rattle.fr_value.specs.declared.now.Now.{Now};
ghost use Rattle.fr_core.specs.declared.kept.Kept.{Kept};
ghost use Rattle.fr_core.specs.declared.kept.Kept.TheVariants as kept;
ghost use Rattle.fr_core.specs.declared.lowered.Low.{Low};
ghost use Rattle.fr_core.specs.declared.lowered.LowItem.{LowItem};
ghost use Rattle.fr_core.specs.declared.program.Program.{Program};
ghost use Rattle.fr_meaning.specs.Cells.{Cell};
ghost use Rattle.fr_graph.specs.Graph.{Part, Graph};
ghost use Rattle.fr_graph.specs.Walk.{Plan, place};
ghost use Rattle.fr_graph.specs.Wired.{Wired};
ghost use Rattle.fr_graph.specs.Known.{Reads};
ghost use Rattle.fr_graph.specs.Goes.{Goes, IsEmpty as HasNone};
ghost use Rattle.fr_graph.specs.Items.{AreLowered, body_walk, place_items, ItemsStand, HasNodes, IsSettled, StandsForTree, IsAfresh};
ghost use Rattle.fr_way.specs.Frame.{IsFramed};
ghost use Rattle.fr_way.specs.Way.{Way, cell_in};
ghost use Rattle.fr_way.specs.Steps.{Computes};
ghost use Rattle.fr_way.specs.Turns.{Turns};
ghost use Rattle.fr_way.specs.Ends.{IsBuilt, HasEndedWell};
ghost use Rattle.fr_way.specs.Fronts.{AreUsed};
ghost use Rattle.fr_way.specs.Burial.{Buries};
ghost use Rattle.fr_way.specs.Loop.{NothingAwaits, InUseBelow, IsWhole, IsOnItsWay, Starts, Closes};

/// Burying changes nothing that lives, whatever becomes of the numbers that are given up: the nodes stand and are at rest,
/// the graph is framed, stands for the same kept trees and shows the same, and is for the instant behind it and the one
/// before it what it was. Either graph is the other one, buried, so each law leads both ways.
pub fn burying_changes_nothing_that_lives()
    ensures back { (old new : Graph) → Buries old new → Buries new old }
    ensures framed { (old new : Graph) (height heights : ℕ → ℕ) → Buries old new → ((m : ℕ) → old.live m ≡ true → heights m ≡ height m) → IsFramed old height → IsFramed new heights }
    ensures nodes { (old new : Graph) (height : ℕ → ℕ) (p : Plan) (is : List LowItem) (ms : List ℕ) → Buries old new → IsFramed old height → HasNodes old p is ms → HasNodes new p is ms }
    ensures settled { (old new : Graph) (height : ℕ → ℕ) (p : Plan) (sources : List Now) (before : ℕ → Option Cell) → Buries old new → IsFramed old height
        → IsSettled old p sources before → IsSettled new p sources before }
    ensures used { (old new : Graph) (p : Plan) (is : List LowItem) (ms : List ℕ) → Buries old new → AreUsed old p is ms → AreUsed new p is ms }
    ensures stands { (old new : Graph) (p : Plan) (is : List LowItem) (ms : List ℕ) (k : Kept) → Buries old new → HasNodes old p is ms → StandsForTree old p is ms k → StandsForTree new p is ms k }
    ensures afresh { (old new : Graph) (pr : Program) (p : Plan) (is : List LowItem) (ms : List ℕ) (sources : List Now) (k : Kept) → Buries old new → HasNodes old p is ms
        → IsAfresh old pr p is ms sources k → IsAfresh new pr p is ms sources k }
    ensures cells { (old new : Graph) (m : ℕ) → Buries old new → cell_in new m ≡ cell_in old m }
    ensures goes_to { (was old new : Graph) (before : ℕ → Option Cell) → Buries old new → Goes was old before → Goes was new before }
    ensures goes_from { (old new next : Graph) (before : ℕ → Option Cell) → Buries old new → Goes old next before → Goes new next before }
    ensures ended { (p : Plan) (is : List LowItem) (ms : List ℕ) (sources : List Now) (was old new : Graph) (height heights : ℕ → ℕ) → Buries old new
        → ((m : ℕ) → old.live m ≡ true → heights m ≡ height m) → HasEndedWell p is ms sources was old height → HasEndedWell p is ms sources was new heights }
{}

/// What stands for an expression never changes or is the value of a node that lives, where so it is with what stands for
/// the variables in scope; and so it is with all that is shown. What a live node names lives too
/// (`nothing_that_lives_names_what_ended`).
pub fn what_is_shown_lives()
    ensures placed { (g : Graph) (p : Plan) (x n : ℕ) (e : Low) (env : List Part) (ms : List ℕ) → ((j : ℕ) → Reads j env → g.live j ≡ true) → Wired g p x n e env ms
        → (j : ℕ) → Reads j ((place p n e env ms).part ∷ []) → g.live j ≡ true }
    ensures shown { (g : Graph) (p : Plan) (is : List LowItem) (ms : List ℕ) → ItemsStand (body_walk p) (Wired g p 0 2000) [] is ms
        → (j : ℕ) → Reads j (place_items (body_walk p) [] is ms).parts → g.live j ≡ true }
{}

/// What the loop over a graph's instants needs holds as an instant begins, is kept where a node is computed and where a
/// watch turns, and holds again where the instant has closed. The numbers in use stay below the bound wherever those that
/// a turning takes do.
pub fn instants_keep_what_their_loop_needs()
    ensures first { (p : Plan) (is : List LowItem) (ms : List ℕ) (numbers : ℕ) (sources : List Now) (old : Graph) (at : Way)
        → IsBuilt p is ms old at → AreUsed at.graph p is ms → NothingAwaits at → InUseBelow numbers at → IsOnItsWay p is ms numbers sources old at }
    ensures further { (p : Plan) (is : List LowItem) (ms : List ℕ) (numbers : ℕ) (sources before_sources : List Now) (before : ℕ → Option Cell) (was at : Way)
        → IsWhole p is ms numbers before_sources before was → Starts sources was at → IsOnItsWay p is ms numbers sources was.graph at }
    ensures computed { (p : Plan) (is : List LowItem) (ms : List ℕ) (numbers : ℕ) (sources : List Now) (old : Graph) (at next : Way) (m : ℕ)
        → IsOnItsWay p is ms numbers sources old at → Computes p sources old at next m → IsOnItsWay p is ms numbers sources old next }
    ensures turned { (p : Plan) (is : List LowItem) (ms : List ℕ) (numbers : ℕ) (sources : List Now) (old : Graph) (at t1 t2 t3 t4 t5 next : Way) (w : ℕ)
        → IsOnItsWay p is ms numbers sources old at → Turns p sources old at t1 t2 t3 t4 t5 next w → InUseBelow numbers next → IsOnItsWay p is ms numbers sources old next }
    ensures closed { (p : Plan) (is : List LowItem) (ms : List ℕ) (numbers : ℕ) (sources : List Now) (old : Graph) (at : Way) (latched : Graph) (next : Way)
        → IsOnItsWay p is ms numbers sources old at → Closes at latched next → IsWhole p is ms numbers sources (cell_in old) next }
    ensures goes { (p : Plan) (is : List LowItem) (ms : List ℕ) (numbers : ℕ) (sources : List Now) (old : Graph) (at : Way) (latched : Graph) (next : Way)
        → IsOnItsWay p is ms numbers sources old at → Closes at latched next → Goes old next.graph (cell_in old) }
{}

/// An instant that has closed shows what evaluating the program's body afresh shows, which errs nowhere, and its graph
/// stands for what that keeps, once what awaited burial is buried: at the first instant over nothing kept, and at each
/// further one over every tree for which the graph stood before.
pub fn what_has_closed_is_afresh()
    ensures first { (pr : Program) (p : Plan) (is : List LowItem) (ms : List ℕ) (numbers : ℕ) (sources : List Now) (old : Graph) (at : Way) (latched : Graph) (next : Way)
        → AreLowered pr p is → HasNone old → IsOnItsWay p is ms numbers sources old at → Closes at latched next → IsAfresh next.graph pr p is ms sources kept.Nothing }
    ensures further { (pr : Program) (p : Plan) (is : List LowItem) (ms : List ℕ) (numbers : ℕ) (sources : List Now) (old : Graph) (at : Way) (latched : Graph) (next : Way) (k : Kept)
        → AreLowered pr p is → HasNodes old p is ms → StandsForTree old p is ms k → IsOnItsWay p is ms numbers sources old at → Closes at latched next → IsAfresh next.graph pr p is ms sources k }
{}
