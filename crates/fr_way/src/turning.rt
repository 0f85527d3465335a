ghost use Rattle.std.specs.Prelude.{◌≡◌, ◌≢◌, ◌<◌, ◌≤◌, ℕ, suc, true, false, List, [], ◌∷◌};
ghost use Rattle.std.specs.Option.{option_map};
ghost use Rattle.fr_value.specs.declared.now.Now.{Now};
ghost use Rattle.fr_core.specs.declared.lowered.Low.{Low};
ghost use Rattle.fr_core.specs.declared.lowered.LowItem.{LowItem};
ghost use Rattle.fr_meaning.specs.Words.{Seen};
ghost use Rattle.fr_graph.specs.Graph.{Part, Graph, signal, steady, watch};
ghost use Rattle.fr_graph.specs.Walk.{Plan};
ghost use Rattle.fr_graph.specs.Known.{Reads};
ghost use Rattle.fr_way.specs.Frame.{is_watch, Names, IsFramed, Inside};
ghost use Rattle.fr_way.specs.Way.{Way, UnderWay};
ghost use Rattle.fr_way.specs.Steps.{Computes, IsLeast, Rebuilds};
ghost use Rattle.fr_way.specs.Turns.{chosen_part, IsClear, IsSet, Leaves, Raises, Rechooses, Replaces, Turns};
ghost use Rattle.fr_way.specs.Order.{IsOver, DeadAreLevelled, AreLevelledBut, AreBelow, IsOrdered};

/// A watch that turns to another key, or chooses for the first time, keeps what is under way: the steps of its turning
/// rebuild its era, and what is under way stays so wherever an era is rebuilt.
pub fn a_turning_keeps_what_is_under_way()
    ensures rebuilds { (p : Plan) (is : List LowItem) (ms : List ℕ) (sources : List Now) (old : Graph) (at t1 t2 t3 t4 t5 next : Way) (w : ℕ)
        → UnderWay p is ms sources old at → Turns p sources old at t1 t2 t3 t4 t5 next w → Rebuilds p sources old at next w }
    ensures keeps { (p : Plan) (is : List LowItem) (ms : List ℕ) (sources : List Now) (old : Graph) (at next : Way) (w : ℕ)
        → UnderWay p is ms sources old at → Rebuilds p sources old at next w → UnderWay p is ms sources old next }
{}

/// Nothing that lives names what doesn't: a node that isn't inside the era of a watch, nor the watch's result, names
/// nothing that ends with that era, so what ended can be buried.
pub fn nothing_that_lives_names_what_ended()
    ensures outside { (g : Graph) (height : ℕ → ℕ) (w m j : ℕ) → IsFramed g height → g.live w ≡ true → is_watch (g.kind w) ≡ true
        → g.live m ≡ true → (Inside g (suc w) m → ⊥) → m ≢ g.result_of w → Names g m j → Inside g (suc w) j → ⊥ }
    ensures lives { (g : Graph) (height : ℕ → ℕ) (m j : ℕ) → IsFramed g height → g.live m ≡ true → Names g m j → g.live j ≡ true }
{}

/// Once the choice of a watch is replaced, heights can be raised: only what the watch's result reads may stand too high,
/// and there is an order of all nodes that are in use, those that await burial too.
pub fn heights_can_be_raised()
    ensures levelled { (p : Plan) (is : List LowItem) (ms : List ℕ) (sources : List Now) (old : Graph) (at t1 t2 t3 t4 : Way) (w : ℕ)
        → UnderWay p is ms sources old at → DeadAreLevelled at → Replaces p sources old at t1 t2 t3 t4 w → AreLevelledBut t4 (at.graph.result_of w) }
    ensures ordered { (p : Plan) (is : List LowItem) (ms : List ℕ) (sources : List Now) (old : Graph) (at t1 t2 t3 t4 : Way) (w numbers : ℕ)
        → UnderWay p is ms sources old at → DeadAreLevelled at → Replaces p sources old at t1 t2 t3 t4 w → AreBelow numbers t4.graph → IsOrdered t4 }
    ensures result { (p : Plan) (is : List LowItem) (ms : List ℕ) (sources : List Now) (old : Graph) (at t1 t2 t3 t4 : Way) (w : ℕ)
        → UnderWay p is ms sources old at → DeadAreLevelled at → (t : Replaces p sources old at t1 t2 t3 t4 w) → t.height < t4.height (at.graph.result_of w) }
{}

/// What a raising is given and what it gives. Where a node reads one signal, and all else stands high enough, only what
/// stands above that signal may stand too low, and nothing where the node reads a value; what stands too low stands above
/// each height that the node stands above; and heights that then lead upwards along every edge are raised.
pub fn raising_takes_and_gives()
    ensures from_signal { (at : Way) (r j : ℕ) → AreLevelledBut at r → at.graph.inputs r ≡ signal j ∷ [] → (a b : ℕ) → IsOver at a b → a ≢ j → at.height a < at.height b }
    ensures from_value { (at : Way) (r : ℕ) (v : Seen) → AreLevelledBut at r → at.graph.inputs r ≡ steady v ∷ [] → (a b : ℕ) → IsOver at a b → at.height a < at.height b }
    ensures low { (at : Way) (r j h : ℕ) → AreLevelledBut at r → h < at.height r → (b : ℕ) → IsOver at j b → at.height b ≤ at.height j → h < at.height b }
    ensures raises { (at next : Way) (h : ℕ) → next.graph ≡ at.graph → ((m : ℕ) → next.taken m ≡ at.taken m) → ((m : ℕ) → next.done m ≡ at.done m)
        → ((m : ℕ) → at.graph.live m ≡ true → at.taken m ≡ true) → ((a b : ℕ) → IsOver at a b → next.height a < next.height b)
        → ((m : ℕ) → at.height m ≤ next.height m) → ((m : ℕ) → at.height m ≤ h → next.height m ≡ at.height m)
        → ((m : ℕ) → next.queued m ≡ option_map (λ k. next.height m) (at.queued m)) → Raises at next h }
{}

/// What awaits burial stands above what it reads, whatever is computed and whichever watch turns.
pub fn what_awaits_burial_is_levelled()
    ensures computed { (p : Plan) (sources : List Now) (old : Graph) (at next : Way) (m : ℕ) → DeadAreLevelled at → Computes p sources old at next m → DeadAreLevelled next }
    ensures turned { (p : Plan) (is : List LowItem) (ms : List ℕ) (sources : List Now) (old : Graph) (at t1 t2 t3 t4 t5 next : Way) (w : ℕ)
        → UnderWay p is ms sources old at → DeadAreLevelled at → Turns p sources old at t1 t2 t3 t4 t5 next w → DeadAreLevelled next }
{}

/// Between the steps of a turning: nothing that ends was computed at this instant, all that a choice may name is there
/// where it is built, and before the watch's result is rewired it lives, as does what it is to read.
pub fn each_step_of_a_turning_can_be_made()
    ensures not_computed { (p : Plan) (is : List LowItem) (ms : List ℕ) (sources : List Now) (old : Graph) (at t1 : Way) (w h : ℕ)
        → UnderWay p is ms sources old at → IsLeast at w h → IsSet at t1 w → (m : ℕ) → Inside t1.graph (suc w) m → t1.done m ≡ false }
    ensures clear { (p : Plan) (is : List LowItem) (ms : List ℕ) (sources : List Now) (old : Graph) (at t1 t2 : Way) (w h : ℕ)
        → UnderWay p is ms sources old at → Leaves at t1 t2 w h → (a b : Low) (env : List Part) → at.graph.kind w ≡ watch a b env → IsClear t2 w env }
    ensures part { (p : Plan) (is : List LowItem) (ms : List ℕ) (sources : List Now) (old : Graph) (at t1 t2 t3 : Way) (w : ℕ)
        → UnderWay p is ms sources old at → (c : Rechooses p sources old at t1 t2 t3 w)
        → (j : ℕ) → Reads j (chosen_part p sources old at t1 t2 t3 w c ∷ []) → t3.graph.live j ≡ true }
    ensures result { (p : Plan) (is : List LowItem) (ms : List ℕ) (sources : List Now) (old : Graph) (at t1 t2 t3 : Way) (w : ℕ)
        → UnderWay p is ms sources old at → Rechooses p sources old at t1 t2 t3 w → t3.graph.live (at.graph.result_of w) ≡ true }
{}
