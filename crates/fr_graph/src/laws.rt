ghost use Rattle.std.specs.Prelude.{◌≡◌, ℕ, Bool, true, List, [], Option, None};
ghost use Rattle.fr_value.specs.declared.now.Now.{Now};
ghost use Rattle.fr_core.specs.declared.kept.Kept.{Kept};
ghost use Rattle.fr_core.specs.declared.kept.Kept.TheVariants as kept;
ghost use Rattle.fr_core.specs.declared.lowered.LowItem.{LowItem};
ghost use Rattle.fr_core.specs.declared.program.Program.{Program};
ghost use Rattle.fr_meaning.specs.Afresh.{body};
ghost use Rattle.fr_meaning.specs.Cells.{Cell};
ghost use Rattle.fr_graph.specs.Graph.{Graph};
ghost use Rattle.fr_graph.specs.Walk.{Plan};
ghost use Rattle.fr_graph.specs.Fails.{HaveValues};
ghost use Rattle.fr_graph.specs.Goes.{Goes, IsEmpty};
ghost use Rattle.fr_graph.specs.Items.{AreLowered, HasNodes, IsSettled, StandsForTree, IsAfresh, IsUnderWay, ErrsThere, BodyFails, place_items, body_walk};

/// A graph shows at the end of each instant what evaluating the program's body afresh shows, which errs nowhere, and
/// stands for what that keeps: at the first instant over nothing kept, and at each further one over every tree for which
/// it stood before.
///
/// What is asked of the graph is said node by node: which nodes there are for the program's items and for the choices of
/// switches, that each obeys its own rule, and what an instant may do to nodes and eras.
pub fn instants_are_afresh()
    ensures first { (was g : Graph) (pr : Program) (p : Plan) (is : List LowItem) (ms : List ℕ) (sources : List Now) (before : ℕ → Option Cell)
        → AreLowered pr p is → IsEmpty was → Goes was g before → HasNodes g p is ms → IsSettled g p sources before → IsAfresh g pr p is ms sources kept.Nothing }
    ensures further { (was g : Graph) (pr : Program) (p : Plan) (is : List LowItem) (ms : List ℕ) (sources : List Now) (before : ℕ → Option Cell) (k : Kept)
        → AreLowered pr p is → Goes was g before → HasNodes was p is ms → HasNodes g p is ms → IsSettled g p sources before → StandsForTree was p is ms k → IsAfresh g pr p is ms sources k }
{}

/// Where a node errs while an instant is under way, on the values of inputs that are known to be right, evaluating the
/// program's body afresh errs: at the first instant over nothing kept, and at each further one over every tree for which
/// the graph stood before.
pub fn errors_are_those_of_evaluating_afresh()
    ensures first { (was g : Graph) (known : ℕ → Bool) (pr : Program) (p : Plan) (is : List LowItem) (ms : List ℕ) (sources : List Now) (before : ℕ → Option Cell) (m : ℕ)
        → AreLowered pr p is → IsEmpty was → Goes was g before → IsUnderWay g (λ n. known n ≡ true) p is ms sources before → ErrsThere g (λ n. known n ≡ true) p is ms before m
        → (body pr sources kept.Nothing).first ≡ None → ⊥ }
    ensures further { (was g : Graph) (known : ℕ → Bool) (pr : Program) (p : Plan) (is : List LowItem) (ms : List ℕ) (sources : List Now) (before : ℕ → Option Cell) (m : ℕ) (k : Kept)
        → AreLowered pr p is → Goes was g before → HasNodes was p is ms → IsUnderWay g (λ n. known n ≡ true) p is ms sources before → ErrsThere g (λ n. known n ≡ true) p is ms before m → StandsForTree was p is ms k
        → (body pr sources k).first ≡ None → ⊥ }
{}

/// Where the building of a program's items fails, evaluating the program's body afresh errs, whatever the sources have and
/// whatever was kept. A building fails where a part that never changes has no value, where a test that never changes can't
/// be told, and where there is no such variable, no function of so many parameters or no level left.
pub fn failing_to_build_is_an_error()
    ensures { (pr : Program) (p : Plan) (is : List LowItem) (ms : List ℕ) (sources : List Now) (k : Kept) → AreLowered pr p is → BodyFails p is ms → (body pr sources k).first ≡ None → ⊥ }
{}

/// Where the building of a program's items doesn't fail, what is shown and never changes has a value.
pub fn what_is_built_has_a_value()
    ensures { (p : Plan) (is : List LowItem) (ms : List ℕ) → (BodyFails p is ms → ⊥) → HaveValues (place_items (body_walk p) [] is ms).parts }
{}
