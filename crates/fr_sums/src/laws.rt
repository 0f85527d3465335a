ghost use Rattle.std.specs.Prelude.{◌≡◌, ◌≤◌, ℕ, Bool, true, List, [], length, Option};
ghost use Rattle.fr_value.specs.declared.now.Now.{Now};
ghost use Rattle.fr_core.specs.declared.kept.Kept.{Kept};
ghost use Rattle.fr_core.specs.declared.kept.Kept.TheVariants as kept;
ghost use Rattle.fr_core.specs.declared.lowered.LowItem.{LowItem};
ghost use Rattle.fr_core.specs.declared.program.Program.{Program};
ghost use Rattle.fr_meaning.specs.Afresh.{body};
ghost use Rattle.fr_meaning.specs.Cells.{Cell};
ghost use Rattle.fr_graph.specs.Graph.{Graph};
ghost use Rattle.fr_graph.specs.Walk.{Plan};
ghost use Rattle.fr_graph.specs.Goes.{Goes, IsEmpty};
ghost use Rattle.fr_graph.specs.Items.{AreLowered, body_walk, HasNodes, IsSettled, IsUnderWay, StandsForTree};
ghost use Rattle.fr_sums.specs.Sites.{Site, body_sites};
ghost use Rattle.fr_sums.specs.Along.{add_items};
ghost use Rattle.fr_sums.specs.Members.{sum_live, site_of, AreMembers, HasProgramEra};
ghost use Rattle.fr_sums.specs.Spent.{setting_of, built, Paid, fuel_spent, PaysAtMost, PaysAll, PaysWhatIsKnown, PaysWhileBuilding};

/// The live nodes of a graph at the end of an instant are, kind by kind, the sites that evaluating the program's body
/// afresh has: at the first instant over nothing kept, and at each further one over every tree for which the graph stood
/// before.
///
/// Whatever number each kind of site is given, the sum of the numbers of all live nodes is that of all sites; with 1 for
/// each it is how many nodes live.
pub fn live_nodes_are_sites()
    ensures first { (was g : Graph) (pr : Program) (p : Plan) (is : List LowItem) (ms firsts : List ℕ) (bound : ℕ) (sources : List Now) (before : ℕ → Option Cell) (weigh : Site → ℕ)
        → AreLowered pr p is → IsEmpty was → Goes was g before → HasNodes g p is ms → IsSettled g p sources before → AreMembers g bound → HasProgramEra g p is firsts ms
        → sum_live g bound (λ m. weigh (site_of (g.kind m))) ≡ body_sites (setting_of pr p sources) weigh (length firsts) is kept.Nothing }
    ensures further { (was g : Graph) (pr : Program) (p : Plan) (is : List LowItem) (ms firsts : List ℕ) (bound : ℕ) (sources : List Now) (before : ℕ → Option Cell) (weigh : Site → ℕ) (k : Kept)
        → AreLowered pr p is → Goes was g before → HasNodes was p is ms → HasNodes g p is ms → IsSettled g p sources before → StandsForTree was p is ms k → AreMembers g bound → HasProgramEra g p is firsts ms
        → sum_live g bound (λ m. weigh (site_of (g.kind m))) ≡ body_sites (setting_of pr p sources) weigh (length firsts) is k }
{}

/// What an instant spends of its fuel, at all live nodes and in building the eras that were begun at it, is at most what
/// evaluating the program's body afresh costs, and exactly that where each node was computed and each era begun.
pub fn spending_is_within_cost()
    ensures first { (was g : Graph) (pr : Program) (p : Plan) (is : List LowItem) (ms firsts : List ℕ) (bound : ℕ) (sources : List Now) (before : ℕ → Option Cell) (q : Paid)
        → AreLowered pr p is → IsEmpty was → Goes was g before → HasNodes g p is ms → IsSettled g p sources before → AreMembers g bound → HasProgramEra g p is firsts ms → PaysAtMost g p before q
        → fuel_spent g p q bound is ms ≤ (body pr sources kept.Nothing).cost }
    ensures exact { (was g : Graph) (pr : Program) (p : Plan) (is : List LowItem) (ms firsts : List ℕ) (bound : ℕ) (sources : List Now) (before : ℕ → Option Cell) (q : Paid)
        → AreLowered pr p is → IsEmpty was → Goes was g before → HasNodes g p is ms → IsSettled g p sources before → AreMembers g bound → HasProgramEra g p is firsts ms → PaysAll g p before q
        → fuel_spent g p q bound is ms ≡ (body pr sources kept.Nothing).cost }
    ensures further { (was g : Graph) (pr : Program) (p : Plan) (is : List LowItem) (ms firsts : List ℕ) (bound : ℕ) (sources : List Now) (before : ℕ → Option Cell) (q : Paid) (k : Kept)
        → AreLowered pr p is → Goes was g before → HasNodes was p is ms → HasNodes g p is ms → IsSettled g p sources before → StandsForTree was p is ms k → AreMembers g bound → HasProgramEra g p is firsts ms → PaysAtMost g p before q
        → fuel_spent g p q bound is ms ≤ (body pr sources k).cost }
{}

/// While an instant is under way, what it has spent so far, at works whose inputs are known to be right and in building
/// the eras of known watches, is at most what evaluating the program's body afresh costs. A node that is to be computed
/// next counts too, with what it would cost: where that is more than is left, so is the cost of the whole.
pub fn spending_under_way_is_within_cost()
    ensures first { (was g : Graph) (known : ℕ → Bool) (pr : Program) (p : Plan) (is : List LowItem) (ms firsts : List ℕ) (bound : ℕ) (sources : List Now) (before : ℕ → Option Cell) (q : Paid)
        → AreLowered pr p is → IsEmpty was → Goes was g before → IsUnderWay g (λ m. known m ≡ true) p is ms sources before → AreMembers g bound → HasProgramEra g p is firsts ms → PaysWhatIsKnown g known p before q
        → fuel_spent g p q bound is ms ≤ (body pr sources kept.Nothing).cost }
    ensures further { (was g : Graph) (known : ℕ → Bool) (pr : Program) (p : Plan) (is : List LowItem) (ms firsts : List ℕ) (bound : ℕ) (sources : List Now) (before : ℕ → Option Cell) (q : Paid) (k : Kept)
        → AreLowered pr p is → Goes was g before → HasNodes was p is ms → IsUnderWay g (λ m. known m ≡ true) p is ms sources before → StandsForTree was p is ms k → AreMembers g bound → HasProgramEra g p is firsts ms → PaysWhatIsKnown g known p before q
        → fuel_spent g p q bound is ms ≤ (body pr sources k).cost }
{}

/// So is what it has spent while the choice of a watch is being built, with what that building has cost so far: the watch
/// isn't known to be right yet, but its test is, and the evaluation evaluates what that chooses.
pub fn spending_while_building_is_within_cost()
    ensures first { (was g : Graph) (known : ℕ → Bool) (pr : Program) (p : Plan) (is : List LowItem) (ms firsts : List ℕ) (bound : ℕ) (sources : List Now) (before : ℕ → Option Cell) (q : Paid) (w : ℕ)
        → AreLowered pr p is → IsEmpty was → Goes was g before → IsUnderWay g (λ m. known m ≡ true) p is ms sources before → AreMembers g bound → HasProgramEra g p is firsts ms → PaysWhileBuilding g known p before q w
        → fuel_spent g p q bound is ms ≤ (body pr sources kept.Nothing).cost }
    ensures further { (was g : Graph) (known : ℕ → Bool) (pr : Program) (p : Plan) (is : List LowItem) (ms firsts : List ℕ) (bound : ℕ) (sources : List Now) (before : ℕ → Option Cell) (q : Paid) (w : ℕ) (k : Kept)
        → AreLowered pr p is → Goes was g before → HasNodes was p is ms → IsUnderWay g (λ m. known m ≡ true) p is ms sources before → StandsForTree was p is ms k → AreMembers g bound → HasProgramEra g p is firsts ms → PaysWhileBuilding g known p before q w
        → fuel_spent g p q bound is ms ≤ (body pr sources k).cost }
{}

/// Building a program's nodes costs no more than evaluating its body afresh, whatever was kept and whatever the sources
/// hold.
pub fn building_is_within_cost()
    ensures within { (pr : Program) (p : Plan) (is : List LowItem) (ms : List ℕ) (sources : List Now) (k : Kept)
        → AreLowered pr p is → add_items (body_walk p) (built p 2000) [] is ms ≤ (body pr sources k).cost }
{}
