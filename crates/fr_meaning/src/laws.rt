ghost use Rattle.std.specs.Prelude.{◌≡◌, ◌+◌, ◌⊎◌, ◌↔◌, ◌∷◌, ◌++◌, ℕ, List, [], length, map, None};
ghost use Rattle.std.specs.List.{AllByRecursion};
ghost use Rattle.fr_value.specs.Data.{total};
ghost use Rattle.fr_value.specs.declared.now.Now.{Now};
ghost use Rattle.fr_core.specs.Classes.{IsPureExpr};
ghost use Rattle.fr_core.specs.WellFormed.{AreDistinct};
ghost use Rattle.fr_core.specs.declared.core_form.Core.{Core};
ghost use Rattle.fr_core.specs.declared.kept.Kept.{Kept};
ghost use Rattle.fr_core.specs.declared.program.Item.{Item};
ghost use Rattle.fr_core.specs.declared.program.Program.{Program};
ghost use Rattle.fr_meaning.specs.Words.{Env};
ghost use Rattle.fr_meaning.specs.Evaluation.{World, world_of, Ev, parts, eval};
ghost use Rattle.fr_meaning.specs.Afresh.{items, body};
ghost use Rattle.fr_meaning.specs.Agreement.{IsSteady, IsSteadyOver};
ghost use Rattle.fr_meaning.specs.Dependence.{variables, sources_of, AgreeAt, parts_followed, bound, followed};
ghost use Rattle.fr_meaning.specs.Visits.{Binding, Visit, paths, answer, inside, visits, all_visits, own_cost, first_error, placed, body_visits};
ghost use Rattle.fr_meaning.specs.Order.{EndsBefore, AreRising, StandsWhole, outer_places, AreReady, UsesEarlier, AgreeWhereUsed, GoBySame, ErrsNowhere};

/// A pure expression's evaluation doesn't depend on its kept tree: value, cost and first error are the same over any
/// two. Nor does it depend on a source that the expression doesn't name.
pub fn pure_is_steady()
    ensures kept { (p : Program) (sources : List Now) (e : Core) → IsPureExpr p e → IsSteady (world_of p sources) e }
    ensures sources { (p : Program) (sources other : List Now) (e : Core) → IsPureExpr p e → AgreeAt (sources_of e) sources other → IsSteadyOver (world_of p sources) (world_of p other) e }
{}

/// An evaluation depends on what is evaluated before it alone: an expression on the variables that it names, parts and
/// items on those before them. The parts and the items of a list are those of its front, and then the others; the items
/// behind a front are evaluated with the values that it binds.
pub fn evaluation_is_local()
    ensures variables { (w : World) (nest : ℕ) (e : Core) (env other : Env) (k : Kept) → length env ≡ length other → AgreeAt (variables e) env other → eval w nest e env k ≡ eval w nest e other k }
    ensures parts { (ev : Ev) (env : Env) (k : Kept) (i : ℕ) (es others : List Core) → parts ev env k i (es ++ others) ≡ parts_followed (parts ev env k i es) (parts ev env k (i + length es) others) }
    ensures items { (ev : Ev) (env : Env) (k : Kept) (i : ℕ) (is others : List Item) → items ev env k i (is ++ others) ≡ followed (items ev env k i is) (items ev (env ++ bound ev env k i is) k (i + length is) others) }
{}

/// An evaluation is accounted for by what it visits. Its cost is the sum of what its visits cost themselves: a call of a
/// function or of a handler costs 1, and a loop 1 for each turn. Its first error is the error of the first visit that
/// has one of its own, and there is none exactly where no visit has one. The same holds of a program's whole body.
pub fn visits_add_up()
    ensures cost { (w : World) (v : Visit) → total (map (own_cost w) (visits w v)) ≡ (answer w v).cost }
    ensures first { (w : World) (v : Visit) → first_error w (visits w v) ≡ placed v.path (answer w v).first }
    ensures clean { (w : World) (v : Visit) → ErrsNowhere w (visits w v) ↔ ((answer w v).first ≡ None) }
    ensures body_cost { (p : Program) (sources : List Now) (k : Kept) → total (map (own_cost (world_of p sources)) (body_visits p sources k)) ≡ (body p sources k).cost }
    ensures body_first { (p : Program) (sources : List Now) (k : Kept) → first_error (world_of p sources) (body_visits p sources k) ≡ (body p sources k).first }
    ensures body_clean { (p : Program) (sources : List Now) (k : Kept) → ErrsNowhere (world_of p sources) (body_visits p sources k) ↔ ((body p sources k).first ≡ None) }
{}

/// What a visit answers follows from what it has to go by: the variable or the source that its expression itself reads,
/// its form's cell, and the answers of all that is inside it. So two visits of one expression that go by the same answer
/// the same, at two instants too.
pub fn visits_go_by_what_they_use()
    ensures { (w : World) (v : Visit) (w' : World) (u : Visit) → GoBySame w v w' u → answer w v ≡ answer w' u }
{}

/// The visits of an evaluation are those of all that is inside it, each whole, and then the expression itself. They
/// stand in the order in which they end, no place twice, and what is at and below a place stands together. Each uses
/// only visits before it, and, where the scope is ready, the places that give the scope; and an evaluation in a scope
/// depends only on the values of the places that its visits use.
pub fn visits_are_in_order()
    ensures opens { (w : World) (v : Visit) → visits w v ≡ all_visits w (inside w v) ++ v ∷ [] }
    ensures rising { (w : World) (v : Visit) → AreRising (visits w v) }
    ensures distinct { (w : World) (v : Visit) → AreDistinct (paths (visits w v)) }
    ensures together { (w : World) (v : Visit) → AllByRecursion (StandsWhole w (visits w v)) (visits w v) }
    ensures uses { (w : World) (v : Visit) → AreReady v (outer_places v) → AllByRecursion (UsesEarlier w (visits w v) (outer_places v)) (visits w v) }
    ensures used { (w : World) (v : Visit) (other : List Binding) → AgreeWhereUsed w (visits w v) v.scope other → answer w v ≡ answer w (record v { scope = other }) }
{}

/// The same of all that the evaluation of a program's body visits: nothing stands outside it.
pub fn body_visits_are_in_order()
    ensures rising { (p : Program) (sources : List Now) (k : Kept) → AreRising (body_visits p sources k) }
    ensures distinct { (p : Program) (sources : List Now) (k : Kept) → AreDistinct (paths (body_visits p sources k)) }
    ensures together { (p : Program) (sources : List Now) (k : Kept) → AllByRecursion (StandsWhole (world_of p sources) (body_visits p sources k)) (body_visits p sources k) }
    ensures uses { (p : Program) (sources : List Now) (k : Kept) → AllByRecursion (UsesEarlier (world_of p sources) (body_visits p sources k) []) (body_visits p sources k) }
{}

/// The order of ends compares any two places, and an expression ends after all that is inside its parts.
pub fn ends_are_ordered()
    ensures never_itself { (p : List ℕ) → EndsBefore p p → ⊥ }
    ensures transitive { (p q r : List ℕ) → EndsBefore p q → EndsBefore q r → EndsBefore p r }
    ensures total { (p q : List ℕ) → (p ≡ q) ⊎ EndsBefore p q ⊎ EndsBefore q p }
    ensures parts_first { (p : List ℕ) (i : ℕ) (inside : List ℕ) → EndsBefore (p ++ i ∷ inside) p }
{}
