//! What is so of each node that was built of what is ready: laws of the definitions.
ghost use Rattle.std.specs.Prelude.{◌≡◌, ℕ, true, List, [], length};
ghost use Rattle.fr_core.specs.declared.lowered.Low.{Low};
ghost use Rattle.fr_core.specs.declared.lowered.LowItem.{LowItem};
ghost use Rattle.fr_graph.specs.Graph.{Part, Work, works, Graph};
ghost use Rattle.fr_graph.specs.Walk.{place};
ghost use Rattle.fr_graph.specs.Wired.{Wired};
ghost use Rattle.fr_graph.specs.Items.{place_items, ItemsStand, body_walk};
ghost use Rattle.fr_events.specs.Works.{HasKernel};
ghost use Rattle.fr_engine.specs.Choices.{AreFit};
ghost use Rattle.fr_links.specs.Lists.{has_item};
ghost use Rattle.fr_nodes.specs.Kinds.{Sites};
ghost use Rattle.fr_ready.specs.Planning.{ItemsReady};
ghost use Rattle.fr_ready.specs.Ready.{Planned, plan_of, IsReady, IsPlanReady, Matches, PlanMatches};
ghost use Rattle.fr_ready.specs.Switches.{ItemsMatch};
ghost use Rattle.fr_switch.specs.Fit.{IsBuildable, IsBuiltFrom, IsFit};

/// Of each node that stands for something in an expression that can be built, or in the items of a body, the kernel of its
/// work is there; and a watch reads one part, its test, and can build its choices. This is so of all members where each of
/// them is used.
pub fn what_stands_is_fit()
    ensures expression { (planned : Planned) (sites : Sites) (g : Graph) (x n : ℕ) (e : Low) (env : List Part) (ms : List ℕ) (m : ℕ)
        → IsPlanReady planned → PlanMatches sites planned → IsReady planned (length env) e → Matches sites (length env) e
        → Wired g (plan_of planned) x n e env ms → (place (plan_of planned) n e env ms).left ≡ [] → has_item ms m ≡ true → IsFit planned sites g m }
    ensures items { (planned : Planned) (sites : Sites) (g : Graph) (is : List LowItem) (ms : List ℕ) (m : ℕ)
        → IsPlanReady planned → PlanMatches sites planned → ItemsReady planned 0 is → ItemsMatch sites 0 is
        → ItemsStand (body_walk (plan_of planned)) (Wired g (plan_of planned) 0 2000) [] is ms → (place_items (body_walk (plan_of planned)) [] is ms).left ≡ []
        → has_item ms m ≡ true → IsFit planned sites g m }
{}

/// In a graph that was built for the items of a body, before the first watch has chosen, the kernel of each live work is
/// there, and each live watch reads its test and can build its choices.
pub fn what_is_built_first_is_fit()
    ensures kernels { (planned : Planned) (sites : Sites) (g : Graph) (is : List LowItem) (ms : List ℕ) → IsBuiltFrom planned sites g is ms
        → (m : ℕ) (v : Work) → g.live m ≡ true → g.kind m ≡ works v → HasKernel planned.table v }
    ensures watches { (planned : Planned) (sites : Sites) (g : Graph) (is : List LowItem) (ms : List ℕ) → IsBuiltFrom planned sites g is ms
        → AreFit (λ a b scope. IsBuildable planned sites a b scope) g }
{}
