//! What is so of every building: laws of the definitions.
ghost use Rattle.std.specs.Prelude.{◌≡◌, ℕ, suc, List, length};
ghost use Rattle.fr_core.specs.declared.lowered.Low.{Low};
ghost use Rattle.fr_graph.specs.Graph.{Part};
ghost use Rattle.fr_graph.specs.Walk.{place};
ghost use Rattle.fr_way.specs.Way.{Way};
ghost use Rattle.fr_way.specs.Turns.{Grows};
ghost use Rattle.fr_nodes.specs.Kinds.{Sites};
ghost use Rattle.fr_build.specs.Ready.{Planned, plan_of, Matches, PlanMatches};
ghost use Rattle.fr_build.specs.Builds.{BuildsExpr, CanBuild};

/// What is built for a choice, in the era of a watch that had no members, is what the turning of the watch asks for, where the
/// choices at the sites are those of the program's switches; and its part is the one that stands for the choice.
pub fn what_is_built_grows()
    ensures grows { (sites : Sites) (planned : Planned) (at new : Way) (w h n : ℕ) (e : Low) (env : List Part) (part : Part)
        → CanBuild at w h env → PlanMatches sites planned → Matches sites (length env) e → BuildsExpr sites at new planned (suc w) n e env part → Grows at new (plan_of planned) (suc w) h n e env }
    ensures part { (sites : Sites) (planned : Planned) (at new : Way) (w h n : ℕ) (e : Low) (env : List Part) (part : Part)
        → CanBuild at w h env → PlanMatches sites planned → Matches sites (length env) e → BuildsExpr sites at new planned (suc w) n e env part
        → (place (plan_of planned) n e env (new.graph.members (suc w))).part ≡ part }
{}
