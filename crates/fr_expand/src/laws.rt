ghost use Rattle.std.specs.Prelude.{◌≡◌, List, Result};
ghost use Rattle.fr_value.specs.declared.value.Datum.{Datum};
ghost use Rattle.fr_core.specs.declared.program.Program.{Program};
ghost use Rattle.fr_expand.specs.declared.refusal.Refusal.{Refusal};
ghost use Rattle.fr_expand.specs.Expansion.{IsExpansion};

/// Forms have one expansion: one program, or one refusal.
#[tactic(auto, using(crate::proofs::OneExpansion::expansion_is_one))]
pub fn expansion_is_one()
    ensures { (ds : List Datum) → (v w : Result Program Refusal) → IsExpansion ds v → IsExpansion ds w → v ≡ w }
{}
