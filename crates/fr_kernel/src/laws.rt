ghost use Rattle.std.specs.Prelude.{ℕ, List};
ghost use Rattle.fr_value.specs.declared.now.Now.{Now};
ghost use Rattle.fr_core.specs.Classes.{IsPureExpr};
ghost use Rattle.fr_core.specs.declared.core_form.Core.{Core};
ghost use Rattle.fr_core.specs.declared.kept.Kept.{Kept};
ghost use Rattle.fr_core.specs.declared.program.Program.{Program};
ghost use Rattle.fr_meaning.specs.Words.{Env};
ghost use Rattle.fr_meaning.specs.Evaluation.{world_of, eval};
ghost use Rattle.fr_meaning.specs.Agreement.{Agree};
ghost use Rattle.fr_kernel.specs.Answers.{world};
ghost use Rattle.fr_kernel.specs.Numbers.{Scheme, numbered, Stand};
ghost use Rattle.fr_kernel.specs.Runs.{EqualInputsAgree};

/// A pure expression whose variables and sources became slots has the value, the cost and the first error of the
/// expression itself, where the slots have the values of what it names, at every nest and over any kept trees.
pub fn numbering_keeps_the_meaning()
    ensures { (p : Program) (s : Scheme) (e : Core) (sources : List Now) (env slots : Env) → IsPureExpr p e → Stand s e sources env slots → (nest : ℕ) (k other : Kept) → Agree (eval (world_of p sources) nest e env k) (eval (world p.functions) nest (numbered s e) slots other) }
{}

/// The evaluations of a pure expression at two places tell the same, at one nest and over any kept trees, where its
/// kernel has the same inputs at both: so a kernel's cost is that of the evaluation at any place with that nest.
pub fn equal_inputs_tell_the_same()
    ensures { EqualInputsAgree }
{}
