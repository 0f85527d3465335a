//! Laws of the definitions, each the contract of a function that does nothing.

ghost use Rattle.std.specs.Prelude.{◌≡◌, ◌≤◌, ℕ, List, Bool, None, length};
ghost use Rattle.fr_script.specs.Limits.{script_limit};
ghost use Rattle.fr_script.specs.Sources.{Named};
ghost use Rattle.fr_script.specs.Instants.{bad_line};

/// A script without a bad line has at most 1,099,511,627,776 bytes.
#[tactic(auto, using(crate::proofs::Limits::good_is_short))]
pub fn good_scripts_are_short()
    ensures { (ss : List Named) (bytes : List ℕ) (ended : Bool)
        → bad_line ss bytes ended ≡ None → length bytes ≤ script_limit }
{}
