ghost use Rattle.std.specs.Prelude.{◌≡◌, ℕ, List};
ghost use Rattle.fr_show.specs.Accepted.{Verdict, IsVerdict, program_front};

/// A text is judged in one way only: as one program, or as refused at one form with one kind.
#[tactic(auto, using(crate::proofs::Verdicts::verdict_is_one))]
pub fn verdict_is_one()
    ensures { (bytes : List ℕ) (v w : Verdict) → IsVerdict bytes v → IsVerdict bytes w → v ≡ w }
{}

/// The first 1,048,577 bytes of a text decide how it is judged, so nothing behind them has to be read.
#[tactic(auto, using(crate::proofs::Verdicts::judged_front))]
pub fn front_decides()
    ensures { (bytes : List ℕ) (v : Verdict) → IsVerdict (program_front bytes) v →
        IsVerdict bytes v }
{}
