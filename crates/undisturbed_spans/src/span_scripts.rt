//! The law of scripts; no function here does anything.

ghost use Rattle.std.specs.Prelude.{ℕ, List};
ghost use Rattle.carriers.specs.declared.fate.Fate.{Fate};
ghost use Rattle.lane_journals.specs.Meanings.{history};
ghost use Rattle.lane_journals.specs.Places.{Setting};
ghost use Rattle.lane_journals.specs.KeptJournals.{IsLegal};
ghost use Rattle.lane_journals.specs.declared.event.LaneEvent.{LaneEvent};
ghost use Rattle.upkeep_spans.specs.Spans.{AreUpkeep};
ghost use Rattle.pass_model.specs.Scripts.{Script, Agrees};
ghost use Rattle.upkeep_spans.specs.Causes.{IsUndisturbed};
ghost use Rattle.undisturbed_spans.specs.Undisturbed.{GoesUndisturbed};
ghost use Rattle.undisturbed_spans.specs.Scripts.{AreDelivered};

use lane_journals::laws::kept_journals_mean_legal_ones;
use upkeep_spans::laws::upkeep_goes_on;

/// Where each message that was sent behind the first journal came, there is a script that agrees with both.
pub fn scripts_agree()
    ensures { (S : Setting) (J K : List LaneEvent) → IsLegal S K → AreDelivered (history J) (history K)
        → (d : Script) × Agrees d (history J) (history K) }
{
    kept_journals_mean_legal_ones();
}

/// So there is one for each quiet span of an upkeep.
pub fn undisturbed_spans_have_scripts()
    ensures { (S : Setting) (e v : ℕ) (given : List Fate) (J K : List LaneEvent) → IsLegal S K → AreUpkeep e v J K
        → IsUndisturbed given J K → (d : Script) × GoesUndisturbed d given J K }
{
    kept_journals_mean_legal_ones();
    upkeep_goes_on();
}
