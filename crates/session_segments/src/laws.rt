//! What a session's parts leave, one more of them each time; no function here does anything.

ghost use Rattle.std.specs.Prelude.{◌≡◌, ◌+◌, ◌++◌, ◌∷◌, [], ℕ, List, length};
ghost use Rattle.carriers.specs.declared.fate.Fate.{Fate};
ghost use Rattle.lane_calls.specs.Lines.{Lines};
ghost use Rattle.lane_lives.specs.Settings.{IsSetting};
ghost use Rattle.lane_lives.specs.declared.setting.Setting.{Setting};
ghost use Rattle.session_cluster.specs.Cells.{Cell};
ghost use Rattle.session_cluster.specs.Keeping.{IsReady};
ghost use Rattle.session_cluster.specs.Steps.{IsAfter};
ghost use Rattle.session_cluster.specs.declared.asked.Asked.{Asked};
ghost use Rattle.session_segments.specs.Fed.{IsFed, IsFedShort, HaveFed};
ghost use Rattle.session_segments.specs.Parts.{AreStill, AreStillIn, Part, Alone, Together, asked_in};

use lane_lives::laws::segments_serve;

/// Where just these parts were done, and then a segment more, or a line more that stands alone, just these parts are done and
/// that one; and the next line may be dealt with.
pub fn segments_are_kept()
    ensures together { (s : Setting) (plans : ℕ → List Fate) (feeders line : ℕ) (ps : List Part) (cs : List Asked)
        (left : ℕ → Lines) (old new : Cell) → HaveFed s plans feeders ps old → AreStillIn ps → AreStill cs
        → line ≡ length (asked_in ps) + 1 → IsFed s feeders line cs left old new
        → HaveFed s plans feeders (ps ++ Together cs left ∷ []) new }
    ensures short { (s : Setting) (plans : ℕ → List Fate) (feeders line : ℕ) (ps : List Part) (cs : List Asked)
        (old new : Cell) → HaveFed s plans feeders ps old → AreStillIn ps → AreStill cs
        → line ≡ length (asked_in ps) + 1 → (f : IsFedShort s feeders line cs old new)
        → HaveFed s plans feeders (ps ++ Together cs f.left ∷ []) new }
    ensures alone { (s : Setting) (plans : ℕ → List Fate) (feeders line : ℕ) (ps : List Part) (c : Asked)
        (old new : Cell) → HaveFed s plans feeders ps old → AreStillIn ps → line ≡ length (asked_in ps) + 1
        → IsAfter s line c old new → HaveFed s plans feeders (ps ++ Alone c ∷ []) new }
    ensures ready { (s : Setting) (plans : ℕ → List Fate) (feeders line : ℕ) (ps : List Part) (c : Cell) → IsSetting s
        → HaveFed s plans feeders ps c → AreStillIn ps → line ≡ length (asked_in ps) + 1 → IsReady s line c }
{
    segments_serve();
}
