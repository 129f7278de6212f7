//! Laws of rounds in quiet spans; no function here does anything.

ghost use Rattle.std.specs.Prelude.{◌≡◌, ◌<◌, ℕ, Bool, true, List, Some, None};
ghost use Rattle.std.specs.FinMap as fin;
ghost use Rattle.bucket_ids.specs.Buckets.{Low};
ghost use Rattle.entry_maps.specs.EntryCodes.{Entries};
ghost use Rattle.messages.specs.declared.body.Body.TheVariants as body;
ghost use Rattle.messages.specs.declared.message.Message.{Message};
ghost use Rattle.node_model.specs.Nodes.{Node};
ghost use Rattle.lane_journals.specs.Buckets.{Id};
ghost use Rattle.lane_journals.specs.Events.{Content};
ghost use Rattle.lane_journals.specs.Readers.{Given, answer};
ghost use Rattle.lane_journals.specs.Meanings.{history};
ghost use Rattle.lane_journals.specs.declared.event.LaneEvent.{LaneEvent};
ghost use Rattle.lane_keeping.specs.NodeKeeping.{stamp_of};
ghost use Rattle.lane_keeping.specs.Unions.{IsUnion};
ghost use Rattle.lane_rest.specs.Sets.{newest_of};
ghost use Rattle.pass_model.specs.Scripts.{Script};
ghost use Rattle.undisturbed_spans.specs.Telling.{IsToldIn, IsShownIn};
ghost use Rattle.undisturbed_spans.specs.Rounding.{HasRounded, IsUnsent, IsNextOf, AreAlike};

/// A round begins with nothing; a Read shows what its receiver had, a union is taken by its receiver; and the answers
/// of all readers together have the newest that any of them holds.
pub fn undisturbed_rounds_go_on()
    ensures begins { (d : Script) (J : List LaneEvent) (old : ℕ → Node) (v number : ℕ) (b : Low) (U : Content)
        → IsUnsent J v number → HasRounded d J J old old v number b U }
    ensures asked { (d : Script) (J K L : List LaneEvent) (old now next : ℕ → Node) (v number : ℕ) (b : Low) (U : Content)
        (k : ℕ) (m : Message) → HasRounded d J K old now v number b U → IsNextOf K L v number b k m
        → m.body ≡ body.Read b None → IsShownIn K L now next k m b → HasRounded d J L old next v number b U }
    ensures told { (d : Script) (J K L : List LaneEvent) (old now next : ℕ → Node) (v number : ℕ) (b : Low) (U : Content)
        (k : ℕ) (m : Message) (u : Entries) → HasRounded d J K old now v number b U → IsNextOf K L v number b k m
        → m.body ≡ body.Apply b u → AreAlike b u U → IsToldIn d K L now next k m
        → HasRounded d J L old next v number b U }
    ensures unites { (d : Script) (J K : List LaneEvent) (old now : ℕ → Node) (v number : ℕ) (b : Low) (U : Content)
        (readers did : ℕ → Bool) (u : Entries) → HasRounded d J K old now v number b U
        → IsUnion v number (history K) did u → ((n : ℕ) → readers n ≡ did n) → ((n : ℕ) → readers n ≡ true → n < 32)
        → ((n : ℕ) (g : Given) → answer v number n (history K) ≡ Some g → did n ≡ true)
        → AreAlike b u (newest_of readers (λ n id. stamp_of (fin.get (old n).entries id))) }
{}
