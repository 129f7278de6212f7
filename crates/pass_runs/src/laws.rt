//! Where a pass stands, step by step; no function here does anything.

ghost use Rattle.std.specs.Prelude.{◌≡◌, ℕ, None};
ghost use Rattle.std.specs.Ordering.{nat_cmp};
ghost use Rattle.std.specs.BTreeMap.{BTreeMap, get};
ghost use Rattle.messages.specs.declared.body.Body.{Body};
ghost use Rattle.messages.specs.declared.decision.Decision.{Decision};
ghost use Rattle.lane_keeping.specs.Flights.{NamesBucket};
ghost use Rattle.distributor_part.specs.Upkeep.{AcceptsAt};
ghost use Rattle.pass_model.specs.Nodes.{Node};
ghost use Rattle.pass_model.specs.Rows.{Settings};
ghost use Rattle.pass_model.specs.Passes.{World, Resends, Passes};
ghost use Rattle.pass_model.specs.Resting.{AreSettings};
ghost use Rattle.pass_model.specs.Scripts.{told_node};
ghost use Rattle.pass_machine.specs.declared.doing.Doing.{Doing};
ghost use Rattle.pass_machine.specs.declared.doing.Doing.TheVariants.{ResendingDelete, Finished};
ghost use Rattle.pass_machine.specs.declared.doing.UpkeepStep.TheVariants.{Tell, Decide, Accept, Round};
ghost use Rattle.pass_machine.specs.declared.doing.Turn.TheVariants.{Says};
ghost use Rattle.pass_machine.specs.declared.notes.RowNote.{RowNote};
ghost use Rattle.pass_machine.specs.Turns.{View, turn_at, answered, decided, accepted, rounded};
ghost use Rattle.pass_machine.specs.Going.{GoesOver, Forgets, Makes, made_in, rows_made};
ghost use Rattle.pass_machine.specs.Abstract.{answer_of};
ghost use Rattle.pass_runs.specs.Worlds.{IsUnder, world_of};
ghost use Rattle.pass_runs.specs.Steps.{Changes, IsDecidedBy, IsRoundAt};
ghost use Rattle.pass_runs.specs.Standing.{NoNotes, Stands};

/// A pass stands where it begins, with what is sent again, and where it goes over places without a step. It stands
/// behind a message to a node, a decision, an acceptance and a round.
pub fn passes_stand()
    ensures begins { (s : Settings) (still : ℕ → Node) (v : View) (made : BTreeMap ℕ (Unit {0}))
        (notes : BTreeMap ℕ RowNote) (ns : ℕ → Node) → IsUnder s still v ns
        → ((number : ℕ) → get nat_cmp made number ≡ None) → NoNotes notes
        → Stands s still (world_of still v notes ns) v made notes (ResendingDelete 0) ns }
    ensures over { (s : Settings) (still : ℕ → Node) (first : World) (v : View) (made : BTreeMap ℕ (Unit {0}))
        (notes : BTreeMap ℕ RowNote) (d e : Doing) (ns : ℕ → Node) → IsUnder s still v ns
        → GoesOver v made notes d e → Stands s still first v made notes d ns → Stands s still first v made notes e ns }
    ensures told { (s : Settings) (still : ℕ → Node) (first : World) (v : View) (made : BTreeMap ℕ (Unit {0}))
        (notes : BTreeMap ℕ RowNote) (d : Doing) (ns : ℕ → Node) (n : ℕ) (b : Body) → IsUnder s still v ns
        → NamesBucket b → turn_at v made notes d ≡ Says (Tell n b) → Stands s still first v made notes d ns
        → Stands s still first v made notes (answered v (answer_of b (ns n)) d) (told_node n b ns) }
    ensures decided { (s : Settings) (still : ℕ → Node) (first : World) (v w : View) (made : BTreeMap ℕ (Unit {0}))
        (notes after : BTreeMap ℕ RowNote) (d : Doing) (ns : ℕ → Node) (at : ℕ) (x : Decision)
        → IsUnder s still v ns → IsUnder s still w ns → turn_at v made notes d ≡ Says (Decide at x)
        → Changes v w (IsDecidedBy at x) → Forgets (rows_made d x) notes after
        → Stands s still first v made notes d ns → Stands s still first w made after (decided d x) ns }
    ensures accepted { (s : Settings) (still : ℕ → Node) (first : World) (v w : View) (made : BTreeMap ℕ (Unit {0}))
        (notes : BTreeMap ℕ RowNote) (d : Doing) (ns : ℕ → Node) (at : ℕ) → IsUnder s still v ns
        → IsUnder s still w ns → turn_at v made notes d ≡ Says (Accept at) → Changes v w (λ p q. AcceptsAt p q at)
        → Stands s still first v made notes d ns → Stands s still first w made notes (accepted d) ns }
    ensures rounded { (s : Settings) (still : ℕ → Node) (first : World) (v w : View) (made now : BTreeMap ℕ (Unit {0}))
        (notes after : BTreeMap ℕ RowNote) (d : Doing) (ns ms : ℕ → Node) (at : ℕ) → IsUnder s still v ns
        → IsUnder s still w ms → turn_at v made notes d ≡ Says (Round at)
        → IsRoundAt s still v w notes after ns ms at → Makes (made_in d) made now
        → Stands s still first v made notes d ns → Stands s still first w now after (rounded w d) ms }
{}

/// Where the machine is finished, what was sent again and all behind it was a pass that nothing disturbs.
pub fn passes_end()
    ensures { (s : Settings) (still : ℕ → Node) (first : World) (v : View) (made : BTreeMap ℕ (Unit {0}))
        (notes : BTreeMap ℕ RowNote) (ns : ℕ → Node) → AreSettings s
        → Stands s still first v made notes Finished ns
        → (resent : World) × Resends s first resent × Passes s resent (world_of still v notes ns) }
{}
