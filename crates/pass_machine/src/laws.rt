//! Laws of the machine; no function here does anything.

ghost use Rattle.std.specs.Prelude.{◌≡◌, ◌<◌, ◌+◌, ℕ, Bool, true, false, List, [], Some, None, IsSome, is_some, slice_get};
ghost use Rattle.std.specs.List.{AllByRecursion};
ghost use Rattle.std.specs.BTreeMap.{BTreeMap};
ghost use Rattle.bucket_ids.specs.Buckets.{Low, first_child, second_child, parent_of};
ghost use Rattle.ideal_nodes.specs.Placement.{IsIdeal};
ghost use Rattle.bucket_db.specs.Rows.{AreRows, buckets_of};
ghost use Rattle.bucket_db.specs.declared.row.Row.{Row};
ghost use Rattle.pass_model.specs.Sweeps.{fewer, with_row};
ghost use Rattle.pass_machine.specs.declared.doing.Time.TheVariants.{First, Again};
ghost use Rattle.pass_model.specs.Shapes.{Shape};
ghost use Rattle.pass_model.specs.Rows as rest;
ghost use Rattle.pass_model.specs.Rows.{Settings};
ghost use Rattle.pass_model.specs.Passes.{World, merged};
ghost use Rattle.pass_machine.specs.declared.doing.Time.{Time};
ghost use Rattle.pass_machine.specs.declared.doing.Settle.{Settle};
ghost use Rattle.pass_machine.specs.declared.doing.Settle.TheVariants.{Beginning, Deciding, Activating, Deleting, DeleteTold, DeleteOver};
ghost use Rattle.pass_machine.specs.declared.doing.UpkeepStep.TheVariants.{Tell, Decide};
ghost use Rattle.pass_machine.specs.declared.doing.Turn.TheVariants.{Over, Says};
ghost use Rattle.messages.specs.declared.body.Body.{Body};
ghost use Rattle.messages.specs.declared.decision.Decision.{Decision};
ghost use Rattle.messages.specs.declared.decision.Decision.TheVariants as decisions;
ghost use Rattle.messages.specs.declared.decision.Decision.TheVariants.{RowSplit};
ghost use Rattle.distributor_part.specs.Parts.{Part, rows_of};
ghost use Rattle.distributor_part.specs.Upkeep.{SplitsRow, JoinsRows};
ghost use Rattle.pass_machine.specs.Going.{Forgets, split_makes, join_makes};
ghost use Rattle.cluster_states.specs.Publishing.{serves};
ghost use Rattle.pass_model.specs.Nodes.{Node};
ghost use Rattle.pass_machine.specs.declared.doing.Doing.TheVariants.{ResendingActivate, ResentActivate, Rounding, Joining, JoinTold, JoinRound, Splitting, SplitTold, SplitFirst, SplitSecond, Settling};
ghost use Rattle.pass_machine.specs.declared.notes.RowNote.{RowNote};
ghost use Rattle.pass_machine.specs.Notes.{note_for, whole_in};
ghost use Rattle.pass_machine.specs.Turns.{View, begin_joins, turn_at, settle_turn, answered_row, rounded};
ghost use Rattle.pass_machine.specs.Abstract.{AreMade, IsPlace, Pends, answer_of, after_decision, Refines, Tells, Agrees, AreOfBuckets, AreNoted, IsPairJoined, Pairs, Activates, row_with, row_in, rows_in, time_of, doing_of};
ghost use Rattle.pass_machine.specs.Places.{first_with, place_of, is_full_by};
ghost use Rattle.pass_model.specs.Turns.{stand, with_made, with_children, without_pair, turn_at as turn_at_rest, round_of as round_at_rest, Joining as Joining_rest, SplitTold as SplitTold_rest};

/// Where a row is settled that had a whole round, a turn of the machine is one or two of those in the abstract: to go
/// over a place is turns that change nothing, and a message, a decision, an acceptance and a round are one each.
pub fn settling_is_turns()
    ensures { (v : View) (s : Settings) (made : BTreeMap ℕ (Unit {0})) (list : List Low)
        (notes : BTreeMap ℕ RowNote) (w : World) (t : Time) (at : ℕ) (row : Row) (note : RowNote)
        (shown : ℕ → Shape) (next : Settle) → AreMade made list → IsIdeal row.bucket v.state (v.ideal row.bucket)
        → whole_in (note_for row.bucket notes) ≡ Some note → IsPlace v s w at row note shown next
        → Refines v s list w row note shown (Settling t at next) (turn_at v made notes (Settling t at next)) }
{}

/// A message to each node, of the row that a join made or of the first half of a row that was split, is a turn, and to
/// go over a node that doesn't serve is one that changes nothing.
pub fn tellings_are_turns()
    ensures joins { (v : View) (s : Settings) (made : BTreeMap ℕ (Unit {0})) (list : List Low)
        (notes : BTreeMap ℕ RowNote) (w : World) (t : Time) (bits at : ℕ) (parent : Low) (node : ℕ) → Agrees v s
        → Tells v s list w (JoinTold t bits at parent node) (turn_at v made notes (JoinTold t bits at parent node)) }
    ensures splits { (v : View) (s : Settings) (made : BTreeMap ℕ (Unit {0})) (list : List Low)
        (notes : BTreeMap ℕ RowNote) (w : World) (at : ℕ) (first second : Low) (node : ℕ) → Agrees v s
        → first_child (parent_of first) ≡ first
        → Tells v s list w (SplitTold at first second node) (turn_at v made notes (SplitTold at first second node)) }
{}

/// A round of a row is a turn, where the rows of the world are of the same buckets.
pub fn rounds_are_turns()
    ensures each { (v : View) (s : Settings) (list : List Low) (w : World) (at : ℕ) (r : rest.Row)
        → slice_get w.rows at ≡ Some r
        → turn_at_rest s (doing_of list (Rounding at)) w
        ≡ stand (doing_of list (rounded v (Rounding at))) (round_at_rest s at r w) }
    ensures joined { (v : View) (s : Settings) (list : List Low) (w : World) (t : Time) (bits at : ℕ) (parent : Low)
        (r : rest.Row) → AreOfBuckets v.rows w.rows → slice_get w.rows (place_of parent v.rows) ≡ Some r
        → turn_at_rest s (doing_of list (JoinRound t bits at parent)) w
        ≡ stand (Joining_rest (with_made parent (time_of list t)) bits (at + 1))
        (round_at_rest s (place_of parent v.rows) r w) }
    ensures first { (v : View) (s : Settings) (list : List Low) (w : World) (at : ℕ) (first second : Low)
        (r : rest.Row) → AreOfBuckets v.rows w.rows → first_child (parent_of first) ≡ first
        → parent_of second ≡ parent_of first → slice_get w.rows (place_of first v.rows) ≡ Some r
        → turn_at_rest s (doing_of list (SplitFirst at first second)) w
        ≡ stand (doing_of list (SplitSecond at second)) (round_at_rest s (place_of first v.rows) r w) }
    ensures second { (v : View) (s : Settings) (list : List Low) (w : World) (at : ℕ) (second : Low) (r : rest.Row)
        → AreOfBuckets v.rows w.rows → second_child (parent_of second) ≡ second
        → slice_get w.rows (place_of second v.rows) ≡ Some r
        → turn_at_rest s (doing_of list (SplitSecond at second)) w
        ≡ stand (doing_of list (Splitting at)) (round_at_rest s (place_of second v.rows) r w) }
{}

/// A row that had a whole round is split in a turn where it has too many documents, and else a turn goes over it.
pub fn splits_are_turns()
    ensures split { (s : Settings) (split_at : ℕ) (list : List Low) (w : World) (at : ℕ) (row : Row) (note : RowNote)
        (shown : ℕ → Shape) → s.split_at ≡ split_at → slice_get w.rows at ≡ Some (row_with shown (Some note) row)
        → is_full_by split_at row.bucket.bits (Some note.documents) ≡ true
        → turn_at_rest s (doing_of list (Splitting at)) w ≡ stand (SplitTold_rest at row.bucket 0)
        (record { nodes = w.nodes; rows = with_children at (row_with shown (Some note) row) w.rows }) }
    ensures stays { (s : Settings) (split_at : ℕ) (list : List Low) (w : World) (at : ℕ) (row : Row) (note : RowNote)
        (shown : ℕ → Shape) → s.split_at ≡ split_at → slice_get w.rows at ≡ Some (row_with shown (Some note) row)
        → is_full_by split_at row.bucket.bits (Some note.documents) ≡ false
        → turn_at_rest s (doing_of list (Splitting at)) w ≡ stand (doing_of list (Splitting (at + 1))) w }
{}

/// What is under way with the row that is settled goes on behind a message and behind a decision.
pub fn rows_go_on()
    ensures told { (v : View) (s : Settings) (made : BTreeMap ℕ (Unit {0})) (w : World) (t : Time) (at : ℕ)
        (row : Row) (note : RowNote) (shown : ℕ → Shape) (next : Settle) → IsPlace v s w at row note shown next
        → (n : ℕ) (b : Body) → settle_turn v made t at row note next ≡ Says (Tell n b)
        → (x : Node) → Pends (serves v.state) (answered_row v at (answer_of b x) next) shown row }
    ensures activated { (v : View) (s : Settings) (made : BTreeMap ℕ (Unit {0})) (w : World) (t : Time) (at : ℕ)
        (row : Row) (note : RowNote) (shown : ℕ → Shape) (ready : Bool)
        → IsPlace v s w at row note shown (Deciding ready) → (d : Decision)
        → settle_turn v made t at row note (Deciding ready) ≡ Says (Decide at d)
        → (marks : ℕ) → Pends (serves v.state) Activating shown (after_decision marks d row) }
    ensures deleted { (v : View) (s : Settings) (made : BTreeMap ℕ (Unit {0})) (w : World) (t : Time) (at : ℕ)
        (row : Row) (note : RowNote) (shown : ℕ → Shape) (n : ℕ)
        → IsPlace v s w at row note shown (Deleting n) → (d : Decision)
        → settle_turn v made t at row note (Deleting n) ≡ Says (Decide at d)
        → (marks : ℕ) → Pends (serves v.state) (DeleteTold n) shown (after_decision marks d row) }
    ensures over { (v : View) (s : Settings) (made : BTreeMap ℕ (Unit {0})) (w : World) (t : Time) (at : ℕ)
        (row : Row) (note : RowNote) (shown : ℕ → Shape) (n : ℕ) → IsPlace v s w at row note shown (DeleteOver n)
        → (marks : ℕ) → Pends (serves v.state) (Deleting (n + 1)) shown
        (after_decision marks (decisions.DeleteOver row.bucket n) row) }
{}

/// Behind the last row a turn goes on with the joins, and the rows of so many bits begin where they do in the abstract.
pub fn joins_begin()
    ensures levels { (lane : Low) (bits : ℕ) (rows : List Row) (rs : List rest.Row) → AreRows lane (buckets_of rows)
        → AreOfBuckets rows rs → first_with bits rows ≡ fewer bits rs }
    ensures rounded { (v : View) (s : Settings) (list : List Low) (w : World) (at : ℕ)
        → AreRows v.lane (buckets_of v.rows) → AreOfBuckets v.rows w.rows → slice_get w.rows at ≡ None
        → turn_at_rest s (doing_of list (Rounding at)) w ≡ stand (doing_of list (begin_joins v First)) w }
    ensures settled { (v : View) (s : Settings) (w : World) (at : ℕ)
        → AreRows v.lane (buckets_of v.rows) → AreOfBuckets v.rows w.rows → slice_get w.rows at ≡ None → turn_at_rest s
        (doing_of [] (Settling First at Beginning)) w ≡ stand (doing_of [] (begin_joins v Again)) w }
{}

/// Where each row had a whole round and no Delete is under way, a turn with pairs is that in the abstract: two halves
/// that may be joined are taken away for their parent, of which each node is told next, and else it goes over the place;
/// behind the last row of so many bits come those of one bit less, and behind those of two bits the joins are over.
pub fn joins_are_turns()
    ensures { (v : View) (s : Settings) (made : BTreeMap ℕ (Unit {0})) (list : List Low)
        (notes : BTreeMap ℕ RowNote) (w : World) (t : Time) (bits at : ℕ) → s.split_at ≡ (v.rules).split_at
        → s.lane_bits ≡ (v.lane).bits → AreRows v.lane (buckets_of v.rows) → AreNoted notes v.rows w.rows → 1 < bits
        → Pairs s list w t bits at (turn_at v made notes (Joining t bits at)) }
{}

/// Behind the split of a row and behind the join of two, whose new rows have no note yet, the rows of the part with
/// their notes are those that the turn of the abstract leaves.
pub fn decisions_change_lists()
    ensures noted { (shown : Low → ℕ → Shape) (notes : BTreeMap ℕ RowNote) (rows : List Row)
        → AllByRecursion (λ (row : Row). IsSome (whole_in (note_for row.bucket notes)) × (row.deleting ≡ None)) rows
        → AreNoted notes rows (rows_in shown notes rows) }
    ensures split { (shown : Low → ℕ → Shape) (notes after : BTreeMap ℕ RowNote) (p q : Part) (at : ℕ)
        (x : SplitsRow p q at) → AreRows p.lane (buckets_of (rows_of p.rows))
        → Forgets (split_makes (RowSplit (x.row).bucket)) notes after → rows_in shown after (rows_of q.rows)
        ≡ with_children at (row_in shown notes x.row) (rows_in shown notes (rows_of p.rows)) }
    ensures joined { (shown : Low → ℕ → Shape) (notes after : BTreeMap ℕ RowNote) (p q : Part) (at : ℕ)
        (x : JoinsRows p q at) (s : Settings) (list : List Low) (w : World) (t : Time) (bits : ℕ) (d : Decision)
        (j : IsPairJoined s list w t bits at d) → AreRows p.lane (buckets_of (rows_of p.rows))
        → w.rows ≡ rows_in shown notes (rows_of p.rows) → Forgets (join_makes d) notes after
        → rows_in shown after (rows_of q.rows)
        ≡ with_row (merged (parent_of (j.one).bucket) j.one j.two) (without_pair at j.other w.rows) }
{}

/// The active node of a row is told so again in a turn of the abstract, and that it accepted is noted in one, before any
/// round, where it serves; behind the last row come the rounds.
pub fn activates_are_turns()
    ensures sent { (v : View) (s : Settings) (made : BTreeMap ℕ (Unit {0})) (notes : BTreeMap ℕ RowNote) (w : World)
        (at : ℕ) (row : Row) (shown : ℕ → Shape) → slice_get v.rows at ≡ Some row
        → slice_get w.rows at ≡ Some (row_with shown None row)
        → ((n : ℕ) → row.active ≡ Some n → serves v.state n ≡ true)
        → Activates v s w row shown (ResendingActivate at) (turn_at v made notes (ResendingActivate at)) }
    ensures noted { (v : View) (s : Settings) (made : BTreeMap ℕ (Unit {0})) (notes : BTreeMap ℕ RowNote) (w : World)
        (at : ℕ) (row : Row) (shown : ℕ → Shape) (taken : Bool) → slice_get v.rows at ≡ Some row
        → slice_get w.rows at ≡ Some (row_with shown None row) → (taken ≡ true → is_some row.active ≡ true)
        → Activates v s w row shown (ResentActivate at taken) (turn_at v made notes (ResentActivate at taken)) }
    ensures over { (v : View) (s : Settings) (made : BTreeMap ℕ (Unit {0})) (notes : BTreeMap ℕ RowNote) (w : World)
        (at : ℕ) → slice_get v.rows at ≡ None → slice_get w.rows at ≡ None
        → (turn_at v made notes (ResendingActivate at) ≡ Over (Rounding 0))
        × (turn_at_rest s (doing_of [] (ResendingActivate at)) w ≡ stand (doing_of [] (Rounding 0)) w) }
{}
