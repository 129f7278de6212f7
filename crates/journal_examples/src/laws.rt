//! The laws of the examples; no function here does anything.

ghost use Rattle.std.specs.Prelude.{◌≡◌, ℕ, ◌%◌, true, List, [], ◌∷◌, None, Some};
ghost use Rattle.document_ids.specs.Parts.{number_of};
ghost use Rattle.carriers.specs.declared.fate.Fate.TheVariants as fate;
ghost use Rattle.messages.specs.declared.outcome.Outcome.TheVariants.{Acked};
ghost use Rattle.messages.specs.declared.decision.Decision.TheVariants.{ActiveOn, DeleteFrom};
ghost use Rattle.lane_journals.specs.Buckets.{Id, contains, key_of};
ghost use Rattle.lane_journals.specs.Readers.{store, Acked as IsAcked};
ghost use Rattle.lane_journals.specs.Meanings.{history};
ghost use Rattle.lane_journals.specs.KeptJournals.{IsLegal};
ghost use Rattle.lane_journals.specs.declared.event.LaneEvent.TheVariants.{Published, Prepared, Closed, Decided};
ghost use Rattle.journal_examples.specs.Lives.{OfDocuments, lane, setting, stamp_one, stamp_two, stamp_three, asked_one, life_one, activated, life};
ghost use Rattle.journal_examples.specs.WrongSteps.{IsRefused, opened_early, state_small, incomplete_read, active_elsewhere, acked_without_active, one_copy, whole, deleting_keeper, IsNoKeeper};
ghost use Rattle.journal_examples.specs.WrongCarriage.{IsRefused as IsMiscarried, in_time, early, once, twice, numbered, skipped, unanswered, answered, cut_off, reaching_stopped, late_cut_off, late_reaching_stopped, started_again, lost_at_started, late_started_again, late_lost_at_started};

/// The journal `life` is legal for each document of its lane, and there are such documents: a lane may go
/// through two states with a late message, a split and a join, an activation, a Delete that empties a
/// node, and an acknowledged write under each state; the last is kept where the first was found.
pub fn a_lane_may_live()
    ensures legal { OfDocuments (λ id. IsLegal setting (life id)) }
    ensures acked_one { OfDocuments (λ id. IsAcked 1 id stamp_two (history (life id))) }
    ensures acked_two { OfDocuments (λ id. IsAcked 2 id stamp_three (history (life id))) }
    ensures kept { OfDocuments (λ id. store 0 id (history (life id)) ≡ Some stamp_three) }
    ensures emptied { OfDocuments (λ id. store 1 id (history (life id)) ≡ None) }
    ensures documents { (id : Id) (number : ℕ) → number_of id ≡ Some number → number % 2 ≡ 0
        → contains lane (key_of id) ≡ true }
{}

/// Six wrong steps, each after a legal journal: an opening before all nodes answered, a state that leaves out
/// too many nodes, recipients that aren't complete, a second activation (of the same node, and of one that
/// comes before it), an acknowledgement without the active node, and a Delete whose keeper has itself an
/// unanswered Delete. What each names is there and where the states say; that it comes next is what is wrong.
pub fn wrong_steps_are_refused()
    ensures opened_before_all_answered { IsRefused setting asked_one opened_early }
    ensures state_leaves_out_too_many { OfDocuments (λ id.
        IsRefused setting (life_one id) (Published state_small)) }
    ensures condition_read_from_an_incomplete_replica { OfDocuments (λ id.
        IsRefused setting (incomplete_read id) (Prepared 1 lane 3)) }
    ensures row_activated_twice { OfDocuments (λ id.
        IsRefused setting (activated id) (Decided 0 2 (ActiveOn lane 0))) }
    ensures row_activated_on_another_node { IsRefused setting active_elsewhere (Decided 0 1 (ActiveOn lane 0)) }
    ensures acknowledged_without_the_active_node { OfDocuments (λ id.
        IsRefused setting (acked_without_active id) (Closed 1 (Acked stamp_one))) }
    ensures deleting_replica_counts_as_keeper { IsRefused one_copy deleting_keeper (Decided 0 1 (DeleteFrom whole 1 3)) }
    // it took the union of the last round as a keeper does
    ensures deleting_replica_keeps_nothing { IsNoKeeper 1 whole 1 0 deleting_keeper }
{}

/// Wrong journals, each beside the right one: a late message is delivered early, one is delivered twice, a
/// number is skipped, the reply is returned that its fate loses; a message is delivered to a stopped node, at
/// once or late; one isn't delivered, at once or late, though its receiver was started again.
pub fn wrong_carriage_is_refused()
    ensures delivered_early { IsMiscarried (fate.Late 1 ∷ fate.Deliver ∷ []) in_time early }
    ensures delivered_twice { IsMiscarried (fate.Deliver ∷ []) once twice }
    ensures number_skipped { IsMiscarried (fate.LoseRequest ∷ fate.LoseRequest ∷ []) numbered skipped }
    ensures lost_reply_returned { IsMiscarried (fate.LoseReply ∷ []) unanswered answered }
    ensures delivered_to_stopped { IsMiscarried (fate.Deliver ∷ []) cut_off reaching_stopped }
    ensures late_to_stopped { IsMiscarried (fate.Late 1 ∷ fate.Deliver ∷ []) late_cut_off late_reaching_stopped }
    ensures lost_though_started { IsMiscarried (fate.Deliver ∷ []) started_again lost_at_started }
    ensures late_lost_though_started { IsMiscarried (fate.Late 1 ∷ fate.LoseRequest ∷ []) late_started_again
        late_lost_at_started }
{}
