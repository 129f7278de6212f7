ghost use Rattle.std.specs.Prelude.{◌≡◌, ◌≤◌, ◌+◌, ◌≢◌, ℕ, None, is_some, IsSome, IfSome, IfOk, OnOk, OnErr, vec_len, vec_capacity, true, false, Some, IfNone, slice_get, slice_set, ◌<◌, ◌-◌};
ghost use Rattle.std.specs.Ordering.{nat_cmp};
ghost use Rattle.bucket_ids.specs.Buckets.{IsIn};
ghost use Rattle.ideal_nodes.specs.Placement.{IsOwner};
ghost use Rattle.op_machine.specs.Plans.{is_get, IsOwn, IsPlan, plan_of};
ghost use Rattle.lane_journals.specs.Readers.{held, stamps_of};
ghost use Rattle.lane_journals.specs.Meanings.{history};
ghost use Rattle.lane_keeping.specs.Acting.{IsActing};
ghost use Rattle.lane_keeping.specs.Lines.{IsFresh};
ghost use Rattle.op_machine.specs.Plans.{IsPlainGet};
ghost use Rattle.lane_states.specs.LaneStates.{journal_of, part_of, HasRoom, StaysCarried, IsCarriedBy, IsKept};
ghost use Rattle.lane_calls.specs.LaneValues.{drawn, Begins, BeginsAtOwner, Refuses, IsBeginning, IsBeginningAtOwner};
ghost use Rattle.lane_keeping.specs.Tidings.{is_older, last_state};
ghost use Rattle.lane_core.specs.Works.{IsWork, OfValues, SameValue, SameHanded, OfJob, OfNoJob, count_of, count_after, begun_by};
ghost use Rattle.lane_core.specs.Phases.{AdvancesBy, HasEnded, IsPhaseOf, OfPrepared, IsAtMessages, ComesTo, IsToStep};
ghost use Rattle.lane_core.specs.declared.work.Phase.TheVariants as phase;
ghost use Rattle.lane_core.specs.Searching.{JustBegun, is_begun, spent, IsFreeFor, IsBlocked, SearchesBy, ComesToRow, MayCome, ComesFrom};
ghost use Rattle.std.specs.BTreeMap as tree;
ghost use Rattle.global_ids.specs.Keys as keys;
ghost use Rattle.lane_journals.specs.Buckets as buckets;
ghost use Rattle.lane_calls.specs.declared.answers.Advance.TheVariants as advance;
ghost use Rattle.global_ids.specs.Keys.{key_of};
ghost use Rattle.lane_lines.specs.Steps.{GoesIn, RunsIn, StandsIn, GivesOne, GivesFew, IsUneventful};
ghost use Rattle.stamps.specs.Places.{place_of};
ghost use Rattle.lane_states.specs.Written.{FindsEntries};
ghost use Rattle.op_machine.specs.Standings.{IsBegun};
ghost use Rattle.lane_core.specs.Preparations.{IsReady, PreparesAt, MayFallShort, OverAt};
ghost use Rattle.lane_lines.specs.Readying.{search_from};

use crate::jobs::{holder_of, prepared_in};
use crate::work::{Job, Phase, Work, push_job};
use bucket_db::Row;
use bucket_ids::Bucket;
use carriers::Carrier;
use cluster_states::ClusterState;
use document_ids::DocId;
use lane_calls::answers::{Advance, Begin};
use lane_journals::LaneEvent;
use lane_journals::active_copies::one_active_copy;
use lane_journals::laws::kept_journals_mean_legal_ones;
use lane_keeping::laws::owners_act;
use lane_lines::readying::{Shortage, find_row, row_with};
use lane_lines::steps::send_next;
use lane_states::known_owner::KnownOwner;
use lane_states::lane_state::LaneState;
use messages::{OpKind, Operation, Origin, Outcome, SharedOperation};
use node_sets::NodeSet;
use op_machine::OpMachine;
use operation_keeping::laws::{
    lines_are_refused, operations_begin, operations_end, operations_prepare, operations_shorten,
};
use stamps::{Stamp, StampPlaces};
use std::alloc::Global;
use std::collections::BTreeMap;
use value_lists::{NoMemory, TryCopy};

/// Whether an operation of this kind is a get.
fn is_get(kind: &OpKind) -> bool
    ensures { result ≡ is_get kind.now }
{
    match kind {
        OpKind::Get => true,
        OpKind::Put(_) | OpKind::Update(_) | OpKind::Remove => false,
    }
}

/// A copy of the operation, which its lane and its machine share.
fn shared_copy(alloc: Global, operation: &Operation) -> Result<SharedOperation, NoMemory>
    ensures { IfOk result (λ copy. copy ≡ operation.now) }
{
    SharedOperation::new(alloc, operation.copy(alloc)?)
}

/// Begins to count the stamps of a version, if it isn't counted yet.
fn make_count(counts: &mut BTreeMap<u32, u64>, version: u32) -> Result<(), NoMemory>
    ensures same { (v : ℕ) → count_of counts.new v ≡ count_of counts.old v }
    ensures there { OnOk result (IsSome (tree.get nat_cmp counts.new version)) }
{
    if counts.get(&version).is_none() {
        counts.insert(version, 0)?;
    }
    Ok(())
}

/// Counts a stamp that is drawn, if one is.
fn count_stamp(counts: &mut BTreeMap<u32, u64>, stamp: Option<Stamp>)
    requires there { IfSome stamp (λ s. IsSome (tree.get nat_cmp counts.old s.version)) }
    ensures { (v : ℕ) → count_of counts.new v ≡ count_after stamp (count_of counts.old) v }
{
    if let Some(stamp) = stamp {
        match counts.insert(stamp.version, stamp.count) {
            Ok(_) => {}
            Err(_) => unreachable!(),
        }
    }
}

impl Work {
    /// How many stamps of a version were drawn.
    fn count(&self, version: u32) -> u64
        requires keeps { IsWork self.now }
        ensures { result ≡ stamps_of version (history (journal_of self.now.state)) }
    {
        match self.drawn.get(&version) {
            Some(count) => *count,
            None => 0,
        }
    }

    /// The stamp that an operation draws under a version; a get draws none. Each stamp has an event.
    fn next_stamp(&self, kind: &OpKind, version: u32) -> Option<Stamp>
        requires keeps { IsWork self.now }
        requires room { vec_len self.now.state.journal.events + 1 ≤ vec_capacity self.now.state.journal.events }
        ensures { result ≡ drawn kind.now version (journal_of self.now.state) }
    {
        if is_get(kind) {
            None
        } else {
            Some(Stamp {
                version,
                count: self.count(version) + 1,
            })
        }
    }

    /// Begins the operation of a line at a distributor; refused where that one doesn't own the lane under the
    /// state that it holds. The owner may be known.
    pub fn begin(
        &mut self,
        line: u32,
        key: u64,
        operation: &Operation,
        via: u8,
        known: Option<&KnownOwner>,
    ) -> Begin
        requires keeps { IsWork self.old }
        requires key { key ≡ keys.key_of operation.now.id }
        requires fresh { IsFresh (history (journal_of self.old.state)) line }
        requires holds { IsSome (held via (history (journal_of self.old.state))) }
        requires in_lane { IsIn self.old.state.lane (buckets.key_of operation.now.id) }
        requires own { IsOwn operation.now.id operation.now.kind }
        requires plain { IsPlainGet operation.now }
        ensures keeps { IsWork self.new }
        ensures carried { StaysCarried self.old.state self.new.state }
        ensures begins { OfValues (λ old new. IsBeginning line operation.now via old new result) self.old self.new }
        ensures handed { SameHanded self.old self.new }
    {
        owners_act();
        let Some(state) = self.state.state_at(via) else {
            unreachable!();
        };
        let owner = self.state.owner_by(known, &state);
        if owner == via {
            if let Some(by) = holder_of(&self.jobs, &operation.id) {
                return Begin::Held { by };
            }
            return match self.begin_at(line, key, operation, via, &state) {
                Ok(()) => Begin::Begun,
                Err(NoMemory) => Begin::NoMemory,
            };
        }
        match self.refuse(line, via, owner, &state) {
            Ok(outcome) => Begin::Refused { outcome },
            Err(NoMemory) => Begin::NoMemory,
        }
    }

    /// Begins it at the owner under the state that it holds.
    fn begin_at(
        &mut self,
        line: u32,
        key: u64,
        operation: &Operation,
        via: u8,
        state: &ClusterState,
    ) -> Result<(), NoMemory>
        requires keeps { IsWork self.old }
        requires key { key ≡ keys.key_of operation.now.id }
        requires fresh { IsFresh (history (journal_of self.old.state)) line }
        requires holds { (part_of self.old.state via).state ≡ Some state.now }
        requires owner { IsOwner self.old.state.lane state.now via }
        requires free { OfNoJob (λ j. j.operation.id ≡ operation.now.id) self.old.jobs.items }
        requires in_lane { IsIn self.old.state.lane (buckets.key_of operation.now.id) }
        requires own { IsOwn operation.now.id operation.now.kind }
        requires plain { IsPlainGet operation.now }
        ensures keeps { IsWork self.new }
        ensures carried { StaysCarried self.old.state self.new.state }
        ensures ok { OnOk result (OfValues (Begins line operation.now via) self.old self.new) }
        ensures err { OnErr result (SameValue self.old self.new) }
        ensures handed { SameHanded self.old self.new }
    {
        owners_act();
        let id = operation.id.copy(self.state.alloc)?;
        let copy = shared_copy(self.state.alloc, operation)?;
        self.room_to_begin(2, state.version())?;
        self.note_begun(line, key, id, copy, via, state);
        Ok(())
    }

    /// Begins the operation of a line at the owner under the newest state, which first hears that state. The
    /// owner may be known.
    pub fn begin_at_owner(
        &mut self,
        line: u32,
        key: u64,
        operation: &Operation,
        known: Option<&KnownOwner>,
    ) -> Begin
        requires keeps { IsWork self.old }
        requires key { key ≡ keys.key_of operation.now.id }
        requires fresh { IsFresh (history (journal_of self.old.state)) line }
        requires published { IsSome (last_state (journal_of self.old.state)) }
        requires in_lane { IsIn self.old.state.lane (buckets.key_of operation.now.id) }
        requires own { IsOwn operation.now.id operation.now.kind }
        requires plain { IsPlainGet operation.now }
        ensures keeps { IsWork self.new }
        ensures carried { StaysCarried self.old.state self.new.state }
        ensures begins { OfValues (λ old new. IsBeginningAtOwner line operation.now old new result) self.old self.new }
        ensures handed { SameHanded self.old self.new }
    {
        let Some(state) = self.state.newest else {
            unreachable!();
        };
        let owner = self.state.owner_by(known, &state);
        if let Some(by) = self.hearing_held(owner, &state) {
            return Begin::Held { by };
        }
        if let Some(by) = holder_of(&self.jobs, &operation.id) {
            return Begin::Held { by };
        }
        match self.begin_hearing(line, key, operation, owner, &state) {
            Ok(()) => Begin::Begun,
            Err(NoMemory) => Begin::NoMemory,
        }
    }

    /// The owner hears the newest state, and begins it; nothing stands against either.
    fn begin_hearing(
        &mut self,
        line: u32,
        key: u64,
        operation: &Operation,
        owner: u8,
        state: &ClusterState,
    ) -> Result<(), NoMemory>
        requires keeps { IsWork self.old }
        requires key { key ≡ keys.key_of operation.now.id }
        requires fresh { IsFresh (history (journal_of self.old.state)) line }
        requires newest { self.old.state.newest ≡ Some state.now }
        requires owner { IsOwner self.old.state.lane state.now owner }
        requires free_to_hear { is_older (held owner (history (journal_of self.old.state))) state.now.version ≡ true
            → OfNoJob (λ j. j.distributor ≡ owner) self.old.jobs.items }
        requires free { OfNoJob (λ j. j.operation.id ≡ operation.now.id) self.old.jobs.items }
        requires in_lane { IsIn self.old.state.lane (buckets.key_of operation.now.id) }
        requires own { IsOwn operation.now.id operation.now.kind }
        requires plain { IsPlainGet operation.now }
        ensures keeps { IsWork self.new }
        ensures carried { StaysCarried self.old.state self.new.state }
        ensures ok { OnOk result (OfValues (BeginsAtOwner line operation.now) self.old self.new) }
        ensures err { OnErr result (SameValue self.old self.new) }
        ensures handed { SameHanded self.old self.new }
    {
        let id = operation.id.copy(self.state.alloc)?;
        let copy = shared_copy(self.state.alloc, operation)?;
        self.room_to_begin(3, state.version())?;
        self.need_part(owner)?;
        self.hear_within(owner, state);
        self.note_begun(line, key, id, copy, owner, state);
        Ok(())
    }

    /// Makes room for so many events, and for what is counted of the stamps of a version.
    pub fn room_to_begin(&mut self, events: usize, version: u32) -> Result<(), NoMemory>
        requires keeps { IsWork self.old }
        requires few { events ≤ 3 }
        ensures keeps { IsWork self.new }
        ensures carried { StaysCarried self.old.state self.new.state }
        ensures room { OnOk result (HasRoom events self.new.state) }
        ensures counted { OnOk result (IsSome (tree.get nat_cmp self.new.drawn version)) }
        ensures same { SameValue self.old self.new }
        ensures items { self.new.state.journal.events.items ≡ self.old.state.journal.events.items }
        ensures place { OnOk result (vec_len self.new.jobs + 1 ≤ vec_capacity self.new.jobs) }
        ensures jobs { self.new.jobs.items ≡ self.old.jobs.items }
        ensures after { self.new ≡ record self.old {
          state = record self.old.state { journal = self.new.state.journal };
          drawn = self.new.drawn;
          jobs = self.new.jobs;
        } }
    {
        self.state
            .journal
            .events
            .reserve(events + self.state.spare)?;
        self.jobs.reserve(1)?;
        make_count(&mut self.drawn, version)
    }

    /// The operation of a line begins at the owner under the state that it holds. Room was made
    /// for it, and for its close.
    fn note_begun(
        &mut self,
        line: u32,
        key: u64,
        id: DocId,
        operation: SharedOperation,
        via: u8,
        state: &ClusterState,
    )
        requires keeps { IsWork self.old }
        requires key { key ≡ keys.key_of operation.id }
        requires id { id ≡ operation.id }
        requires fresh { IsFresh (history (journal_of self.old.state)) line }
        requires free { OfNoJob (λ j. j.operation.id ≡ operation.id) self.old.jobs.items }
        requires place { vec_len self.old.jobs + 1 ≤ vec_capacity self.old.jobs }
        requires acting { IsActing self.old.state.lane (journal_of self.old.state) via state.now }
        requires in_lane { IsIn self.old.state.lane (buckets.key_of operation.id) }
        requires own { IsOwn operation.id operation.kind }
        requires plain { IsPlainGet operation }
        requires counted { IsSome (tree.get nat_cmp self.old.drawn state.now.version) }
        requires room { HasRoom 2 self.old.state }
        ensures keeps { IsWork self.new }
        ensures carried { StaysCarried self.old.state self.new.state }
        ensures begun { OfValues (λ old new. new ≡ begun_by line operation via state.now.version old) self.old self.new }
        ensures handed { SameHanded self.old self.new }
    {
        operations_begin();
        let version = state.version();
        let stamp = self.next_stamp(&operation.operation().kind, version);
        count_stamp(&mut self.drawn, stamp);
        self.state.note(LaneEvent::Begun {
            line,
            distributor: via,
            version,
            id,
            stamp,
        });
        self.state.spare += 1;
        push_job(
            &mut self.jobs,
            Job {
                line,
                operation,
                key,
                distributor: via,
                stamp,
                row: None,
                left: 65,
                phase: Phase::Begun,
            },
        );
    }

    /// Refuses a line at a distributor that isn't the owner under the state that it holds.
    fn refuse(
        &mut self,
        line: u32,
        via: u8,
        owner: u8,
        state: &ClusterState,
    ) -> Result<Outcome, NoMemory>
        requires keeps { IsWork self.old }
        requires fresh { IsFresh (history (journal_of self.old.state)) line }
        requires holds { (part_of self.old.state via).state ≡ Some state.now }
        requires owner { IsOwner self.old.state.lane state.now owner }
        requires other { owner ≢ via }
        ensures keeps { IsWork self.new }
        ensures carried { StaysCarried self.old.state self.new.state }
        ensures ok { IfOk result (λ outcome. OfValues (Refuses line via outcome) self.old self.new) }
        ensures err { OnErr result (SameValue self.old self.new) }
        ensures handed { SameHanded self.old self.new }
    {
        lines_are_refused();
        let version = state.version();
        self.state.journal.events.reserve(1 + self.state.spare)?;
        self.state.note(LaneEvent::Refused {
            line,
            distributor: via,
            outcome: Outcome::OwnedElsewhere { owner, version },
        });
        Ok(Outcome::OwnedElsewhere { owner, version })
    }
}

/// Whether nothing was done of an operation since it was begun.
fn is_begun(phase: &Phase) -> bool
    ensures { result ≡ is_begun phase.now }
{
    match phase {
        Phase::Begun => true,
        Phase::Prepared { .. } | Phase::Over { .. } | Phase::Short => false,
    }
}

/// Takes one call of the job at a place, which wants memory until more is known of it.
fn spend(jobs: &mut Vec<Job>, at: usize)
    requires { OfJob (λ j. 1 ≤ j.left) jobs.old.items at }
    ensures { OfJob (λ j. jobs.new.items ≡ slice_set jobs.old.items at (spent j)) jobs.old.items at }
{
    let job = &mut jobs[at];
    job.left -= 1;
    job.phase = Phase::Short;
}

impl Work {
    /// Whether nothing was done for the operation at a place since it was begun.
    pub fn is_begun(&self, at: usize) -> bool
        requires { at < vec_len self.now.jobs }
        ensures { OfJob (λ j. result ≡ is_begun j.phase) self.now.jobs.items at }
    {
        is_begun(&self.jobs[at].phase)
    }

    /// Whether a distributor opened its state.
    fn has_opened(&self, distributor: u8) -> bool
        requires there { distributor < vec_len self.now.state.parts }
        ensures { result ≡ is_some (part_of self.now.state distributor).rows }
    {
        self.state.parts[usize::from(distributor)].is_opened()
    }

    /// The line that stands against the search for the row of the operation at a place: where the state is opened and the
    /// row has too few complete members, the first of its distributor that is prepared there.
    fn blocker(&self, at: usize) -> Option<u32>
        requires keeps { IsWork self.now }
        requires begun { JustBegun self.now.jobs.items at }
        ensures { OfJob (λ j. IsBlocked self.now j result) self.now.jobs.items at }
    {
        owners_act();
        let job = &self.jobs[at];
        if !self.has_opened(job.distributor) {
            return None;
        }
        let row = row_with(&self.state, job.distributor, job.key);
        if self.state.rules.acks <= row.complete.len() {
            return None;
        }
        prepared_in(&self.jobs, job.distributor, row.bucket)
    }

    /// Finds the row for the operation at a place, which was begun, or how it ends without one. At want of memory the
    /// operation goes no further.
    fn search<C: Carrier>(
        &mut self,
        at: usize,
        carrier: &mut C,
    ) -> Result<Option<Shortage>, NoMemory>
        requires keeps { IsWork self.old }
        requires carried { IsCarriedBy self.old.state (C.given carrier.old) }
        requires begun { JustBegun self.old.jobs.items at }
        requires free { OfJob (IsFreeFor self.old) self.old.jobs.items at }
        ensures keeps { IsWork self.new }
        ensures carried { IsCarriedBy self.new.state (C.given carrier.new) }
        ensures planned { C.planned carrier.new ≡ C.planned carrier.old }
        ensures kind { C.takes_plans carrier.new ≡ C.takes_plans carrier.old }
        ensures searches { IfOk result
            (λ end. SearchesBy at self.old self.new (C.given carrier.old) (C.given carrier.new)) }
        ensures comes { IfOk result (ComesToRow (search_from self.old.state) self.new at) }
        ensures cut { OnErr result
            (AdvancesBy at self.old self.new (C.given carrier.old) (C.given carrier.new) advance.NoMemory) }
        ensures handed { SameHanded self.old self.new }
    {
        owners_act();
        let job = &self.jobs[at];
        let distributor = job.distributor;
        let key = job.key;
        spend(&mut self.jobs, at);
        find_row(&mut self.state, distributor, key, carrier)
    }

    /// Prepares the operation at a place in the row that was found; where none was, it is over with the outcome of that.
    fn come(&mut self, at: usize, found: Option<Shortage>) -> Advance
        requires keeps { IsWork self.old }
        requires comes { MayCome self.old at found }
        ensures keeps { IsWork self.new }
        ensures carried { StaysCarried self.old.state self.new.state }
        ensures advances { ComesFrom at self.old found self.new result }
        ensures handed { SameHanded self.old self.new }
    {
        match found {
            None => match self.prepare_in_row(at) {
                Ok(()) => Advance::More,
                Err(NoMemory) => Advance::NoMemory,
            },
            Some(shortage) => {
                self.fall_short(at, shortage.outcome(), shortage.outcome());
                Advance::Done
            }
        }
    }

    /// The first call of the operation at a place, which was begun: it is prepared in its row, or is over, or waits. It
    /// takes memory.
    pub fn prepare<C: Carrier>(&mut self, at: usize, carrier: &mut C) -> Advance
        requires keeps { IsWork self.old }
        requires carried { IsCarriedBy self.old.state (C.given carrier.old) }
        requires begun { JustBegun self.old.jobs.items at }
        ensures keeps { IsWork self.new }
        ensures carried { IsCarriedBy self.new.state (C.given carrier.new) }
        ensures planned { C.planned carrier.new ≡ C.planned carrier.old }
        ensures kind { C.takes_plans carrier.new ≡ C.takes_plans carrier.old }
        ensures advances { AdvancesBy at self.old self.new (C.given carrier.old) (C.given carrier.new) result }
        ensures handed { SameHanded self.old self.new }
    {
        if let Some(by) = self.blocker(at) {
            return Advance::Waits { by };
        }
        match self.search(at, carrier) {
            Ok(found) => self.come(at, found),
            Err(NoMemory) => Advance::NoMemory,
        }
    }
}

/// The phase in which an operation is over, if its machine has an outcome.
fn ended(alloc: Global, machine: &mut OpMachine) -> Result<Option<Phase>, NoMemory>
    ensures ended { IfOk result (HasEnded machine.old) }
    ensures kept { machine.new ≡ machine.old }
{
    let Some(outcome) = machine.outcome(alloc)? else {
        return Ok(None);
    };
    let told = outcome.copy(alloc)?;
    Ok(Some(Phase::Over {
        outcome,
        told,
        answered: machine.stored(),
    }))
}

/// Puts a phase into its place.
fn put_phase(place: &mut Phase, phase: Phase)
    ensures { place.new ≡ phase }
{
    *place = phase;
}

/// Brings the phase of an operation that is prepared to what follows from what its machine was told: it is over
/// where the machine has an outcome.
fn bring_on(alloc: Global, phase: &mut Phase) -> Advance
    requires { IsAtMessages phase.old }
    ensures { OfPrepared (λ row written machine. IsPhaseOf row written machine phase.new result) phase.old }
{
    let Phase::Prepared { machine, .. } = phase else {
        unreachable!();
    };
    match ended(alloc, machine) {
        Ok(None) => Advance::More,
        Ok(Some(over)) => {
            put_phase(phase, over);
            Advance::Done
        }
        Err(NoMemory) => {
            put_phase(phase, Phase::Short);
            Advance::NoMemory
        }
    }
}

/// Sends the next message of an operation that is prepared, if one is left, and brings its phase to what
/// follows.
fn step_phase<C: Carrier>(
    state: &mut LaneState,
    line: u32,
    key: u64,
    phase: &mut Phase,
    places: &mut StampPlaces,
    carrier: &mut C,
) -> Advance
    requires keeps { IsKept state.old }
    requires spare { HasRoom 0 state.old }
    requires carried { IsCarriedBy state.old (C.given carrier.old) }
    requires stands { OfPrepared (StandsIn state.old line) phase.old }
    requires key { OfPrepared (λ row written machine. key ≡ key_of machine.plan.operation.id) phase.old }
    requires finds { FindsEntries (place_of places.old) state.old.journal.events.items }
    ensures keeps { IsKept state.new }
    ensures spare { HasRoom 0 state.new }
    ensures finds { FindsEntries (place_of places.new) state.new.journal.events.items }
    ensures carried { IsCarriedBy state.new (C.given carrier.new) }
    ensures planned { C.planned carrier.new ≡ C.planned carrier.old }
    ensures kind { C.takes_plans carrier.new ≡ C.takes_plans carrier.old }
    ensures quiet { IsUneventful (journal_of state.old) (journal_of state.new) }
    ensures run { OfPrepared (λ row written machine. RunsIn state.old state.new line machine) phase.old }
    ensures going { OfPrepared (λ row written machine. GoesIn state.new line machine.plan) phase.old }
    ensures one { result ≡ advance.More → GivesOne (C.given carrier.old) (C.given carrier.new) }
    ensures few { GivesFew (C.given carrier.old) (C.given carrier.new) }
    ensures comes { OfPrepared (λ row written machine. ComesTo state.new line row machine phase.new result) phase.old }
    ensures after { state.new ≡ record state.old {
      journal = state.new.journal;
      last = state.new.last;
      nodes = state.new.nodes;
      late = state.new.late;
    } }
{
    operations_shorten();
    let Phase::Prepared {
        machine,
        written,
        ..
    } = phase
    else {
        unreachable!();
    };
    match send_next(state, line, key, written, machine, places, carrier) {
        Ok(_) => bring_on(state.alloc, phase),
        Err(NoMemory) => {
            put_phase(phase, Phase::Short);
            Advance::NoMemory
        }
    }
}

/// One call of a job that is prepared: its next message is sent and dealt with, and its phase brought to what follows.
fn step_job<C: Carrier>(
    state: &mut LaneState,
    job: &mut Job,
    places: &mut StampPlaces,
    carrier: &mut C,
) -> Advance
    requires keeps { IsKept state.old }
    requires spare { HasRoom 0 state.old }
    requires carried { IsCarriedBy state.old (C.given carrier.old) }
    requires stands { OfPrepared (StandsIn state.old job.old.line) job.old.phase }
    requires key { OfPrepared (λ row written machine. job.old.key ≡ key_of machine.plan.operation.id) job.old.phase }
    requires left { 1 ≤ job.old.left }
    requires finds { FindsEntries (place_of places.old) state.old.journal.events.items }
    ensures keeps { IsKept state.new }
    ensures spare { HasRoom 0 state.new }
    ensures finds { FindsEntries (place_of places.new) state.new.journal.events.items }
    ensures carried { IsCarriedBy state.new (C.given carrier.new) }
    ensures planned { C.planned carrier.new ≡ C.planned carrier.old }
    ensures kind { C.takes_plans carrier.new ≡ C.takes_plans carrier.old }
    ensures quiet { IsUneventful (journal_of state.old) (journal_of state.new) }
    ensures run { OfPrepared (λ row written machine. RunsIn state.old state.new job.old.line machine) job.old.phase }
    ensures going { OfPrepared (λ row written machine. GoesIn state.new job.old.line machine.plan) job.old.phase }
    ensures one { result ≡ advance.More → GivesOne (C.given carrier.old) (C.given carrier.new) }
    ensures few { GivesFew (C.given carrier.old) (C.given carrier.new) }
    ensures comes { OfPrepared (λ row written machine. ComesTo state.new job.old.line row machine job.new.phase result)
        job.old.phase }
    ensures job { job.new ≡ record job.old { left = job.old.left - 1; phase = job.new.phase } }
    ensures after { state.new ≡ record state.old {
      journal = state.new.journal;
      last = state.new.last;
      nodes = state.new.nodes;
      late = state.new.late;
    } }
{
    job.left -= 1;
    step_phase(state, job.line, job.key, &mut job.phase, places, carrier)
}

impl Work {
    /// One call of the operation at a place, which is prepared: its next message is sent and dealt with. It takes memory.
    pub fn step<C: Carrier>(&mut self, at: usize, carrier: &mut C) -> Advance
        requires keeps { IsWork self.old }
        requires carried { IsCarriedBy self.old.state (C.given carrier.old) }
        requires prepared { IsToStep self.old.jobs.items at }
        ensures keeps { IsWork self.new }
        ensures carried { IsCarriedBy self.new.state (C.given carrier.new) }
        ensures planned { C.planned carrier.new ≡ C.planned carrier.old }
        ensures kind { C.takes_plans carrier.new ≡ C.takes_plans carrier.old }
        ensures advances { AdvancesBy at self.old self.new (C.given carrier.old) (C.given carrier.new) result }
        ensures handed { SameHanded self.old self.new }
    {
        operations_end();
        step_job(
            &mut self.state,
            &mut self.jobs[at],
            &mut self.places,
            carrier,
        )
    }
}

/// The machine of an operation that is prepared in a row.
fn machine_of(
    alloc: Global,
    job: &Job,
    origin: Origin,
    row: &Row,
    acks: u8,
) -> Result<OpMachine, NoMemory>
    requires key { job.now.key ≡ key_of job.now.operation.id }
    requires plan { IsPlan (plan_of origin job.now.operation job.now.stamp row.now.complete row.now.active acks) }
    ensures { IfOk result (IsBegun
        (plan_of origin job.now.operation job.now.stamp row.now.complete row.now.active acks)) }
{
    let operation = job.operation.copy(alloc)?;
    Ok(OpMachine::with_key(
        job.key,
        origin,
        operation,
        job.stamp,
        row.complete,
        row.active,
        acks,
    ))
}

/// Puts the job at a place into another phase.
pub fn set_phase(jobs: &mut Vec<Job>, at: usize, phase: Phase)
    requires { at < vec_len jobs.old }
    ensures { OfJob (λ j. jobs.new.items ≡ slice_set jobs.old.items at (record j { phase = phase })) jobs.old.items at }
{
    jobs[at].phase = phase;
}

/// The job at a place is prepared in a row.
fn set_prepared(jobs: &mut Vec<Job>, at: usize, row: Bucket, machine: OpMachine)
    requires { at < vec_len jobs.old }
    ensures { OfJob (λ j. jobs.new.items ≡ slice_set jobs.old.items at
        (record j { row = Some row; phase = phase.Prepared machine row false })) jobs.old.items at }
{
    let job = &mut jobs[at];
    job.row = Some(row);
    job.phase = Phase::Prepared {
        machine,
        row,
        written: false,
    };
}

impl Work {
    /// Prepares the operation at a place in the row of its key, which has enough complete members.
    pub fn prepare_in_row(&mut self, at: usize) -> Result<(), NoMemory>
        requires keeps { IsWork self.old }
        requires ready { IsReady self.old.state self.old.jobs.items at }
        ensures keeps { IsWork self.new }
        ensures carried { StaysCarried self.old.state self.new.state }
        ensures ok { OnOk result (OfValues (PreparesAt at) self.old self.new) }
        ensures err { OnErr result (SameValue self.old self.new) }
        ensures handed { SameHanded self.old self.new }
    {
        owners_act();
        operations_prepare();
        operations_shorten();
        one_active_copy();
        kept_journals_mean_legal_ones();
        let job = &self.jobs[at];
        let Some(state) = self.state.state_at(job.distributor) else {
            unreachable!();
        };
        let line = job.line;
        let row = row_with(&self.state, job.distributor, job.key);
        let origin = Origin {
            version: state.version(),
            lane: self.state.lane.low() as u8,
            sender: job.distributor,
        };
        let machine = machine_of(self.state.alloc, job, origin, &row, self.state.rules.acks)?;
        self.state.journal.events.reserve(1 + self.state.spare)?;
        self.state.note(LaneEvent::Prepared {
            line,
            row: row.bucket,
            recipients: row.complete,
        });
        set_prepared(&mut self.jobs, at, row.bucket, machine);
        Ok(())
    }
}

impl Work {
    /// The operation at a place, which couldn't be prepared, is over with this outcome, which is handed over
    /// for the journal and for the caller.
    pub fn fall_short(&mut self, at: usize, outcome: Outcome, told: Outcome)
        requires keeps { IsWork self.old }
        requires short { MayFallShort self.old.state self.old.jobs.items at outcome told }
        ensures keeps { IsWork self.new }
        ensures carried { StaysCarried self.old.state self.new.state }
        ensures over { OfValues (OverAt at outcome) self.old self.new }
        ensures handed { SameHanded self.old self.new }
    {
        set_phase(
            &mut self.jobs,
            at,
            Phase::Over {
                outcome,
                told,
                answered: NodeSet::none(),
            },
        );
    }
}
