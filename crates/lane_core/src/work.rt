ghost use Rattle.std.specs.Prelude.{◌≡◌, Some, ◌<◌, ◌≤◌, ◌+◌, [], ◌∷◌, ◌++◌, ℕ, Bool, true, false, IsSome, IfSome, IfNone, IfOk, OnOk, OnErr, List, length, vec_len, vec_capacity};
ghost use Rattle.lane_calls.specs.LaneValues.{Closes, IsHearing, new_value};
ghost use Rattle.lane_core.specs.Passes.{PassesBy};
ghost use Rattle.lane_upkeep.specs.Taking.{OpensThenPasses};
ghost use Rattle.lane_core.specs.Works.{IsWork, OfValues, OfNoJob, OfFirstJob, IsToClosePhase, HasJobToClose, IsEndedBy, value_of, SameValue, SameHanded};
ghost use Rattle.lane_states.specs.LaneStates.{StaysCarried, journal_of, handed_of, IsCarriedBy, GivesOn, HasRoom, IsSetUp};
ghost use Rattle.lane_states.specs.Told.{ShowsOn};
ghost use Rattle.lane_changes.specs.Changes.{changes_of};
ghost use Rattle.shelves.specs.Shelves.{Holds};
ghost use Rattle.carriers.specs.declared.fate.Fate.{Fate};
ghost use Rattle.cluster_states.specs.Publishing.{publish_fault};
ghost use Rattle.lane_journals.specs.Places.{told};
ghost use Rattle.ideal_nodes.specs.Placement.{IsOwner};
ghost use Rattle.lane_keeping.specs.LaneKeeping.{setting_of};
ghost use Rattle.lane_keeping.specs.Acting.{IsActing};
ghost use Rattle.lane_keeping.specs.Tidings.{heard_next, is_older, announced, stopped_next, started_next, last_state};
ghost use Rattle.lane_journals.specs.Readers.{held};
ghost use Rattle.lane_journals.specs.Meanings.{history};
ghost use Rattle.lane_upkeep.specs.Passing.{PassesOn};
ghost use Rattle.lane_upkeep.specs.Maintaining.{AreReturned, HasOpened, HaveRun};
ghost use Rattle.lane_core.specs.Upkeeping.{MaintainsBy, MayMaintain, OpensBy, RestsBy};
ghost use Rattle.lane_journals.specs.declared.event.LaneEvent.TheVariants as event;

use crate::jobs::{first_of, place_of};
use bucket_ids::Bucket;
use carriers::Carrier;
use cluster_states::ClusterState;
use distributor_part::Rules;
use lane_calls::answers::Hear;
use lane_carriage::laws::late_messages_wait;
use lane_journals::laws::kept_journals_mean_legal_ones;
use lane_lines::closing::note_end;
use lane_states::known_owner::KnownOwner;
use lane_states::lane_state::LaneState;
use lane_upkeep::{Owner, maintain};
use messages::{Outcome, SharedOperation};
use node_rows::SharedSchema;
use node_sets::NodeSet;
use op_machine::OpMachine;
use operation_keeping::laws::operations_end;
use shelves::Shelf;
use stamps::{Stamp, StampPlaces};
use std::alloc::Global;
use std::collections::BTreeMap;
use upkeep_spans::laws::{upkeep_goes_on, upkeep_leaves_lines, upkeep_leaves_states};
use value_lists::{NoMemory, TryCopy};

/// A lane with what it keeps of its lines: how many stamps were drawn under each version, where in the journal
/// the entry of each stamp stands, and the operations that are under way. Its documents are of the types of a schema.
#[derive(Drop)]
pub struct Work {
    pub state: LaneState,
    pub schema: SharedSchema,
    pub drawn: BTreeMap<u32, u64>,
    pub places: StampPlaces,
    /// Whether room was made for a publication, a stop or a start.
    pub has_room: bool,
    /// In the order in which they began; a handful at a time.
    pub jobs: Vec<Job>,
}

/// An operation that is to be closed: with an outcome for the journal and one for the caller.
#[derive(Drop)]
struct Ended {
    line: u32,
    distributor: u8,
    key: u64,
    outcome: Outcome,
    told: Outcome,
    answered: NodeSet,
}

/// How a job ends that is over or wanted memory.
fn end_of(job: Job) -> Ended
    requires { IsToClosePhase job.phase }
    ensures { IsEndedBy job result.line result.distributor result.key result.outcome result.told result.answered }
{
    let Job {
        line,
        distributor,
        key,
        phase,
        ..
    } = job;
    match phase {
        Phase::Over {
            outcome,
            told,
            answered,
        } => Ended {
            line,
            distributor,
            key,
            outcome,
            told,
            answered,
        },
        Phase::Short => Ended {
            line,
            distributor,
            key,
            outcome: Outcome::NoMemory,
            told: Outcome::NoMemory,
            answered: NodeSet::none(),
        },
        Phase::Begun | Phase::Prepared { .. } => unreachable!(),
    }
}

/// Adds a job, for which there is room, behind the others.
pub fn push_job(jobs: &mut Vec<Job>, job: Job)
    requires { vec_len jobs.old + 1 ≤ vec_capacity jobs.old }
    ensures { jobs.new.items ≡ jobs.old.items ++ job ∷ [] }
{
    match jobs.push(job) {
        Ok(()) => {}
        Err(_) => unreachable!(),
    }
}

impl Work {
    /// Closes the operation of a line, which is over or wanted memory.
    pub fn close(&mut self, line: u32) -> Outcome
        requires keeps { IsWork self.old }
        requires over { HasJobToClose line self.old.jobs.items }
        ensures keeps { IsWork self.new }
        ensures carried { StaysCarried self.old.state self.new.state }
        ensures closes { OfValues (Closes line result) self.old self.new }
        ensures handed { SameHanded self.old self.new }
    {
        operations_end();
        let at = place_of(&self.jobs, line);
        let job = self.jobs.remove(at);
        let Ended {
            line,
            distributor,
            key,
            outcome,
            told,
            answered,
        } = end_of(job);
        self.state.spare -= 1;
        note_end(&mut self.state, line, distributor, key, outcome, answered);
        told
    }
}

/// What was done of an operation.
#[derive(Drop)]
pub enum Phase {
    /// It was begun.
    Begun,
    /// It is prepared in a row; its entry may be written.
    Prepared {
        machine: OpMachine,
        row: Bucket,
        written: bool,
    },
    /// It is over, with an outcome for the journal and one for the caller; these answered its Store.
    Over {
        outcome: Outcome,
        told: Outcome,
        answered: NodeSet,
    },
    /// Memory was wanted.
    Short,
}

/// An operation under way, as its lane keeps it.
#[derive(Drop)]
pub struct Job {
    pub line: u32,
    pub operation: SharedOperation,
    /// The key of its document.
    pub key: u64,
    /// The owner, where it was begun.
    pub distributor: u8,
    /// The stamp that it drew; none for a get.
    pub stamp: Option<Stamp>,
    /// The row in which it is prepared, until it is closed.
    pub row: Option<Bucket>,
    pub left: u8,
    pub phase: Phase,
}

impl Work {
    /// A lane in which nothing happened.
    pub fn new(
        alloc: Global,
        lane: Bucket,
        rules: Rules,
        schema: SharedSchema,
    ) -> Result<Work, NoMemory>
        requires set_up { IsSetUp lane rules }
        ensures keeps { IfOk result IsWork }
        ensures carried { IfOk result (λ work. IsCarriedBy work.state []) }
        ensures value { IfOk result (λ work. (given planned : List Fate) (takes : Bool) → value_of work given planned takes
            ≡ new_value lane rules schema given planned takes) }
        ensures handed { IfOk result (λ work. handed_of work.state ≡ []) }
    {
        late_messages_wait();
        let own = schema.copy(alloc)?;
        Ok(Work {
            state: LaneState::new(alloc, lane, rules, own),
            schema,
            drawn: BTreeMap::new(alloc),
            places: StampPlaces::none(alloc),
            has_room: false,
            jobs: Vec::new(alloc),
        })
    }

    /// Makes room for one publication with all that hear it, or for one stop or start.
    pub fn room(&mut self) -> Result<(), NoMemory>
        requires keeps { IsWork self.old }
        ensures keeps { IsWork self.new }
        ensures carried { StaysCarried self.old.state self.new.state }
        ensures ok { OnOk result (OfValues (λ old new. new ≡ record old { has_room = true }) self.old self.new) }
        ensures err { OnErr result (SameValue self.old self.new) }
        ensures handed { SameHanded self.old self.new }
    {
        if self.has_room {
            return Ok(());
        }
        self.need_part(31)?;
        let events = 33 + self.state.spare;
        self.state.room(events)?;
        self.state.spare += 33;
        self.has_room = true;
        Ok(())
    }

    /// Hands the changes of the lane's view that are kept over to a shelf, first to last, behind those that it has.
    /// `NoMemory` comes also for the count of 2^64 - 1 changes; the others are kept then.
    pub fn hand_over<H: Shelf>(&mut self, shelf: &mut H) -> Result<(), NoMemory>
        requires keeps { IsWork self.old }
        ensures keeps { IsWork self.new }
        ensures carried { StaysCarried self.old.state self.new.state }
        ensures same { SameValue self.old self.new }
        ensures holds { Holds (H.shows shelf.old) (H.pending shelf.old) (handed_of self.old.state)
            → Holds (H.shows shelf.new) (H.pending shelf.new) (handed_of self.new.state) }
        ensures all { OnOk result (handed_of self.new.state ≡ changes_of (journal_of self.old.state)) }
        ensures few { OnOk result (length (changes_of (journal_of self.old.state)) < 18446744073709551615) }
        ensures more { ShowsOn (H.shows shelf.old) (H.shows shelf.new) }
        ensures name { H.name shelf.new ≡ H.name shelf.old }
    {
        self.state.hand_over(shelf)
    }

    /// Drops the changes of the lane's view that are kept.
    pub fn drop_kept(&mut self)
        requires keeps { IsWork self.old }
        ensures keeps { IsWork self.new }
        ensures carried { StaysCarried self.old.state self.new.state }
        ensures same { SameValue self.old self.new }
    {
        self.state.drop_kept();
    }

    /// Publishes a state, for which room was made.
    pub fn publish(&mut self, state: &ClusterState)
        requires keeps { IsWork self.old }
        requires room { self.old.has_room ≡ true }
        requires accepted { publish_fault (told (setting_of self.old.state.lane self.old.state.rules) (journal_of self.old.state)) state.now
            ≡ None }
        ensures keeps { IsWork self.new }
        ensures carried { StaysCarried self.old.state self.new.state }
        ensures after { OfValues (λ old new. new
            ≡ record old { journal = event.Published state.now ∷ old.journal; has_room = false }) self.old self.new }
        ensures handed { SameHanded self.old self.new }
    {
        self.state.spare -= 33;
        self.has_room = false;
        self.state.publish(state);
    }

    /// Publishes a state, for which room was made, and all distributors hear it but the deaf ones, in rising
    /// number.
    pub fn announce(&mut self, state: &ClusterState, deaf: NodeSet)
        requires keeps { IsWork self.old }
        requires idle { self.old.jobs.items ≡ [] }
        requires room { self.old.has_room ≡ true }
        requires accepted { publish_fault (told (setting_of self.old.state.lane self.old.state.rules) (journal_of self.old.state)) state.now
            ≡ None }
        ensures keeps { IsWork self.new }
        ensures carried { StaysCarried self.old.state self.new.state }
        ensures after { OfValues (λ old new. new
            ≡ record old { journal = announced deaf state.now old.journal; has_room = false }) self.old self.new }
        ensures handed { SameHanded self.old self.new }
    {
        kept_journals_mean_legal_ones();
        self.state.spare -= 33;
        self.has_room = false;
        self.state.publish(state);
        self.state.hear_all(state, deaf);
    }

    /// Whether a distributor holds no state, or an older one than this.
    fn is_behind(&self, distributor: u8, state: &ClusterState) -> bool
        requires keeps { IsWork self.now }
        ensures { result ≡ is_older (held distributor (history (journal_of self.now.state))) state.now.version }
    {
        match self.state.held(distributor) {
            Some(version) => version < state.version(),
            None => true,
        }
    }

    /// The first operation of a distributor that is to hear a state, if it is to; it stands against it.
    pub fn hearing_held(&self, distributor: u8, state: &ClusterState) -> Option<u32>
        requires keeps { IsWork self.now }
        ensures held { IfSome result (λ by.
            (is_older (held distributor (history (journal_of self.now.state))) state.now.version ≡ true)
            × OfFirstJob (λ j. j.distributor ≡ distributor) self.now.jobs.items by) }
        ensures free { IfNone result (is_older (held distributor (history (journal_of self.now.state))) state.now.version ≡ true
            → OfNoJob (λ j. j.distributor ≡ distributor) self.now.jobs.items) }
    {
        if self.is_behind(distributor, state) {
            return first_of(&self.jobs, distributor);
        }
        None
    }

    /// A distributor hears the newest state, where it holds none or an older one; none of its operations may be under way
    /// then. Answers its version.
    pub fn hear(&mut self, distributor: u8) -> Hear
        requires keeps { IsWork self.old }
        requires published { IsSome (last_state (journal_of self.old.state)) }
        ensures keeps { IsWork self.new }
        ensures carried { StaysCarried self.old.state self.new.state }
        ensures hears { OfValues (λ old new. IsHearing distributor old new result) self.old self.new }
        ensures handed { SameHanded self.old self.new }
    {
        let Some(state) = self.state.newest else {
            unreachable!();
        };
        if let Some(by) = self.hearing_held(distributor, &state) {
            return Hear::Held { by };
        }
        match self.hear_newest(distributor, &state) {
            Ok(()) => Hear::Heard {
                version: state.version(),
            },
            Err(NoMemory) => Hear::NoMemory,
        }
    }

    /// It hears that state; none of its operations stands against it.
    fn hear_newest(&mut self, distributor: u8, state: &ClusterState) -> Result<(), NoMemory>
        requires keeps { IsWork self.old }
        requires newest { self.old.state.newest ≡ Some state.now }
        requires free { is_older (held distributor (history (journal_of self.old.state))) state.now.version ≡ true
            → OfNoJob (λ j. j.distributor ≡ distributor) self.old.jobs.items }
        ensures keeps { IsWork self.new }
        ensures carried { StaysCarried self.old.state self.new.state }
        ensures heard { OnOk result (OfValues (λ old new. new
            ≡ record old { journal = heard_next distributor (Some state.now) old.journal }) self.old self.new) }
        ensures err { OnErr result (SameValue self.old self.new) }
        ensures handed { SameHanded self.old self.new }
    {
        self.room_to_begin(1, state.version())?;
        self.need_part(distributor)?;
        self.hear_within(distributor, state);
        Ok(())
    }

    /// A node stops, where it runs. Room was made for it.
    pub fn stop(&mut self, node: u8)
        requires keeps { IsWork self.old }
        requires room { self.old.has_room ≡ true }
        requires number { node < 32 }
        ensures keeps { IsWork self.new }
        ensures carried { StaysCarried self.old.state self.new.state }
        ensures after { OfValues (λ old new. new
            ≡ record old { journal = stopped_next node old.journal; has_room = false }) self.old self.new }
        ensures handed { SameHanded self.old self.new }
    {
        self.state.spare -= 33;
        self.has_room = false;
        self.state.stop(node);
    }

    /// A node starts, where it is stopped. Room was made for it.
    pub fn start(&mut self, node: u8)
        requires keeps { IsWork self.old }
        requires room { self.old.has_room ≡ true }
        requires number { node < 32 }
        ensures keeps { IsWork self.new }
        ensures carried { StaysCarried self.old.state self.new.state }
        ensures after { OfValues (λ old new. new
            ≡ record old { journal = started_next node old.journal; has_room = false }) self.old self.new }
        ensures handed { SameHanded self.old self.new }
    {
        self.state.spare -= 33;
        self.has_room = false;
        self.state.start(node);
    }

    /// Makes the parts up to that of a distributor.
    pub fn need_part(&mut self, distributor: u8) -> Result<(), NoMemory>
        requires keeps { IsWork self.old }
        ensures keeps { IsWork self.new }
        ensures carried { StaysCarried self.old.state self.new.state }
        ensures same { SameValue self.old self.new }
        ensures there { OnOk result (distributor < vec_len self.new.state.parts) }
        ensures after { self.new
            ≡ record self.old { state = record self.old.state { parts = self.new.state.parts } } }
    {
        self.state.need_part(distributor)
    }

    /// A distributor whose part is there hears the newest state, where it holds none or an older one. Room was made for it. An owner acts under that state then.
    pub fn hear_within(&mut self, distributor: u8, state: &ClusterState)
        requires keeps { IsWork self.old }
        requires free { is_older (held distributor (history (journal_of self.old.state))) state.now.version ≡ true
            → OfNoJob (λ j. j.distributor ≡ distributor) self.old.jobs.items }
        requires newest { self.old.state.newest ≡ Some state.now }
        requires there { distributor < vec_len self.old.state.parts }
        requires room { HasRoom 1 self.old.state }
        ensures keeps { IsWork self.new }
        ensures carried { StaysCarried self.old.state self.new.state }
        ensures heard { OfValues (λ old new. new
            ≡ record old { journal = heard_next distributor (Some state.now) old.journal }) self.old self.new }
        ensures grows { journal_of self.new.state
            ≡ heard_next distributor (Some state.now) (journal_of self.old.state) }
        ensures acting { IsOwner self.old.state.lane state.now distributor
            → IsActing self.old.state.lane (journal_of self.new.state) distributor state.now }
        ensures room { (many : ℕ) → HasRoom (many + 1) self.old.state → HasRoom many self.new.state }
        ensures parts { vec_len self.new.state.parts ≡ vec_len self.old.state.parts }
        ensures after { self.new ≡ record self.old {
          state = record self.old.state {
            journal = self.new.state.journal;
            parts = self.new.state.parts;
          };
        } }
    {
        if self.is_behind(distributor, state) {
            self.state.hear_within(distributor, state);
        }
    }
}

impl Work {
    /// The owner, which holds its state, makes a pass of upkeep. `NoMemory` is of the lane or of a node.
    fn maintain<C: Carrier>(&mut self, carrier: &mut C, owner: &Owner) -> Result<(), NoMemory>
        requires keeps { IsWork self.old }
        requires carried { IsCarriedBy self.old.state (C.given carrier.old) }
        requires idle { self.old.jobs.items ≡ [] }
        requires there { owner.now.distributor < vec_len self.old.state.parts }
        requires acting { IsActing self.old.state.lane (journal_of self.old.state) owner.now.distributor
            owner.now.state }
        requires newest { self.old.state.newest ≡ Some owner.now.state }
        ensures keeps { IsWork self.new }
        ensures carried { IsCarriedBy self.new.state (C.given carrier.new) }
        ensures planned { C.planned carrier.new ≡ C.planned carrier.old }
        ensures kind { C.takes_plans carrier.new ≡ C.takes_plans carrier.old }
        ensures gives { GivesOn (C.given carrier.old) (C.given carrier.new) }
        ensures on { PassesOn self.old.state self.new.state owner.now }
        ensures opened { OnOk result (AreReturned self.old.state self.new.state → HasOpened self.new.state owner.now) }
        ensures run { OnOk result (AreReturned self.old.state self.new.state → HaveRun self.new.state owner.now) }
        ensures passes { OnOk result (OpensThenPasses self.old.state self.new.state owner.now (C.given carrier.new)) }
        ensures rests { OnOk result (RestsBy self.old self.new (C.given carrier.new)) }
        ensures after { self.new ≡ record self.old { state = self.new.state } }
        ensures handed { SameHanded self.old self.new }
    {
        upkeep_leaves_lines();
        upkeep_leaves_states();
        maintain(&mut self.state, carrier, owner)
    }

    /// The owner under the newest state hears it, and makes a pass of upkeep. The owner may be known. `NoMemory` is of
    /// the lane or of a node.
    pub fn upkeep<C: Carrier>(
        &mut self,
        carrier: &mut C,
        known: Option<&KnownOwner>,
    ) -> Result<(), NoMemory>
        requires keeps { IsWork self.old }
        requires carried { IsCarriedBy self.old.state (C.given carrier.old) }
        requires idle { self.old.jobs.items ≡ [] }
        requires published { IsSome (last_state (journal_of self.old.state)) }
        ensures keeps { IsWork self.new }
        ensures carried { IsCarriedBy self.new.state (C.given carrier.new) }
        ensures planned { C.planned carrier.new ≡ C.planned carrier.old }
        ensures kind { C.takes_plans carrier.new ≡ C.takes_plans carrier.old }
        ensures ok { OnOk result (MaintainsBy self.old self.new (C.given carrier.old) (C.given carrier.new)) }
        ensures opened { OnOk result (OpensBy self.old self.new) }
        ensures passes { OnOk result (PassesBy self.old self.new (C.given carrier.new)) }
        ensures rests { OnOk result (RestsBy self.old self.new (C.given carrier.new)) }
        ensures err { OnErr result (MayMaintain self.old self.new (C.given carrier.old) (C.given carrier.new)) }
        ensures idle { self.new.jobs.items ≡ [] }
        ensures handed { SameHanded self.old self.new }
    {
        upkeep_goes_on();
        let Some(state) = self.state.newest else {
            unreachable!();
        };
        let distributor = self.state.owner_by(known, &state);
        self.room_to_begin(1, state.version())?;
        self.need_part(distributor)?;
        self.hear_within(distributor, &state);
        self.maintain(carrier, &Owner { distributor, state })
    }
}
