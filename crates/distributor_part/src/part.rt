ghost use Rattle.std.specs.Prelude.{◌≡◌, ◌==◌, ◌||◌, ◌<◌, ◌≤◌, ℕ, Some, None, IsSome, IfOk, OnOk, OnErr, IfSome, is_some};
ghost use Rattle.std.specs.Option.{option_copied};
ghost use Rattle.bucket_ids.specs.Buckets.{IsIn};
ghost use Rattle.node_sets.specs.Members.{has_node};
ghost use Rattle.cluster_states.specs.Publishing.{serves};
ghost use Rattle.messages.specs.Noting.{message_of};
ghost use Rattle.bucket_db.specs.Rows.{AreRows, buckets_of};
ghost use Rattle.distributor_part.specs.Parts.{Part, new_part, version_of, origin_of, rows_of, IsOwning, Prepares, key_in};
ghost use Rattle.distributor_part.specs.Steps.{IsStep, IsUnopened, IsOpening, IsAfterAnswer, IsRunning, IsRoundOver, IsClosed, IsRowOf, without_end};

use crate::heard::Heard;
use crate::opening::{add_shown, all_buckets, buckets_of, lowest_of, silent, to_ask};
use crate::rules::Rules;
use crate::stage::Stage;
use crate::targets::targets_of;
use bucket_db::{BucketDb, Row};
use bucket_ids::Bucket;
use cluster_states::ClusterState;
use entry_maps::EntryMap;
use messages::{Body, Decision, Job, NodePieces, Origin, Reply, Step};
use node_sets::NodeSet;
use pieces::PieceList;
use std::alloc::Global;
use std::marker::Model;
use value_lists::{NoMemory, TryCopy};

/// What a distributor knows and does in a lane.
#[derive(Drop)]
pub struct DistributorPart {
    number: u8,
    lane: Bucket,
    pub(crate) rules: Rules,
    pub(crate) heard: Heard,
    answered: NodeSet,
    /// What the nodes showed, answer by answer.
    shown: Vec<PieceList>,
    asked: NodeSet,
    awaited: Option<u8>,
    pub(crate) rows: Option<BucketDb>,
    pub(crate) stage: Stage,
}

impl Model for DistributorPart {
    ghost use Rattle.std.specs.Prelude.{◌≤◌, ◌+◌, vec_len, vec_capacity};
    ghost use Rattle.distributor_part.specs.Parts.{Part, IsPart};
    ghost use Rattle.distributor_part.specs.Steps.{all_shown};

    ghost Value = { Part };

    ghost view = { λ p. record {
      number = p.number;
      lane = p.lane;
      rules = p.rules;
      state = p.heard;
      answered = p.answered;
      shown = all_shown p.shown.items;
      asked = p.asked;
      awaited = p.awaited;
      rows = p.rows;
      stage = p.stage;
    } };

    ghost invariant = { λ p. IsPart (vec_len p.shown + 1 ≤ vec_capacity p.shown) p.lane p.awaited p.rows p.stage };
}

impl DistributorPart {
    /// The part of a distributor that has heard no state. A lane's bucket has at most
    /// 6 bits.
    pub fn new(alloc: Global, number: u8, lane: Bucket, rules: Rules) -> DistributorPart
        requires { lane.bits ≤ 6 }
        ensures { result ≡ new_part number lane rules None }
    {
        DistributorPart {
            number,
            lane,
            rules,
            heard: Heard::none(alloc),
            answered: NodeSet::of(0),
            shown: Vec::new(alloc),
            asked: NodeSet::of(0),
            awaited: None,
            rows: None,
            stage: Stage::Before,
        }
    }

    /// Hears a state: rows, marks and all that was under way are forgotten.
    pub fn hear(&mut self, state: &ClusterState)
        ensures { self.new ≡ new_part self.old.number self.old.lane self.old.rules (Some state.now) }
    {
        self.heard.hear(state);
        self.answered = NodeSet::of(0);
        self.shown.clear();
        self.asked = NodeSet::of(0);
        self.awaited = None;
        self.rows = None;
        self.stage = Stage::Before;
    }

    /// The distributor's number.
    pub fn number(&self) -> u8
        ensures { result ≡ self.now.number }
    {
        self.number
    }

    /// The lane's bucket.
    pub fn lane(&self) -> Bucket
        ensures { result ≡ self.now.lane }
    {
        self.lane
    }

    /// The node whose reply is to be told before the next step, if one is.
    pub fn awaited(&self) -> Option<u8>
        ensures { result ≡ self.now.awaited }
    {
        self.awaited
    }

    /// How far the round of the job is.
    pub fn stage(&self) -> Stage
        ensures { result ≡ self.now.stage }
    {
        self.stage
    }

    /// The state that was heard last, if one was.
    pub fn state(&self) -> Option<ClusterState>
        ensures { result ≡ self.now.state }
    {
        *self.heard.state()
    }

    /// The version of that state, 0 before one is heard.
    pub fn version(&self) -> u32
        ensures { result ≡ version_of self.now.state }
    {
        match self.heard.state() {
            Some(state) => state.version(),
            None => 0,
        }
    }

    /// The nodes that have answered an Ask of the version.
    pub fn answered(&self) -> NodeSet
        ensures { result ≡ self.now.answered }
    {
        self.answered
    }

    /// Whether the state is opened.
    pub fn is_opened(&self) -> bool
        ensures { result ≡ is_some self.now.rows }
    {
        self.rows.is_some()
    }

    /// The rows in rising bucket number; none before the state is opened.
    pub fn rows(&self) -> &[Row]
        ensures list { result.now ≡ rows_of self.now.rows }
        ensures whole { IfSome self.now.rows (λ d. AreRows self.now.lane (buckets_of d.rows)) }
        ensures of_lane { IfSome self.now.rows (λ d. d.lane ≡ self.now.lane) }
    {
        match &self.rows {
            Some(rows) => rows.rows(),
            None => &[],
        }
    }

    /// The place of the row that has a key of the lane, once the state is opened.
    pub fn row_of(&self, key: u64) -> usize
        requires opened { IsSome self.now.rows }
        requires key { IsIn self.now.lane key }
        ensures { IfSome self.now.rows (λ d. (row : Row) × IsRowOf d key result row) }
    {
        match &self.rows {
            Some(rows) => rows.row_of(key),
            None => unreachable!(),
        }
    }

    /// The next step of a job. This distributor owns the lane; the answer to the message before was told, and so was
    /// that a round is over. The reply to a message takes no memory then. `NoMemory` comes only before the state is
    /// opened.
    pub fn next_step(&mut self, alloc: Global, job: Job) -> Result<Step, NoMemory>
        requires job { Prepares self.old.lane job }
        requires owner { IsOwning self.old }
        requires told { self.old.awaited ≡ None }
        requires over { IsRunning self.old.stage → ⊥ }
        ensures step { IfOk result (λ step. IsStep self.old (key_in job) step self.new) }
        ensures err { OnErr result (self.new ≡ self.old) }
        ensures opening { OnErr result (self.old.rows ≡ None) }
    {
        let Job::Prepare { key } = job else {
            unreachable!();
        };
        let Some(state) = *self.heard.state() else {
            unreachable!();
        };
        if self.rows.is_none() {
            return self.ask_or_open(alloc, &state);
        }
        Ok(self.prepare_step(&state, key))
    }

    /// The next step where the state isn't opened yet.
    fn ask_or_open(&mut self, alloc: Global, state: &ClusterState) -> Result<Step, NoMemory>
        requires unopened { IsUnopened self.old state.now }
        requires told { self.old.awaited ≡ None }
        ensures step { (key : ℕ) → IfOk result (λ step. IsStep self.old key step self.new) }
        ensures err { OnErr result (self.new ≡ self.old) }
    {
        let serving = state.serving();
        if let Some(node) = lowest_of(to_ask(serving, self.answered, self.asked)) {
            return self.ask(state.version(), node);
        }
        let missing = serving.difference(self.answered);
        match lowest_of(missing) {
            Some(_) => Ok(self.finish(missing)),
            None => self.open(alloc),
        }
    }

    /// The Ask to a node. There is a place for what it shows then.
    fn ask(&mut self, version: u32, node: u8) -> Result<Step, NoMemory>
        requires { node < 32 }
        ensures step { IfOk result (λ step.
            step ≡ Step.Send (message_of (origin_of self.old version) node Body.Ask)) }
        ensures marked { OnOk result
            ((n : ℕ) → has_node self.new.asked n ≡ (has_node self.old.asked n || n == node)) }
        ensures after { OnOk result
            (self.new ≡ record self.old { asked = self.new.asked; awaited = Some node }) }
        ensures err { OnErr result (self.new ≡ self.old) }
    {
        self.shown.reserve(1)?;
        self.asked = self.asked.with(node);
        self.awaited = Some(node);
        let origin = Origin {
            version,
            lane: self.lane.low() as u8,
            sender: self.number,
        };
        Ok(Step::Send(origin.message(node, Body::Ask)))
    }

    /// Opens the state by the buckets that were shown.
    fn open(&mut self, alloc: Global) -> Result<Step, NoMemory>
        requires no_round { self.old.stage ≡ Stage.Before }
        requires told { self.old.awaited ≡ None }
        ensures step { IfOk result (λ step. IsOpening self.old self.new step) }
        ensures err { OnErr result (self.new ≡ self.old) }
    {
        let shown = all_buckets(alloc, &self.shown)?;
        let rows = BucketDb::of_answers(alloc, self.lane, &shown)?;
        let buckets = buckets_of(alloc, rows.rows())?;
        self.heard.make_places(rows.rows().len())?;
        self.shown = Vec::new(alloc);
        self.rows = Some(rows);
        Ok(Step::Open { rows: buckets })
    }

    /// The next step for a key once the state is opened.
    fn prepare_step(&mut self, state: &ClusterState, key: u64) -> Step
        requires heard { self.old.state ≡ Some state.now }
        requires opened { IsSome self.old.rows }
        requires over { IsRunning self.old.stage → ⊥ }
        requires key { IsIn self.old.lane key }
        ensures { IsStep self.old key result self.new }
    {
        let stage = self.stage;
        match &stage {
            Stage::Before => self.prepare(state, key),
            Stage::Over {
                at,
                complete,
                missing,
            } => self.end_round(*at, *complete, *missing),
            Stage::Ended { missing } => self.finish(*missing),
            Stage::Running { .. } => unreachable!(),
        }
    }

    /// The first step for a key once the state is opened.
    fn prepare(&mut self, state: &ClusterState, key: u64) -> Step
        requires heard { self.old.state ≡ Some state.now }
        requires opened { IsSome self.old.rows }
        requires no_round { self.old.stage ≡ Stage.Before }
        requires key { IsIn self.old.lane key }
        ensures { IsStep self.old key result self.new }
    {
        let Some(rows) = &self.rows else {
            unreachable!();
        };
        let at = rows.row_of(key);
        let row = rows.rows()[at];
        if row.complete.has_at_least(self.rules.acks) {
            return self.finish(NodeSet::of(0));
        }
        self.heard.keep_order(at, row.bucket);
        let kept = self.heard.order(at, row.bucket);
        let receivers = targets_of(self.rules.redundancy, state, kept, &row);
        self.stage = Stage::Running { at, receivers };
        Step::Decide(Decision::RoundBegun {
            bucket: row.bucket,
            receivers,
        })
    }

    /// The end of a round is decided, and its row has the marks.
    fn end_round(&mut self, at: usize, complete: NodeSet, missing: NodeSet) -> Step
        requires opened { IsSome self.old.rows }
        requires over { self.old.stage ≡ Stage.Over at complete missing }
        ensures { (key : ℕ) → IsStep self.old key result self.new }
    {
        let Some(rows) = &mut self.rows else {
            unreachable!();
        };
        let row = rows.rows()[at];
        rows.set_marks(at, row.complete.union(complete));
        self.stage = Stage::Ended { missing };
        Step::Decide(Decision::RoundEnded {
            bucket: row.bucket,
            complete,
        })
    }

    /// The end of a job.
    fn finish(&mut self, missing: NodeSet) -> Step
        ensures step { result ≡ Step.Finished missing }
        ensures after { self.new ≡ record self.old { asked = 0; stage = Stage.Before } }
    {
        self.asked = NodeSet::of(0);
        self.stage = Stage::Before;
        Step::Finished { missing }
    }

    /// Takes the reply of the node that was sent the last message, or that none came.
    pub fn take_reply(&mut self, node: u8, reply: Option<Reply>)
        requires { self.old.awaited ≡ Some node }
        ensures { IsAfterAnswer self.old self.new node reply }
    {
        match reply {
            Some(Reply::Answer { pieces, .. }) => {
                add_shown(&mut self.shown, pieces);
                self.answered = self.answered.with(node);
                self.awaited = None;
            }
            _ => {
                self.awaited = None;
            }
        }
    }

    /// The same, of a reply that the caller keeps.
    pub fn answer(&mut self, alloc: Global, node: u8, reply: Option<&Reply>) -> Result<(), NoMemory>
        requires { self.old.awaited ≡ Some node }
        ensures ok { OnOk result (IsAfterAnswer self.old self.new node (option_copied reply.entry)) }
        ensures err { OnErr result (self.new ≡ self.old) }
    {
        let told = match reply {
            Some(reply) => Some(reply.copy(alloc)?),
            None => None,
        };
        self.take_reply(node, told);
        Ok(())
    }

    /// The round under way is over: the receivers that answered the Apply, the union, which is absent where a Read
    /// wasn't answered, and what the answers to the Reads showed. Where there is no union it takes no memory.
    pub fn round_over(
        &mut self,
        complete: NodeSet,
        union: Option<&EntryMap>,
        shown: &[NodePieces],
    ) -> Result<(), NoMemory>
        requires { IsRunning self.old.stage }
        ensures ok { OnOk result
            (IsRoundOver self.old self.new complete (option_copied union.entry) shown.now) }
        ensures err { OnErr result (self.new ≡ self.old) }
        ensures free { OnErr result (IsSome (option_copied union.entry)) }
    {
        let &Stage::Running { at, receivers } = &self.stage else {
            unreachable!();
        };
        let missing = match union {
            Some(_) => receivers.difference(complete),
            None => silent(self.serving(), shown),
        };
        self.stage = Stage::Over {
            at,
            complete,
            missing,
        };
        Ok(())
    }

    /// The nodes that serve under the state that was heard, if one was.
    fn serving(&self) -> NodeSet
        ensures { IfSome self.now.state (λ state. (node : ℕ) → has_node result node ≡ serves state node) }
    {
        match self.heard.state() {
            Some(state) => state.serving(),
            None => NodeSet::of(0),
        }
    }

    /// An operation on a key was acknowledged: of the complete members of the key's row those that
    /// didn't answer lose their mark.
    pub fn closed(&mut self, key: u64, answered: NodeSet)
        requires opened { IsSome self.old.rows }
        requires key { IsIn self.old.lane key }
        ensures { IsClosed self.old self.new key answered }
    {
        let Some(rows) = &mut self.rows else {
            unreachable!();
        };
        let at = rows.row_of(key);
        let row = rows.rows()[at];
        rows.set_marks(at, row.complete.intersection(answered));
    }

    /// The job under way ends before it is finished, for want of memory outside: the next one begins
    /// from its start. A round that is under way, or whose end isn't decided, stays so.
    pub fn give_up(&mut self)
        ensures { self.new
            ≡ record self.old { asked = 0; awaited = None; stage = without_end self.old.stage } }
    {
        self.asked = NodeSet::of(0);
        self.awaited = None;
        if let Stage::Ended { .. } = self.stage {
            self.stage = Stage::Before;
        }
    }
}
