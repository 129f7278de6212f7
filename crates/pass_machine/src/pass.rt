ghost use Rattle.std.specs.Prelude.{◌≡◌, ◌⊎◌, ◌<◌, ◌≤◌, ◌^◌, ◌+◌, if◌then◌else◌, ℕ, Some, None, length, slice_get, is_some, IsSome, OnOk, OnErr};
ghost use Rattle.std.specs.Ordering.{nat_cmp};
ghost use Rattle.std.specs.BTreeMap.{Updates, IsUnchanged, get};
ghost use Rattle.bucket_ids.specs.Printed.{number_of as number_in};
ghost use Rattle.bucket_db.specs.declared.row.Row.{Row as OneRow};
ghost use Rattle.distributor_part.specs.Parts.{rows_of};
ghost use Rattle.pass_machine.specs.Notes.{note_for, whole_in};
ghost use Rattle.pass_machine.specs.Turns.{View, Sees, is_due, beginning, settle_turn, by_row, end_settling, round_or, begin_joins, splitting, turn_at, is_to_be_active, answered_row, decided_row, answered, decided, accepted, rounded};
ghost use Rattle.pass_machine.specs.declared.doing.Time.TheVariants.{First};
ghost use Rattle.pass_machine.specs.declared.doing.Doing.TheVariants.{ResentDelete, ResendingDelete};
ghost use Rattle.pass_machine.specs.Allowed.{IsAllowed};
ghost use Rattle.pass_machine.specs.Going.{GoesOver, IsRowTold, IsRowDecided, IsTellingRow, IsDecided, IsAccepted, IsRounded, Awaits, made_in, Makes, IsSplit, join_makes, split_makes, rows_made, Forgets, AreLeft, steps_left, left};
ghost use Rattle.pass_machine.specs.declared.doing.Turn.TheVariants.{Says};

use crate::doing::{Doing, Settle, Time, Turn, UpkeepStep};
use crate::notes::{Notes, RowNote};
use crate::places::{is_full, next_place};
use crate::skips::skipped;
use crate::{asked, joins, resends, settling};
use bucket_db::Row;
use bucket_db::row::number_of;
use bucket_ids::Bucket;
use cluster_states::ClusterState;
use distributor_part::{DistributorPart, Rules};
use messages::Decision;
use std::alloc::Global;
use std::collections::BTreeMap;
use value_lists::NoMemory;

/// A pass of upkeep under way.
#[derive(Drop)]
pub struct UpkeepPass {
    pub doing: Doing,
    /// The rows that joins made the second time, by bucket number.
    pub made: BTreeMap<u64, ()>,
    pub notes: Notes,
}

/// Whether a row is settled this time: the second time just those are that joins made.
fn is_due(made: &BTreeMap<u64, ()>, time: Time, bucket: Bucket) -> bool
    ensures { result ≡ is_due made.now time bucket }
{
    match time {
        Time::First => true,
        Time::Again => made.contains_key(&number_of(bucket)),
    }
}

/// The first step of a row, or the next row.
fn beginning(made: &BTreeMap<u64, ()>, time: Time, at: usize, bucket: Bucket) -> Doing
    requires { at < 2 ^ 63 }
    ensures { result ≡ beginning made.now time at bucket }
{
    if is_due(made, time, bucket) {
        let next = Settle::Aligning {
            node: 0,
            any: false,
        };
        return Doing::Settling { time, at, next };
    }
    Doing::Settling {
        time,
        at: at + 1,
        next: Settle::Beginning,
    }
}

/// What comes next for a row that is settled.
fn settle_turn(
    part: &DistributorPart,
    state: &ClusterState,
    rules: Rules,
    made: &BTreeMap<u64, ()>,
    time: Time,
    at: usize,
    row: &Row,
    note: &RowNote,
    next: Settle,
) -> Turn
    requires heard { part.now.state ≡ Some state.now }
    requires rules { rules ≡ part.now.rules }
    requires place { at < length (rows_of part.now.rows) }
    requires row { slice_get (rows_of part.now.rows) at ≡ Some row.now }
    requires fits { at < 2 ^ 63 }
    ensures { (v : View) → Sees part.now v → result ≡ settle_turn v made.now time at row.now note.now next }
{
    let serving = state.serving();
    let bucket = row.bucket;
    match next {
        Settle::Beginning => Turn::Over(beginning(made, time, at, bucket)),
        Settle::Aligning { node, any } => {
            settling::aligning(time, at, bucket, note, serving.has(node), node, any)
        }
        Settle::AlignRound => Turn::Says(UpkeepStep::Round { at }),
        Settle::Readying { node, ready } => {
            let asked = asked::is_asked(part, state, at, node);
            settling::readying(time, at, bucket, asked, node, ready)
        }
        Settle::Deciding { ready } => {
            let to_be = asked::to_be_active(part, state, at);
            settling::deciding(time, at, row, to_be, ready)
        }
        Settle::Activating => settling::activating(time, at, row, serving),
        Settle::Accepting { answered } => settling::accepting(time, at, answered),
        Settle::Deleting { node } => {
            let serial = asked::serial_at(part, state, at, row, note, rules.acks, node);
            settling::deleting(time, at, bucket, serial, node)
        }
        Settle::DeleteTold { node } => settling::delete_told(time, at, row, serving, node),
        Settle::DeleteOver { node } => settling::delete_over(time, at, row, node),
    }
}

/// What comes for the row of a place that is settled.
fn settling(
    part: &DistributorPart,
    rules: Rules,
    made: &BTreeMap<u64, ()>,
    notes: &Notes,
    time: Time,
    at: usize,
    next: Settle,
) -> Turn
    requires heard { IsSome part.now.state }
    requires rules { rules ≡ part.now.rules }
    ensures { (v : View) → Sees part.now v
        → result ≡ by_row v made.now notes.now.by_number time at (slice_get v.rows at) next }
{
    let Some(state) = part.state() else {
        unreachable!();
    };
    let Some(row) = part.rows().get(at) else {
        return Turn::Over(end_settling(part, time));
    };
    let Some(note) = notes.whole(row.bucket) else {
        return Turn::Over(Doing::Settling {
            time,
            at: at + 1,
            next: Settle::Beginning,
        });
    };
    settle_turn(part, &state, rules, made, time, at, row, note, next)
}

/// What comes behind the last row that is settled.
fn end_settling(part: &DistributorPart, time: Time) -> Doing
    ensures { (v : View) → Sees part.now v → result ≡ end_settling v time }
{
    match time {
        Time::First => joins::begin_joins(part, Time::Again),
        Time::Again => Doing::Finished,
    }
}

/// A round of the row of a place.
fn rounding(part: &DistributorPart, at: usize) -> Turn
    ensures { (v : View) → Sees part.now v → result ≡ round_or at (slice_get v.rows at) (begin_joins v First) }
{
    if part.rows().len() <= at {
        return Turn::Over(joins::begin_joins(part, Time::First));
    }
    Turn::Says(UpkeepStep::Round { at })
}

/// The row of a place is split, if it has too many documents.
fn splitting(part: &DistributorPart, rules: Rules, notes: &Notes, at: usize) -> Turn
    requires rules { rules ≡ part.now.rules }
    ensures { (v : View) → Sees part.now v → result ≡ splitting v notes.now.by_number at (slice_get v.rows at) }
{
    let Some(row) = part.rows().get(at) else {
        return Turn::Over(Doing::Settling {
            time: Time::First,
            at: 0,
            next: Settle::Beginning,
        });
    };
    if !is_full(notes, row.bucket, rules.split_at) {
        return Turn::Over(Doing::Splitting { at: at + 1 });
    }
    let decision = Decision::RowSplit { bucket: row.bucket };
    Turn::Says(UpkeepStep::Decide { at, decision })
}

/// What comes where the machine stands.
fn turn(
    part: &DistributorPart,
    rules: Rules,
    made: &BTreeMap<u64, ()>,
    notes: &Notes,
    doing: Doing,
) -> Turn
    requires heard { IsSome part.now.state }
    requires rules { rules ≡ part.now.rules }
    ensures { (v : View) → Sees part.now v → result ≡ turn_at v made.now notes.now.by_number doing }
{
    match doing {
        Doing::ResendingDelete { at } => resends::resending_delete(part, at),
        Doing::ResentDelete { at } => resends::resent_delete(part, at),
        Doing::ResendingActivate { at } => resends::resending_activate(part, at),
        Doing::ResentActivate { at, answered } => resends::resent_activate(part, at, answered),
        Doing::Rounding { at } => rounding(part, at),
        Doing::Joining { time, bits, at } => joins::joining(part, rules, notes, time, bits, at),
        Doing::JoinTold {
            time,
            bits,
            at,
            parent,
            node,
        } => joins::join_told(part, time, bits, at, parent, node),
        Doing::JoinRound {
            time,
            bits,
            at,
            parent,
        } => joins::join_round(part, time, bits, at, parent),
        Doing::Splitting { at } => splitting(part, rules, notes, at),
        Doing::SplitTold {
            at,
            first,
            second,
            node,
        } => joins::split_told(part, at, first, second, node),
        Doing::SplitFirst { at, first, second } => {
            joins::round_of(part, first, Doing::SplitSecond { at, second })
        }
        Doing::SplitSecond { at, second } => {
            joins::round_of(part, second, Doing::Splitting { at })
        }
        Doing::Settling { time, at, next } => settling(part, rules, made, notes, time, at, next),
        Doing::Finished => Turn::Says(UpkeepStep::Finished),
    }
}

/// The machine goes over all places where nothing is to be said, and this step comes there.
fn next_of(
    part: &DistributorPart,
    rules: Rules,
    made: &BTreeMap<u64, ()>,
    notes: &Notes,
    doing: &mut Doing,
) -> UpkeepStep
    requires heard { IsSome part.now.state }
    requires rules { rules ≡ part.now.rules }
    ensures goes { (v : View) → Sees part.now v → GoesOver v made.now notes.now.by_number doing.old doing.new }
    ensures says { (v : View) → Sees part.now v → turn_at v made.now notes.now.by_number doing.new ≡ Says result }
{
    loop {
        *doing = skipped(part, notes, *doing);
        match turn(part, rules, made, notes, *doing) {
            Turn::Over(next) => *doing = next,
            Turn::Says(step) => return step,
        }
    }
}

/// Whether a node is to be active in the row of a place.
fn is_to_be_active(part: &DistributorPart, at: usize, node: u8) -> bool
    requires heard { IsSome part.now.state }
    ensures { (v : View) → Sees part.now v → result ≡ is_to_be_active v at node }
{
    let Some(state) = part.state() else {
        unreachable!();
    };
    if part.rows().len() <= at {
        return false;
    }
    asked::to_be_active(part, &state, at) == Some(node)
}

/// What comes behind a message for a row that is settled.
fn answered_row(part: &DistributorPart, at: usize, taken: bool, next: Settle) -> Settle
    requires heard { IsSome part.now.state }
    requires told { IsRowTold next }
    ensures behind { (v : View) → Sees part.now v → result ≡ answered_row v at taken next }
    ensures nearer { steps_left result < steps_left next }
{
    match next {
        Settle::Aligning { node, .. } => Settle::Aligning {
            node: node + 1,
            any: true,
        },
        Settle::Readying { node, ready } => {
            let ready = if is_to_be_active(part, at, node) {
                taken
            } else {
                ready
            };
            Settle::Readying {
                node: node + 1,
                ready,
            }
        }
        Settle::Activating => Settle::Accepting { answered: taken },
        Settle::DeleteTold { node } => {
            if taken {
                Settle::DeleteOver { node }
            } else {
                Settle::Deleting { node: node + 1 }
            }
        }
        _ => unreachable!(),
    }
}

/// What comes behind a decision on a row that is settled.
fn decided_row(next: Settle) -> Settle
    requires decided { IsRowDecided next }
    ensures behind { result ≡ decided_row next }
    ensures nearer { steps_left result < steps_left next }
{
    match next {
        Settle::Deciding { .. } => Settle::Activating,
        Settle::Accepting { .. } => Settle::Deleting { node: 0 },
        Settle::Deleting { node } => Settle::DeleteTold { node },
        Settle::DeleteOver { node } => Settle::Deleting { node: node + 1 },
        _ => unreachable!(),
    }
}

/// What comes behind a Delete that was sent again.
fn resent(part: &DistributorPart, taken: bool, at: usize) -> Doing
    requires { at < length (rows_of part.now.rows) }
    ensures { result ≡ (if taken then ResentDelete at else ResendingDelete (at + 1)) }
{
    let _many = part.rows().len();
    if taken {
        Doing::ResentDelete { at }
    } else {
        Doing::ResendingDelete { at: at + 1 }
    }
}

/// The row that a join made whose round is over, if it is the second time.
fn made_in(doing: Doing) -> Option<Bucket>
    ensures { result ≡ made_in doing }
{
    match doing {
        Doing::JoinRound { time, parent, .. } => match time {
            Time::First => None,
            Time::Again => Some(parent),
        },
        _ => None,
    }
}

/// What comes behind a message.
fn answered_of(part: &DistributorPart, taken: bool, doing: Doing) -> Doing
    requires heard { IsSome part.now.state }
    requires told { IsTellingRow (length (rows_of part.now.rows)) doing }
    ensures behind { (v : View) → Sees part.now v → result ≡ answered v taken doing }
    ensures nearer { (most : ℕ) → left most (length (rows_of part.now.rows)) result
        < left most (length (rows_of part.now.rows)) doing }
{
    match doing {
        Doing::ResendingDelete { at } => resent(part, taken, at),
        Doing::ResendingActivate { at } => Doing::ResentActivate {
            at,
            answered: taken,
        },
        Doing::JoinTold {
            time,
            bits,
            at,
            parent,
            node,
        } => {
            Doing::JoinTold {
                time,
                bits,
                at,
                parent,
                node: node + 1,
            }
        }
        Doing::SplitTold {
            at,
            first,
            second,
            node,
        } => {
            Doing::SplitTold {
                at,
                first,
                second,
                node: node + 1,
            }
        }
        Doing::Settling { time, at, next } => {
            Doing::Settling {
                time,
                at,
                next: answered_row(part, at, taken, next),
            }
        }
        _ => unreachable!(),
    }
}

/// What comes behind a decision.
fn decided_of(many: usize, doing: Doing, decision: Decision) -> Doing
    requires decided { IsDecided many doing decision }
    ensures behind { result ≡ decided doing decision }
    ensures nearer { (most before : ℕ) → many ≤ most → AreLeft before many doing
        → left most many result < left most before doing }
{
    match doing {
        Doing::ResentDelete { at } => Doing::ResendingDelete { at: at + 1 },
        Doing::Joining { time, bits, at } => {
            let Decision::RowsJoined { parent } = decision else {
                unreachable!();
            };
            Doing::JoinTold {
                time,
                bits,
                at,
                parent,
                node: 0,
            }
        }
        Doing::Splitting { at } => {
            let Decision::RowSplit { bucket } = decision else {
                unreachable!();
            };
            let (first, second) = bucket.children();
            Doing::SplitTold {
                at,
                first,
                second,
                node: 0,
            }
        }
        Doing::Settling { time, at, next } => Doing::Settling {
            time,
            at,
            next: decided_row(next),
        },
        _ => unreachable!(),
    }
}

/// Forgets an older note of the row that a join makes.
fn forget_joined(notes: &mut Notes, decision: &Decision)
    ensures { Forgets (join_makes decision.now) notes.old.by_number notes.new.by_number }
{
    match decision {
        Decision::RowsJoined { parent } => notes.forget(*parent),
        _ => {}
    }
}

/// Forgets older notes of the halves of a row that is split.
fn forget_parted(notes: &mut Notes, decision: &Decision)
    requires { IsSplit decision.now }
    ensures { Forgets (split_makes decision.now) notes.old.by_number notes.new.by_number }
{
    match decision {
        Decision::RowSplit { bucket } => {
            let (first, second) = bucket.children();
            notes.forget(first);
            notes.forget(second);
        }
        _ => {}
    }
}

/// Forgets older notes of the rows that a decision makes.
fn forget_made(notes: &mut Notes, doing: &Doing, decision: &Decision)
    requires { (many : ℕ) × IsDecided many doing.now decision.now }
    ensures { Forgets (rows_made doing.now decision.now) notes.old.by_number notes.new.by_number }
{
    match doing {
        Doing::Joining { .. } => forget_joined(notes, decision),
        Doing::Splitting { .. } => forget_parted(notes, decision),
        _ => {}
    }
}

/// What comes behind an acceptance.
fn accepted_of(many: usize, doing: Doing) -> Doing
    requires accepted { IsAccepted many doing }
    ensures behind { result ≡ accepted doing }
    ensures nearer { (most : ℕ) → left most many result < left most many doing }
{
    match doing {
        Doing::ResentActivate { at, .. } => Doing::ResendingActivate { at: at + 1 },
        Doing::Settling { time, at, next } => Doing::Settling {
            time,
            at,
            next: decided_row(next),
        },
        _ => unreachable!(),
    }
}

/// What comes behind a round.
fn rounded_of(part: &DistributorPart, doing: Doing) -> Doing
    requires rounded { IsRounded (length (rows_of part.now.rows)) doing }
    ensures behind { (v : View) → Sees part.now v → result ≡ rounded v doing }
    ensures nearer { (most : ℕ) → left most (length (rows_of part.now.rows)) result
        < left most (length (rows_of part.now.rows)) doing }
{
    match doing {
        Doing::Rounding { at } => {
            let _many = part.rows().len();
            Doing::Rounding { at: at + 1 }
        }
        Doing::JoinRound { time, bits, at, .. } => {
            Doing::Joining {
                time,
                bits,
                at: next_place(part, at),
            }
        }
        Doing::SplitFirst { at, second, .. } => Doing::SplitSecond { at, second },
        Doing::SplitSecond { at, .. } => Doing::Splitting { at },
        Doing::Settling { time, at, .. } => {
            let next = Settle::Readying {
                node: 0,
                ready: false,
            };
            Doing::Settling { time, at, next }
        }
        _ => unreachable!(),
    }
}

impl UpkeepPass {
    /// A pass that begins with what is sent again.
    pub fn new(alloc: Global) -> UpkeepPass
        ensures begins { result.doing ≡ ResendingDelete 0 }
        ensures none_made { (number : ℕ) → get nat_cmp result.made number ≡ None }
        ensures no_notes { (number : ℕ) → get nat_cmp result.notes.by_number number ≡ None }
    {
        UpkeepPass {
            doing: Doing::ResendingDelete { at: 0 },
            made: BTreeMap::new(alloc),
            notes: Notes::new(alloc),
        }
    }

    /// The next step: it goes over places where nothing is to be said.
    pub fn next_step(&mut self, part: &DistributorPart, rules: Rules) -> UpkeepStep
        requires heard { IsSome part.now.state }
        requires rules { rules ≡ part.now.rules }
        ensures goes { (v : View) → Sees part.now v
            → GoesOver v self.old.made self.old.notes.by_number self.old.doing self.new.doing }
        ensures says { (v : View) → Sees part.now v
            → turn_at v self.old.made self.old.notes.by_number self.new.doing ≡ Says result }
        ensures allowed { (v : View) → Sees part.now v
            → IsAllowed v self.old.notes.by_number self.new.doing result }
        ensures awaits { Awaits (length (rows_of part.now.rows)) result self.new.doing }
        ensures nearer { (most : ℕ) → length (rows_of part.now.rows) ≤ most
            → left most (length (rows_of part.now.rows)) self.new.doing
            ≤ left most (length (rows_of part.now.rows)) self.old.doing }
        ensures same { self.new ≡ record self.old { doing = self.new.doing } }
    {
        next_of(part, rules, &self.made, &self.notes, &mut self.doing)
    }

    /// Takes whether the node took what it was told, or whether its reply ends a Delete.
    pub fn answer(&mut self, part: &DistributorPart, taken: bool)
        requires heard { IsSome part.now.state }
        requires told { IsTellingRow (length (rows_of part.now.rows)) self.old.doing }
        ensures behind { (v : View) → Sees part.now v → self.new.doing ≡ answered v taken self.old.doing }
        ensures same { self.new ≡ record self.old { doing = self.new.doing } }
        ensures nearer { (most : ℕ) → left most (length (rows_of part.now.rows)) self.new.doing
            < left most (length (rows_of part.now.rows)) self.old.doing }
    {
        self.doing = answered_of(part, taken, self.doing);
    }

    /// Takes that what was to be decided is, and how many rows there are then. A row that it made has no note yet.
    pub fn decided(&mut self, many: usize, decision: Decision)
        requires decided { IsDecided many self.old.doing decision }
        ensures behind { self.new.doing ≡ decided self.old.doing decision }
        ensures made { self.new.made ≡ self.old.made }
        ensures forgets { Forgets (rows_made self.old.doing decision)
            self.old.notes.by_number self.new.notes.by_number }
        ensures nearer { (most before : ℕ) → many ≤ most → AreLeft before many self.old.doing
            → left most many self.new.doing < left most before self.old.doing }
    {
        forget_made(&mut self.notes, &self.doing, &decision);
        self.doing = decided_of(many, self.doing, decision);
    }

    /// Takes that it was noted that an active node accepted, and how many rows there are.
    pub fn accepted(&mut self, many: usize)
        requires accepted { IsAccepted many self.old.doing }
        ensures behind { self.new.doing ≡ accepted self.old.doing }
        ensures same { self.new ≡ record self.old { doing = self.new.doing } }
        ensures nearer { (most : ℕ) → left most many self.new.doing < left most many self.old.doing }
    {
        self.doing = accepted_of(many, self.doing);
    }

    /// Takes what a round told of its row.
    pub fn round_over(&mut self, part: &DistributorPart, note: RowNote) -> Result<(), NoMemory>
        requires rounded { IsRounded (length (rows_of part.now.rows)) self.old.doing }
        ensures behind { OnOk result ((v : View) → Sees part.now v → self.new.doing ≡ rounded v self.old.doing) }
        ensures kept { OnOk result (Updates nat_cmp self.old.notes.by_number self.new.notes.by_number
            (number_in note.bucket) (Some note)) }
        ensures made { OnOk result (Makes (made_in self.old.doing) self.old.made self.new.made) }
        ensures nearer { OnOk result ((most : ℕ) → left most (length (rows_of part.now.rows)) self.new.doing
            < left most (length (rows_of part.now.rows)) self.old.doing) }
        // without memory nothing changes but that the note may be kept
        ensures err { OnErr result (self.new.doing ≡ self.old.doing) }
        ensures none_made { OnErr result (IsUnchanged self.old.made self.new.made) }
        ensures kept_or_not { OnErr result (IsUnchanged self.old.notes.by_number self.new.notes.by_number
            ⊎ Updates nat_cmp self.old.notes.by_number self.new.notes.by_number (number_in note.bucket) (Some note)) }
    {
        let doing = rounded_of(part, self.doing);
        self.notes.keep(note)?;
        if let Some(parent) = made_in(self.doing) {
            self.made.insert(number_of(parent), ())?;
        }
        self.doing = doing;
        Ok(())
    }
}
