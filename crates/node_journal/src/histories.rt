ghost use Rattle.std.specs.Prelude.{◌≡◌, ◌⊎◌, ◌≤◌, ℕ, List, false};
ghost use Rattle.doc_types.specs.SchemaCodes.{Types};
ghost use Rattle.messages.specs.declared.message.Message.{Message};
ghost use Rattle.node_journal.specs.declared.causes.OpenCause.{OpenCause};
ghost use Rattle.node_journal.specs.declared.causes.OpenCause.TheVariants.{DiskFault, NoMemory};
ghost use Rattle.node_journal.specs.Journals.{Journaled, Holds};
ghost use Rattle.node_journal.specs.Opening.{HandsBack};
ghost use Rattle.node_journal.specs.Histories.{Mark, Chosen, History, Runs, Crashed, HasFile, Recalls};

use disks::Disk;

/// In every history of opening, taking and crashing, the file records all messages of which a take told that
/// they are recorded, in order, and of those under way at a crash or at a fault of the disk some.
pub fn nothing_told_is_lost<D: Disk>()
    // after a crash
    ensures crashed { (schema : Types) (limit : ℕ) (marks : List Mark) (file : List ℕ)
        → History D.state D.last schema limit marks (Crashed file) → Recalls schema limit marks file }

    // in a node that is not shut
    ensures runs { (schema : Types) (limit : ℕ) (marks : List Mark) (j : Journaled D)
        → History D.state D.last schema limit marks (Runs j) → j.shut ≡ false
        → (ms : List Message) × (Chosen marks ms × Holds D.state j ms) }

    // and after a crash only a fault of the disk or want of memory stands in the way
    ensures opened { (schema : Types) (limit : ℕ) (marks : List Mark) (file : List ℕ) (disk : D) (cause : OpenCause) (back : D)
        → History D.state D.last schema limit marks (Crashed file) → HasFile D.state disk file
        → HandsBack D.state D.last schema disk limit cause back → (cause ≡ DiskFault) ⊎ (cause ≡ NoMemory) }
{}
