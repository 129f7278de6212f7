use node_sets::NodeSet;

/// How far the round of a job is; `at` is the place of its row.
#[derive(Clone, Copy, PartialEq, Eq)]
pub enum Stage {
    /// No round was begun in this job.
    Before,
    /// A round is under way.
    Running {
        at: usize,
        receivers: NodeSet,
    },
    /// It is over, and its end isn't decided yet: these have become complete, and these were asked last
    /// and didn't answer.
    Over {
        at: usize,
        complete: NodeSet,
        missing: NodeSet,
    },
    /// Its end was decided.
    Ended {
        missing: NodeSet,
    },
}
