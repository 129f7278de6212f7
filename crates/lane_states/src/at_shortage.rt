ghost use Rattle.std.specs.Prelude.{◌≡◌};
ghost use Rattle.lane_states.specs.Shortages.{ends_at};

/// What is done at a reply that says that the node wants memory.
#[derive(Clone, Copy, PartialEq, Eq)]
pub enum AtShortage {
    /// The others are asked all the same, and an operation answers by what all of them said.
    GoOn,
    /// Nothing more is sent: a pass of upkeep ends at once.
    End,
}

impl AtShortage {
    /// Whether what is under way ends here, where it is known whether a node wants memory.
    pub fn ends(self, short: bool) -> bool
        ensures { result ≡ ends_at self short }
    {
        match self {
            AtShortage::GoOn => false,
            AtShortage::End => short,
        }
    }
}
