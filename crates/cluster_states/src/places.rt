/// What a mark is of.
#[derive(Clone, Copy)]
pub enum Role {
    Distributor,
    Storage,
}

/// The number that is read.
#[derive(Clone, Copy)]
pub enum Number {
    /// The version.
    Version,
    /// How many distributors there are.
    Distributors,
    /// How many storage nodes there are.
    Nodes,
    /// How many groups they lie in.
    Groups,
    /// The number of a mark; those below `least` are behind.
    Marked { role: Role, least: u8 },
}

/// Where in a state text a reader stands.
#[derive(Clone, Copy)]
pub enum Place {
    /// In the word before a number, at its first digit where the word is over.
    Word { number: Number, at: usize },
    /// Behind a digit of a number.
    Digits { number: Number, value: u64 },
    /// Behind the counts: the text may end, and groups may follow.
    Counts,
    /// Behind the space there.
    CountsSpace,
    /// In the sign behind a mark's number, at its letter where the sign is over.
    Sign { role: Role, number: u8, at: usize },
    /// Behind the groups or a mark: the text may end.
    Gap { role: Role, least: u8 },
    /// Behind the space before a mark.
    Space { role: Role, least: u8 },
}
