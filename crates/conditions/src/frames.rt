use crate::chains::Chain;
use crate::tree::Tree;

/// What opened a level.
#[derive(Clone, Copy, PartialEq, Eq)]
pub enum Bracket {
    /// The text itself.
    Outside,
    /// A bracket.
    Plain,
    /// A bracket behind `!`.
    Negated,
}

/// A level with the chains before the place.
#[derive(Drop)]
pub struct Level<A: Drop> {
    pub bracket: Bracket,
    pub ors: Chain<A>,
    pub ands: Chain<A>,
}

/// What is open at a place.
#[derive(Drop)]
pub enum Open<A: Drop> {
    Level(Level<A>),
    /// A `not` that waits for its operand.
    Not,
}

/// What may come next.
#[derive(Drop)]
pub enum Place<A: Drop> {
    /// An operand.
    Want,
    /// The bracket behind `!`.
    WantBracket,
    /// What may stand behind an operand.
    Behind(Tree<A>),
}
