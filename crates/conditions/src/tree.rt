/// What a condition says of its atoms.
#[derive(Drop)]
pub enum Tree<A: Drop> {
    True,
    False,
    Atom(A),
    Not(Box<Tree<A>>),
    And(Box<Tree<A>>, Box<Tree<A>>),
    Or(Box<Tree<A>>, Box<Tree<A>>),
}
