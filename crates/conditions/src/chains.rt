ghost use Rattle.std.specs.Prelude.{◌≡◌, [], ◌∷◌, IfOk};
ghost use Rattle.conditions.specs.Chains.{joined, added, finished};
ghost use Rattle.conditions.specs.Views.{formula_of, links_of, chain_of};

use crate::tree::Tree;
use std::alloc::Global;
use value_lists::NoMemory;

/// What joins the terms of a chain.
#[derive(Clone, Copy, PartialEq, Eq)]
pub enum Joint {
    And,
    Or,
}

/// A tree of about 2 to the rank terms.
#[derive(Drop)]
pub struct Link<A: Drop> {
    pub rank: u32,
    pub tree: Tree<A>,
}

/// The terms of a chain so far, in trees of falling rank.
#[derive(Drop)]
pub struct Chain<A: Drop> {
    pub links: Vec<Link<A>>,
}

/// Two trees as one.
fn join<A: Drop>(
    alloc: Global,
    joint: Joint,
    one: Tree<A>,
    two: Tree<A>,
) -> Result<Tree<A>, NoMemory>
    ensures { IfOk result (λ tree. formula_of tree ≡ joined joint (formula_of one) (formula_of two)) }
{
    let one = Box::new(alloc, one)?;
    let two = Box::new(alloc, two)?;
    match joint {
        Joint::And => Ok(Tree::And(one, two)),
        Joint::Or => Ok(Tree::Or(one, two)),
    }
}

/// The chain of these links and one more.
fn with_link<A: Drop>(links: Vec<Link<A>>, rank: u32, tree: Tree<A>) -> Result<Chain<A>, NoMemory>
    ensures { IfOk result (λ chain. chain_of chain ≡ (rank, formula_of tree) ∷ links_of links.items) }
{
    let mut links = links;
    links.push(Link { rank, tree })?;
    Ok(Chain { links })
}

impl<A: Drop> Chain<A> {
    /// A chain of no terms.
    pub fn none(alloc: Global) -> Chain<A>
        ensures { chain_of result ≡ [] }
    {
        Chain {
            links: Vec::new(alloc),
        }
    }

    /// The chain with one term more.
    pub fn add(self, alloc: Global, joint: Joint, term: Tree<A>) -> Result<Chain<A>, NoMemory>
        ensures { IfOk result (λ chain. chain_of chain ≡ added joint (formula_of term) (chain_of self)) }
    {
        let mut links = self.links;
        let mut rank: u32 = 0;
        let mut tree = term;
        'carry: while let Some(link) = links.pop() {
            if link.rank != rank {
                links.push(link)?;
                return with_link(links, rank, tree);
            }
            rank = rank.saturating_add(1);
            tree = join(alloc, joint, link.tree, tree)?;
        }
        with_link(links, rank, tree)
    }

    /// The tree of the chain and its last term.
    pub fn finish(self, alloc: Global, joint: Joint, last: Tree<A>) -> Result<Tree<A>, NoMemory>
        ensures { IfOk result (λ tree. formula_of tree ≡ finished joint (formula_of last) (chain_of self)) }
    {
        let mut links = self.links;
        let mut tree = last;
        'fold: while let Some(link) = links.pop() {
            tree = join(alloc, joint, link.tree, tree)?;
        }
        Ok(tree)
    }
}
