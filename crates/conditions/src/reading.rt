ghost use Rattle.std.specs.Prelude.{◌≡◌, [], ◌∷◌, IfOk, Some};
ghost use Rattle.conditions.specs.declared.frames.Bracket.TheVariants as bracket;
ghost use Rattle.conditions.specs.declared.chains.Joint.TheVariants as joint;
ghost use Rattle.conditions.specs.Chains.{added, finished};
ghost use Rattle.conditions.specs.Formulas.{opposite};
ghost use Rattle.conditions.specs.Machine.{level, want, settle, has_room, open_frame, negate, want_step, bracket_step, and_step, or_step, level_formula, bracket_formula, close_step, behind_step, gap_step, outside_formula, whole_formula};
ghost use Rattle.conditions.specs.Views.{formula_of, frame_of, stack_of, gap_of, moved_of, settled_of, chain_of, Goes};

use crate::Stop;
use crate::chains::{Chain, Joint};
use crate::frames::{Bracket, Level, Open, Place};
use crate::kinds::{Kind, Negation};
use crate::tree::Tree;
use std::alloc::Global;
use value_lists::NoMemory;

/// A condition that is read so far: what is open, outermost first, and the place.
#[derive(Drop)]
pub struct Conditions<A: Drop> {
    pub frames: Vec<Open<A>>,
    pub place: Place<A>,
}

/// An operand with the `not`s that waited for it, and what is open around it.
#[derive(Drop)]
pub struct Settled<A: Drop> {
    pub frames: Vec<Open<A>>,
    pub tree: Tree<A>,
}

impl<A: Drop> Conditions<A> {
    /// No token was read yet.
    pub fn start(alloc: Global) -> Result<Conditions<A>, NoMemory>
        ensures { IfOk result (λ c. moved_of c ≡ (level bracket.Outside [] [] ∷ [], want)) }
    {
        let mut frames = Vec::new(alloc);
        frames.push(new_level(alloc, Bracket::Outside))?;
        Ok(Conditions {
            frames,
            place: Place::Want,
        })
    }

    /// The condition with one token more.
    pub fn step(self, alloc: Global, negation: Negation, kind: Kind) -> Result<Conditions<A>, Stop>
        ensures { Goes moved_of result (gap_step negation kind (gap_of self.place)
            (stack_of self.frames.items)) }
    {
        let Conditions { frames, place } = self;
        match place {
            Place::Want => want_step(alloc, frames, negation, kind),
            Place::WantBracket => bracket_step(alloc, frames, kind),
            Place::Behind(tree) => behind_step(alloc, frames, kind, tree),
        }
    }
}

/// A level that is just opened.
fn new_level<A: Drop>(alloc: Global, bracket: Bracket) -> Open<A>
    ensures { frame_of result ≡ level bracket [] [] }
{
    Open::Level(Level {
        bracket,
        ors: Chain::none(alloc),
        ands: Chain::none(alloc),
    })
}

/// Whether one construct more may be open.
fn has_room<A: Drop>(frames: &[Open<A>]) -> bool
    ensures { result ≡ has_room (stack_of frames.now) }
{
    frames.len() < 65
}

/// What is open with one construct more.
fn open_frame<A: Drop>(frames: Vec<Open<A>>, frame: Open<A>) -> Result<Conditions<A>, Stop>
    ensures { Goes moved_of result (open_frame (frame_of frame) (stack_of frames.items)) }
{
    if !has_room(&frames) {
        return Err(Stop::Refused);
    }
    let mut frames = frames;
    frames.push(frame)?;
    Ok(Conditions {
        frames,
        place: Place::Want,
    })
}

/// A negation where an operand is wanted.
fn negate<A: Drop>(negation: Negation, frames: Vec<Open<A>>) -> Result<Conditions<A>, Stop>
    ensures { Goes moved_of result (negate negation (stack_of frames.items)) }
{
    match negation {
        Negation::Word => open_frame(frames, Open::Not),
        Negation::Sign => {
            if !has_room(&frames) {
                return Err(Stop::Refused);
            }
            Ok(Conditions {
                frames,
                place: Place::WantBracket,
            })
        }
    }
}

/// A token where an operand is wanted.
fn want_step<A: Drop>(
    alloc: Global,
    frames: Vec<Open<A>>,
    negation: Negation,
    kind: Kind,
) -> Result<Conditions<A>, Stop>
    ensures { Goes moved_of result (want_step negation kind (stack_of frames.items)) }
{
    match kind {
        Kind::Not => negate(negation, frames),
        Kind::Open => open_frame(frames, new_level(alloc, Bracket::Plain)),
        Kind::True => Ok(Conditions {
            frames,
            place: Place::Behind(Tree::True),
        }),
        Kind::False => Ok(Conditions {
            frames,
            place: Place::Behind(Tree::False),
        }),
        _ => Err(Stop::Refused),
    }
}

/// A token behind `!`.
fn bracket_step<A: Drop>(
    alloc: Global,
    frames: Vec<Open<A>>,
    kind: Kind,
) -> Result<Conditions<A>, Stop>
    ensures { Goes moved_of result (bracket_step kind (stack_of frames.items)) }
{
    match kind {
        Kind::Open => {
            let mut frames = frames;
            frames.push(new_level(alloc, Bracket::Negated))?;
            Ok(Conditions {
                frames,
                place: Place::Want,
            })
        }
        _ => Err(Stop::Refused),
    }
}

/// The opposite of a tree.
fn opposite<A: Drop>(alloc: Global, tree: Tree<A>) -> Result<Tree<A>, NoMemory>
    ensures { IfOk result (λ t. formula_of t ≡ opposite (formula_of tree)) }
{
    Ok(Tree::Not(Box::new(alloc, tree)?))
}

/// An operand with the `not`s that wait for it.
fn settle<A: Drop>(
    alloc: Global,
    frames: Vec<Open<A>>,
    tree: Tree<A>,
) -> Result<Settled<A>, NoMemory>
    ensures { IfOk result (λ s. settled_of s ≡ settle (formula_of tree) (stack_of frames.items)) }
{
    let mut frames = frames;
    let mut tree = tree;
    'waiting: while let Some(frame) = frames.pop() {
        match frame {
            Open::Not => tree = opposite(alloc, tree)?,
            Open::Level(level) => {
                frames.push(Open::Level(level))?;
                return Ok(Settled { frames, tree });
            }
        }
    }
    Ok(Settled { frames, tree })
}

/// A token behind an operand.
pub fn behind_step<A: Drop>(
    alloc: Global,
    frames: Vec<Open<A>>,
    kind: Kind,
    tree: Tree<A>,
) -> Result<Conditions<A>, Stop>
    ensures { Goes moved_of result (behind_step kind (settle (formula_of tree) (stack_of frames.items))) }
{
    let settled = settle(alloc, frames, tree)?;
    match kind {
        Kind::And => and_step(alloc, settled.frames, settled.tree),
        Kind::Or => or_step(alloc, settled.frames, settled.tree),
        Kind::Close => close_step(alloc, settled.frames, settled.tree),
        _ => Err(Stop::Refused),
    }
}

/// A level behind `and`: the operand is one more of its last terms.
fn and_level<A: Drop>(alloc: Global, around: Level<A>, tree: Tree<A>) -> Result<Open<A>, NoMemory>
    ensures { IfOk result (λ f. frame_of f ≡ level around.bracket (chain_of around.ors)
        (added joint.And (formula_of tree) (chain_of around.ands))) }
{
    let ands = around.ands.add(alloc, Joint::And, tree)?;
    Ok(Open::Level(Level {
        bracket: around.bracket,
        ors: around.ors,
        ands,
    }))
}

/// `and` behind an operand.
fn and_step<A: Drop>(
    alloc: Global,
    frames: Vec<Open<A>>,
    tree: Tree<A>,
) -> Result<Conditions<A>, Stop>
    ensures { Goes moved_of result (and_step (formula_of tree) (stack_of frames.items)) }
{
    let mut frames = frames;
    match frames.pop() {
        Some(Open::Level(around)) => {
            frames.push(and_level(alloc, around, tree)?)?;
            Ok(Conditions {
                frames,
                place: Place::Want,
            })
        }
        _ => Err(Stop::Refused),
    }
}

/// A level behind `or`: its last terms and the operand are one more of its chains.
fn or_level<A: Drop>(alloc: Global, around: Level<A>, tree: Tree<A>) -> Result<Open<A>, NoMemory>
    ensures { IfOk result (λ f. frame_of f ≡ level around.bracket
        (added joint.Or (finished joint.And (formula_of tree) (chain_of around.ands)) (chain_of around.ors)) []) }
{
    let terms = around.ands.finish(alloc, Joint::And, tree)?;
    let ors = around.ors.add(alloc, Joint::Or, terms)?;
    Ok(Open::Level(Level {
        bracket: around.bracket,
        ors,
        ands: Chain::none(alloc),
    }))
}

/// `or` behind an operand.
fn or_step<A: Drop>(
    alloc: Global,
    frames: Vec<Open<A>>,
    tree: Tree<A>,
) -> Result<Conditions<A>, Stop>
    ensures { Goes moved_of result (or_step (formula_of tree) (stack_of frames.items)) }
{
    let mut frames = frames;
    match frames.pop() {
        Some(Open::Level(around)) => {
            frames.push(or_level(alloc, around, tree)?)?;
            Ok(Conditions {
                frames,
                place: Place::Want,
            })
        }
        _ => Err(Stop::Refused),
    }
}

/// What a level says with its last operand.
fn level_tree<A: Drop>(
    alloc: Global,
    ors: Chain<A>,
    ands: Chain<A>,
    last: Tree<A>,
) -> Result<Tree<A>, NoMemory>
    ensures { IfOk result (λ t. formula_of t ≡ level_formula (formula_of last) (chain_of ors) (chain_of ands)) }
{
    let terms = ands.finish(alloc, Joint::And, last)?;
    ors.finish(alloc, Joint::Or, terms)
}

/// A bracket is closed around a tree.
fn bracket_tree<A: Drop>(
    alloc: Global,
    bracket: Bracket,
    tree: Tree<A>,
    frames: Vec<Open<A>>,
) -> Result<Conditions<A>, Stop>
    ensures { Goes moved_of result (bracket_formula bracket (formula_of tree) (stack_of frames.items)) }
{
    match bracket {
        Bracket::Outside => Err(Stop::Refused),
        Bracket::Plain => Ok(Conditions {
            frames,
            place: Place::Behind(tree),
        }),
        Bracket::Negated => Ok(Conditions {
            frames,
            place: Place::Behind(opposite(alloc, tree)?),
        }),
    }
}

/// `)` behind an operand.
fn close_step<A: Drop>(
    alloc: Global,
    frames: Vec<Open<A>>,
    tree: Tree<A>,
) -> Result<Conditions<A>, Stop>
    ensures { Goes moved_of result (close_step (formula_of tree) (stack_of frames.items)) }
{
    let mut frames = frames;
    match frames.pop() {
        Some(Open::Level(level)) => {
            let inner = level_tree(alloc, level.ors, level.ands, tree)?;
            bracket_tree(alloc, level.bracket, inner, frames)
        }
        _ => Err(Stop::Refused),
    }
}

/// The tree of a level behind its last operand, where it is the whole text.
fn text_tree<A: Drop>(alloc: Global, around: Level<A>, last: Tree<A>) -> Result<Tree<A>, Stop>
    ensures { Goes formula_of result (outside_formula around.bracket
        (level_formula (formula_of last) (chain_of around.ors) (chain_of around.ands))) }
{
    match around.bracket {
        Bracket::Outside => Ok(level_tree(alloc, around.ors, around.ands, last)?),
        _ => Err(Stop::Refused),
    }
}

/// The same behind an operand for which no `not` waits, where nothing is open.
fn settled_tree<A: Drop>(
    alloc: Global,
    frames: Vec<Open<A>>,
    last: Tree<A>,
) -> Result<Tree<A>, Stop>
    ensures { Goes formula_of result (whole_formula (formula_of last, stack_of frames.items)) }
{
    let mut frames = frames;
    match frames.pop() {
        Some(Open::Level(around)) => text_tree(alloc, around, last),
        _ => Err(Stop::Refused),
    }
}

/// The tree of the whole text behind its last operand, where nothing is open.
pub fn whole_tree<A: Drop>(
    alloc: Global,
    frames: Vec<Open<A>>,
    last: Tree<A>,
) -> Result<Tree<A>, Stop>
    ensures { Goes formula_of result (whole_formula (settle (formula_of last) (stack_of frames.items))) }
{
    let settled = settle(alloc, frames, last)?;
    settled_tree(alloc, settled.frames, settled.tree)
}
