ghost use Rattle.std.specs.Prelude.{◌≡◌, ◌&&◌, not, ℕ, ◌+◌, ◌<◌, ◌≤◌, None, IsTrue, IsFalse, OnOk, OnErr, [], ◌∷◌, ◌++◌, vec_len, vec_capacity};
ghost use Rattle.std.specs.Option.{option_copied};
ghost use Rattle.node_sets.specs.Members.{has_node};
ghost use Rattle.merge_rounds.specs.Rounds.{did_show, did_give, HaveAllShown, pieces_by, shown_after, union_after, union_with, is_answer};
ghost use Rattle.entry_maps.specs.EntryCodes.{Entries};

use entry_maps::{EntryMap, join};
use messages::{NodePieces, Reply};
use node_sets::NodeSet;
use pieces::{Piece, PieceList};
use value_lists::NoMemory;

/// Whether a node's answer is among those shown.
fn did_show(node: u8, shown: &[NodePieces]) -> bool
    ensures { result ≡ did_show node shown.now }
{
    shown.iter().any(|seen| seen.node == node)
}

/// Whether a node's answer is among those shown, and had an entry.
fn did_give(node: u8, shown: &[NodePieces]) -> bool
    ensures { result ≡ did_give node shown.now }
{
    shown.iter().any(|seen| seen.entries && seen.node == node)
}

/// Whether each reader's answer is among those shown.
pub fn have_all(readers: NodeSet, shown: &[NodePieces]) -> bool
    ensures yes { IsTrue result → HaveAllShown readers shown.now }
    ensures no { IsFalse result → HaveAllShown readers shown.now → ⊥ }
{
    for node in 0..32 {
        if readers.has(node) && !did_show(node, shown) {
            return false;
        }
    }
    true
}

/// The nodes whose answers had an entry.
pub fn givers(shown: &[NodePieces]) -> NodeSet
    ensures { (node : ℕ) → node < 32 → has_node result node ≡ did_give node shown.now }
{
    let mut nodes = NodeSet::none();
    for node in 0..32 {
        if did_give(node, shown) {
            nodes = nodes.with(node);
        }
    }
    nodes
}

/// The nodes whose answers are among those shown.
fn showers(shown: &[NodePieces]) -> NodeSet
    ensures { (node : ℕ) → node < 32 → has_node result node ≡ did_show node shown.now }
{
    let mut nodes = NodeSet::none();
    for node in 0..32 {
        if did_show(node, shown) {
            nodes = nodes.with(node);
        }
    }
    nodes
}

/// The readers whose answers aren't among those shown.
pub fn silent(readers: NodeSet, shown: &[NodePieces]) -> NodeSet
    ensures { (node : ℕ) → has_node result node ≡ (has_node readers node && not (did_show node shown.now)) }
{
    readers.difference(showers(shown))
}

/// The pieces that a node's answer showed.
pub fn pieces_by(node: u8, shown: &[NodePieces]) -> &[Piece]
    ensures { result.now ≡ pieces_by node shown.now }
{
    for seen in shown {
        if seen.node == node {
            return seen.pieces.items();
        }
    }
    &[]
}

/// Adds what a node's answer showed, for which there is a place.
fn add(shown: &mut Vec<NodePieces>, node: u8, pieces: PieceList, entries: bool)
    requires { vec_len shown.old + 1 ≤ vec_capacity shown.old }
    ensures { shown.new.items
        ≡ shown.old.items ++ record { node = node; pieces = pieces; entries = entries } ∷ [] }
{
    let Ok(()) = shown.push(NodePieces {
        node,
        pieces,
        entries,
    }) else {
        unreachable!();
    };
}

/// Takes a node's reply to a Read, and gives the entries that it showed; one that is no answer shows nothing. There is
/// a place for what it shows.
pub fn take_reply(shown: &mut Vec<NodePieces>, node: u8, reply: Option<Reply>) -> Option<EntryMap>
    requires { vec_len shown.old + 1 ≤ vec_capacity shown.old }
    ensures shown { shown.new.items ≡ shown_after shown.old.items node reply }
    ensures entries { (union : Entries) → union_with union result ≡ union_after union reply }
{
    match reply {
        Some(Reply::Answer { pieces, entries }) => {
            add(shown, node, pieces, entries.entries() > 0);
            Some(entries)
        }
        Some(Reply::Newer { .. }) => None,
        Some(Reply::NoBucket) => None,
        Some(Reply::Differs) => None,
        Some(Reply::NoMemory) => None,
        None => None,
    }
}

/// Joins the entries that were shown last, if there are any, into the union. Onto no entry they go as they are.
pub fn unite(union: &mut EntryMap, heard: &mut Option<EntryMap>) -> Result<(), NoMemory>
    ensures union { OnOk result (union.new ≡ union_with union.old heard.old) }
    ensures heard { OnOk result (heard.new ≡ None) }
    ensures union_stays { OnErr result (union.new ≡ union.old) }
    ensures heard_stays { OnErr result (heard.new ≡ heard.old) }
{
    if union.entries() == 0 {
        if let Some(entries) = heard.take() {
            *union = entries;
        }
        return Ok(());
    }
    if let Some(entries) = heard {
        join(union, entries)?;
        *heard = None;
    }
    Ok(())
}

/// Whether a reply, if any came, is an answer.
pub fn is_answer(reply: Option<&Reply>) -> bool
    ensures { result ≡ is_answer (option_copied reply.entry) }
{
    match reply {
        Some(Reply::Answer { .. }) => true,
        _ => false,
    }
}
