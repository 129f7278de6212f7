ghost use Rattle.std.specs.Prelude.{◌≡◌, ◌&&◌, ◌++◌, ◌∷◌, [], ℕ, ℤ, List, map, true, if◌then◌else◌, IfOk, OnOk};
ghost use Rattle.std.specs.FinMap as fin;
ghost use Rattle.std.specs.Int.Signed.{◌≤ℤ◌};
ghost use Rattle.view_changes.specs.Serving.{rows_of};
ghost use Rattle.document_rows.specs.Rows.{Rows};
ghost use Rattle.document_rows.specs.Reading.{row_at, places_where, is_of_type, IsWide};
ghost use Rattle.view_columns.specs.Cells.{HaveOne};
ghost use Rattle.query_text.specs.Truth.{relates, value_relates};
ghost use Rattle.match_views.specs.Ranges.{AreLists, has_some, AreAll};
ghost use Rattle.match_views.specs.Bounds.{within};

use crate::marks::{all_marked, are_dense};
use crate::sets::join;
use query_text::Rel;
use std::alloc::Global;
use value_lists::NoMemory;
use view_changes::Lists;

/// How a number is to stand to another.
#[derive(Clone, Copy)]
pub struct Bound {
    pub rel: Rel,
    pub number: i64,
}

/// The local ids of all lists of numbers, joined in pairs.
fn united(alloc: Global, parts: &[(i64, &[u32])]) -> Result<Vec<u32>, NoMemory>
    ensures { (name field : List ℕ) (rows : Rows) → AreLists name field rows (map (λ p. (p.0, p.1.now)) parts.now)
        → IfOk result (λ ids. ids.items
        ≡ places_where (has_some name field (map (λ p. (p.0, p.1.now)) parts.now)) rows) }
{
    if parts.is_empty() {
        return Ok(Vec::new(alloc));
    }
    if parts.len() == 1 {
        return Ok(Vec::from_slice(alloc, parts[0].1)?);
    }
    let half = parts.len() / 2;
    let low = united(alloc, &parts[..half])?;
    let high = united(alloc, &parts[half..])?;
    join(alloc, &low, &high)
}

/// The local ids of all lists of numbers, marked or joined.
fn gathered(alloc: Global, parts: &[(i64, &[u32])]) -> Result<Vec<u32>, NoMemory>
    ensures { (name field : List ℕ) (rows : Rows) → AreLists name field rows (map (λ p. (p.0, p.1.now)) parts.now)
        → IfOk result (λ ids. ids.items
        ≡ places_where (has_some name field (map (λ p. (p.0, p.1.now)) parts.now)) rows) }
{
    if are_dense(parts) {
        all_marked(alloc, parts)
    } else {
        united(alloc, parts)
    }
}

/// Whether a number stands so to another.
fn relates(rel: Rel, own: i64, number: i64) -> bool
    ensures { result ≡ relates rel number own }
{
    match rel {
        Rel::Eq => own == number,
        Rel::Lt => own < number,
        Rel::Le => own <= number,
        Rel::Gt => own > number,
        Rel::Ge => own >= number,
    }
}

/// The least and the greatest number that may stand so to a number.
fn bounds(rel: Rel, number: i64) -> (i64, i64)
    ensures { (q : ℤ) → IsWide q → relates rel number q ≡ true → (result.0 ≤ℤ q) × (q ≤ℤ result.1) }
{
    match rel {
        Rel::Eq => (number, number),
        Rel::Lt | Rel::Le => (i64::MIN, number),
        Rel::Gt | Rel::Ge => (number, i64::MAX),
    }
}

/// Whether a number stands to two others as it is to.
fn is_within(one: Bound, two: Bound, own: i64) -> bool
    ensures { result ≡ within one two own }
{
    relates(one.rel, own, one.number) && relates(two.rel, own, two.number)
}

/// The greater of two numbers.
fn greater(one: i64, two: i64) -> i64
    ensures { (q : ℤ) → one ≤ℤ q → two ≤ℤ q → result ≤ℤ q }
{
    if one < two { two } else { one }
}

/// The lesser of two numbers.
fn lesser(one: i64, two: i64) -> i64
    ensures { (q : ℤ) → q ≤ℤ one → q ≤ℤ two → q ≤ℤ result }
{
    if one < two { one } else { two }
}

/// The least and the greatest number that may stand so to both.
fn span(one: Bound, two: Bound) -> (i64, i64)
    ensures { (q : ℤ) → IsWide q → within one two q ≡ true → (result.0 ≤ℤ q) × (q ≤ℤ result.1) }
{
    let first = bounds(one.rel, one.number);
    let second = bounds(two.rel, two.number);
    (greater(first.0, second.0), lesser(first.1, second.1))
}

/// A number with its documents more, where it stands so to both.
fn push_so<'a>(
    parts: &mut Vec<(i64, &'a [u32])>,
    one: Bound,
    two: Bound,
    own: i64,
    ids: &'a [u32],
) -> Result<(), NoMemory>
    ensures { OnOk result (map {B = ℤ × List ℕ} (λ p. (p.0, p.1.now)) parts.new.items
        ≡ (if within one two own then map {B = ℤ × List ℕ} (λ p. (p.0, p.1.now)) parts.old.items ++ (own, ids.now) ∷ []
        else map {B = ℤ × List ℕ} (λ p. (p.0, p.1.now)) parts.old.items)) }
{
    if is_within(one, two, own) {
        parts.push((own, ids))?;
    }
    Ok(())
}

/// The numbers that stand so to both and that a node's documents of a type have in a field, each with its documents.
fn numbers_so<'a, L: Lists>(
    alloc: Global,
    lists: &'a L,
    node: u8,
    type_name: &str,
    field: &str,
    one: Bound,
    two: Bound,
) -> Result<Vec<(i64, &'a [u32])>, NoMemory>
    ensures { IfOk result (λ parts. AreAll type_name.now field.now (rows_of node (L.seen lists.now)) (within one two)
        (map (λ p. (p.0, p.1.now)) parts.items)) }
{
    let (low, high) = span(one, two);
    let mut parts = Vec::new(alloc);
    let mut from = low;
    while let Some((own, ids)) = lists.next_value(node, type_name, field, from, high) {
        push_so(&mut parts, one, two, own, ids)?;
        if own == high {
            break;
        }
        from = own + 1;
    }
    Ok(parts)
}

/// The local ids of a node's documents of a type that have in a field, or in an item of it, a number that stands so to
/// another. Takes the lengths of the numbers' lists, times the logarithm of how many these are.
pub fn comparing<L: Lists>(
    alloc: Global,
    lists: &L,
    node: u8,
    type_name: &str,
    field: &str,
    rel: Rel,
    number: i64,
) -> Result<Vec<u32>, NoMemory>
    ensures { IfOk result (λ ids. ids.items
        ≡ places_where (λ d. is_of_type type_name.now d && value_relates rel number (fin.get d.fields field.now))
        (rows_of node (L.seen lists.now))) }
{
    let bound = Bound { rel, number };
    let parts = numbers_so(alloc, lists, node, type_name, field, bound, bound)?;
    gathered(alloc, &parts)
}

/// The local ids of a node's documents of a type that have in a field a number that stands so to both, where each has one
/// number at most. Takes the lengths of the lists of the numbers between, times the logarithm of how many these are.
pub fn between<L: Lists>(
    alloc: Global,
    lists: &L,
    node: u8,
    type_name: &str,
    field: &str,
    one: Bound,
    two: Bound,
) -> Result<Vec<u32>, NoMemory>
    requires { HaveOne type_name.now field.now (row_at (rows_of node (L.seen lists.now))) }
    ensures { IfOk result (λ ids. ids.items
        ≡ places_where (λ d. is_of_type type_name.now d && (value_relates one.rel one.number (fin.get d.fields field.now)
        && value_relates two.rel two.number (fin.get d.fields field.now))) (rows_of node (L.seen lists.now))) }
{
    let parts = numbers_so(alloc, lists, node, type_name, field, one, two)?;
    gathered(alloc, &parts)
}
