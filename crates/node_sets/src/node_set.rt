ghost use Rattle.std.specs.Prelude.{◌≡◌, ◌==◌, ◌&&◌, ◌||◌, not, true, false, ℕ, ◌+◌, ◌%◌, ◌^◌, ◌<◌, ◌≤◌, ◌↔◌, nat_le, IsTrue, if◌then◌else◌};
ghost use Rattle.node_sets.specs.Members.{has_node, size_of, size_below, Within};

use std::marker::Model;

/// A set of numbers below 32.
#[derive(Clone, Copy, Debug, PartialEq, Eq)]
pub struct NodeSet {
    bits: u32,
}

impl Model for NodeSet {
    ghost use Rattle.std.specs.Prelude.{ℕ};

    ghost Value = { ℕ };

    ghost view = { λ s. s.bits };

    ghost inverse = { λ bits. record { bits = bits } };
}

/// Whether a bit below 32 is 1.
fn has_bit(bits: u32, node: u8) -> bool
    requires { node < 32 }
    ensures { result ≡ has_node bits node }
{
    (bits >> node) & 1 == 1
}

/// The bits of one word that the other doesn't have.
fn without_bits(bits: u32, other: u32) -> u32
    ensures members { (n : ℕ) → has_node result n ≡ (has_node bits n && not (has_node other n)) }
    ensures small { result < 2 ^ 32 }
{
    bits & !other
}

/// The lowest bits of a word.
fn low_bits(bits: u32, end: u8) -> u64
    requires { end ≤ 32 }
    ensures { result ≡ bits % 2 ^ end }
{
    u64::from(bits) & ((1u64 << end) - 1)
}

/// Whether the other word has each bit of this one.
fn is_within(bits: u32, other: u32) -> bool
    ensures { IsTrue result ↔ Within bits other }
{
    without_bits(bits, other) == 0
}

/// Whether a number is the member of this place, of which so many were seen before.
fn is_place(has: bool, seen: u8, index: u8) -> bool
    ensures { result ≡ (has && seen == index) }
{
    has && seen == index
}

/// A count after one number more.
fn counted(size: u8, has: bool) -> u8
    requires { size < 32 }
    ensures value { result ≡ size + (if has then 1 else 0) }
    ensures most { result ≤ size + 1 }
{
    if has { size + 1 } else { size }
}

impl NodeSet {
    /// The numbers whose bits are 1.
    pub fn of(bits: u32) -> NodeSet
        ensures { result ≡ bits }
    {
        NodeSet { bits }
    }

    /// The set without members.
    #[tactic(auto, unfolding(crate::specs::Members::has_node))]
    pub fn none() -> NodeSet
        ensures { (n : ℕ) → has_node result n ≡ false }
    {
        NodeSet { bits: 0 }
    }

    /// The bits of the members.
    pub fn bits(self) -> u32
        ensures value { result ≡ self }
        ensures small { self < 2 ^ 32 }
    {
        self.bits
    }

    /// Whether this number is a member; no number from 32 on is.
    pub fn has(self, node: u8) -> bool
        ensures { result ≡ has_node self node }
    {
        node < 32 && has_bit(self.bits, node)
    }

    /// The set with this number too.
    pub fn with(self, node: u8) -> NodeSet
        requires { node < 32 }
        ensures { (n : ℕ) → has_node result n ≡ (has_node self n || n == node) }
    {
        NodeSet {
            bits: self.bits | (1u32 << node),
        }
    }

    /// The set without this number.
    pub fn without(self, node: u8) -> NodeSet
        requires { node < 32 }
        ensures { (n : ℕ) → has_node result n ≡ (has_node self n && not (n == node)) }
    {
        NodeSet {
            bits: self.bits & !(1u32 << node),
        }
    }

    /// The members of either set.
    pub fn union(self, other: NodeSet) -> NodeSet
        ensures { (n : ℕ) → has_node result n ≡ (has_node self n || has_node other n) }
    {
        NodeSet {
            bits: self.bits | other.bits,
        }
    }

    /// The members of both sets.
    pub fn intersection(self, other: NodeSet) -> NodeSet
        ensures { (n : ℕ) → has_node result n ≡ (has_node self n && has_node other n) }
    {
        NodeSet {
            bits: self.bits & other.bits,
        }
    }

    /// The members that the other set doesn't have.
    pub fn difference(self, other: NodeSet) -> NodeSet
        ensures { (n : ℕ) → has_node result n ≡ (has_node self n && not (has_node other n)) }
    {
        NodeSet {
            bits: without_bits(self.bits, other.bits),
        }
    }

    /// Whether the other set has each member.
    pub fn is_within(self, other: NodeSet) -> bool
        ensures { IsTrue result ↔ Within self other }
    {
        is_within(self.bits, other.bits)
    }

    /// How many members there are, 0 to 32.
    pub fn len(self) -> u8
        ensures value { result ≡ size_of self }
        ensures most { result ≤ 32 }
    {
        self.len_below(32)
    }

    /// How many members are below a number.
    pub fn len_below(self, end: u8) -> u8
        requires { end ≤ 32 }
        ensures value { result ≡ size_below self end }
        ensures most { result ≤ end }
    {
        low_bits(self.bits, end).count_ones() as u8
    }

    /// The member of this place, from 0, in rising order.
    pub fn at(self, index: u8) -> u8
        requires { index < size_of self }
        ensures member { has_node self result ≡ true }
        ensures place { size_below self result ≡ index }
    {
        let mut seen = 0;
        let mut node = 0;
        loop {
            let has = self.has(node);
            if is_place(has, seen, index) {
                return node;
            }
            seen = counted(seen, has);
            node += 1;
        }
    }

    /// Whether there are at least so many members.
    pub fn has_at_least(self, count: u8) -> bool
        ensures { result ≡ nat_le count (size_of self) }
    {
        count <= self.len()
    }
}
