ghost use Rattle.std.specs.Prelude.{◌≡◌, ◌==◌, ◌≤◌, ◌<◌, ℕ, nat_lt, if◌then◌else◌, length, slice_index_or, slice_set, replicate};
ghost use Rattle.std.specs.List.{count_by};
ghost use Rattle.node_sets.specs.Members.{has_node};
ghost use Rattle.cluster_states.specs.MarkTests.{is_up, counts};
ghost use Rattle.cluster_states.specs.MarkWords.{is_retired, mark_of};
ghost use Rattle.cluster_states.specs.declared.marks.Mark.TheVariants.{Up, Down};

use node_sets::NodeSet;
use std::marker::Model;

/// How a state marks a number.
#[derive(Clone, Copy, Debug, PartialEq, Eq)]
pub enum Mark {
    Up,
    Down,
    /// It serves what it has and is given nothing.
    Retired,
}

impl Mark {
    /// Whether it is up.
    pub fn is_up(self) -> bool
        ensures { result ≡ is_up self }
    {
        match self {
            Mark::Up => true,
            Mark::Down | Mark::Retired => false,
        }
    }

    /// Whether it is retired.
    fn is_retired(self) -> bool
        ensures { result ≡ is_retired self }
    {
        match self {
            Mark::Retired => true,
            Mark::Up | Mark::Down => false,
        }
    }

    /// Whether it is up, or retired where those count.
    pub fn counts(self, retired: bool) -> bool
        ensures { result ≡ counts retired self }
    {
        match self {
            Mark::Up => true,
            Mark::Down => false,
            Mark::Retired => retired,
        }
    }
}

/// The mark of a number that is up or not, and retired or not.
fn mark_of(up: bool, retired: bool) -> Mark
    ensures { result ≡ mark_of up retired }
{
    if up {
        Mark::Up
    } else if retired {
        Mark::Retired
    } else {
        Mark::Down
    }
}

/// The word of the numbers below a count.
fn all_below(count: u8) -> u32
    requires { count ≤ 32 }
    ensures { (n : ℕ) → has_node result n ≡ nat_lt n count }
{
    ((1u64 << count) - 1) as u32
}

/// A word with or without a number.
fn put(bits: u32, node: u8, member: bool) -> u32
    requires { node < 32 }
    ensures { (n : ℕ) → has_node result n ≡ (if n == node then member else has_node bits n) }
{
    let nodes = NodeSet::of(bits);
    let changed = if member {
        nodes.with(node)
    } else {
        nodes.without(node)
    };
    changed.bits()
}

/// The marks of the numbers below a count of at most 32: a word of those that are up and one of those that
/// are retired, none in both. The bits from the count on are 0.
#[derive(Clone, Copy, Debug, PartialEq, Eq)]
pub struct Marks {
    up: u32,
    retired: u32,
    count: u8,
}

impl Model for Marks {
    ghost use Rattle.std.specs.Prelude.{List, length};
    ghost use Rattle.cluster_states.specs.MarkTests.{is_up};
    ghost use Rattle.cluster_states.specs.declared.marks.Mark.{Mark};
    ghost use Rattle.cluster_states.specs.MarkWords.{is_retired, listed, word, Marking, same_up, same_retired, same_count};

    ghost Value = { List Mark };

    ghost view = { λ m. listed m.up m.retired m.count };

    ghost invariant = { λ m. Marking m.up m.retired m.count };

    ghost inverse = { λ l. record { up = word is_up l; retired = word is_retired l; count = length l } };

    ghost inverse_ok = { λ m h i.
        record {
          up = same_up m.up m.retired m.count h i;
          retired = same_retired m.up m.retired m.count h i;
          count = same_count m.up m.retired m.count i;
        } };
}

impl Marks {
    /// All numbers below a count, up.
    pub fn all_up(count: u8) -> Marks
        requires { count ≤ 32 }
        ensures { result ≡ replicate count Up }
    {
        Marks {
            up: all_below(count),
            retired: 0,
            count,
        }
    }

    /// How many numbers there are, at most 32.
    pub fn len(self) -> u8
        ensures value { result ≡ length self }
        ensures most { length self ≤ 32 }
    {
        self.count
    }

    /// The mark of a number; from the count on it is down.
    pub fn at(self, number: u8) -> Mark
        ensures { result ≡ slice_index_or self number Down }
    {
        let up = NodeSet::of(self.up).has(number);
        let retired = NodeSet::of(self.retired).has(number);
        mark_of(up, retired)
    }

    /// The marks with another one for a number.
    pub fn with(self, number: u8, mark: Mark) -> Marks
        ensures { result ≡ slice_set self number mark }
    {
        if number >= self.count {
            return self;
        }
        Marks {
            up: put(self.up, number, mark.is_up()),
            retired: put(self.retired, number, mark.is_retired()),
            count: self.count,
        }
    }

    /// How many numbers are up.
    pub fn up(self) -> u8
        ensures value { result ≡ count_by is_up self }
        ensures most { result ≤ 32 }
    {
        NodeSet::of(self.up).len()
    }

    /// The numbers that are up, and where `retired` those that are retired.
    pub fn set(self, retired: bool) -> NodeSet
        ensures { (n : ℕ) → has_node result n ≡ counts retired (slice_index_or self n Down) }
    {
        let up = NodeSet::of(self.up);
        if retired {
            up.union(NodeSet::of(self.retired))
        } else {
            up
        }
    }
}
