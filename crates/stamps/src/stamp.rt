ghost use Rattle.std.specs.Prelude.{◌≡◌, ◌≢◌, ℕ, ◌+◌, ◌-◌, ◌^◌, ◌<◌, ◌↔◌, nat_lt, slice_index_or, IfOk, IsTrue, MatchOption};
ghost use Rattle.std.specs.Fmt.{decimal};
ghost use Rattle.std.specs.String.{string_bytes};
ghost use Rattle.stamps.specs.Order.{is_before, IsBefore};
ghost use Rattle.stamps.specs.Printed.{printed, IsStamp};

use std::alloc::Global;
use value_lists::{NoMemory, TryCopy};

/// What a distributor gives each write: the version of the cluster state that it holds, and how
/// many stamps it has given under that version, this one counted. Stamps have one order, by version
/// and then by count: that of `is_before` and that of `<` and `cmp` are the same.
#[derive(Clone, Copy, Debug, PartialEq, Eq, PartialOrd, Ord)]
pub struct Stamp {
    pub version: u32,
    pub count: u64,
}

impl Stamp {
    /// The next stamp of the same version.
    pub fn next(self) -> Stamp
        requires { self.count < 2 ^ 64 - 1 }
        ensures version { result.version ≡ self.version }
        ensures count { result.count ≡ self.count + 1 }
        ensures later { IsBefore self result }
    {
        Stamp {
            version: self.version,
            count: self.count + 1,
        }
    }

    /// Whether this stamp is the smaller: by version, and for equal versions by count.
    pub fn is_before(self, other: Stamp) -> bool
        ensures set { IsTrue result ↔ IsBefore self other }
        ensures test { result ≡ is_before self other }
    {
        if self.version == other.version {
            self.count < other.count
        } else {
            self.version < other.version
        }
    }

    /// The stamp as `version:count`, both in decimal.
    #[tactic(auto, unfolding(crate::specs::Printed::printed))]
    pub fn print(self, alloc: Global) -> Result<String, NoMemory>
        ensures { IfOk result (λ text. string_bytes text ≡ printed self) }
    {
        let version = self.version;
        let count = self.count;
        Ok(format!(in alloc; "{version}:{count}")?)
    }

    /// The stamp that this text is printed of.
    pub fn parse(text: &str) -> Option<Stamp>
        ensures { MatchOption result ((s : Stamp) → IsStamp s → text.now ≢ printed s)
            (λ s. (text.now ≡ printed s) × IsStamp s) }
    {
        let Some((version, count)) = text.split_once(':') else {
            return None;
        };
        let Some(version) = plain_number(version) else {
            return None;
        };
        let Some(count) = plain_number(count) else {
            return None;
        };
        let Ok(version) = u32::try_from(version) else {
            return None;
        };
        Some(Stamp { version, count })
    }
}

/// Whether these bytes begin with a digit that is no zero, or with a byte behind those.
fn begins_past_zero(bytes: &[u8]) -> bool
    ensures { result ≡ nat_lt 48 (slice_index_or bytes.now 0 0) }
{
    match bytes {
        [first, ..] => *first > b'0',
        [] => false,
    }
}

/// The number of a plain decimal: without a sign, and without a zero in front of other digits.
fn plain_number(text: &str) -> Option<u64>
    ensures { MatchOption result ((n : ℕ) → n < 2 ^ 64 → text.now ≢ decimal n)
        (λ n. (text.now ≡ decimal n) × (n < 2 ^ 64)) }
{
    if text == "0" {
        return Some(0);
    }
    if begins_past_zero(text.as_bytes()) {
        text.parse().ok()
    } else {
        None
    }
}

impl TryCopy for Stamp {
    fn copy(&self, _alloc: Global) -> Result<Stamp, NoMemory> {
        Ok(*self)
    }
}
