ghost use Rattle.std.specs.Prelude.{◌≡◌, ◌≢◌, ◌↔◌, ◌⊎◌, ℕ, ◌+◌, ◌-◌, ◌*◌, ◌/◌, ◌%◌, ◌^◌, ◌<◌, ◌≤◌, IsTrue, IfOk, OnErr, nat_lt, if◌then◌else◌, Ok};
ghost use Rattle.std.specs.String.{string_bytes};
ghost use Rattle.bucket_ids.specs.Buckets.{Low, IsBucket, IsIn, has_key, Includes, covers, measure, first_child, second_child, parent_of, sibling_of};
ghost use Rattle.bucket_ids.specs.Paths.{first_path, last_path};
ghost use Rattle.bucket_ids.specs.Printed.{printed, number_of};

use crate::paths::path_of;
use crate::printed::{bucket_number, print_number};
use std::alloc::Global;
use std::marker::Model;
use thiserror::Error;
use value_lists::{NoMemory, TryCopy};

/// A bucket of 1 to 58 bits.
#[derive(Clone, Copy, Debug, PartialEq, Eq)]
pub struct Bucket {
    bits: u8,
    low: u64,
}

impl Model for Bucket {
    ghost use Rattle.bucket_ids.specs.Buckets.{Low, IsBucket};

    ghost Value = { Low };

    ghost view = { λ b. record { bits = b.bits; low = b.low } };

    ghost invariant = { λ b. IsBucket (record { bits = b.bits; low = b.low }) };

    ghost inverse = { λ b. record { bits = b.bits; low = b.low } };
}

/// The text is not the 16 lower-case hexadecimal digits of a bucket's number.
#[derive(Clone, Copy, Debug, PartialEq, Eq, Error)]
#[error("not a bucket")]
pub struct BadBucket;

/// The remainder of `key` by 2^bits.
#[inline]
fn low_bits(key: u64, bits: u8) -> u64
    requires { bits < 64 }
    ensures { result ≡ key % 2 ^ bits }
{
    key & ((1u64 << bits) - 1)
}

/// The number that differs from `low` in the bit `half` alone.
#[inline]
fn other_half(low: u64, half: u64) -> u64
    requires { low + half < 2 ^ 64 }
    ensures { result ≡ if nat_lt low half then low + half else low - half }
{
    if low < half { low + half } else { low - half }
}

impl Bucket {
    /// The bucket of these low bits.
    pub fn new(bits: u8, low: u64) -> Bucket
        requires some { 1 ≤ bits }
        requires most { bits ≤ 58 }
        requires fits { low < 2 ^ bits }
        ensures bits { result.bits ≡ bits }
        ensures low { result.low ≡ low }
    {
        Bucket { bits, low }
    }

    /// How many low bits the keys share, 1 to 58.
    pub fn bits(self) -> u8
        ensures value { result ≡ self.bits }
        ensures valid { IsBucket self }
    {
        self.bits
    }

    /// The low bits of each key.
    pub fn low(self) -> u64
        ensures value { result ≡ self.low }
        ensures valid { IsBucket self }
    {
        self.low
    }

    /// Whether this key lies in the bucket; no number of 2^58 or more does.
    pub fn contains(self, key: u64) -> bool
        ensures set { IsTrue result ↔ IsIn self key }
        ensures test { key < 2 ^ 58 → result ≡ has_key self key }
    {
        key < 1 << 58 && low_bits(key, self.bits) == self.low
    }

    /// Whether each key of `other` lies in this bucket.
    pub fn covers(self, other: Bucket) -> bool
        ensures set { IsTrue result ↔ Includes self other }
        ensures test { result ≡ covers self other }
    {
        self.covers_by_bits(other)
    }

    /// The test of `covers`.
    fn covers_by_bits(self, other: Bucket) -> bool
        ensures test { result ≡ covers self other }
        ensures valid { IsBucket self }
        ensures other_valid { IsBucket other }
    {
        self.bits <= other.bits && low_bits(other.low, self.bits) == self.low
    }

    /// How many keys the bucket has: 2^(58 - bits).
    pub fn measure(self) -> u64
        ensures { result ≡ measure self }
    {
        1u64 << (58 - self.bits)
    }

    /// The two buckets of one bit more whose keys are together this bucket's, the one with a 0 in
    /// that bit first.
    pub fn children(self) -> (Bucket, Bucket)
        requires { self.bits < 58 }
        ensures first { result.0 ≡ first_child self }
        ensures second { result.1 ≡ second_child self }
        ensures parts { (key : ℕ)
            → IsIn self key ↔ (IsIn (first_child self) key ⊎ IsIn (second_child self) key) }
        ensures apart { (key : ℕ) → IsIn (first_child self) key → IsIn (second_child self) key → ⊥ }
    {
        let bits = self.bits + 1;
        let half = 1u64 << self.bits;
        let first = Bucket {
            bits,
            low: self.low,
        };
        let second = Bucket {
            bits,
            low: self.low + half,
        };
        (first, second)
    }

    /// The bucket of one bit less that has this one as a child.
    pub fn parent(self) -> Bucket
        requires { 1 < self.bits }
        ensures value { result ≡ parent_of self }
        ensures set { Includes result self }
    {
        let bits = self.bits - 1;
        Bucket {
            bits,
            low: low_bits(self.low, bits),
        }
    }

    /// The other child of the parent.
    pub fn sibling(self) -> Bucket
        requires { 1 < self.bits }
        ensures value { result ≡ sibling_of self }
        ensures apart { (key : ℕ) → IsIn self key → IsIn result key → ⊥ }
        ensures parts { (key : ℕ) → IsIn (parent_of self) key ↔ (IsIn self key ⊎ IsIn result key) }
    {
        let half = 1u64 << (self.bits - 1);
        Bucket {
            bits: self.bits,
            low: other_half(self.low, half),
        }
    }

    /// The first and the last number of the bucket's run in the order of paths.
    pub fn run(self) -> (u64, u64)
        ensures first { result.0 ≡ first_path self }
        ensures last { result.1 ≡ last_path self }
        ensures valid { IsBucket self }
    {
        let first = path_of(self.low);
        (first, first + (u64::MAX >> self.bits))
    }

    /// The bucket's number, `bits * 2^58 + low`, in 16 lower-case hexadecimal digits.
    pub fn print(self, alloc: Global) -> Result<String, NoMemory>
        ensures { IfOk result (λ text. string_bytes text ≡ printed self) }
    {
        print_number(alloc, u64::from(self.bits) * (1 << 58) + self.low)
    }

    /// The bucket of this number.
    fn of_number(number: u64) -> Result<Bucket, BadBucket>
        ensures read { IfOk result (λ b. IsBucket b × (b.bits ≡ number / 2 ^ 58) × (b.low ≡ number % 2 ^ 58)) }
        ensures refused { OnErr result
            (IsBucket (record { bits = number / 2 ^ 58; low = number % 2 ^ 58 }) → ⊥) }
    {
        let bits = (number / (1 << 58)) as u8;
        let low = number % (1 << 58);
        if bits == 0 {
            return Err(BadBucket);
        }
        if bits > 58 {
            return Err(BadBucket);
        }
        if low >= 1u64 << bits {
            return Err(BadBucket);
        }
        Ok(Bucket { bits, low })
    }

    /// The bucket that this text is printed of.
    pub fn parse(text: &str) -> Result<Bucket, BadBucket>
        ensures read { IfOk result (λ b. IsBucket b × (text.now ≡ printed b)) }
        ensures exact { (b : Low) → IsBucket b → text.now ≡ printed b → result ≡ Ok b }
        ensures refused { OnErr result ((b : Low) → IsBucket b → text.now ≢ printed b) }
    {
        match bucket_number(text.as_bytes()) {
            Some(number) => Bucket::of_number(number),
            None => Err(BadBucket),
        }
    }
}

impl TryCopy for Bucket {
    fn copy(&self, _alloc: Global) -> Result<Bucket, NoMemory> {
        Ok(*self)
    }
}
