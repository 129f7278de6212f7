ghost use Rattle.std.specs.Prelude.{◌≡◌, ◌≢◌, ◌+◌, ◌-◌, ◌^◌, ◌<◌, ℕ, ◌||◌, ◌&&◌, not, Bool, true, false, filter, IfOk, OnOk, OnErr, Err};
ghost use Rattle.std.specs.List.{list_any};
ghost use Rattle.bucket_ids.specs.Buckets.{IsBucket, has_key};
ghost use Rattle.pieces.specs.Pieces.{holds, does_meet, is_exactly, has_key_of, renewed};
ghost use Rattle.pieces.specs.Runs.{IsLaid};
ghost use Rattle.pieces.specs.Told.{IsAnsweredAs, split_told, join_told, ready_told, activate_told, delete_told, unless_met, fault_of, IsSurelyTold};
ghost use Rattle.pieces.specs.Holdings.{IsHolding, no_pieces, after_store, after_apply, after_split, after_join, after_ready, after_activate, after_delete};
ghost use Rattle.pieces.specs.declared.fault.StoreFault.TheVariants as fault;

use crate::Piece;
use crate::changes::{join_pieces, make_piece, split_pieces};
use crate::fault::StoreFault;
use crate::laws::runs_are_known;
use crate::places::{has_key, is_met, key_bucket, place_of, place_over, run_inside, run_of};
use bucket_ids::Bucket;
use std::alloc::Global;
use std::marker::Model;
use value_lists::{NoMemory, copy_all};

/// The pieces of a node, in the order of their runs, and the last serial that was drawn.
#[derive(Drop)]
pub struct LaidPieces {
    pieces: Vec<Piece>,
    serial: u64,
}

impl Model for LaidPieces {
    ghost use Rattle.pieces.specs.Holdings.{Holding, holding_code, IsHolding};

    ghost Value = { Holding };

    ghost coded = { holding_code };

    ghost view = { λ h. record { pieces = h.pieces.items; serial = h.serial } };

    ghost invariant = { λ h. IsHolding (record { pieces = h.pieces.items; serial = h.serial }) };
}

impl LaidPieces {
    /// No piece, and no serial drawn.
    pub fn new(alloc: Global) -> LaidPieces
        ensures { result ≡ no_pieces }
    {
        LaidPieces {
            pieces: Vec::new(alloc),
            serial: 0,
        }
    }

    /// The pieces, in the order of their runs.
    pub fn items(&self) -> &[Piece]
        ensures items { result.now ≡ self.now.pieces }
        ensures valid { IsHolding self.now }
    {
        &self.pieces
    }

    /// The last serial that was drawn, 0 before the first.
    pub fn last_serial(&self) -> u64
        ensures value { result ≡ self.now.serial }
        ensures valid { IsHolding self.now }
    {
        self.serial
    }

    /// Whether a piece has a key.
    pub fn has_key(&self, key: u64) -> bool
        requires { key < 2 ^ 58 }
        ensures { result ≡ holds key self.now.pieces }
    {
        has_key(&self.pieces, key)
    }

    /// Whether a bucket is a piece.
    pub fn has_piece(&self, bucket: Bucket) -> bool
        ensures { result ≡ list_any (is_exactly bucket) self.now.pieces }
    {
        match place_of(&self.pieces, bucket) {
            Some(_) => true,
            None => false,
        }
    }

    /// The pieces that meet a bucket.
    pub fn meeting(&self, alloc: Global, bucket: Bucket) -> Result<Vec<Piece>, NoMemory>
        ensures { IfOk result (λ met. met.items ≡ filter (does_meet bucket) self.now.pieces) }
    {
        let (from, to) = run_of(&self.pieces, bucket);
        copy_all(alloc, &self.pieces[from..to])
    }

    /// Draws a serial for the piece with a key.
    pub fn renew(&mut self, key: u64)
        requires small { key < 2 ^ 58 }
        requires room { self.old.serial < 2 ^ 64 - 1 }
        ensures renewed { self.new ≡ after_store key self.old }
        ensures keys { (other : ℕ) → holds other self.new.pieces ≡ holds other self.old.pieces }
    {
        runs_are_known();
        self.serial += 1;
        renew_key(&mut self.pieces, key, self.serial);
    }

    /// Draws a serial for a bucket that is a piece already, as where it is made one.
    pub fn renew_piece(&mut self, bucket: Bucket)
        requires piece { list_any (is_exactly bucket) self.old.pieces ≡ true }
        requires room { self.old.serial < 2 ^ 64 - 1 }
        ensures made { self.new ≡ after_apply bucket self.old }
        ensures keys { (key : ℕ) → key < 2 ^ 58
            → holds key self.new.pieces ≡ has_key bucket key || holds key self.old.pieces }
    {
        runs_are_known();
        let Some(place) = place_of(&self.pieces, bucket) else {
            unreachable!()
        };
        self.serial += 1;
        self.pieces[place].serial = self.serial;
    }

    /// The pieces after a bucket is made one of them.
    pub fn made(&self, alloc: Global, bucket: Bucket) -> Result<LaidPieces, NoMemory>
        requires { self.now.serial < 2 ^ 64 - 1 }
        ensures made { IfOk result (λ made. made ≡ after_apply bucket self.now) }
        ensures keys { IfOk result (λ made. (key : ℕ) → key < 2 ^ 58
            → holds key made.pieces ≡ has_key bucket key || holds key self.now.pieces) }
    {
        runs_are_known();
        let serial = self.serial + 1;
        let mut pieces = copy_all(alloc, &self.pieces)?;
        make_piece(alloc, &mut pieces, bucket, serial)?;
        Ok(LaidPieces { pieces, serial })
    }

    /// Splits the piece that covers a bucket until the bucket is a piece.
    pub fn split(&mut self, alloc: Global, bucket: Bucket) -> Result<(), StoreFault>
        requires { self.old.serial < 2 ^ 64 - 1 }
        ensures ok { OnOk result (self.new ≡ after_split bucket self.old) }
        ensures err { OnErr result (self.new ≡ self.old) }
        ensures told { IsAnsweredAs (split_told bucket self.old.pieces) result }
        ensures keys { OnOk result ((key : ℕ) → key < 2 ^ 58
            → holds key self.new.pieces ≡ holds key self.old.pieces) }
    {
        runs_are_known();
        let Some(at) = place_over(&self.pieces, bucket) else {
            return Err(StoreFault::NoBucket);
        };
        let serial = self.serial + 1;
        let Ok(()) = split_pieces(alloc, &mut self.pieces, at, bucket, serial) else {
            return Err(StoreFault::NoMemory);
        };
        self.serial = serial;
        Ok(())
    }

    /// Makes the pieces inside a bucket one.
    pub fn join(&mut self, alloc: Global, bucket: Bucket) -> Result<(), StoreFault>
        requires { self.old.serial < 2 ^ 64 - 1 }
        ensures ok { OnOk result (self.new ≡ after_join bucket self.old) }
        ensures err { OnErr result (self.new ≡ self.old) }
        ensures told { IsAnsweredAs (join_told bucket self.old.pieces) result }
        ensures keys { OnOk result ((key : ℕ) → key < 2 ^ 58
            → holds key self.new.pieces ≡ has_key bucket key || holds key self.old.pieces) }
    {
        runs_are_known();
        let Some((from, to)) = run_inside(&self.pieces, bucket) else {
            return Err(StoreFault::NoBucket);
        };
        let serial = self.serial + 1;
        let Ok(()) = join_pieces(alloc, &mut self.pieces, from, to, bucket, serial) else {
            return Err(StoreFault::NoMemory);
        };
        self.serial = serial;
        Ok(())
    }

    /// What is answered where no piece is the bucket.
    fn unless_met(&self, bucket: Bucket) -> StoreFault
        ensures { result ≡ fault_of (unless_met bucket self.now.pieces) }
    {
        if is_met(&self.pieces, bucket) {
            StoreFault::Differs
        } else {
            StoreFault::NoBucket
        }
    }

    /// Makes the piece that is a bucket ready.
    pub fn ready(&mut self, bucket: Bucket) -> Result<(), StoreFault>
        requires { self.old.serial < 2 ^ 64 - 1 }
        ensures ok { OnOk result (self.new ≡ after_ready bucket self.old) }
        ensures err { OnErr result (self.new ≡ self.old) }
        ensures told { IsSurelyTold (ready_told bucket self.old.pieces) result }
        ensures keys { OnOk result ((key : ℕ) → holds key self.new.pieces ≡ holds key self.old.pieces) }
    {
        runs_are_known();
        let Some(at) = place_of(&self.pieces, bucket) else {
            return Err(self.unless_met(bucket));
        };
        self.serial += 1;
        self.pieces[at] = Piece {
            bucket,
            serial: self.serial,
            ready: true,
        };
        Ok(())
    }

    /// Whether a bucket may become an active region: a ready piece covers it.
    pub fn may_activate(&self, bucket: Bucket) -> Result<(), StoreFault>
        ensures { IsSurelyTold (activate_told bucket self.now.pieces) result }
    {
        let Some(at) = place_over(&self.pieces, bucket) else {
            return Err(StoreFault::NoBucket);
        };
        if self.pieces[at].ready {
            Ok(())
        } else {
            Err(StoreFault::Differs)
        }
    }

    /// Draws a serial for the piece that covers a bucket, which must be ready.
    pub fn activate(&mut self, bucket: Bucket) -> Result<(), StoreFault>
        requires { self.old.serial < 2 ^ 64 - 1 }
        ensures ok { OnOk result (self.new ≡ after_activate bucket self.old) }
        ensures err { OnErr result (self.new ≡ self.old) }
        ensures told { IsSurelyTold (activate_told bucket self.old.pieces) result }
        ensures keys { OnOk result ((key : ℕ) → holds key self.new.pieces ≡ holds key self.old.pieces) }
    {
        runs_are_known();
        let Some(at) = place_over(&self.pieces, bucket) else {
            return Err(StoreFault::NoBucket);
        };
        if !self.pieces[at].ready {
            return Err(StoreFault::Differs);
        }
        self.serial += 1;
        self.pieces[at].serial = self.serial;
        Ok(())
    }

    /// Takes out the piece that is a bucket with this serial.
    pub fn delete(&mut self, bucket: Bucket, serial: u64) -> Result<(), StoreFault>
        ensures ok { OnOk result (self.new ≡ after_delete bucket self.old) }
        ensures err { OnErr result (self.new ≡ self.old) }
        ensures told { IsSurelyTold (delete_told bucket serial self.old.pieces) result }
        ensures keys { OnOk result ((key : ℕ) → key < 2 ^ 58
            → holds key self.new.pieces ≡ (not (has_key bucket key) && holds key self.old.pieces)) }
    {
        runs_are_known();
        let Some(at) = place_of(&self.pieces, bucket) else {
            return Err(self.unless_met(bucket));
        };
        if self.pieces[at].serial != serial {
            return Err(StoreFault::Differs);
        }
        self.pieces.remove(at);
        Ok(())
    }
}

/// Gives the piece with a key a serial.
fn renew_key(pieces: &mut Vec<Piece>, key: u64, serial: u64)
    requires laid { IsLaid 0 pieces.old.items }
    requires small { key < 2 ^ 58 }
    ensures { pieces.new.items ≡ renewed (has_key_of key) serial pieces.old.items }
{
    runs_are_known();
    let Some(at) = place_over(pieces, key_bucket(key)) else {
        return;
    };
    pieces[at].serial = serial;
}
