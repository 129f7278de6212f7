ghost use Rattle.std.specs.Prelude.{◌≡◌, ◌≤◌, ◌<◌, length, nat_lt, true, [], OnOk, OnErr};
ghost use Rattle.std.specs.List.{AllWithin};
ghost use Rattle.messages.specs.Waiting.{AreSentBefore, kept, IsTaken};
ghost use Rattle.messages.specs.Kept.{IsFalling};
ghost use Rattle.messages.specs.declared.late.Late.{Late};

use crate::Message;
use crate::late::Late;
use std::alloc::Global;
use std::marker::Model;
use value_lists::NoMemory;

/// The late messages that wait.
#[derive(Drop)]
pub struct LateList {
    /// The next one to fall due is the last.
    items: Vec<Late>,
}

impl Model for LateList {
    ghost use Rattle.messages.specs.Waiting.{Waiting, waiting_code};

    ghost Value = { Waiting };

    ghost coded = { waiting_code };

    ghost use Rattle.std.specs.Prelude.{reverse, nat_lt, vec_len, vec_capacity};
    ghost use Rattle.messages.specs.Kept.{IsFalling};

    ghost view = { λ l. record {
      late = reverse l.items.items;
      room = nat_lt (vec_len l.items) (vec_capacity l.items);
    } };

    ghost invariant = { λ l. IsFalling l.items.items };
}

/// Where those begin that fall due no later than this.
fn place_of(items: &[Late], due: u64) -> usize
    requires falling { IsFalling items.now }
    ensures within { result ≤ length items.now }
    ensures later { AllWithin (λ l. due < l.due) items.now 0 result }
    ensures due { AllWithin (λ l. l.due ≤ due) items.now result (length items.now) }
{
    items.partition_point(
        |late: &Late| -> bool
            ensures { result ≡ nat_lt due late.now.due }
        { due < late.due },
    )
}

impl LateList {
    /// Nothing waits.
    pub fn new(alloc: Global) -> LateList
        ensures { result.late ≡ [] }
    {
        LateList {
            items: Vec::new(alloc),
        }
    }

    /// How many messages wait.
    pub fn len(&self) -> usize
        ensures { result ≡ length self.now.late }
    {
        self.items.len()
    }

    /// Makes a place for one more.
    pub fn room(&mut self) -> Result<(), NoMemory>
        ensures same { self.new.late ≡ self.old.late }
        ensures room { OnOk result (self.new.room ≡ true) }
        ensures err { OnErr result (self.new ≡ self.old) }
    {
        self.items.reserve(1)?;
        Ok(())
    }

    /// Keeps a message, which was sent after all that wait.
    pub fn keep(&mut self, due: u64, number: u64, message: Message)
        requires room { self.old.room ≡ true }
        requires newest { AreSentBefore number self.old.late }
        ensures { self.new.late ≡ kept (record { due = due; number = number; message = message }) self.old.late }
    {
        let place = place_of(&self.items, due);
        let Ok(()) = self.items.insert(
            place,
            Late {
                due,
                number,
                message,
            },
        )
        else {
            unreachable!();
        };
    }

    /// Takes the first message that waits, if it is due by now.
    pub fn take_due(&mut self, now: u64) -> Option<Late>
        ensures taken { IsTaken now self.old.late result self.new.late }
        ensures room { self.old.room ≡ true → self.new.room ≡ true }
    {
        match self.items.last() {
            Some(late) if late.due <= now => self.items.pop(),
            _ => None,
        }
    }
}
