ghost use Rattle.std.specs.Prelude.{◌≡◌, ◌++◌, Ok, IfOk, IfErr, OnOk};
ghost use Rattle.std.specs.String.{string_bytes};
ghost use Rattle.text_scanners.specs.Refusals.{IsRefusedAt};
ghost use Rattle.cluster_states.specs.ClusterStates.{State};
ghost use Rattle.cluster_states.specs.StateTexts.{IsStateText, state_text, groups_text, mark_text, marks_text};

use crate::cluster_state::ClusterState;
use crate::marks::{Mark, Marks};
use crate::places::Role;
use crate::reader::StateReader;
use std::alloc::Global;
use text_scanners::scan;
use thiserror::Error;
use value_lists::NoMemory;

/// The text is no state text.
#[derive(Clone, Copy, Debug, PartialEq, Eq, Error)]
#[error("no state text from {offset} on")]
pub struct BadState {
    /// How many bytes the longest prefix has that can still become a state text.
    pub offset: u32,
}

impl ClusterState {
    /// The state that a text says: `version:` a number up to 4294967295, `distributor:` and `storage:`
    /// counts of 1 to 32, `groups:` a number of 2 to 8 or nothing for 1, then marks, each after one space:
    /// `distributor.i.s:d`, `storage.i.s:d` or `storage.i.s:r`, distributors first and numbers rising within
    /// a role.
    pub fn parse(text: &str) -> Result<ClusterState, BadState>
        ensures read { IfOk result (λ state. IsStateText text.now state) }
        ensures exact { (state : State) → IsStateText text.now state → result ≡ Ok state }
        ensures refused { IfErr result (λ bad. IsRefusedAt IsStateText text.now bad.offset) }
    {
        match scan(StateReader::start(), text.as_bytes()) {
            Ok(state) => Ok(state),
            Err(refused) => Err(BadState {
                offset: refused.offset as u32,
            }),
        }
    }

    /// The text of the state, which `parse` reads as this state.
    #[tactic(auto, unfolding(crate::specs::StateTexts::state_text))]
    pub fn print(&self, alloc: Global) -> Result<String, NoMemory>
        ensures { IfOk result (λ text. IsStateText (string_bytes text) self.now) }
    {
        let version = self.version();
        let (distributors, nodes) = (
            self.marks_of(Role::Distributor),
            self.marks_of(Role::Storage),
        );
        let (distributor_count, node_count) = (distributors.len(), nodes.len());
        let mut text = format!(in alloc;
            "version:{version} distributor:{distributor_count} storage:{node_count}"
        )?;
        push_groups(alloc, &mut text, self.groups())?;
        push_marks(alloc, &mut text, " distributor.", distributors)?;
        push_marks(alloc, &mut text, " storage.", nodes)?;
        Ok(text)
    }
}

/// Writes the number of groups behind a text, where it isn't 1.
fn push_groups(alloc: Global, text: &mut String, groups: u8) -> Result<(), NoMemory>
    ensures { OnOk result (string_bytes text.new ≡ string_bytes text.old ++ groups_text groups) }
{
    if groups != 1 {
        let written = format!(in alloc; " groups:{groups}")?;
        text.push_str(written.as_str())?;
    }
    Ok(())
}

/// Writes the marks of a role behind a text.
fn push_marks(alloc: Global, text: &mut String, role: &str, marks: Marks) -> Result<(), NoMemory>
    ensures { OnOk result (string_bytes text.new ≡ string_bytes text.old ++ marks_text role.now 0 marks) }
{
    for number in 0..marks.len() {
        push_mark(alloc, text, role, number, marks.at(number))?;
    }
    Ok(())
}

/// Writes the mark of a number behind a text, where it isn't up.
fn push_mark(
    alloc: Global,
    text: &mut String,
    role: &str,
    number: u8,
    mark: Mark,
) -> Result<(), NoMemory>
    ensures { OnOk result (string_bytes text.new ≡ string_bytes text.old ++ mark_text role.now number mark) }
{
    match mark {
        Mark::Up => {}
        Mark::Down => {
            let written = format!(in alloc; "{role}{number}.s:d")?;
            text.push_str(written.as_str())?;
        }
        Mark::Retired => {
            let written = format!(in alloc; "{role}{number}.s:r")?;
            text.push_str(written.as_str())?;
        }
    }
    Ok(())
}
