//! The lines of a segment, by lane and by feeder.

ghost use Rattle.std.specs.Prelude.{◌≡◌, ◌+◌, ◌<◌, ◌≤◌, length, IfOk, IfSome, OnOk};
ghost use Rattle.lane_lives.specs.Settings.{IsSetting};
ghost use Rattle.op_machine.specs.Plans.{IsOwn, IsPlainGet};
ghost use Rattle.lane_locks.specs.Lines.{IsAbove};
ghost use Rattle.feeder_tables.specs.Lines.{AreOf};

use global_ids::{key_of, lane_of};
use lane_lives::Setting;
use lane_locks::{LineList, feeder_of_key};
use line_feeders::{Errand, Feeder};
use line_values::ValueReader;
use messages::{Operation, SharedOperation};
use session_cluster::Asked;
use session_cluster::asked::asked_of;
use std::alloc::Global;
use value_lists::NoMemory;

/// How many lines are read at most.
const MOST_LINES: u32 = 50_000;

/// The operation that a line asks for, if it asks for one.
fn operation_of(
    alloc: Global,
    values: &mut ValueReader,
    setting: &Setting,
    line: &str,
) -> Result<Option<Operation>, NoMemory>
    requires { IsSetting setting.now }
    ensures { IfOk result (λ found. IfSome found (λ operation. IsOwn operation.id operation.kind × IsPlainGet operation)) }
{
    match asked_of(
        alloc,
        values,
        &setting.schema,
        setting.bits,
        line.as_bytes(),
    )? {
        Asked::Feed { operation, .. } => Ok(Some(operation)),
        _ => Ok(None),
    }
}

/// Adds the line of an operation, where it is of the lane.
fn add(
    alloc: Global,
    setting: &Setting,
    lane: u8,
    list: &mut LineList,
    number: u32,
    operation: Operation,
) -> Result<(), NoMemory>
    requires setting { IsSetting setting.now }
    requires number { 1 ≤ number }
    requires above { IsAbove list.old.lines number }
    requires own { IsOwn operation.id operation.kind }
    requires plain { IsPlainGet operation }
    requires of_lane { AreOf setting.now.bits lane list.old.lines }
    ensures feeders { OnOk result (list.new.feeders ≡ list.old.feeders) }
    ensures above { OnOk result (IsAbove list.new.lines (number + 1)) }
    ensures of_lane { OnOk result (AreOf setting.now.bits lane list.new.lines) }
{
    let key = key_of(&operation.id);
    if lane_of(key, setting.bits) != lane {
        return Ok(());
    }
    list.push(number, key, SharedOperation::new(alloc, operation)?, None)
}

/// Those of the lines that are of a lane.
pub fn list_of(
    alloc: Global,
    setting: &Setting,
    lane: u8,
    feeders: u8,
    lines: &str,
) -> Result<LineList, NoMemory>
    requires setting { IsSetting setting.now }
    requires some { 0 < feeders }
    ensures feeders { IfOk result (λ list. list.feeders ≡ feeders) }
    ensures of_lane { IfOk result (λ list. AreOf setting.now.bits lane list.lines) }
{
    let mut values = ValueReader::new(alloc);
    let mut list = LineList::new(alloc, feeders)?;
    let mut number = 0u32;
    for line in lines.lines() {
        if number == MOST_LINES {
            break;
        }
        number += 1;
        if let Some(operation) = operation_of(alloc, &mut values, setting, line)? {
            add(alloc, setting, lane, &mut list, number, operation)?;
        }
    }
    Ok(list)
}

/// The errands of a feeder, in the order of the lines.
fn errands_of(
    alloc: Global,
    setting: &Setting,
    feeder: usize,
    feeders: u8,
    lines: &str,
) -> Result<Feeder, NoMemory>
    requires setting { IsSetting setting.now }
    requires some { 0 < feeders }
{
    let mut values = ValueReader::new(alloc);
    let mut errands = Vec::new(alloc);
    let mut places = [0usize; 64];
    let mut number = 0u32;
    for text in lines.lines() {
        if number == MOST_LINES {
            break;
        }
        number += 1;
        if let Some(operation) = operation_of(alloc, &mut values, setting, text)? {
            let key = key_of(&operation.id);
            let lock = lane_of(key, setting.bits);
            let place = places[usize::from(lock % 64)];
            places[usize::from(lock % 64)] = place.saturating_add(1);
            if feeder_of_key(key, feeders) == feeder {
                errands.push(Errand {
                    line: number,
                    lock,
                    place,
                })?;
            }
        }
    }
    Ok(Feeder { errands, done: 0 })
}

/// So many feeders, with their errands.
pub fn feeders_of(
    alloc: Global,
    setting: &Setting,
    feeders: u8,
    lines: &str,
) -> Result<Vec<Feeder>, NoMemory>
    requires setting { IsSetting setting.now }
    requires some { 0 < feeders }
    ensures { IfOk result (λ made. length made.items ≡ feeders) }
{
    let mut made = Vec::new(alloc);
    for feeder in 0..feeders {
        made.push(errands_of(alloc, setting, usize::from(feeder), feeders, lines)?)?;
    }
    Ok(made)
}
