//! The cluster of all segments.

ghost use Rattle.std.specs.Prelude.{◌≡◌, IfSome};
ghost use Rattle.lane_lives.specs.Settings.{IsSetting};

use lane_lives::Setting;
use session_settings::read_choice;
use std::alloc::Global;

/// The words that choose it.
const WORDS: &[&str] = &[
    "feeder_tables",
    "--bits",
    "1",
    "--redundancy",
    "2",
    "--acks",
    "2",
    "--state",
    "version:1 distributor:1 storage:3",
];

/// These words as texts.
fn words(alloc: Global) -> Option<Vec<String>> {
    let mut words = Vec::new(alloc);
    for word in WORDS {
        words.push(String::from_str(alloc, word).ok()?).ok()?;
    }
    Some(words)
}

/// Two lanes of three nodes, of which two have each document.
pub fn two_lanes(alloc: Global) -> Option<Setting>
    ensures setting { IfSome result IsSetting }
    ensures two { IfSome result (λ setting. setting.bits ≡ 1) }
{
    let words = words(alloc)?;
    let Ok(choice) = read_choice(alloc, &words) else {
        return None;
    };
    if choice.setting.bits != 1 {
        return None;
    }
    Some(choice.setting)
}
