ghost use Rattle.std.specs.Prelude.{◌≡◌, ℕ, List, [], Some, bytes_eq, if◌then◌else◌, option_map, IfSome, OnOk, OnErr};
ghost use Rattle.std.specs.Option.{option_map_or};
ghost use Rattle.std.specs.HashMap.{get_by_text};
ghost use Rattle.local_ids.specs.Rising.{IsRising, with_local, without_local, moved_local};
ghost use Rattle.word_index.specs.Kept.{if_any};

use local_ids::{drop_local, move_local, put_local};
use std::alloc::Global;
use std::collections::HashMap;
use value_lists::NoMemory;

/// The ids at a word.
pub fn list_in<'a>(lists: &'a HashMap<String, Vec<u32>>, token: &str) -> &'a [u32]
    ensures { result.now ≡ option_map_or (λ v. v.items) (get_by_text lists.now token.now) [] }
{
    match lists.get(token) {
        Some(list) => list,
        None => &[],
    }
}

/// An id more at a word.
pub fn add_in(
    alloc: Global,
    lists: &mut HashMap<String, Vec<u32>>,
    token: &str,
    local: u32,
) -> Result<(), NoMemory>
    requires { IfSome (get_by_text lists.old token.now) (λ v. IsRising v.items) }
    ensures ok { OnOk result ((q : List ℕ) → option_map (λ v. v.items) (get_by_text lists.new q)
        ≡ (if bytes_eq token.now q
        then Some (with_local local (option_map_or (λ v. v.items) (get_by_text lists.old token.now) []))
        else option_map (λ v. v.items) (get_by_text lists.old q))) }
    ensures err { OnErr result ((q : List ℕ) → option_map (λ v. v.items) (get_by_text lists.new q)
        ≡ option_map (λ v. v.items) (get_by_text lists.old q)) }
{
    if let Some(list) = lists.get_mut(token) {
        return put_local(list, local);
    }
    let mut list = Vec::new(alloc);
    list.push(local)?;
    lists.insert(String::from_str(alloc, token)?, list)?;
    Ok(())
}

/// An id less at a word, whose list may then be empty.
pub fn drop_in(lists: &mut HashMap<String, Vec<u32>>, token: &str, local: u32)
    requires { IfSome (get_by_text lists.old token.now) (λ v. IsRising v.items) }
    ensures { (q : List ℕ) → option_map (λ v. v.items) (get_by_text lists.new q)
        ≡ (if bytes_eq token.now q
        then option_map (λ v. without_local local v.items) (get_by_text lists.old token.now)
        else option_map (λ v. v.items) (get_by_text lists.old q)) }
{
    if let Some(list) = lists.get_mut(token) {
        drop_local(list, local);
    }
}

/// Puts an id in the place of another at a word.
pub fn move_in(lists: &mut HashMap<String, Vec<u32>>, token: &str, from: u32, to: u32)
    requires { IfSome (get_by_text lists.old token.now) (λ v. IsRising v.items) }
    ensures { (q : List ℕ) → option_map (λ v. v.items) (get_by_text lists.new q)
        ≡ (if bytes_eq token.now q
        then option_map (λ v. moved_local from to v.items) (get_by_text lists.old token.now)
        else option_map (λ v. v.items) (get_by_text lists.old q)) }
{
    if let Some(list) = lists.get_mut(token) {
        move_local(list, from, to);
    }
}

/// Takes a word out whose list is empty.
pub fn tidy_in(lists: &mut HashMap<String, Vec<u32>>, token: &str)
    ensures { (q : List ℕ) → option_map (λ v. v.items) (get_by_text lists.new q)
        ≡ (if bytes_eq token.now q then if_any (option_map (λ v. v.items) (get_by_text lists.old token.now))
        else option_map (λ v. v.items) (get_by_text lists.old q)) }
{
    if list_in(lists, token).is_empty() {
        lists.remove(token);
    }
}
