ghost use Rattle.std.specs.Prelude.{◌≡◌, Some, IfOk, option_map, option_and_then, codes};
ghost use Rattle.serde_json.specs.Find.{get, as_str};
ghost use Rattle.line_values.specs.View.{view};
ghost use Rattle.feed_lines.specs.Keys.{all_stand, are_net_keys};
ghost use Rattle.feed_lines.specs.Tests.{members_of, verb_of, fields_of, has_wanted, net_of, net_members, in_net, has_net_keys, has_own_keys, has_right_keys, as_id, id_in};

use crate::keys::{LineVerb, Verb, all_stand, are_net_keys, name_of, only_verb};
use document_ids::{DocId, IdFault};
use line_values::LineValue;
use std::alloc::Global;
use value_lists::NoMemory;

/// The verb of a line that is an object with exactly one.
pub fn verb_of(line: &LineValue<'_>) -> Option<LineVerb>
    ensures { result ≡ verb_of (view line.now) }
{
    match line.as_object() {
        Some(members) => only_verb(members),
        None => None,
    }
}

/// Whether all keys of a line may stand beside its verb.
fn stands(verb: LineVerb, line: &LineValue<'_>) -> bool
    ensures { result ≡ all_stand verb (members_of (view line.now)) }
{
    match line.as_object() {
        Some(members) => all_stand(verb, members),
        None => true,
    }
}

/// Whether `fields` is there, if the verb wants it.
fn has_wanted(verb: Verb, line: &LineValue<'_>) -> bool
    ensures { result ≡ has_wanted verb (fields_of (view line.now)) }
{
    match verb {
        Verb::Put => line.get("fields").is_some(),
        Verb::Update => line.get("fields").is_some(),
        Verb::Remove | Verb::Get => true,
    }
}

/// Whether all keys of the object of `net` are its own.
fn is_net(net: Option<&LineValue<'_>>) -> bool
    ensures { result ≡ are_net_keys (net_members (option_map (λ v. view v.now) net.entry)) }
{
    let Some(net) = net else {
        return true;
    };
    match net.as_object() {
        Some(members) => are_net_keys(members),
        None => true,
    }
}

/// What the object of `net` has under a key.
pub fn in_net<'v, 'a>(key: &str, net: Option<&'v LineValue<'a>>) -> Option<&'v LineValue<'a>>
    ensures { option_map (λ v. view v.now) result ≡ in_net key.now (option_map (λ v. view v.now) net.entry) }
{
    net?.get(key)
}

/// Whether the object of `net` has `lane`, `fates` and nothing else.
fn has_net_keys(net: Option<&LineValue<'_>>) -> bool
    ensures { result ≡ has_net_keys (option_map (λ v. view v.now) net.entry) }
{
    is_net(net) && in_net("lane", net).is_some() && in_net("fates", net).is_some()
}

/// Whether the keys that a verb wants are there.
fn has_own_keys(verb: LineVerb, line: &LineValue<'_>) -> bool
    ensures { result ≡ has_own_keys verb (view line.now) }
{
    match verb {
        LineVerb::Feed(verb) => has_wanted(verb, line),
        LineVerb::Net => has_net_keys(line.get("net")),
        LineVerb::Search
        | LineVerb::State
        | LineVerb::Stop
        | LineVerb::Start
        | LineVerb::Maintain
        | LineVerb::Barrier => true,
    }
}

/// Whether a line has no key but the verb's own, and those that are wanted.
pub fn has_right_keys(verb: LineVerb, line: &LineValue<'_>) -> bool
    ensures { result ≡ has_right_keys verb (view line.now) }
{
    stands(verb, line) && has_own_keys(verb, line)
}

/// The document id that a text is.
fn parsed(alloc: Global, text: &str) -> Result<Option<DocId>, NoMemory>
    ensures { IfOk result (λ id. id ≡ as_id (Some text.now)) }
{
    match DocId::parse(alloc, text) {
        Ok(id) => Ok(Some(id)),
        Err(IdFault::NoMemory) => Err(NoMemory),
        Err(_) => Ok(None),
    }
}

/// The text of a member.
pub fn text_at<'a>(key: &str, line: &LineValue<'a>) -> Option<&'a str>
    ensures { option_map (λ text. text.now) result ≡ option_and_then as_str (get key.now (view line.now)) }
{
    line.get(key)?.as_str()
}

/// The document id that the verb's value is.
#[tactic(auto, unfolding(crate::specs::Tests::id_in))]
pub fn id_in(alloc: Global, verb: Verb, line: &LineValue<'_>) -> Result<Option<DocId>, NoMemory>
    ensures { IfOk result (λ id. id ≡ id_in verb (view line.now)) }
{
    match text_at(name_of(verb), line) {
        Some(text) => parsed(alloc, text),
        None => Ok(None),
    }
}
