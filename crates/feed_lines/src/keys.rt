ghost use Rattle.std.specs.Prelude.{◌≡◌};
ghost use Rattle.line_values.specs.View.{members_view};
ghost use Rattle.feed_lines.specs.Keys.{other_verb, verb_named, only_verb, stands_beside_fields, may_stand_with, may_stand, all_stand, is_net_key, are_net_keys, name_of};

use line_values::LineValue;

/// What is done with a document.
#[derive(Clone, Copy, PartialEq, Eq)]
pub enum Verb {
    Put,
    Update,
    Remove,
    Get,
}

/// What a line does.
#[derive(Clone, Copy, PartialEq, Eq)]
pub enum LineVerb {
    Feed(Verb),
    Search,
    State,
    Stop,
    Start,
    Net,
    Maintain,
    Barrier,
}

/// The verb that a key is, if it is one that asks for no document.
#[tactic(auto, unfolding(crate::specs::Keys::other_verb))]
fn other_verb(key: &str) -> Option<LineVerb>
    ensures { result ≡ other_verb key.now }
{
    if key == "search" {
        Some(LineVerb::Search)
    } else if key == "state" {
        Some(LineVerb::State)
    } else if key == "stop" {
        Some(LineVerb::Stop)
    } else if key == "start" {
        Some(LineVerb::Start)
    } else if key == "net" {
        Some(LineVerb::Net)
    } else if key == "maintain" {
        Some(LineVerb::Maintain)
    } else if key == "barrier" {
        Some(LineVerb::Barrier)
    } else {
        None
    }
}

/// The verb that a key is, if it is one.
#[tactic(auto, unfolding(crate::specs::Keys::verb_named))]
fn verb_named(key: &str) -> Option<LineVerb>
    ensures { result ≡ verb_named key.now }
{
    if key == "put" {
        Some(LineVerb::Feed(Verb::Put))
    } else if key == "update" {
        Some(LineVerb::Feed(Verb::Update))
    } else if key == "remove" {
        Some(LineVerb::Feed(Verb::Remove))
    } else if key == "get" {
        Some(LineVerb::Feed(Verb::Get))
    } else {
        other_verb(key)
    }
}

/// The one verb among the keys of an object that has exactly one.
pub fn only_verb(members: &[(&str, LineValue<'_>)]) -> Option<LineVerb>
    ensures { result ≡ only_verb (members_view members.now) }
{
    let mut found: Option<LineVerb> = None;
    for member in members {
        if let Some(verb) = verb_named(member.0) {
            if found.is_some() {
                return None;
            }
            found = Some(verb);
        }
    }
    found
}

/// The key of an operation's verb.
pub fn name_of(verb: Verb) -> &'static str
    ensures { result.now ≡ name_of verb }
{
    match verb {
        Verb::Put => "put",
        Verb::Update => "update",
        Verb::Remove => "remove",
        Verb::Get => "get",
    }
}

/// Whether a key may stand beside a put and an update.
fn stands_beside_fields(key: &str) -> bool
    ensures { result ≡ stands_beside_fields key.now }
{
    key == "fields" || key == "condition" || key == "create" || key == "via"
}

/// Whether a key may stand in the line of an operation.
#[tactic(auto, unfolding(crate::specs::Keys::may_stand_with))]
fn may_stand_with(verb: Verb, key: &str) -> bool
    ensures { result ≡ may_stand_with verb key.now }
{
    match verb {
        Verb::Put => key == "put" || stands_beside_fields(key),
        Verb::Update => key == "update" || stands_beside_fields(key),
        Verb::Remove => key == "remove" || key == "condition" || key == "via",
        Verb::Get => key == "get" || key == "via",
    }
}

/// Whether a key may stand in a line of a verb.
#[tactic(auto, unfolding(crate::specs::Keys::may_stand))]
fn may_stand(verb: LineVerb, key: &str) -> bool
    ensures { result ≡ may_stand verb key.now }
{
    match verb {
        LineVerb::Feed(verb) => may_stand_with(verb, key),
        LineVerb::Search => key == "search",
        LineVerb::State => key == "state" || key == "deaf",
        LineVerb::Stop => key == "stop",
        LineVerb::Start => key == "start",
        LineVerb::Net => key == "net",
        LineVerb::Maintain => key == "maintain",
        LineVerb::Barrier => key == "barrier",
    }
}

/// Whether all keys may stand in a line of a verb.
pub fn all_stand(verb: LineVerb, members: &[(&str, LineValue<'_>)]) -> bool
    ensures { result ≡ all_stand verb (members_view members.now) }
{
    for member in members {
        if !may_stand(verb, member.0) {
            return false;
        }
    }
    true
}

/// Whether a key may stand in the object of `net`.
#[tactic(auto, unfolding(crate::specs::Keys::is_net_key))]
fn is_net_key(key: &str) -> bool
    ensures { result ≡ is_net_key key.now }
{
    key == "lane" || key == "fates"
}

/// Whether all keys may stand in the object of `net`.
pub fn are_net_keys(members: &[(&str, LineValue<'_>)]) -> bool
    ensures { result ≡ are_net_keys (members_view members.now) }
{
    for member in members {
        if !is_net_key(member.0) {
            return false;
        }
    }
    true
}
