ghost use Rattle.std.specs.Prelude.{◌≡◌, ◌≢◌, IfOk, IfErr, IfSome, IfNone, map};
ghost use Rattle.std.specs.String.{string_bytes};
ghost use Rattle.cluster_states.specs.ClusterStates.{State};
ghost use Rattle.session_settings.specs.Choices.{is_built, rules_of, CanBegin, SaysSchema, Chooses, AreWrong};
ghost use Rattle.session_settings.specs.Choices.{ChoosesAlone, ChoosesFed, AreWrongAlone, AreWrongFed};

use cluster_states::{ClusterState, States};
use distributor_part::Rules;
use json_documents::{SchemaFault, schema_from_json};
use lane_lives::setting::Setting;
use std::alloc::Global;
use words_line::{Options, WordsFault, read_words};

/// What the words choose.
#[derive(Drop)]
pub struct Choice {
    /// How many feeders run the lines; where it is 0, each line is run behind the one before.
    pub feeders: u8,
    /// What the session is set to, its schema with it.
    pub setting: Setting,
}

/// What the words choose, of which the first is the program's name. An option that isn't built yet
/// must stand at its default.
pub fn read_choice(alloc: Global, words: &[String]) -> Result<Choice, WordsFault>
    ensures chosen { IfOk result (λ choice. Chooses (map string_bytes words.now) choice) }
    ensures usage { (result ≡ Err WordsFault.Usage) → AreWrong (map string_bytes words.now) }
{
    let options = match read_words(alloc, words) {
        Ok(options) => options,
        Err(WordsFault::Usage) => return Err(WordsFault::Usage),
        Err(WordsFault::NoMemory) => return Err(WordsFault::NoMemory),
    };
    if !is_built(&options) {
        return Err(WordsFault::Usage);
    }
    let Some(initial) = first_state(&options) else {
        return Err(WordsFault::Usage);
    };
    match schema_from_json(alloc, options.schema.text()) {
        Ok(schema) => Ok(Choice {
            feeders: options.feeders,
            setting: Setting {
                bits: options.bits,
                rules: rules_of(&options),
                initial,
                schema,
            },
        }),
        Err(SchemaFault::NoMemory) => Err(WordsFault::NoMemory),
        Err(_) => Err(WordsFault::Usage),
    }
}

/// What the words choose, where that is to run each line behind the one before.
pub fn choose_alone(alloc: Global, words: &[String]) -> Result<Choice, WordsFault>
    ensures chosen { IfOk result (λ choice. ChoosesAlone (map string_bytes words.now) choice) }
    ensures usage { (result ≡ Err WordsFault.Usage) → AreWrongAlone (map string_bytes words.now) }
{
    let choice = match read_choice(alloc, words) {
        Ok(choice) => choice,
        Err(why) => return Err(why),
    };
    if choice.feeders == 0 {
        Ok(choice)
    } else {
        Err(WordsFault::Usage)
    }
}

/// What the words choose, where that is to have feeders run the lines.
pub fn choose_fed(alloc: Global, words: &[String]) -> Result<Choice, WordsFault>
    ensures chosen { IfOk result (λ choice. ChoosesFed (map string_bytes words.now) choice) }
    ensures usage { (result ≡ Err WordsFault.Usage) → AreWrongFed (map string_bytes words.now) }
{
    let choice = match read_choice(alloc, words) {
        Ok(choice) => choice,
        Err(why) => return Err(why),
    };
    if choice.feeders == 0 {
        Err(WordsFault::Usage)
    } else {
        Ok(choice)
    }
}

/// Whether each option that isn't built yet stands at its default.
#[tactic(auto, unfolding(crate::specs::Choices::is_built))]
fn is_built(options: &Options) -> bool
    ensures { result ≡ is_built options.now }
{
    options.generate.is_none()
}

/// The state that the options say, where it can be published first.
fn first_state(options: &Options) -> Option<ClusterState>
    ensures some { IfSome result (CanBegin options.now) }
    ensures none { IfNone result ((state : State) → CanBegin options.now state → ⊥) }
{
    let Ok(state) = ClusterState::parse(options.initial.text()) else {
        return None;
    };
    let mut states = States::new(options.acks);
    match states.publish(&state) {
        Ok(()) => Some(state),
        Err(_) => None,
    }
}

/// What the options say to a lane.
fn rules_of(options: &Options) -> Rules
    ensures { result ≡ rules_of options.now }
{
    Rules {
        redundancy: options.redundancy,
        acks: options.acks,
        searchable: options.searchable,
        split_at: options.split_at,
    }
}
