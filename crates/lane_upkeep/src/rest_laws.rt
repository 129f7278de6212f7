//! That a pass in which nothing is lost or late leaves its lane at rest; no function here does anything.

ghost use Rattle.std.specs.Prelude.{List};
ghost use Rattle.carriers.specs.declared.fate.Fate.{Fate};
ghost use Rattle.lane_states.specs.declared.lane_state.LaneState.{LaneState};
ghost use Rattle.lane_upkeep.specs.declared.owner.Owner.{Owner};
ghost use Rattle.lane_upkeep.specs.Rests.{OpensAndPasses, RestsWhereQuiet};

use lane_keeping::laws::owners_act;
use pass_model::laws::{a_pass_brings_rest, nodes_are_seen, rest_is_read_off_the_journal};
use pass_model::settings::settings_are_found;
use undisturbed_spans::span_scripts::undisturbed_spans_have_scripts;
use undisturbed_spans::spans::undisturbed_spans_part;

/// The owner opens its state, where it isn't opened, and makes a pass: where nothing was lost or late in all of it,
/// the lane is at rest.
pub fn passes_bring_rest()
    ensures { (c m e : LaneState) (o : Owner) (given now : List Fate) → OpensAndPasses c m e o given now
        → RestsWhereQuiet now c e }
{
    owners_act();
    settings_are_found();
    a_pass_brings_rest();
    rest_is_read_off_the_journal();
    nodes_are_seen();
    undisturbed_spans_have_scripts();
    undisturbed_spans_part();
}
