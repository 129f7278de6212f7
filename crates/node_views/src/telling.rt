ghost use Rattle.std.specs.Prelude.{◌≡◌, IfOk, OnOk};
ghost use Rattle.view_changes.specs.Kept.{IsView};
ghost use Rattle.search_laws.specs.Searches.{LieIn};
ghost use Rattle.journal_views.specs.JournalViews.{view_of, Shows};
ghost use Rattle.node_sets.specs.Members.{has_node};
ghost use Rattle.node_model.specs.Telling.{kept_of};
ghost use Rattle.lane_keeping.specs.LaneKeeping.{node_in};
ghost use Rattle.node_views.specs.NodesTold.{with_version, with_regions, with_kept, with_stop, with_nodes};
ghost use Rattle.node_views.specs.NodesKept.{OfKeptNodes};

use journal_views::laws::journals_are_shown;
use lane_views::LaneView;
use node_rows::SharedSchema;
use node_sets::NodeSet;
use service_layer::NodePart;
use std::alloc::Global;
use value_lists::NoMemory;
use view_changes::LaneChange;
use view_changes::laws::{deeds_are_shown, deeds_find_room, views_keep};

/// The version of the node of a number is told.
fn tell_version(
    alloc: Global,
    view: &mut LaneView,
    number: u8,
    version: u32,
) -> Result<(), NoMemory>
    ensures { OnOk result (view.new ≡ with_version number version view.old) }
{
    if version > 0 {
        view.change(
            alloc,
            &LaneChange::Adopt {
                node: number,
                version,
            },
        )?;
    }
    Ok(())
}

/// The regions of the node of a number are told, the newest last, with their entries.
fn tell_regions(
    alloc: Global,
    view: &mut LaneView,
    number: u8,
    node: &NodePart,
) -> Result<(), NoMemory>
    ensures { OnOk result (view.new ≡ with_regions number node.now.entries node.now.regions view.old) }
{
    let regions = node.regions();
    let mut at = regions.len();
    while at > 0 {
        at -= 1;
        let bucket = regions[at];
        let entries = node.entries_in(bucket)?;
        view.change(
            alloc,
            &LaneChange::Activate {
                node: number,
                bucket,
                entries,
            },
        )?;
    }
    Ok(())
}

/// What the node of a number keeps is told; one past the list's end took no message.
fn tell_node(
    alloc: Global,
    view: &mut LaneView,
    number: u8,
    nodes: &[NodePart],
) -> Result<(), NoMemory>
    ensures { OnOk result (view.new ≡ with_kept number (kept_of (node_in nodes.now number)) view.old) }
{
    let Some(node) = nodes.get(usize::from(number)) else {
        return Ok(());
    };
    tell_version(alloc, view, number, node.version())?;
    tell_regions(alloc, view, number, node)
}

/// Whether the node of a number is stopped is told.
fn tell_stop(
    alloc: Global,
    view: &mut LaneView,
    number: u8,
    is_stopped: bool,
) -> Result<(), NoMemory>
    ensures { OnOk result (view.new ≡ with_stop number is_stopped view.old) }
{
    if is_stopped {
        view.change(alloc, &LaneChange::Stop { node: number })?;
    }
    Ok(())
}

/// The view after all nodes below 32 were told, and which of them are stopped.
fn told(
    alloc: Global,
    schema: &SharedSchema,
    nodes: &[NodePart],
    stopped: NodeSet,
) -> Result<LaneView, NoMemory>
    ensures { IfOk result (λ view. view
        ≡ with_nodes schema.now (λ n. kept_of (node_in nodes.now n)) (has_node stopped) 32) }
{
    let mut view = LaneView::new(alloc, schema)?;
    for number in 0..32u8 {
        tell_node(alloc, &mut view, number, nodes)?;
        tell_stop(alloc, &mut view, number, stopped.has(number))?;
    }
    Ok(view)
}

/// The view of a lane whose journal says of each node below 32 what it is, and which ones are stopped; a node past the
/// list's end took no message. It is a view that shows what is read off the journal, and its regions lie in the lane.
/// Entries are shared with the nodes. Costs a look at each entry that lies in a region.
pub fn view_of_nodes(
    alloc: Global,
    schema: &SharedSchema,
    nodes: &[NodePart],
    stopped: NodeSet,
) -> Result<LaneView, NoMemory>
    ensures shows { IfOk result (λ view. OfKeptNodes nodes.now stopped (λ S J. Shows (view_of schema.now J) view)) }
    ensures view { IfOk result (λ view. OfKeptNodes nodes.now stopped (λ S J. IsView view)) }
    ensures lane { IfOk result (λ view. OfKeptNodes nodes.now stopped (λ S J. LieIn S.lane view.nodes)) }
{
    views_keep();
    deeds_are_shown();
    deeds_find_room();
    journals_are_shown();
    told(alloc, schema, nodes, stopped)
}
