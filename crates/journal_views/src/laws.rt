//! Laws of journals and views; no function here does anything.

ghost use Rattle.std.specs.Prelude.{◌≡◌, ◌↔◌, ◌<◌, ◌≤◌, ◌^◌, ◌++◌, ℕ, true, List, ◌∷◌, None, Some, length, min, take, map, if◌then◌else◌};
ghost use Rattle.doc_types.specs.SchemaCodes.{Types};
ghost use Rattle.bucket_ids.specs.Buckets.{IsBucket};
ghost use Rattle.global_ids.specs.Keys.{key_of};
ghost use Rattle.view_changes.specs.Views.{View, in_regions, view_after};
ghost use Rattle.view_changes.specs.Opening.{opening};
ghost use Rattle.view_changes.specs.Kept.{IsView};
ghost use Rattle.search_laws.specs.Searches.{LieIn, AreLanes, times_counted, covered};
ghost use Rattle.lane_journals.specs.Stamps.{Stamp};
ghost use Rattle.lane_journals.specs.Buckets.{Id};
ghost use Rattle.lane_journals.specs.Readers.{wrote, version, store};
ghost use Rattle.lane_journals.specs.Facts.{InRegion};
ghost use Rattle.lane_journals.specs.Meanings.{history};
ghost use Rattle.lane_journals.specs.Places.{Setting};
ghost use Rattle.lane_journals.specs.KeptJournals.{IsLegal};
ghost use Rattle.lane_journals.specs.declared.event.LaneEvent.{LaneEvent};
ghost use Rattle.lane_durability.specs.Laws.{InAllKept};
ghost use Rattle.lane_keeping.specs.NodeKeeping.{regions};
ghost use Rattle.lane_changes.specs.Changes.{changes_of};
ghost use Rattle.journal_views.specs.JournalViews.{IsWrittenAs, held_entry, NodeRead, view_of, view_at, body_in, AreFit, Shows, written_entries, FindRoom};
ghost use Rattle.query_text.specs.Grammar.{said_of};
ghost use Rattle.query_text.specs.declared.query.Query.{Query};
ghost use Rattle.search_views.specs.Answers.{search_answer};
ghost use Rattle.journal_views.specs.Searched.{LaneRead, IsAnswer, AreShown};
ghost use Rattle.journal_views.specs.Fronts.{Front, AreFronts, seen_at, IsKeyRead, IsCountedAs};

use global_ids::laws::keys_locate;
use lane_durability::theorem::regions_count_once;
use lane_keeping::node_laws::entries_are_written;
use search_laws::laws::searches_count_once;
use view_changes::laws::{deeds_are_shown, deeds_find_room, entries_find_room, views_keep};

/// What a view reads off a journal: a node's region has the keys of the Activates that it accepted at its version;
/// what it holds of a document was written of that document; and where the documents that were written are fit, they
/// are seen as they were written. There are no more entries than lines that write.
pub fn journals_are_read()
    ensures regions { InAllKept (λ S J. (n key : ℕ)
        → (in_regions (regions n (history J)) key ≡ true) ↔ InRegion (version n (history J)) n key (history J)) }
    ensures held { InAllKept (λ S J. (n : ℕ) (id : Id) (s : Stamp)
        → store n id (history J) ≡ Some s → IsWrittenAs J id s) }
    ensures documents { InAllKept (λ S J. (types : Types) → AreFit types (written_entries J) → (n : ℕ) (id : Id)
        → (view_of types J n).document id
        ≡ (if in_regions (regions n (history J)) (key_of id) then body_in (held_entry n id J) else None)) }
    ensures few { InAllKept (λ S J. (most : ℕ)
        → ((line : ℕ) → wrote line (history J) ≡ true → line < most) → length (written_entries J) ≤ most) }
{
    entries_are_written();
}

/// The view after the changes that a journal gives has just what is read off the journal, and so has the view
/// after the first of them for the shortest prefix of the journal that has as many. It is a view, its regions lie in
/// the lane, and it counts its changes. A longer journal gives the same changes first.
pub fn journals_are_shown()
    ensures shown { InAllKept (λ S J. (types : Types) → IsBucket S.lane → FindRoom J
        → Shows (view_of types J) (view_after (opening types) (changes_of J))) }
    ensures fronts { InAllKept (λ S J. (types : Types) → IsBucket S.lane → FindRoom J
        → (g : ℕ) (read : ℕ → NodeRead) → view_at types g J ≡ Some read
        → Shows read (view_after (opening types) (take g (changes_of J)))) }
    ensures view { InAllKept (λ S J. (types : Types) → IsBucket S.lane → FindRoom J
        → IsView (view_after (opening types) (changes_of J))) }
    ensures lane { InAllKept (λ S J. (types : Types) → IsBucket S.lane → FindRoom J
        → LieIn S.lane (view_after (opening types) (changes_of J)).nodes) }
    ensures counted { (types : Types) (J : List LaneEvent)
        → (view_after (opening types) (changes_of J)).generation ≡ min (length (changes_of J)) 18446744073709551615 }
    ensures grows { (N J : List LaneEvent) → take (length (changes_of J)) (changes_of (N ++ J)) ≡ changes_of J }
{
    views_keep();
    deeds_are_shown();
    entries_find_room();
    deeds_find_room();
    entries_are_written();
    regions_count_once();
}

/// A search under one version, over a prefix of the journal of each lane, counts each document once at most; and
/// where the regions that it covers measure as much as all keys, it counts each document as an operation left it
/// that is no older than what was acknowledged under that version and smaller ones. They measure as much where it
/// reads each key at some node.
pub fn fronts_count_once()
    ensures lanes { (types : Types) (fs : List Front) → AreFronts fs → AreLanes (map (seen_at types) fs) }
    ensures once { (types : Types) (w : ℕ) (id : Id) (fs : List Front) → AreFronts fs
        → times_counted w id (map (seen_at types) fs) ≤ 1 }
    ensures current { (types : Types) (w : ℕ) (id : Id) (fs : List Front) → AreFronts fs
        → covered w (map (seen_at types) fs) ≡ 2 ^ 58
        → IsCountedAs types w id fs (times_counted w id (map (seen_at types) fs)) }
    ensures full { (types : Types) (w : ℕ) (fs : List Front) → AreFronts fs → ((key : ℕ) → key < 2 ^ 58 → IsKeyRead w key fs)
        → covered w (map (seen_at types) fs) ≡ 2 ^ 58 }
{
    journals_are_read();
    journals_are_shown();
    searches_count_once();
    regions_count_once();
    keys_locate();
}

/// A search over views that show what was read of some lanes answers what was read: its answer is that of some lists of
/// the documents of each node, with each of them once. That lists in another order have the same groups isn't said.
pub fn answers_are_of_what_is_read()
    ensures { (q : Query) (w : ℕ) (reads : List LaneRead) (vs : List View) → AreShown reads vs
        → IsAnswer q w reads (search_answer (said_of q) w vs) }
{}
