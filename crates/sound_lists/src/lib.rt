// The check of the lists: each is walked once from its head, and the spans met are counted.
#![tactic(auto)]

ghost use Rattle.std.specs.Prelude.{◌<◌, length};
ghost use Rattle.laws.specs.Choice.{Says};
ghost use Rattle.tables.specs.Cells.{head_cell};
ghost use Rattle.tables.specs.ListPlace.{place};
ghost use Rattle.linked_list.specs.Lists.{list_of};
ghost use Rattle.sound.specs.Sound.{ListSound};
ghost use Rattle.sound_lists.specs.Walked.{UsedFields, Fits, Between, WalkAnswer, ClassLists, spans_in, ClassCells};

use tables::{CLASS, ClassHeap, NEXT, OCCUPIED, OWNER, PREVIOUS, SpanList, TablesView};

// Whether span s is one of a list of that class and heap: it links back to p, and its count is from low on and below high.
fn link_fits(view: &TablesView, k: ClassHeap, s: u64, p: u64, low: u64, high: u64) -> bool
    requires { UsedFields view.now.spans view.now.used }
    ensures { Says result (Fits view.now k low high p s) }
{
    let spans = view.spans;
    if s >= view.used {
        return false;
    }
    tables::field(spans, s, PREVIOUS) == p
        && tables::field(spans, s, CLASS) == k.class
        && tables::field(spans, s, OWNER) == k.owner
        && (low..high).contains(&tables::field(spans, s, OCCUPIED))
}

// How many spans a list holds, each with a count from low on and below high; none where the list is not right.
fn list_met(view: &TablesView, k: ClassHeap, list: SpanList, low: u64, high: u64) -> Option<u64>
    requires used_fields { UsedFields view.now.spans view.now.used }
    requires list_in_bounds { head_cell k.row (place list) < length view.now.heads }
    ensures { WalkAnswer (ListSound view.now k (place list) (Between low high)) (length (list_of view.now k (place list))) result }
{
    let spans = view.spans;
    let mut x = linked_list::front(view.heads, k.row, list as u64);
    let mut p: u64 = 0;
    let mut met: u64 = 0;
    while x != 0 {
        if met == view.used {
            return None;
        }
        if !link_fits(view, k, x - 1, p, low, high) {
            return None;
        }
        p = x;
        x = tables::field(spans, x - 1, NEXT);
        met += 1;
    }
    Some(met)
}

// How many spans the lists and the reserve of a class of a heap hold; none where they are not right.
pub fn class_met(view: &TablesView, k: ClassHeap) -> Option<u64>
    requires used_fields { UsedFields view.now.spans view.now.used }
    requires class_cells { ClassCells view.now.heads k }
    ensures { WalkAnswer (ClassLists view.now k) (spans_in view.now k) result }
{
    let heads = view.heads;
    let partial = list_met(view, k, SpanList::Partial, 1, k.slots)?;
    let full = list_met(view, k, SpanList::Full, k.slots, k.slots + 1)?;
    let empty = list_met(view, k, SpanList::Empty, 0, 1)?;
    let kept = list_met(view, k, SpanList::Reserve, 0, 1)?;
    if kept > 1 {
        return None;
    }
    let first = linked_list::front(heads, k.row, SpanList::Reserve as u64);
    let apart = first == 0 || linked_list::front(heads, k.row, SpanList::Empty as u64) != first;
    if !apart {
        return None;
    }
    Some(partial + full + empty + kept)
}
