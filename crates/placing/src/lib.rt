// Where a span of one class goes by its count, and the reserve or an empty span back to partial.
#![tactic(auto)]

ghost use Rattle.std.specs.Prelude.{◌≡◌, List, ℕ, ◌+◌, ◌<◌, ◌≤◌, get_or};
ghost use Rattle.tables.specs.Cells.{tables as table, head_cell, reserve, empty_list};
ghost use Rattle.tables.specs.ListPlace.{place as list_place};
ghost use Rattle.linked_list.specs.Reach.{Links};
ghost use Rattle.class_heap.specs.Steps.{demote as demoted, release_empty, place as placed, refile as refiled, reactivate as reactivated};

use tables::{ClassHeap, SpanList};

// The span that a link names, if any, to the front of the empty list.
fn demote(spans: &mut [u64], heads: &mut [u64], k: ClassHeap, link: u64)
    requires { (n : ℕ) × Links n spans.old heads.old k.row × (link ≤ n) }
    ensures { (b e : List ℕ) (u : ℕ) → table b spans.new e heads.new u ≡ demoted (table b spans.old e heads.old u) k link }
{
    if link != 0 {
        linked_list::push(spans, heads, k, SpanList::Empty, link - 1);
    }
}

// Span s, which is empty, becomes the reserve, and the previous one goes to the front of the empty list.
fn release_empty(spans: &mut [u64], heads: &mut [u64], k: ClassHeap, s: u64)
    requires { (n : ℕ) × Links n spans.old heads.old k.row × (s < n) }
    ensures { (b e : List ℕ) (u : ℕ) → table b spans.new e heads.new u ≡ release_empty (table b spans.old e heads.old u) k s }
{
    let old = linked_list::front(heads, k.row, SpanList::Reserve as u64);
    tables::put_head(heads, k.row, SpanList::Reserve as u64, s + 1);
    demote(spans, heads, k, old);
}

// Span s, which is in no list, to where its count says.
pub fn place(spans: &mut [u64], heads: &mut [u64], k: ClassHeap, s: u64)
    requires { (n : ℕ) × Links n spans.old heads.old k.row × (s < n) }
    ensures { (b e : List ℕ) (u : ℕ) → table b spans.new e heads.new u ≡ placed (table b spans.old e heads.old u) k s }
{
    if span::is_empty(spans, s) {
        release_empty(spans, heads, k, s);
        return;
    }
    if span::is_full(spans, k, s) {
        linked_list::push(spans, heads, k, SpanList::Full, s);
        return;
    }
    linked_list::push(spans, heads, k, SpanList::Partial, s);
}

// Span s out of a list, and placed.
pub fn refile(spans: &mut [u64], heads: &mut [u64], k: ClassHeap, list: SpanList, s: u64)
    requires { (n : ℕ) × Links n spans.old heads.old k.row × (s < n) }
    ensures { (b e : List ℕ) (u : ℕ) → table b spans.new e heads.new u ≡ refiled (table b spans.old e heads.old u) k (list_place list) s }
{
    linked_list::remove(spans, heads, k, list, s);
    place(spans, heads, k, s);
}

// The reserve, else the front of the empty list, to the front of partial; one of the two is there.
pub fn reactivate(spans: &mut [u64], heads: &mut [u64], k: ClassHeap)
    requires by_index { (n : ℕ) × Links n spans.old heads.old k.row }
    requires nonzero { 0 < get_or heads.old (head_cell k.row reserve) 0 + get_or heads.old (head_cell k.row empty_list) 0 }
    ensures { (b e : List ℕ) (u : ℕ) → table b spans.new e heads.new u ≡ reactivated (table b spans.old e heads.old u) k }
{
    let kept = linked_list::front(heads, k.row, SpanList::Reserve as u64);
    if kept != 0 {
        tables::put_head(heads, k.row, SpanList::Reserve as u64, 0);
        linked_list::push(spans, heads, k, SpanList::Partial, kept - 1);
        return;
    }
    let s = linked_list::pop(spans, heads, k, SpanList::Empty);
    linked_list::push(spans, heads, k, SpanList::Partial, s);
}
