// Doubly linked lists of spans, by span numbers as links: 0 for none, and s + 1 for span s.
#![tactic(auto)]

ghost use Rattle.std.specs.Prelude.{◌≡◌, cond, List, ℕ, ◌-◌, ◌<◌, ◌≤◌, length, get_or, set, eqb};
ghost use Rattle.tables.specs.Cells.{tables as table, span_cell, previous_field, next_field, head_cell};
ghost use Rattle.tables.specs.ListPlace.{place};
ghost use Rattle.linked_list.specs.Lists.{set_linked, set_links, push as pushed, remove as removed, pop as popped};
ghost use Rattle.linked_list.specs.Reach.{Links};

use tables::{ClassHeap, NEXT, PREVIOUS, SpanList};

// Field f of the span that a link names becomes v; a link to none names nothing.
fn put_linked(spans: &mut [u64], link: u64, f: u64, v: u64)
    requires { (s : ℕ) → s < link → span_cell s f < length spans.old }
    ensures { spans.new ≡ set_linked spans.old link f v }
{
    if link != 0 {
        tables::put_field(spans, link - 1, f, v);
    }
}

// The links of span s.
fn put_links(spans: &mut [u64], s: u64, previous: u64, next: u64)
    requires previous_field_in_bounds { span_cell s previous_field < length spans.old }
    requires next_field_in_bounds { span_cell s next_field < length spans.old }
    ensures { spans.new ≡ set_links spans.old s previous next }
{
    tables::put_field(spans, s, PREVIOUS, previous);
    tables::put_field(spans, s, NEXT, next);
}

// The link to the first span of a list becomes v.
fn set_front(heads: &mut [u64], row: u64, list: SpanList, v: u64)
    requires { head_cell row (place list) < length heads.old }
    ensures { heads.new ≡ set heads.old (head_cell row (place list)) v }
{
    tables::put_head(heads, row, list as u64, v);
}

// The front of a list, where the span that leaves has none before it.
fn put_front(heads: &mut [u64], row: u64, list: SpanList, previous: u64, next: u64)
    requires { head_cell row (place list) < length heads.old }
    ensures { heads.new ≡ cond (eqb previous 0) (set heads.old (head_cell row (place list)) next) heads.old }
{
    if previous == 0 {
        set_front(heads, row, list, next);
    }
}

// The link to the first span of list f of a row, 0 where the list is empty.
pub fn front(heads: &[u64], row: u64, f: u64) -> u64
    requires { head_cell row f < length heads.now }
    ensures { result ≡ get_or heads.now (head_cell row f) 0 }
{
    tables::head(heads, row, f)
}

// Span s to the front of a list.
pub fn push(spans: &mut [u64], heads: &mut [u64], k: ClassHeap, list: SpanList, s: u64)
    requires { (n : ℕ) × Links n spans.old heads.old k.row × (s < n) }
    ensures { (b e : List ℕ) (u : ℕ) → table b spans.new e heads.new u ≡ pushed (table b spans.old e heads.old u) k (place list) s }
{
    let old = front(heads, k.row, list as u64);
    put_links(spans, s, 0, old);
    put_linked(spans, old, PREVIOUS, s + 1);
    set_front(heads, k.row, list, s + 1);
}

// Span s out of a list: its neighbours, or the head and what stands after it, link to each other.
pub fn remove(spans: &mut [u64], heads: &mut [u64], k: ClassHeap, list: SpanList, s: u64)
    requires { (n : ℕ) × Links n spans.old heads.old k.row × (s < n) }
    ensures { (b e : List ℕ) (u : ℕ) → table b spans.new e heads.new u ≡ removed (table b spans.old e heads.old u) k (place list) s }
{
    let previous = tables::field(spans, s, PREVIOUS);
    let next = tables::field(spans, s, NEXT);
    put_front(heads, k.row, list, previous, next);
    put_linked(spans, previous, NEXT, next);
    put_linked(spans, next, PREVIOUS, previous);
    put_links(spans, s, 0, 0);
}

// The front span out of a list, which is not empty.
pub fn pop(spans: &mut [u64], heads: &mut [u64], k: ClassHeap, list: SpanList) -> u64
    requires by_index { (n : ℕ) × Links n spans.old heads.old k.row }
    requires nonzero { 0 < get_or heads.old (head_cell k.row (place list)) 0 }
    ensures value { result ≡ get_or heads.old (head_cell k.row (place list)) 0 - 1 }
    ensures by_index_2 { (b e : List ℕ) (u : ℕ) → table b spans.new e heads.new u ≡ popped (table b spans.old e heads.old u) k (place list) }
{
    let s = front(heads, k.row, list as u64) - 1;
    remove(spans, heads, k, list, s);
    s
}
