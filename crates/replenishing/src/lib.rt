// A partial span at the front of a class of a heap, if one can be had.
#![tactic(auto)]

ghost use Rattle.std.specs.Prelude.{◌≡◌, List, ℕ, ◌<◌, length};
ghost use Rattle.tables.specs.Cells.{tables as table, head_cell, empty_list, reserve};
ghost use Rattle.class_heap.specs.Steps.{none_empty, create as created, supply as supplied, replenish as replenished};
ghost use Rattle.placing.specs.Working.{Working};

use tables::{ClassHeap, SpanList};

// The next unused span, written new, to the front of partial.
fn create(bits: &mut [u64], spans: &mut [u64], heads: &mut [u64], used: &mut u64, k: ClassHeap)
    requires { (n : ℕ) × (e : List ℕ) × Working n k (table bits.old spans.old e heads.old used.old) × (used.old < n) }
    ensures { (e : List ℕ) → table bits.new spans.new e heads.new used.new ≡ created (table bits.old spans.old e heads.old used.old) k }
{
    let s = *used;
    span::new_span(bits, spans, used, k);
    linked_list::push(spans, heads, k, SpanList::Partial, s);
}

// Neither a reserve nor an empty span is there.
fn none_empty(heads: &[u64], k: ClassHeap) -> bool
    requires { (head_cell k.row reserve < length heads.now) × (head_cell k.row empty_list < length heads.now) }
    ensures { (b p e : List ℕ) (u : ℕ) → result ≡ none_empty (table b p e heads.now u) k }
{
    if linked_list::front(heads, k.row, SpanList::Reserve as u64) != 0 {
        return false;
    }
    linked_list::front(heads, k.row, SpanList::Empty as u64) == 0
}

// With no partial span: the reserve, else the front of the empty list, else a new span within the limit.
fn supply(
    bits: &mut [u64],
    spans: &mut [u64],
    heads: &mut [u64],
    used: &mut u64,
    limit: u64,
    k: ClassHeap,
)
    requires { (e : List ℕ) × Working limit k (table bits.old spans.old e heads.old used.old) }
    ensures { (e : List ℕ) → table bits.new spans.new e heads.new used.new ≡ supplied limit (table bits.old spans.old e heads.old used.old) k }
{
    if linked_list::front(heads, k.row, SpanList::Partial as u64) != 0 {
        return;
    }
    if !none_empty(heads, k) {
        placing::reactivate(spans, heads, k);
        return;
    }
    if *used < limit {
        create(bits, spans, heads, used, k);
    }
}

// With no partial span: the full spans with pending frees first, then what else can be had.
pub fn replenish(
    bits: &mut [u64],
    spans: &mut [u64],
    heads: &mut [u64],
    used: &mut u64,
    limit: u64,
    k: ClassHeap,
)
    requires { (e : List ℕ) × Working limit k (table bits.old spans.old e heads.old used.old) }
    ensures { (e : List ℕ) → table bits.new spans.new e heads.new used.new ≡ replenished limit (table bits.old spans.old e heads.old used.old) k }
{
    if linked_list::front(heads, k.row, SpanList::Partial as u64) != 0 {
        return;
    }
    reclaiming::reclaim(bits, spans, heads, *used, k);
    supply(bits, spans, heads, used, limit, k);
}
