// Slots of a magazine back to their spans, from the top down to low water.
#![tactic(auto)]

ghost use Rattle.std.specs.Prelude.{◌≡◌, List, ℕ, ◌<◌};
ghost use Rattle.tables.specs.Cells.{tables as table};
ghost use Rattle.magazine.specs.Room.{count_in};
ghost use Rattle.class_heap.specs.Steps.{give_back, flush_one, flush as flushed};
ghost use Rattle.placing.specs.Working.{Working};
ghost use Rattle.flushing.specs.Returnable.{Returnable};

use tables::{ClassHeap, SpanList};

// Slot q back to span s, which is unlinked and placed where it was full or is now empty.
fn give_back(bits: &mut [u64], spans: &mut [u64], heads: &mut [u64], k: ClassHeap, s: u64, q: u64)
    requires { (n : ℕ) × (e : List ℕ) × (u : ℕ) × Returnable n k (table bits.old spans.old e heads.old u) s q }
    ensures { (e : List ℕ) (u : ℕ) → table bits.new spans.new e heads.new u ≡ give_back (table bits.old spans.old e heads.old u) k s q }
{
    let full = span::is_full(spans, k, s);
    span_steps::dealloc_slot(bits, spans, s, q);
    if full {
        placing::refile(spans, heads, k, SpanList::Full, s);
        return;
    }
    if span::is_empty(spans, s) {
        placing::refile(spans, heads, k, SpanList::Partial, s);
    }
}

// The top entry out of the magazine, and its slot back to its span.
fn flush_one(bits: &mut [u64], spans: &mut [u64], entries: &[u64], heads: &mut [u64], k: ClassHeap)
    requires by_index { (n : ℕ) × (u : ℕ) × Working n k (table bits.old spans.old entries.now heads.old u) }
    requires k_nonzero { 0 < count_in heads.old k }
    ensures { (u : ℕ) → table bits.new spans.new entries.now heads.new u ≡ flush_one (table bits.old spans.old entries.now heads.old u) k }
{
    let e = magazine::pop(entries, heads, k);
    give_back(
        bits,
        spans,
        heads,
        k,
        tables::entry_span(e),
        tables::entry_slot(e),
    );
}

// Entries from the top, down to low water.
pub fn flush(bits: &mut [u64], spans: &mut [u64], entries: &[u64], heads: &mut [u64], k: ClassHeap)
    requires { (n : ℕ) × (u : ℕ) × Working n k (table bits.old spans.old entries.now heads.old u) }
    ensures { (u : ℕ) → table bits.new spans.new entries.now heads.new u ≡ flushed k.capacity (table bits.old spans.old entries.now heads.old u) k }
{
    for _turn in 0..k.capacity {
        if magazine::count(heads, k) <= k.low {
            break;
        }
        flush_one(bits, spans, entries, heads, k);
    }
}
