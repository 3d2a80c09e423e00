// The walk over the full spans of one class: pending frees folded in, and each span freed by them placed.
#![tactic(auto)]

ghost use Rattle.std.specs.Prelude.{◌≡◌, List, ℕ, ◌<◌, get_or};
ghost use Rattle.tables.specs.Cells.{tables as table, head_cell, full_list};
ghost use Rattle.class_heap.specs.Steps.{reclaim_one, reclaim as reclaimed};
ghost use Rattle.placing.specs.Working.{Working};

use tables::{ClassHeap, NEXT, SpanList};

// Span s, which is on the full list: its pending frees are folded, and it is placed, where there are any.
fn reclaim_one(bits: &mut [u64], spans: &mut [u64], heads: &mut [u64], k: ClassHeap, s: u64)
    requires { (n : ℕ) × (e : List ℕ) × (u : ℕ) × Working n k (table bits.old spans.old e heads.old u) × (s < u) }
    ensures { (e : List ℕ) (u : ℕ) → table bits.new spans.new e heads.new u ≡ reclaim_one (table bits.old spans.old e heads.old u) k s }
{
    if span::has_pending(bits, s) {
        span_steps::reclaim_pending(bits, spans, s);
        placing::refile(spans, heads, k, SpanList::Full, s);
    }
}

// All spans of the full list, from the front on, each link read before its span is placed.
pub fn reclaim(bits: &mut [u64], spans: &mut [u64], heads: &mut [u64], used: u64, k: ClassHeap)
    requires { (n : ℕ) × (e : List ℕ) × Working n k (table bits.old spans.old e heads.old used) }
    ensures { (e : List ℕ) (u : ℕ) → table bits.new spans.new e heads.new u ≡ reclaimed used (table bits.old spans.old e heads.old u) k (get_or heads.old (head_cell k.row full_list) 0) }
{
    let mut at = linked_list::front(heads, k.row, SpanList::Full as u64);
    for _turn in 0..used {
        if at == 0 {
            break;
        }
        let s = at - 1;
        at = tables::field(spans, s, NEXT);
        reclaim_one(bits, spans, heads, k, s);
    }
}
