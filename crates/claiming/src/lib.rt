// One claim of the front partial span, its slots into the magazine, and the span to full if it became full.
#![tactic(auto)]

ghost use Rattle.std.specs.Prelude.{◌≡◌, List, ℕ, ◌<◌};
ghost use Rattle.tables.specs.Cells.{tables as table};
ghost use Rattle.linked_list.specs.Reach.{Links};
ghost use Rattle.class_heap.specs.Steps.{if_full, taken, claim_from, claim_front};
ghost use Rattle.claiming.specs.Claimable.{Claimable, Own, Fronted};

use occupancy::Claimed;
use tables::{ClassHeap, SpanList};

// Span s, of the partial list, to the front of full if it became full.
fn if_full(spans: &mut [u64], heads: &mut [u64], k: ClassHeap, s: u64)
    requires { (n : ℕ) × Links n spans.old heads.old k.row × (s < n) }
    ensures { (b e : List ℕ) (u : ℕ) → table b spans.new e heads.new u ≡ if_full (table b spans.old e heads.old u) k s }
{
    if span::is_full(spans, k, s) {
        linked_list::remove(spans, heads, k, SpanList::Partial, s);
        linked_list::push(spans, heads, k, SpanList::Full, s);
    }
}

// A claim's answer taken apart: its slots into the magazine; no claim leaves the step.
fn take(
    spans: &mut [u64],
    entries: &mut [u64],
    heads: &mut [u64],
    k: ClassHeap,
    s: u64,
    answer: Claimed,
)
    requires { (n : ℕ) × (b : List ℕ) × (u : ℕ) × Claimable n k (table b spans.old entries.old heads.old u) s answer }
    ensures { (b : List ℕ) (u : ℕ) → table b spans.new entries.new heads.new u ≡ taken (table b spans.old entries.old heads.old u) k s answer }
{
    match answer {
        Claimed::Nothing => {}
        Claimed::Taken { word, mask } => {
            span_steps::push_claimed(entries, heads, k, s, word, mask);
            if_full(spans, heads, k, s);
        }
    }
}

// One claim of span s, of as many slots as the magazine has room for.
fn claim_from(
    bits: &mut [u64],
    spans: &mut [u64],
    entries: &mut [u64],
    heads: &mut [u64],
    k: ClassHeap,
    s: u64,
    word: u64,
)
    requires { (n : ℕ) × (u : ℕ) × Own n k (table bits.old spans.old entries.old heads.old u) s }
    ensures { (u : ℕ) → table bits.new spans.new entries.new heads.new u ≡ claim_from (table bits.old spans.old entries.old heads.old u) k s word }
{
    let max = k.capacity - magazine::count(heads, k);
    let answer = span_steps::claim(bits, spans, s, max, word);
    take(spans, entries, heads, k, s, answer);
}

// The front partial span: its pending frees folded in, then one claim of it.
pub fn claim_front(
    bits: &mut [u64],
    spans: &mut [u64],
    entries: &mut [u64],
    heads: &mut [u64],
    k: ClassHeap,
    word: u64,
)
    requires { (n : ℕ) × (u : ℕ) × Fronted n k (table bits.old spans.old entries.old heads.old u) }
    ensures { (u : ℕ) → table bits.new spans.new entries.new heads.new u ≡ claim_front (table bits.old spans.old entries.old heads.old u) k word }
{
    let s = linked_list::front(heads, k.row, SpanList::Partial as u64) - 1;
    span_steps::fold(bits, spans, s);
    claim_from(bits, spans, entries, heads, k, s, word);
}
