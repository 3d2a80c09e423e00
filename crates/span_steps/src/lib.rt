// The steps of one span in the lent cells: a slot released, pending frees folded in, a claim.
#![tactic(auto)]

ghost use Rattle.std.specs.Prelude.{◌≡◌, List, ℕ, ◌+◌, ◌*◌, ◌^◌, ◌≤◌, ◌<◌, length, get_or};
ghost use Rattle.size_classes.specs.Slots.{most_slots};
ghost use Rattle.occupancy.specs.Occupied.{claim as claim_of, fold_in};
ghost use Rattle.occupancy.specs.Right.{Right};
ghost use Rattle.tables.specs.Cells.{tables as table, span_cell, occupied_field, entry_of};
ghost use Rattle.magazine.specs.Room.{Room, count_in};
ghost use Rattle.magazine.specs.Magazine.{push_entries};
ghost use Rattle.span.specs.Room.{WordCells, SpanCells, Foldable, occupancy_in, pending_in};
ghost use Rattle.span.specs.Span.{stored as stored_in, dealloc_slot, reclaim_pending, folded, claimed_entries};
ghost use Rattle.span.specs.State.{state_in};

use occupancy::{Claimed, Occupancy};
use span::BlockState;
use tables::{ClassHeap, LOCAL_WORDS, REMOTE_WORDS};

// Slot q of span s is free again.
pub fn dealloc_slot(bits: &mut [u64], spans: &mut [u64], s: u64, q: u64)
    requires span_cells { SpanCells bits.old spans.old s }
    requires q_lt_most_slots { (q < most_slots) × (0 < get_or spans.old (span_cell s occupied_field) 0) }
    ensures { (e h : List ℕ) (u : ℕ) → table bits.new spans.new e h u ≡ dealloc_slot (table bits.old spans.old e h u) s q }
{
    let o = span::load(bits, spans, s);
    let next = o.release_slot(q);
    span::store(bits, spans, s, next);
}

// The occupancy of span s without its pending slots.
fn less_pending(bits: &[u64], spans: &[u64], s: u64) -> Occupancy
    requires span_cells { SpanCells bits.now spans.now s }
    requires by_index { (slots : ℕ) × Foldable slots bits.now spans.now s }
    ensures { result ≡ fold_in (occupancy_in bits.now spans.now s) (pending_in bits.now s) }
{
    let o = span::load(bits, spans, s);
    let from = tables::bitmap_cell(s, REMOTE_WORDS) as usize;
    o.fold_in(&bits[from..from + 64])
}

// The pending frees of span s leave its occupancy.
pub fn reclaim_pending(bits: &mut [u64], spans: &mut [u64], s: u64)
    requires span_cells { SpanCells bits.old spans.old s }
    requires by_index { (slots : ℕ) × Foldable slots bits.old spans.old s }
    ensures { (e h : List ℕ) (u : ℕ) → table bits.new spans.new e h u ≡ reclaim_pending (table bits.old spans.old e h u) s }
{
    let o = less_pending(bits, spans, s);
    span::store(bits, spans, s, o);
    span::clear_pending(bits, s);
}

// The same, where there are any.
pub fn fold(bits: &mut [u64], spans: &mut [u64], s: u64)
    requires span_cells { SpanCells bits.old spans.old s }
    requires by_index { (slots : ℕ) × Foldable slots bits.old spans.old s }
    ensures { (e h : List ℕ) (u : ℕ) → table bits.new spans.new e h u ≡ folded (table bits.old spans.old e h u) s }
{
    if span::has_pending(bits, s) {
        reclaim_pending(bits, spans, s);
    }
}

// A claim of at most max slots of span s.
pub fn claim(bits: &mut [u64], spans: &mut [u64], s: u64, max: u64, random: u64) -> Claimed
    requires span_cells { SpanCells bits.old spans.old s }
    requires by_index { (slots : ℕ) × Right slots (occupancy_in bits.old spans.old s) }
    ensures answer { result ≡ (claim_of (occupancy_in bits.old spans.old s) max random).answer }
    ensures cells { (e h : List ℕ) (u : ℕ) → table bits.new spans.new e h u ≡ stored_in (table bits.old spans.old e h u) s (claim_of (occupancy_in bits.old spans.old s) max random).occupancy }
{
    let o = span::load(bits, spans, s);
    let c = o.claim_up_to(max, random);
    let next = c.occupancy;
    span::store(bits, spans, s, next);
    c.answer
}

// The slots that a claim took of word i, in ascending number, to the magazine.
pub fn push_claimed(entries: &mut [u64], heads: &mut [u64], k: ClassHeap, s: u64, i: u64, mask: u64)
    requires room { Room entries.old heads.old k }
    requires mask_bound { count_in heads.old k + length (claimed_entries s i mask) ≤ k.capacity }
    requires i_bound { (i < 64) × (entry_of s (i * 64) + 64 ≤ 2 ^ 64) }
    ensures { (b p : List ℕ) (u : ℕ) → table b p entries.new heads.new u ≡ push_entries (claimed_entries s i mask) (table b p entries.old heads.old u) k }
{
    let first = tables::entry_of(s, i * 64);
    for b in 0..64 {
        if bits::test_bit(mask, b) {
            magazine::push(entries, heads, k, first + b);
        }
    }
}

// Whether slot q of span s, of the class and owner k, is free, cached, pending or out.
pub fn state_of(
    bits: &[u64],
    entries: &[u64],
    heads: &[u64],
    k: ClassHeap,
    s: u64,
    q: u64,
) -> BlockState
    requires word_cells { WordCells bits.now s }
    requires room { Room entries.now heads.now k }
    requires q_lt_most_slots { (q < most_slots) × (entry_of s q < 2 ^ 64) }
    ensures { (p : List ℕ) (u : ℕ) → result ≡ state_in (table bits.now p entries.now heads.now u) k s q }
{
    let i = q / 64;
    let b = q % 64;
    if !bits::test_bit(tables::word(bits, s, LOCAL_WORDS + i), b) {
        return BlockState::Free;
    }
    if bits::test_bit(tables::word(bits, s, REMOTE_WORDS + i), b) {
        return BlockState::Pending;
    }
    let e = tables::entry_of(s, q);
    if magazine::is_cached(entries, heads, k, e) {
        return BlockState::Cached;
    }
    BlockState::Out
}
