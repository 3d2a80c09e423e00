// The leaves as C calls them, with their answers as plain numbers: for the comparison of compiled code with the original.
#![tactic(auto)]

ghost use Rattle.std.specs.Prelude.{◌≡◌, List, ℕ, ◌≤◌, ◌<◌, get_or};
ghost use Rattle.size_classes.specs.SlotSizes.{slot_sizes};
ghost use Rattle.size_classes.specs.Class.{class_of};
ghost use Rattle.size_classes.specs.Slots.{most_slots, slot_at};
ghost use Rattle.occupancy.specs.Occupied.{fresh_of, claim as claim_of};
ghost use Rattle.occupancy.specs.Right.{Right};
ghost use Rattle.tables.specs.Cells.{tables as table, span_cell, occupied_field};
ghost use Rattle.span.specs.Room.{SpanCells, Foldable, occupancy_in};
ghost use Rattle.span.specs.Span.{stored, dealloc_slot, reclaim_pending};
ghost use Rattle.leaves.specs.Numbers.{class_number, slot_number, claim_numbers};

use occupancy::{Claimed, Occupancy};

// A claim: the word and the mask, and word 64 where nothing was found.
#[repr(C)]
#[derive(Clone, Copy)]
pub struct Found {
    pub word: u64,
    pub mask: u64,
}

// The class of a request, and 48 for none.
#[unsafe(no_mangle)]
pub extern "C" fn laggersten_leaf_class(size: u64, alignment: u64) -> u64
    ensures { result ≡ class_number (class_of slot_sizes size alignment) }
{
    let found = class_choice::from_layout(size, alignment);
    match found {
        Some(k) => k,
        None => 48,
    }
}

// The slot that starts at an offset, and 4096 for none.
#[unsafe(no_mangle)]
pub extern "C" fn laggersten_leaf_slot(slot: u64, offset: u64) -> u64
    requires { 0 < slot }
    ensures { result ≡ slot_number (slot_at slot offset) }
{
    let found = size_classes::slot_at(slot, offset);
    match found {
        Some(q) => q,
        None => 4096,
    }
}

// The occupancy of span s becomes a fresh one.
#[unsafe(no_mangle)]
pub extern "C" fn laggersten_leaf_fresh(bits: &mut [u64], spans: &mut [u64], s: u64, slots: u64)
    requires span_cells { SpanCells bits.old spans.old s }
    requires slots_bound { slots ≤ 4096 }
    ensures { (e h : List ℕ) (u : ℕ) → table bits.new spans.new e h u ≡ stored (table bits.old spans.old e h u) s (fresh_of slots) }
{
    let o = Occupancy::fresh(slots);
    span::store(bits, spans, s, o);
}

// A claim of at most max slots of span s.
#[unsafe(no_mangle)]
pub extern "C" fn laggersten_leaf_claim(
    bits: &mut [u64],
    spans: &mut [u64],
    s: u64,
    max: u64,
    random: u64,
) -> Found
    requires span_cells { SpanCells bits.old spans.old s }
    requires by_index { (slots : ℕ) × Right slots (occupancy_in bits.old spans.old s) }
    ensures answer { result ≡ claim_numbers (claim_of (occupancy_in bits.old spans.old s) max random).answer }
    ensures cells { (e h : List ℕ) (u : ℕ) → table bits.new spans.new e h u ≡ stored (table bits.old spans.old e h u) s (claim_of (occupancy_in bits.old spans.old s) max random).occupancy }
{
    let claimed = span_steps::claim(bits, spans, s, max, random);
    match claimed {
        Claimed::Nothing => Found { word: 64, mask: 0 },
        Claimed::Taken { word, mask } => Found { word, mask },
    }
}

// Slot q of span s is free again.
#[unsafe(no_mangle)]
pub extern "C" fn laggersten_leaf_release(bits: &mut [u64], spans: &mut [u64], s: u64, q: u64)
    requires span_cells { SpanCells bits.old spans.old s }
    requires q_lt_most_slots { (q < most_slots) × (0 < get_or spans.old (span_cell s occupied_field) 0) }
    ensures { (e h : List ℕ) (u : ℕ) → table bits.new spans.new e h u ≡ dealloc_slot (table bits.old spans.old e h u) s q }
{
    span_steps::dealloc_slot(bits, spans, s, q);
}

// The pending frees of span s leave its occupancy.
#[unsafe(no_mangle)]
pub extern "C" fn laggersten_leaf_fold(bits: &mut [u64], spans: &mut [u64], s: u64)
    requires span_cells { SpanCells bits.old spans.old s }
    requires by_index { (slots : ℕ) × Foldable slots bits.old spans.old s }
    ensures { (e h : List ℕ) (u : ℕ) → table bits.new spans.new e h u ≡ reclaim_pending (table bits.old spans.old e h u) s }
{
    span_steps::reclaim_pending(bits, spans, s);
}
