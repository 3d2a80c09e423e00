// One span in the lent cells: its occupancy loaded and stored, its pending frees, and the state of a block.
#![tactic(auto)]

ghost use Rattle.std.specs.Prelude.{◌≡◌, List, [], ◌∷◌, ◌++◌, ℕ, ◌+◌, ◌≤◌, ◌<◌, length, take, drop, replicate};
ghost use Rattle.std.proofs.Math.Seq.{paste};
ghost use Rattle.std.proofs.lemmas.List.Edits.{sets};
ghost use Rattle.size_classes.specs.Slots.{most_slots};
ghost use Rattle.occupancy.specs.Occupied.{fresh_of};
ghost use Rattle.tables.specs.Shape.{bitmap_cells};
ghost use Rattle.tables.specs.Cells.{tables as table, bitmap_cell, span_cell, local_summary, class_field};
ghost use Rattle.span.specs.Room.{WordCells, FieldCells, SpanCells};
ghost use Rattle.span.specs.Span.{loaded, stored as stored_in, is_full, is_empty, has_pending, clear_pending, remote_free, new_span};

use occupancy::Occupancy;
use tables::{
    CLASS, ClassHeap, LOCAL_SUMMARY, LOCAL_WORDS, OCCUPIED, REMOTE_SUMMARY, REMOTE_WORDS,
};

// "A block is free (bit clear), cached (in its owner's magazine), pending, or out (occupied, neither cached nor pending)."
#[derive(Clone, Copy)]
pub enum BlockState {
    Free,
    Cached,
    Pending,
    Out,
}

// The remote summary and the 64 remote words, one after the other.
const REMOTE_CELLS: usize = 65;

// The 64 cells from a place on, by value.
fn words_from(bits: &[u64], at: u64) -> [u64; 64]
    requires { at + 64 ≤ length bits.now }
    ensures { result ≡ take 64 (drop at bits.now) }
{
    let from = at as usize;
    let mut words = [0; 64];
    words.copy_from_slice(&bits[from..from + 64]);
    words
}

// Numbers into the cells from a place on.
fn put_cells(cells: &mut [u64], at: u64, numbers: &[u64])
    requires { at + length numbers.now ≤ length cells.old }
    ensures { cells.new ≡ paste cells.old at numbers.now (length numbers.now) }
{
    let from = at as usize;
    cells[from..from + numbers.len()].copy_from_slice(numbers);
}

// The summary and the words of an occupancy into the local ones of span s.
fn put_local(bits: &mut [u64], s: u64, o: &Occupancy)
    requires { WordCells bits.old s }
    ensures { bits.new ≡ paste bits.old (bitmap_cell s local_summary) (o.now.summary ∷ o.now.words) 65 }
{
    tables::put_word(bits, s, LOCAL_SUMMARY, o.summary);
    put_cells(bits, tables::bitmap_cell(s, LOCAL_WORDS), &o.words);
}

// The occupancy of span s.
pub fn load(bits: &[u64], spans: &[u64], s: u64) -> Occupancy
    requires { SpanCells bits.now spans.now s }
    ensures { (e h : List ℕ) (u : ℕ) → result ≡ loaded (table bits.now spans.now e h u) s }
{
    let words = words_from(bits, tables::bitmap_cell(s, LOCAL_WORDS));
    Occupancy {
        summary: tables::word(bits, s, LOCAL_SUMMARY),
        words,
        count: tables::field(spans, s, OCCUPIED),
    }
}

// The occupancy of span s becomes o.
pub fn store(bits: &mut [u64], spans: &mut [u64], s: u64, o: Occupancy)
    requires { SpanCells bits.old spans.old s }
    ensures { (e h : List ℕ) (u : ℕ) → table bits.new spans.new e h u ≡ stored_in (table bits.old spans.old e h u) s o }
{
    put_local(bits, s, &o);
    tables::put_field(spans, s, OCCUPIED, o.count);
}

// Every slot of span s is taken; none is.
pub fn is_full(spans: &[u64], k: ClassHeap, s: u64) -> bool
    requires { FieldCells spans.now s }
    ensures { (b e h : List ℕ) (u : ℕ) → result ≡ is_full (table b spans.now e h u) k s }
{
    tables::field(spans, s, OCCUPIED) == k.slots
}

pub fn is_empty(spans: &[u64], s: u64) -> bool
    requires { FieldCells spans.now s }
    ensures { (b e h : List ℕ) (u : ℕ) → result ≡ is_empty (table b spans.now e h u) s }
{
    tables::field(spans, s, OCCUPIED) == 0
}

// A free of another heap waits in span s.
pub fn has_pending(bits: &[u64], s: u64) -> bool
    requires { WordCells bits.now s }
    ensures { (p e h : List ℕ) (u : ℕ) → result ≡ has_pending (table bits.now p e h u) s }
{
    tables::word(bits, s, REMOTE_SUMMARY) >= 1
}

// Nothing of span s is pending any more.
pub fn clear_pending(bits: &mut [u64], s: u64)
    requires { WordCells bits.old s }
    ensures { (p e h : List ℕ) (u : ℕ) → table bits.new p e h u ≡ clear_pending (table bits.old p e h u) s }
{
    let from = tables::bitmap_cell(s, REMOTE_SUMMARY);
    put_cells(bits, from, &[0; REMOTE_CELLS]);
}

// A free of slot q of span s by another heap.
pub fn remote_free(bits: &mut [u64], s: u64, q: u64)
    requires { (q < most_slots) × WordCells bits.old s }
    ensures { (p e h : List ℕ) (u : ℕ) → table bits.new p e h u ≡ remote_free (table bits.old p e h u) s q }
{
    let i = q / 64;
    let word = tables::word(bits, s, REMOTE_WORDS + i);
    let summary = tables::word(bits, s, REMOTE_SUMMARY);
    tables::put_word(bits, s, REMOTE_WORDS + i, bits::set_bit(word, q % 64));
    tables::put_word(bits, s, REMOTE_SUMMARY, bits::set_bit(summary, i));
}

// The words of span s as of a new span of so many slots.
fn blank(bits: &mut [u64], s: u64, slots: u64)
    requires word_cells { WordCells bits.old s }
    requires slots_bound { slots ≤ 4096 }
    ensures { bits.new ≡ paste bits.old (bitmap_cell s local_summary) (((fresh_of slots).summary ∷ (fresh_of slots).words) ++ replicate 65 0) bitmap_cells }
{
    put_local(bits, s, &Occupancy::fresh(slots));
    clear_pending(bits, s);
}

// The record of span s as of a new span: nothing taken, no links.
fn new_record(spans: &mut [u64], s: u64, class: u64, owner: u64)
    requires { FieldCells spans.old s }
    ensures { spans.new ≡ sets spans.old (span_cell s class_field) (class ∷ owner ∷ 0 ∷ 0 ∷ 0 ∷ []) }
{
    put_cells(spans, tables::span_cell(s, CLASS), &[class, owner, 0, 0, 0]);
}

// The next unused span, written new.
pub fn new_span(bits: &mut [u64], spans: &mut [u64], used: &mut u64, k: ClassHeap)
    requires span_cells { SpanCells bits.old spans.old used.old }
    requires slots_bound { k.slots ≤ 4096 }
    ensures { (e h : List ℕ) → table bits.new spans.new e h used.new ≡ new_span (table bits.old spans.old e h used.old) k }
{
    let s = *used;
    blank(bits, s, k.slots);
    new_record(spans, s, k.class, k.owner);
    *used = s + 1;
}
