// The lent tables as one value, to be changed or read, and what they are made for; cells by their names, and the numbers of one class of one heap.
#![tactic(auto)]

ghost use Rattle.std.specs.Prelude.{◌≡◌, ℕ, ◌+◌, ◌^◌, ◌<◌, length, get_or, set};
ghost use Rattle.tables.specs.Shape.{shape, most_heaps, row_of, base_of, class_placed, class_heap};
ghost use Rattle.tables.specs.Lent.{cells, SameLent};
ghost use Rattle.tables.specs.Cells.{bitmap_cell, span_cell, head_cell, entry_of, entry_span, entry_slot};

use size_classes::SlotSizes;
use std::marker::Model;

// The tables that a call is lent, and how many spans are used.
#[derive(Drop)]
pub struct LentTables<'a> {
    pub bits: &'a mut [u64],
    pub spans: &'a mut [u64],
    pub entries: &'a mut [u64],
    pub heads: &'a mut [u64],
    pub used: &'a mut u64,
}

impl<'a> LentTables<'a> {
    // The tables, to be read.
    pub fn view(&self) -> TablesView
        ensures { result ≡ cells self.now }
    {
        TablesView {
            bits: self.bits,
            spans: self.spans,
            entries: self.entries,
            heads: self.heads,
            used: *self.used,
        }
    }

    // One of the tables, to be read.
    pub fn bits(&self) -> &[u64]
        ensures { result.now ≡ self.now.bits.now }
    {
        self.bits
    }

    pub fn spans(&self) -> &[u64]
        ensures { result.now ≡ self.now.spans.now }
    {
        self.spans
    }

    pub fn entries(&self) -> &[u64]
        ensures { result.now ≡ self.now.entries.now }
    {
        self.entries
    }

    pub fn heads(&self) -> &[u64]
        ensures { result.now ≡ self.now.heads.now }
    {
        self.heads
    }
}

// The tables that a call only reads, which a contract sees as their cells.
#[derive(Drop)]
pub struct TablesView<'a> {
    pub bits: &'a [u64],
    pub spans: &'a [u64],
    pub entries: &'a [u64],
    pub heads: &'a [u64],
    pub used: u64,
}

impl<'a> Model for TablesView<'a> {
    ghost use Rattle.tables.specs.Cells.{Tables, tables};

    ghost Value = { Tables };

    ghost view = { λ v. tables v.bits.now v.spans.now v.entries.now v.heads.now v.used };
}

// What a table is made for: slot sizes, the most spans of any table, and this table's heaps and spans.
#[derive(Drop)]
pub struct Shape<'a> {
    pub sizes: &'a SlotSizes<'a>,
    pub most: u64,
    pub heaps: u64,
    pub spans: u64,
}

impl<'a> Model for Shape<'a> {
    ghost use Rattle.tables.specs.Shape.{Shape, shape};

    ghost Value = { Shape };

    ghost view = { λ g. shape g.sizes.now g.most g.heaps g.spans };
}

// One class of one heap: its numbers, the row of its list heads and the base of its magazine.
#[derive(Clone, Copy)]
pub struct ClassHeap {
    pub class: u64,
    pub owner: u64,
    pub slot: u64,
    pub slots: u64,
    pub capacity: u64,
    pub low: u64,
    pub row: u64,
    pub base: u64,
}

// The lists of a class of a heap, and its reserve, which is a list of one.
#[derive(Clone, Copy, Debug, PartialEq, Eq)]
pub enum SpanList {
    Partial = 0,
    Full = 1,
    Empty = 2,
    Reserve = 3,
}

// How many cells a span has among the bitmap words and among the records, and a class of a heap among the heads.
pub const BITMAP_CELLS: u64 = 130;

pub const RECORD_CELLS: u64 = 5;

pub const HEAD_CELLS: u64 = 5;

// The bitmap words of a span: which are the summaries, and where the words of each side begin.
pub const LOCAL_SUMMARY: u64 = 0;

pub const LOCAL_WORDS: u64 = 1;

pub const REMOTE_SUMMARY: u64 = 65;

pub const REMOTE_WORDS: u64 = 66;

// The cells of a span's record, and the count of a magazine among the heads.
pub const CLASS: u64 = 0;

pub const OWNER: u64 = 1;

pub const OCCUPIED: u64 = 2;

pub const PREVIOUS: u64 = 3;

pub const NEXT: u64 = 4;

pub const COUNTER: u64 = 4;

const MOST_SLOTS: u64 = 4096;

// Where the cells stand: word i of span s, field f of its record, head f of a row.
pub fn bitmap_cell(s: u64, i: u64) -> u64
    requires { bitmap_cell s i < 2 ^ 64 }
    ensures { result ≡ bitmap_cell s i }
{
    s * BITMAP_CELLS + i
}

pub fn span_cell(s: u64, f: u64) -> u64
    requires { span_cell s f < 2 ^ 64 }
    ensures { result ≡ span_cell s f }
{
    s * RECORD_CELLS + f
}

fn head_cell(row: u64, f: u64) -> u64
    requires { head_cell row f < 2 ^ 64 }
    ensures { result ≡ head_cell row f }
{
    row * HEAD_CELLS + f
}

// Cell i of the bitmap words of span s.
pub fn word(bits: &[u64], s: u64, i: u64) -> u64
    requires { bitmap_cell s i < length bits.now }
    ensures { result ≡ get_or bits.now (bitmap_cell s i) 0 }
{
    let at = bitmap_cell(s, i) as usize;
    bits[at]
}

pub fn put_word(bits: &mut [u64], s: u64, i: u64, v: u64)
    requires { bitmap_cell s i < length bits.old }
    ensures { bits.new ≡ set bits.old (bitmap_cell s i) v }
{
    let at = bitmap_cell(s, i) as usize;
    bits[at] = v;
}

// Field f of the record of span s.
pub fn field(spans: &[u64], s: u64, f: u64) -> u64
    requires { span_cell s f < length spans.now }
    ensures { result ≡ get_or spans.now (span_cell s f) 0 }
{
    let at = span_cell(s, f) as usize;
    spans[at]
}

pub fn put_field(spans: &mut [u64], s: u64, f: u64, v: u64)
    requires { span_cell s f < length spans.old }
    ensures { spans.new ≡ set spans.old (span_cell s f) v }
{
    let at = span_cell(s, f) as usize;
    spans[at] = v;
}

// Head f of a row: a list's front, the reserve or the count.
pub fn head(heads: &[u64], row: u64, f: u64) -> u64
    requires { head_cell row f < length heads.now }
    ensures { result ≡ get_or heads.now (head_cell row f) 0 }
{
    let at = head_cell(row, f) as usize;
    heads[at]
}

pub fn put_head(heads: &mut [u64], row: u64, f: u64, v: u64)
    requires { head_cell row f < length heads.old }
    ensures { heads.new ≡ set heads.old (head_cell row f) v }
{
    let at = head_cell(row, f) as usize;
    heads[at] = v;
}

// Entry i of the magazine whose entries begin at base.
pub fn entry(entries: &[u64], base: u64, i: u64) -> u64
    requires { base + i < length entries.now }
    ensures { result ≡ get_or entries.now (base + i) 0 }
{
    let at = (base + i) as usize;
    entries[at]
}

pub fn put_entry(entries: &mut [u64], base: u64, i: u64, v: u64)
    requires { base + i < length entries.old }
    ensures { entries.new ≡ set entries.old (base + i) v }
{
    let at = (base + i) as usize;
    entries[at] = v;
}

// The entry of slot q of span s, and back.
pub fn entry_of(s: u64, q: u64) -> u64
    requires { entry_of s q < 2 ^ 64 }
    ensures { result ≡ entry_of s q }
{
    s * MOST_SLOTS + q
}

pub fn entry_span(e: u64) -> u64
    ensures { result ≡ entry_span e }
{
    e / MOST_SLOTS
}

pub fn entry_slot(e: u64) -> u64
    ensures { result ≡ entry_slot e }
{
    e % MOST_SLOTS
}

// The row of heads of a class of a heap.
fn row_of(sizes: &SlotSizes, heap: u64, class: u64) -> u64
    requires { (heap < most_heaps) × (class < length sizes.now) }
    ensures { (most heaps spans : ℕ) → result ≡ row_of (shape sizes.now most heaps spans) heap class }
{
    heap * sizes.classes() + class
}

// Where the magazine of a class of a heap begins among all entries.
fn base_of(sizes: &SlotSizes, heap: u64, class: u64) -> u64
    requires { (heap < most_heaps) × (class < length sizes.now) }
    ensures { (most heaps spans : ℕ) → result ≡ base_of (shape sizes.now most heaps spans) heap class }
{
    heap * magazine_layout::entries_per_heap(sizes) + magazine_layout::magazine_offset(sizes, class)
}

// One class of one heap, where its row and the base of its magazine are at hand.
pub fn class_at(sizes: &SlotSizes, heap: u64, class: u64, row: u64, base: u64) -> ClassHeap
    requires { class < length sizes.now }
    ensures placed { result ≡ class_placed sizes.now heap class row base }
    ensures home { (most heaps n : ℕ) → row ≡ row_of (shape sizes.now most heaps n) heap class → base ≡ base_of (shape sizes.now most heaps n) heap class → result ≡ class_heap (shape sizes.now most heaps n) heap class }
{
    let slot = sizes.slot(class);
    let capacity = magazine_layout::capacity_for(slot);
    ClassHeap {
        class,
        owner: heap,
        slot,
        slots: size_classes::slots_per_span(slot),
        capacity,
        low: magazine_layout::low_water_for(capacity),
        row,
        base,
    }
}

// One class of one heap, by the lent slot sizes.
pub fn class_heap(sizes: &SlotSizes, heap: u64, class: u64) -> ClassHeap
    requires { (heap < most_heaps) × (class < length sizes.now) }
    ensures { (most heaps spans : ℕ) → result ≡ class_heap (shape sizes.now most heaps spans) heap class }
{
    let row = row_of(sizes, heap, class);
    let base = base_of(sizes, heap, class);
    class_at(sizes, heap, class, row, base)
}
