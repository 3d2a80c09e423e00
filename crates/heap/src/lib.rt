// One heap: allocate from a class, and free by the owner.
#![tactic(auto)]

ghost use Rattle.std.specs.Prelude.{◌≡◌, ℕ, ◌<◌, ◌≤◌, length};
ghost use Rattle.size_classes.specs.SlotSizes.{largest_slot};
ghost use Rattle.magazine_layout.specs.Layout.{most_capacity};
ghost use Rattle.tables.specs.Cells.{tables as table};
ghost use Rattle.tables.specs.Lent.{cells, SameLent};
ghost use Rattle.magazine.specs.Room.{Room};
ghost use Rattle.class_heap.specs.Steps.{refilled};
ghost use Rattle.calls.specs.Outcome.{ended};
ghost use Rattle.calls.specs.Answered.{answer_of};
ghost use Rattle.calls.specs.Heap.{refill_first, draw as drawn, alloc_small, flush_first, dealloc_local};
ghost use Rattle.placing.specs.Working.{Working};
ghost use Rattle.refilling.specs.Fronts.{Fronts};
ghost use Rattle.heap.specs.Freeable.{Freeable};

use calls::Accepted;
use refusals::Refusal;
use tables::{ClassHeap, LentTables};

// The magazine refilled where its count is at or below low water; the answer is the number of words used.
fn refill_first(tables: &mut LentTables, limit: u64, k: ClassHeap, words: &[u64]) -> u64
    requires working { Working limit k (cells tables.old) }
    requires fronts { Fronts k.capacity limit (cells tables.old) k words.now 0 }
    requires capacity_in_bounds { k.capacity ≤ length words.now }
    ensures lent { SameLent tables.old tables.new }
    ensures refilled { refilled (cells tables.new) result ≡ refill_first limit (cells tables.old) k words.now }
{
    if magazine::needs_refill(tables.heads(), k) {
        return refilling::refill(tables, limit, k, words);
    }
    0
}

// A block drawn with the next word after i; refused where the magazine is empty.
fn draw(tables: &mut LentTables, k: ClassHeap, words: &[u64], i: u64) -> Result<Accepted, Refusal>
    requires room { Room tables.old.entries.now tables.old.heads.now k }
    requires i_in_bounds { (i < length words.now) × (i ≤ most_capacity) }
    requires slot_le_largest_slot { k.slot ≤ largest_slot }
    ensures lent { SameLent tables.old tables.new }
    ensures ended { ended (answer_of result) (cells tables.new) ≡ drawn (refilled (cells tables.old) i) k words.now }
{
    if magazine::count(tables.heads(), k) == 0 {
        return Err(Refusal::Exhausted);
    }
    let word = words[i as usize];
    let e = magazine::draw(tables.entries, tables.heads, k, word);
    let offset = tables::entry_slot(e) * k.slot;
    Ok(Accepted {
        span: tables::entry_span(e),
        offset,
        words: i + 1,
    })
}

// A block of the class: refill first if the count is at or below low water, then draw.
pub fn alloc_small(
    tables: &mut LentTables,
    limit: u64,
    k: ClassHeap,
    words: &[u64],
) -> Result<Accepted, Refusal>
    requires working { Working limit k (cells tables.old) }
    requires fronts { Fronts k.capacity limit (cells tables.old) k words.now 0 }
    requires capacity_in_bounds { k.capacity < length words.now }
    ensures lent { SameLent tables.old tables.new }
    ensures ended { ended (answer_of result) (cells tables.new) ≡ alloc_small limit (cells tables.old) k words.now }
{
    let i = refill_first(tables, limit, k, words);
    draw(tables, k, words, i)
}

// The magazine flushed down to low water where it is full.
fn flush_first(
    bits: &mut [u64],
    spans: &mut [u64],
    entries: &[u64],
    heads: &mut [u64],
    k: ClassHeap,
)
    requires { (n : ℕ) × (u : ℕ) × Working n k (table bits.old spans.old entries.now heads.old u) }
    ensures { (u : ℕ) → table bits.new spans.new entries.now heads.new u ≡ flush_first (table bits.old spans.old entries.now heads.old u) k }
{
    if magazine::is_full(heads, k) {
        flushing::flush(bits, spans, entries, heads, k);
    }
}

// Slot q of span s, which is out, on its owner's magazine.
pub fn dealloc_local(
    bits: &mut [u64],
    spans: &mut [u64],
    entries: &mut [u64],
    heads: &mut [u64],
    k: ClassHeap,
    s: u64,
    q: u64,
)
    requires { (n : ℕ) × (u : ℕ) × Freeable n k (table bits.old spans.old entries.old heads.old u) s q }
    ensures { (u : ℕ) → table bits.new spans.new entries.new heads.new u ≡ dealloc_local (table bits.old spans.old entries.old heads.old u) k s q }
{
    flush_first(bits, spans, entries, heads, k);
    magazine::push(entries, heads, k, tables::entry_of(s, q));
}
