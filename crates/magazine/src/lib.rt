// The magazine of one class of one heap: push, pop, draw, and whether an entry is cached.
#![tactic(auto)]

ghost use Rattle.std.specs.Prelude.{◌≡◌, List, ℕ, ◌<◌};
ghost use Rattle.tables.specs.Cells.{tables as table, entry_at};
ghost use Rattle.magazine.specs.Magazine.{needs_refill, is_full, push_entry, top_entry, pop_entry, drawn_at, draw_entry, is_cached};
ghost use Rattle.magazine.specs.Room.{count_in, Counted, Room};

use tables::{COUNTER, ClassHeap};

// How many entries the magazine has.
pub fn count(heads: &[u64], k: ClassHeap) -> u64
    requires { Counted heads.now k }
    ensures { result ≡ count_in heads.now k }
{
    tables::head(heads, k.row, COUNTER)
}

// Whether the magazine is refilled before a draw.
pub fn needs_refill(heads: &[u64], k: ClassHeap) -> bool
    requires { Counted heads.now k }
    ensures { (b p e : List ℕ) (u : ℕ) → result ≡ needs_refill (table b p e heads.now u) k }
{
    count(heads, k) <= k.low
}

// Whether the magazine has no room left.
pub fn is_full(heads: &[u64], k: ClassHeap) -> bool
    requires { Counted heads.now k }
    ensures { (b p e : List ℕ) (u : ℕ) → result ≡ is_full (table b p e heads.now u) k }
{
    count(heads, k) == k.capacity
}

// An entry on the top.
pub fn push(entries: &mut [u64], heads: &mut [u64], k: ClassHeap, e: u64)
    requires room { Room entries.old heads.old k }
    requires k_bound { count_in heads.old k < k.capacity }
    ensures { (b p : List ℕ) (u : ℕ) → table b p entries.new heads.new u ≡ push_entry (table b p entries.old heads.old u) k e }
{
    let c = count(heads, k);
    tables::put_entry(entries, k.base, c, e);
    tables::put_head(heads, k.row, COUNTER, c + 1);
}

// The top entry.
pub fn top(entries: &[u64], heads: &[u64], k: ClassHeap) -> u64
    requires room { Room entries.now heads.now k }
    requires k_nonzero { 0 < count_in heads.now k }
    ensures { (b p : List ℕ) (u : ℕ) → result ≡ top_entry (table b p entries.now heads.now u) k }
{
    tables::entry(entries, k.base, count(heads, k) - 1)
}

// The magazine without its top entry, whose cell keeps its value.
pub fn lower(heads: &mut [u64], k: ClassHeap)
    requires counted { Counted heads.old k }
    requires k_nonzero { 0 < count_in heads.old k }
    ensures { (b p e : List ℕ) (u : ℕ) → table b p e heads.new u ≡ pop_entry (table b p e heads.old u) k }
{
    let top = count(heads, k) - 1;
    tables::put_head(heads, k.row, COUNTER, top);
}

// The top entry leaves, and its cell keeps its value.
pub fn pop(entries: &[u64], heads: &mut [u64], k: ClassHeap) -> u64
    requires room { Room entries.now heads.old k }
    requires k_nonzero { 0 < count_in heads.old k }
    ensures by_index { (b p : List ℕ) (u : ℕ) → result ≡ top_entry (table b p entries.now heads.old u) k }
    ensures by_index_2 { (b p : List ℕ) (u : ℕ) → table b p entries.now heads.new u ≡ pop_entry (table b p entries.now heads.old u) k }
{
    let e = top(entries, heads, k);
    lower(heads, k);
    e
}

// The entry at (word mod count) leaves, and the top entry fills its place.
pub fn draw(entries: &mut [u64], heads: &mut [u64], k: ClassHeap, word: u64) -> u64
    requires room { Room entries.old heads.old k }
    requires k_nonzero { 0 < count_in heads.old k }
    ensures by_index { (b p : List ℕ) (u : ℕ) → result ≡ entry_at (table b p entries.old heads.old u) k (drawn_at (table b p entries.old heads.old u) k word) }
    ensures by_index_2 { (b p : List ℕ) (u : ℕ) → table b p entries.new heads.new u ≡ draw_entry (table b p entries.old heads.old u) k word }
{
    let c = count(heads, k);
    let at = word % c;
    let drawn = tables::entry(entries, k.base, at);
    let top = tables::entry(entries, k.base, c - 1);
    tables::put_entry(entries, k.base, at, top);
    tables::put_head(heads, k.row, COUNTER, c - 1);
    drawn
}

// Whether an entry stands below the count.
pub fn is_cached(entries: &[u64], heads: &[u64], k: ClassHeap, e: u64) -> bool
    requires { Room entries.now heads.now k }
    ensures { (b p : List ℕ) (u : ℕ) → result ≡ is_cached (table b p entries.now heads.now u) k e }
{
    let end = k.base + count(heads, k);
    entries[k.base as usize..end as usize].contains(&e)
}
