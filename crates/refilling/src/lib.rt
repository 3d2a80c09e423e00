// The refill of a magazine, claim by claim, until it is full or no span can be had.
#![tactic(auto)]

ghost use Rattle.std.specs.Prelude.{◌≡◌, ◌≤◌, length};
ghost use Rattle.tables.specs.Lent.{cells, SameLent};
ghost use Rattle.class_heap.specs.Steps.{refilled, refill as refills};
ghost use Rattle.placing.specs.Working.{Working};
ghost use Rattle.refilling.specs.Fronts.{Fronts};

use tables::{ClassHeap, LentTables, SpanList};

// Claims until the magazine is full, each with the next word; the answer is the number of words used.
pub fn refill(tables: &mut LentTables, limit: u64, k: ClassHeap, words: &[u64]) -> u64
    requires working { Working limit k (cells tables.old) }
    requires fronts { Fronts k.capacity limit (cells tables.old) k words.now 0 }
    requires capacity_in_bounds { k.capacity ≤ length words.now }
    ensures lent { SameLent tables.old tables.new }
    ensures refilled { refilled (cells tables.new) result ≡ refills k.capacity limit (cells tables.old) k words.now 0 }
{
    for i in 0..k.capacity {
        if magazine::count(tables.heads(), k) >= k.capacity {
            return i;
        }
        replenishing::replenish(
            tables.bits,
            tables.spans,
            tables.heads,
            tables.used,
            limit,
            k,
        );
        if linked_list::front(tables.heads(), k.row, SpanList::Partial as u64) == 0 {
            return i;
        }
        claiming::claim_front(
            tables.bits,
            tables.spans,
            tables.entries,
            tables.heads,
            k,
            words[i as usize],
        );
    }
    k.capacity
}
