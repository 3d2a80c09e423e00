// Routing of frees: to the owner's magazine, or to the pending bits of the span.
#![tactic(auto)]

ghost use Rattle.std.specs.Prelude.{◌≡◌, ℕ};
ghost use Rattle.tables.specs.Cells.{tables as table};
ghost use Rattle.calls.specs.Primary.{dealloc_small};
ghost use Rattle.heap.specs.Freeable.{Freeable};

use tables::ClassHeap;

// Slot q of span s, which is out, freed by a heap; k is the span's class and owner.
pub fn dealloc_small(
    bits: &mut [u64],
    spans: &mut [u64],
    entries: &mut [u64],
    heads: &mut [u64],
    k: ClassHeap,
    heap: u64,
    s: u64,
    q: u64,
)
    requires { (n : ℕ) × (u : ℕ) × Freeable n k (table bits.old spans.old entries.old heads.old u) s q }
    ensures { (u : ℕ) → table bits.new spans.new entries.new heads.new u ≡ dealloc_small (table bits.old spans.old entries.old heads.old u) k heap s q }
{
    if k.owner == heap {
        heap::dealloc_local(bits, spans, entries, heads, k, s, q);
        return;
    }
    span::remote_free(bits, s, q);
}
