// The check of soundness as C calls it: for the tests by damage and for the benchmark.
#![tactic(auto)]

ghost use Rattle.std.specs.Prelude.{◌≡◌};
ghost use Rattle.tables.specs.Shape.{base_shape};
ghost use Rattle.tables.specs.Cells.{tables as table};
ghost use Rattle.guard.specs.Guard.{sound_number};

use size_classes::SlotSizes;
use tables::{Shape, TablesView};

const MOST_SPANS: u64 = 1024;

// 0 where the table lent is sound, 2 where it is unsound, 1 where heaps, spans or a length is not as stated.
#[unsafe(no_mangle)]
pub extern "C" fn laggersten_leaf_sound(
    heaps: u64,
    spans: u64,
    bits: &[u64],
    records: &[u64],
    entries: &[u64],
    heads: &[u64],
    used: u64,
) -> u64
    ensures { result ≡ sound_number (base_shape heaps spans) (table bits.now records.now entries.now heads.now used) }
{
    let list = size_classes::slot_sizes();
    let sizes = SlotSizes::new(&list);
    let shape = Shape {
        sizes: &sizes,
        most: MOST_SPANS,
        heaps,
        spans,
    };
    let view = TablesView {
        bits,
        spans: records,
        entries,
        heads,
        used,
    };
    refusals::number_of(guard::check(&shape, &view))
}
