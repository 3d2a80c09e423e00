// The public calls as C calls them: for the comparison of every answer and cell with the original.
#![tactic(auto)]

ghost use Rattle.std.specs.Prelude.{◌≡◌};
ghost use Rattle.tables.specs.Shape.{base_shape};
ghost use Rattle.tables.specs.Cells.{tables as table};
ghost use Rattle.tables.specs.Fresh.{numbered, fresh as freshly};
ghost use Rattle.calls.specs.Outcome.{ended};
ghost use Rattle.calls.specs.Calls.{allocate as allocated, free as released};

use calls::Answer;
use tables::LentTables;

// The tables lent become a fresh table of so many heaps and spans; 1 where a number or a length is not as stated, and nothing is written.
#[unsafe(no_mangle)]
pub extern "C" fn laggersten_leaf_new(
    heaps: u64,
    spans: u64,
    bits: &mut [u64],
    records: &mut [u64],
    entries: &mut [u64],
    heads: &mut [u64],
    used: &mut u64,
) -> u64
    ensures { numbered result (table bits.new records.new entries.new heads.new used.new) ≡ freshly (base_shape heaps spans) (table bits.old records.old entries.old heads.old used.old) }
{
    let mut tables = LentTables {
        bits,
        spans: records,
        entries,
        heads,
        used,
    };
    refusals::number_of(laggersten::fresh(heaps, spans, &mut tables))
}

// A block for a request by a heap, with the words lent; a refusal changes nothing.
#[unsafe(no_mangle)]
pub extern "C" fn laggersten_leaf_allocate(
    heaps: u64,
    spans: u64,
    bits: &mut [u64],
    records: &mut [u64],
    entries: &mut [u64],
    heads: &mut [u64],
    used: &mut u64,
    heap: u64,
    size: u64,
    alignment: u64,
    words: &[u64],
) -> Answer
    ensures { ended result (table bits.new records.new entries.new heads.new used.new) ≡ allocated (base_shape heaps spans) (table bits.old records.old entries.old heads.old used.old) heap size alignment words.now }
{
    let mut tables = LentTables {
        bits,
        spans: records,
        entries,
        heads,
        used,
    };
    let answer = laggersten::allocate(heaps, spans, &mut tables, heap, size, alignment, words);
    Answer::from(answer)
}

// A block given back by a heap; a refusal changes nothing.
#[unsafe(no_mangle)]
pub extern "C" fn laggersten_leaf_free(
    heaps: u64,
    spans: u64,
    bits: &mut [u64],
    records: &mut [u64],
    entries: &mut [u64],
    heads: &mut [u64],
    used: &mut u64,
    heap: u64,
    span: u64,
    offset: u64,
) -> Answer
    ensures { ended result (table bits.new records.new entries.new heads.new used.new) ≡ released (base_shape heaps spans) (table bits.old records.old entries.old heads.old used.old) heap span offset }
{
    let mut tables = LentTables {
        bits,
        spans: records,
        entries,
        heads,
        used,
    };
    let answer = laggersten::free(heaps, spans, &mut tables, heap, span, offset);
    Answer::from(answer)
}
