// The public calls: fresh, allocate, free, batch and class summary, with every refusal.
#![tactic(auto)]

ghost use Rattle.std.specs.Prelude.{◌≡◌};
ghost use Rattle.refusals.specs.Numbers.{number_of};
ghost use Rattle.tables.specs.Shape.{base_shape};
ghost use Rattle.tables.specs.Lent.{cells, SameLent};
ghost use Rattle.tables.specs.Fresh.{numbered, fresh as freshly};
ghost use Rattle.calls.specs.Outcome.{ended};
ghost use Rattle.calls.specs.Answered.{answer_of};
ghost use Rattle.calls.specs.Calls.{allocate as allocated, free as released};
ghost use Rattle.calls.specs.Batch.{batched, batch as performed};
ghost use Rattle.calls.specs.Summary.{summed, summary as summarised};

use calls::Accepted;
use class_choice::Classes;
use refusals::Refusal;
use size_classes::SlotSizes;
use tables::{LentTables, Shape, TablesView};

const MOST_SPANS: u64 = 1024;

// The tables lent become a fresh table of so many heaps and spans, whatever stood there; nothing is written where a number or a length is not as stated.
pub fn fresh(heaps: u64, spans: u64, tables: &mut LentTables) -> Result<(), Refusal>
    ensures lent { SameLent tables.old tables.new }
    ensures numbered { numbered (number_of result) (cells tables.new) ≡ freshly (base_shape heaps spans) (cells tables.old) }
{
    let list = size_classes::slot_sizes();
    let sizes = SlotSizes::new(&list);
    let shape = Shape {
        sizes: &sizes,
        most: MOST_SPANS,
        heaps,
        spans,
    };
    fresh::fresh(&shape, tables)
}

// A block for a request by a heap, with the words lent; a refusal changes nothing.
pub fn allocate(
    heaps: u64,
    spans: u64,
    tables: &mut LentTables,
    heap: u64,
    size: u64,
    alignment: u64,
    words: &[u64],
) -> Result<Accepted, Refusal>
    ensures lent { SameLent tables.old tables.new }
    ensures ended { ended (answer_of result) (cells tables.new) ≡ allocated (base_shape heaps spans) (cells tables.old) heap size alignment words.now }
{
    let list = size_classes::slot_sizes();
    let sizes = SlotSizes::new(&list);
    let shape = Shape {
        sizes: &sizes,
        most: MOST_SPANS,
        heaps,
        spans,
    };
    guard::check(&shape, &tables.view())?;
    let lookup = class_lookup::made();
    let classes = Classes::new(&sizes, &lookup);
    sound_calls::allocate_sound(&shape, &classes, tables, heap, size, alignment, words)
}

// A block given back by a heap; a refusal changes nothing.
pub fn free(
    heaps: u64,
    spans: u64,
    tables: &mut LentTables,
    heap: u64,
    span: u64,
    offset: u64,
) -> Result<Accepted, Refusal>
    ensures lent { SameLent tables.old tables.new }
    ensures ended { ended (answer_of result) (cells tables.new) ≡ released (base_shape heaps spans) (cells tables.old) heap span offset }
{
    let list = size_classes::slot_sizes();
    let sizes = SlotSizes::new(&list);
    let shape = Shape {
        sizes: &sizes,
        most: MOST_SPANS,
        heaps,
        spans,
    };
    guard::check(&shape, &tables.view())?;
    sound_calls::free_sound(&shape, tables, heap, span, offset)
}

// The records of a batch answered in order, three numbers each; a refusal of the whole writes no answer.
pub fn batch(
    heaps: u64,
    spans: u64,
    tables: &mut LentTables,
    bytes: &[u8],
    answers: &mut [u64],
) -> Result<(), Refusal>
    ensures lent { SameLent tables.old tables.new }
    ensures batched { batched (number_of result) answers.new (cells tables.new) ≡ performed (base_shape heaps spans) (cells tables.old) bytes.now answers.old }
{
    let list = size_classes::slot_sizes();
    let sizes = SlotSizes::new(&list);
    let shape = Shape {
        sizes: &sizes,
        most: MOST_SPANS,
        heaps,
        spans,
    };
    let view = tables.view();
    if !fresh::as_stated(&shape, &view) {
        return Err(Refusal::NotAsStated);
    }
    if !batching::whole_records(bytes, answers) {
        return Err(Refusal::NotWhole);
    }
    guard::check(&shape, &view)?;
    let lookup = class_lookup::made();
    let classes = Classes::new(&sizes, &lookup);
    batching::batch_sound(&shape, &classes, tables, bytes, answers);
    Ok(())
}

// Five numbers a class, over all heaps; a refusal leaves the records as they were.
pub fn summary(heaps: u64, spans: u64, view: &TablesView, out: &mut [u64]) -> Result<(), Refusal>
    ensures { summed (number_of result) out.new ≡ summarised (base_shape heaps spans) view.now out.old }
{
    let list = size_classes::slot_sizes();
    let sizes = SlotSizes::new(&list);
    let shape = Shape {
        sizes: &sizes,
        most: MOST_SPANS,
        heaps,
        spans,
    };
    summing::summary(&shape, view, out)
}
