// Allocate and free on a table that is known to be sound: every refusal but `NotAsStated` and `Unsound`, and no check paid.
#![tactic(auto)]

ghost use Rattle.std.specs.Prelude.{◌≡◌, ℕ};
ghost use Rattle.tables.specs.Lent.{cells, SameLent};
ghost use Rattle.calls.specs.Outcome.{ended};
ghost use Rattle.calls.specs.Answered.{answer_of};
ghost use Rattle.calls.specs.Calls.{allocate_sound, free_sound};
ghost use Rattle.sound_calls.specs.Lent.{Lent, Block, free_block};

use calls::Accepted;
use class_choice::Classes;
use refusals::Refusal;
use span::BlockState;
use tables::{CLASS, ClassHeap, LentTables, OWNER, Shape};

const WORDS_NEEDED: u64 = 65;

// An allocation on a sound table: refused in the order of the numbers, or a block.
pub fn allocate_sound(
    shape: &Shape,
    classes: &Classes,
    tables: &mut LentTables,
    heap: u64,
    size: u64,
    alignment: u64,
    words: &[u64],
) -> Result<Accepted, Refusal>
    requires sizes { classes.now ≡ shape.now.sizes }
    requires lent { Lent shape.now (cells tables.old) }
    ensures lent { SameLent tables.old tables.new }
    ensures ended { ended (answer_of result) (cells tables.new) ≡ allocate_sound shape.now (cells tables.old) heap size alignment words.now }
{
    if heap >= shape.heaps {
        return Err(Refusal::NoSuchHeap);
    }
    if (words.len() as u64) < WORDS_NEEDED {
        return Err(Refusal::TooFewWords);
    }
    let Some(class) = classes.class_of(size, alignment) else {
        return Err(Refusal::TooLarge);
    };
    let k = tables::class_heap(shape.sizes, heap, class);
    heap::alloc_small(tables, shape.spans, k, words)
}

// Slot q, which starts at the offset, freed where it is out.
fn free_block(
    tables: &mut LentTables,
    k: ClassHeap,
    heap: u64,
    span: u64,
    offset: u64,
    q: u64,
) -> Result<Accepted, Refusal>
    requires { (n : ℕ) × Block n k (cells tables.old) span q }
    ensures lent { SameLent tables.old tables.new }
    ensures ended { ended (answer_of result) (cells tables.new) ≡ free_block (cells tables.old) k heap span offset q }
{
    let state = span_steps::state_of(tables.bits(), tables.entries(), tables.heads(), k, span, q);
    match state {
        BlockState::Out => {
            primary::dealloc_small(
                tables.bits,
                tables.spans,
                tables.entries,
                tables.heads,
                k,
                heap,
                span,
                q,
            );
            Ok(Accepted {
                span,
                offset,
                words: 0,
            })
        }
        _ => Err(Refusal::NotOut),
    }
}

// A free on a sound table: refused in the order of the numbers, or done.
pub fn free_sound(
    shape: &Shape,
    tables: &mut LentTables,
    heap: u64,
    span: u64,
    offset: u64,
) -> Result<Accepted, Refusal>
    requires { Lent shape.now (cells tables.old) }
    ensures lent { SameLent tables.old tables.new }
    ensures ended { ended (answer_of result) (cells tables.new) ≡ free_sound shape.now (cells tables.old) heap span offset }
{
    if heap >= shape.heaps {
        return Err(Refusal::NoSuchHeap);
    }
    if span >= *tables.used {
        return Err(Refusal::NoSuchSlot);
    }
    let owner = tables::field(tables.spans(), span, OWNER);
    let class = tables::field(tables.spans(), span, CLASS);
    let k = tables::class_heap(shape.sizes, owner, class);
    match size_classes::slot_at(k.slot, offset) {
        Some(q) => free_block(tables, k, heap, span, offset, q),
        None => Err(Refusal::NoSuchSlot),
    }
}
