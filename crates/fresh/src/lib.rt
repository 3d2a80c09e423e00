// Whether the lent tables are as stated, and the fresh-table maker.
#![tactic(auto)]

ghost use Rattle.std.specs.Prelude.{◌≡◌, ◌^◌, ◌≤◌, length, replicate};
ghost use Rattle.refusals.specs.Numbers.{number_of};
ghost use Rattle.tables.specs.Shape.{most_heaps};
ghost use Rattle.tables.specs.Lent.{cells, SameLent};
ghost use Rattle.tables.specs.Cells.{right_shape, right_lengths, as_stated};
ghost use Rattle.tables.specs.Fresh.{numbered, fresh as freshly};

use refusals::Refusal;
use tables::{LentTables, Shape, TablesView};

const MOST_HEAPS: u64 = 16;

// Whether heaps and spans are within their limits.
#[tactic(auto, unfolding(tables::specs::Cells::right_shape, tables::specs::Shape::most_heaps))]
fn right_shape(shape: &Shape) -> bool
    ensures { result ≡ right_shape shape.now }
{
    1 <= shape.heaps && shape.heaps <= MOST_HEAPS && 1 <= shape.spans && shape.spans <= shape.most
}

// Whether each lent table is as long as heaps and spans ask.
#[tactic(auto, unfolding(tables::specs::Cells::right_lengths, tables::specs::Shape::bitmap_cells, tables::specs::Shape::record_cells, tables::specs::Shape::head_cells))]
fn right_lengths(shape: &Shape, view: &TablesView) -> bool
    requires { (shape.now.heaps ≤ most_heaps) × (shape.now.spans ≤ 2 ^ 32) }
    ensures { result ≡ right_lengths shape.now view.now }
{
    let heaps = shape.heaps;
    let spans = shape.spans;
    let sizes = shape.sizes;
    view.bits.len() as u64 == spans * tables::BITMAP_CELLS
        && view.spans.len() as u64 == spans * tables::RECORD_CELLS
        && view.entries.len() as u64 == heaps * magazine_layout::entries_per_heap(sizes)
        && view.heads.len() as u64 == heaps * sizes.classes() * tables::HEAD_CELLS
}

// Whether heaps, spans and every lent table's length are as stated.
#[tactic(auto, unfolding(tables::specs::Cells::as_stated))]
pub fn as_stated(shape: &Shape, view: &TablesView) -> bool
    requires { shape.now.most ≤ 2 ^ 32 }
    ensures { result ≡ as_stated shape.now view.now }
{
    right_shape(shape) && right_lengths(shape, view)
}

// 0 in every cell.
pub fn zero(cells: &mut [u64])
    ensures { cells.new ≡ replicate (length cells.old) 0 }
{
    cells.fill(0);
}

// Makes the lent tables anew, where they are as stated.
pub fn fresh(shape: &Shape, tables: &mut LentTables) -> Result<(), Refusal>
    requires { shape.now.most ≤ 2 ^ 32 }
    ensures lent { SameLent tables.old tables.new }
    ensures numbered { numbered (number_of result) (cells tables.new) ≡ freshly shape.now (cells tables.old) }
{
    if !as_stated(shape, &tables.view()) {
        return Err(Refusal::NotAsStated);
    }
    zero(tables.bits);
    zero(tables.spans);
    zero(tables.entries);
    zero(tables.heads);
    *tables.used = 0;
    Ok(())
}
