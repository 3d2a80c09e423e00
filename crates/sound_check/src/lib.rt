// The check of a whole table: every used span, and the lists and the magazine of every class of every heap.
#![tactic(auto)]

ghost use Rattle.std.specs.Prelude.{◌≡◌, ◌<◌, ◌≤◌};
ghost use Rattle.laws.specs.Choice.{Says};
ghost use Rattle.tables.specs.Shape.{most_heaps, classes};
ghost use Rattle.tables.specs.Stated.{RightLengths};
ghost use Rattle.sound.specs.Decided.{is_sound};
ghost use Rattle.sound_check.specs.Joined.{RowCells, RowsSound};

use tables::{Shape, TablesView};

// Whether the lists and the magazine of every class of every heap are right, and the lists hold as many spans as are used.
fn rows_sound(shape: &Shape, view: &TablesView) -> bool
    requires { RowCells shape.now view.now }
    ensures some_class { 0 < classes shape.now }
    ensures rows { Says result (RowsSound shape.now view.now) }
{
    let used = view.used;
    let sizes = shape.sizes;
    let classes = sizes.classes();
    let rows = shape.heaps * classes;
    let mut total: u64 = 0;
    let mut base: u64 = 0;
    for r in 0..rows {
        let k = tables::class_at(sizes, r / classes, r % classes, r, base);
        let Some(met) = sound_lists::class_met(view, k) else {
            return false;
        };
        if !sound_magazines::magazine_sound(view, k) {
            return false;
        }
        total += met;
        base += k.capacity;
    }
    total == used
}

// Whether the table is sound.
pub fn is_sound(shape: &Shape, view: &TablesView) -> bool
    requires heaps_le_most_heaps { shape.now.heaps ≤ most_heaps }
    requires right_lengths { RightLengths shape.now view.now }
    ensures { result ≡ is_sound shape.now view.now }
{
    view.used <= shape.spans && sound_spans::spans_filled(shape, view) && rows_sound(shape, view)
}
