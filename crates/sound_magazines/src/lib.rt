// The check of one magazine: its count, each entry below the count, and that no entry stands there twice.
#![tactic(auto)]

ghost use Rattle.std.specs.Prelude.{◌+◌, ◌≤◌, length};
ghost use Rattle.laws.specs.Choice.{Says};
ghost use Rattle.magazine.specs.Room.{Counted};
ghost use Rattle.sound.specs.Sound.{EntrySound, MagazineSound};
ghost use Rattle.sound_spans.specs.WordSound.{UsedCells};

use tables::{CLASS, ClassHeap, LOCAL_WORDS, OWNER, REMOTE_WORDS, TablesView};

// Whether an entry is a slot of a used span of that class and heap, in range, occupied and not pending.
fn entry_sound(view: &TablesView, k: ClassHeap, e: u64) -> bool
    requires { UsedCells view.now.bits view.now.spans view.now.used }
    ensures { Says result (EntrySound view.now k e) }
{
    let bits = view.bits;
    let spans = view.spans;
    let s = tables::entry_span(e);
    if s >= view.used {
        return false;
    }
    let q = tables::entry_slot(e);
    tables::field(spans, s, CLASS) == k.class
        && tables::field(spans, s, OWNER) == k.owner
        && q < k.slots
        && bits::test_bit(tables::word(bits, s, LOCAL_WORDS + q / 64), q % 64)
        && !bits::test_bit(tables::word(bits, s, REMOTE_WORDS + q / 64), q % 64)
}

// Whether the magazine is right, left at the first entry that is not.
pub fn magazine_sound(view: &TablesView, k: ClassHeap) -> bool
    requires used_cells { UsedCells view.now.bits view.now.spans view.now.used }
    requires counted { Counted view.now.heads k }
    requires capacity_in_bounds { k.base + k.capacity ≤ length view.now.entries }
    ensures { Says result (MagazineSound view.now k) }
{
    let entries = view.entries;
    let n = magazine::count(view.heads, k);
    if n > k.capacity {
        return false;
    }
    let mut ok = true;
    'entries: for j in 0..n {
        let e = tables::entry(entries, k.base, j);
        if !entry_sound(view, k, e) {
            ok = false;
            break 'entries;
        }
        for i in 0..j {
            if tables::entry(entries, k.base, i) == e {
                ok = false;
                break 'entries;
            }
        }
    }
    ok
}
