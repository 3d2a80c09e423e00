// Where a heap's magazines stand among its entries: capacity, low water and offset of each class.
#![tactic(auto)]

ghost use Rattle.std.specs.Prelude.{◌≡◌, ◌<◌, ◌≤◌, length};
ghost use Rattle.size_classes.specs.SlotSizes.{Admissible};
ghost use Rattle.magazine_layout.specs.Layout.{capacity_for, low_water_for, magazine_offset, entries_per_heap};

use size_classes::SlotSizes;

const MAGAZINE_BYTES: u64 = 4096;

const LEAST_CAPACITY: u64 = 8;

const MOST_CAPACITY: u64 = 64;

// How many entries the magazine of a slot size holds.
pub fn capacity_for(slot: u64) -> u64
    requires { 0 < slot }
    ensures { result ≡ capacity_for slot }
{
    (MAGAZINE_BYTES / slot).clamp(LEAST_CAPACITY, MOST_CAPACITY)
}

// The count at which a magazine is refilled.
pub fn low_water_for(capacity: u64) -> u64
    ensures { result ≡ low_water_for capacity }
{
    capacity / 4
}

// Where the magazine of class c begins among its heap's entries.
pub fn magazine_offset(sizes: &SlotSizes, c: u64) -> u64
    requires { c ≤ length sizes.now }
    ensures { result ≡ magazine_offset sizes.now c }
{
    let mut offset: u64 = 0;
    for class in 0..c {
        offset += capacity_for(sizes.slot(class));
    }
    offset
}

// How many entries the magazines of one heap have together.
pub fn entries_per_heap(sizes: &SlotSizes) -> u64
    ensures entries { result ≡ entries_per_heap sizes.now }
    ensures admissible { Admissible sizes.now }
{
    magazine_offset(sizes, sizes.classes())
}
