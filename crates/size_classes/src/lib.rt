// Size classes: the slot sizes, how an alignment is raised, how many slots a span has, and which slot starts at an offset.
// Which class serves a request is chosen in `class_choice`, by the table of `class_lookup`.
#![tactic(auto)]

ghost use Rattle.std.specs.Prelude.{◌≡◌, ◌<◌, ◌≤◌, ◌^◌, length};
ghost use Rattle.size_classes.specs.SlotSizes.{slot_sizes, slot_size, largest_slot, Admissible};
ghost use Rattle.size_classes.specs.Class.{raised};
ghost use Rattle.size_classes.specs.Slots.{slots_per_span, span_length, slot_at};

use std::marker::Model;

// Slot sizes that are lent: an admissible list, which a contract sees as that list.
#[derive(Drop)]
pub struct SlotSizes<'a> {
    list: &'a [u64],
}

impl<'a> Model for SlotSizes<'a> {
    ghost use Rattle.std.specs.Prelude.{List, ℕ};
    ghost use Rattle.size_classes.specs.SlotSizes.{Admissible};

    ghost Value = { List ℕ };

    ghost view = { λ s. s.list.now };

    ghost invariant = { λ s. Admissible s.list.now };
}

impl<'a> SlotSizes<'a> {
    pub fn new(list: &'a [u64]) -> Self
        requires { Admissible list.now }
        ensures { result ≡ list.now }
    {
        SlotSizes { list }
    }

    // How many classes there are.
    pub fn classes(&self) -> u64
        ensures count { result ≡ length self.now }
        ensures admissible { Admissible self.now }
    {
        self.list.len() as u64
    }

    // The slot size of a class.
    pub fn slot(&self, class: u64) -> u64
        requires { class < length self.now }
        ensures size { result ≡ slot_size self.now class }
        ensures admissible { Admissible self.now }
    {
        let list = self.list;
        list[class as usize]
    }
}

const LARGEST_SLOT: u64 = 131072;

const FEWEST_SLOTS: u64 = 8;

const MOST_SLOTS: u64 = 4096;

const SIZES: [u64; 48] = [
    16, 32, 48, 64, 80, 96, 112, 128, 160, 192, 224, 256, 320, 384, 448, 512, 640, 768, 896, 1024,
    1280, 1536, 1792, 2048, 2560, 3072, 3584, 4096, 5120, 6144, 7168, 8192, 10240, 12288, 14336,
    16384, 20480, 24576, 28672, 32768, 40960, 49152, 57344, 65536, 81920, 98304, 114688, 131072,
];

// The slot sizes of the 48 classes: made once by a caller, and lent.
pub fn slot_sizes() -> [u64; 48]
    ensures { result ≡ slot_sizes }
{
    SIZES
}

// The smallest power of two that is not below the alignment.
pub fn raise(alignment: u64) -> u64
    requires { alignment ≤ 2 ^ 63 }
    ensures { result ≡ raised alignment }
{
    alignment.next_power_of_two()
}

// How many slots a span has.
pub fn slots_per_span(slot: u64) -> u64
    requires { 0 < slot }
    ensures { result ≡ slots_per_span slot }
{
    (LARGEST_SLOT / slot).clamp(FEWEST_SLOTS, MOST_SLOTS)
}

// How long a span is, in bytes.
pub fn span_length(slot: u64) -> u64
    requires { (0 < slot) × (slot ≤ largest_slot) }
    ensures { result ≡ span_length slot }
{
    slots_per_span(slot) * slot
}

// The slot that starts at the offset, if one does.
pub fn slot_at(slot: u64, offset: u64) -> Option<u64>
    requires { 0 < slot }
    ensures { result ≡ slot_at slot offset }
{
    if offset % slot != 0 {
        return None;
    }
    let q = offset / slot;
    if q < slots_per_span(slot) {
        Some(q)
    } else {
        None
    }
}
