// Class choice: which class serves a request, by the lookup table and then by alignment.
#![tactic(auto)]

ghost use Rattle.std.specs.Prelude.{◌≡◌, ◌<◌, get_or};
ghost use Rattle.size_classes.specs.SlotSizes.{slot_sizes};
ghost use Rattle.size_classes.specs.Class.{class_of, lookup_entries};
ghost use Rattle.class_lookup.specs.Lookup.{lookup_table};
ghost use Rattle.class_choice.specs.Search.{bucket_of, aligned_from, Search};

use size_classes::SlotSizes;
use std::marker::Model;

const LEAST_ALIGNMENT: u64 = 16;

// Slot sizes and their lookup table, lent; a contract sees the sizes.
#[derive(Drop)]
pub struct Classes<'a> {
    sizes: &'a SlotSizes<'a>,
    lookup: &'a [u8; 8192],
}

impl<'a> Model for Classes<'a> {
    ghost use Rattle.std.specs.Prelude.{◌≡◌, List, ℕ};
    ghost use Rattle.class_lookup.specs.Lookup.{lookup_table};

    ghost Value = { List ℕ };

    ghost view = { λ t. t.sizes.now };

    ghost invariant = { λ t. t.lookup.now ≡ lookup_table t.sizes.now };
}

impl<'a> Classes<'a> {
    pub fn new(sizes: &'a SlotSizes<'a>, lookup: &'a [u8; 8192]) -> Self
        requires { lookup.now ≡ lookup_table sizes.now }
        ensures { result ≡ sizes.now }
    {
        Classes { sizes, lookup }
    }

    // The class of a request, if there is one.
    pub fn class_of(&self, size: u64, alignment: u64) -> Option<u64>
        ensures { result ≡ class_of self.now size alignment }
    {
        let sizes = self.sizes;
        let lookup = self.lookup;
        let last = sizes.slot(sizes.classes() - 1);
        if last < size {
            return None;
        }
        if last < alignment {
            return None;
        }
        // Each slot is a multiple of the least alignment, so of each smaller power of two.
        if alignment <= LEAST_ALIGNMENT {
            let class = entry(lookup, bucket(size));
            return Some(class);
        }
        let raised = size_classes::raise(alignment);
        let start = entry(lookup, bucket(size.max(raised)));
        let class = aligned_from(sizes, raised, start);
        Some(class)
    }
}

// The bucket of the lookup table that a size falls in.
fn bucket(size: u64) -> u64
    ensures { result ≡ bucket_of size }
{
    (size.max(LEAST_ALIGNMENT) - 1) / LEAST_ALIGNMENT
}

// Entry b of the lent lookup table.
fn entry(lookup: &[u8; 8192], b: u64) -> u64
    requires { b < lookup_entries }
    ensures { result ≡ get_or lookup.now b 0 }
{
    u64::from(lookup[b as usize])
}

// The first class from `class` on whose slot is a multiple of the alignment: the last one, if none before it.
#[tactic(auto, using(crate::proofs::ChoiceLaws::found_at))]
fn aligned_from(sizes: &SlotSizes, alignment: u64, class: u64) -> u64
    requires { Search sizes.now alignment class }
    ensures { result ≡ aligned_from sizes.now alignment class }
{
    let last = sizes.classes() - 1;
    for k in class..last {
        if sizes.slot(k) % alignment == 0 {
            return k;
        }
    }
    last
}

// The class of a request, over the 48 slot sizes.
pub fn from_layout(size: u64, alignment: u64) -> Option<u64>
    ensures { result ≡ class_of slot_sizes size alignment }
{
    let list = size_classes::slot_sizes();
    let lookup = class_lookup::made();
    let sizes = SlotSizes::new(&list);
    Classes::new(&sizes, &lookup).class_of(size, alignment)
}
