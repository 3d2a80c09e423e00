// One span's occupancy by value: a fresh one, a claim, releases, and the fold of pending frees. A set bit is a slot that is taken.
#![tactic(auto)]

ghost use Rattle.std.specs.Prelude.{◌≡◌, ℕ, ◌-◌, ◌%◌, ◌^◌, ◌≤◌, ◌<◌, length};
ghost use Rattle.occupancy.specs.Occupied.{window_of, fresh_of, claim, release_slot, release_slots_by_word, fold_in};
ghost use Rattle.occupancy.specs.Right.{is_taken, Right, Held, Pending, first_clear};

// "64 words and a summary word", and how many slots are taken.
#[derive(Clone, Copy)]
pub struct Occupancy {
    pub summary: u64,
    pub words: [u64; 64],
    pub count: u64,
}

// What a claim gives: nothing, or the slots of a mask in one word.
#[derive(Clone, Copy)]
pub enum Claimed {
    Nothing,
    Taken { word: u64, mask: u64 },
}

// A claim's answer, with the state beside it.
#[derive(Clone, Copy)]
pub struct Claim {
    pub answer: Claimed,
    pub occupancy: Occupancy,
}

// The first word with room, cyclically from word random mod 64 on: the free words are the zero bits of the summary.
fn free_word(summary: u64, random: u64) -> u64
    requires { summary < 2 ^ 64 - 1 }
    ensures { result ≡ first_clear summary (random % 64) % 64 }
{
    let word_rotation = random % 64;
    let turned = bits::rotate_right(!summary, word_rotation);
    (word_rotation + u64::from(turned.trailing_zeros())) % 64
}

// The free slots of a word, all of them where they are at most max; else a window of max: rotate, take the lowest, rotate back.
fn window(word: u64, max: u64, rotation: u64) -> u64
    requires { rotation < 64 }
    ensures { result ≡ window_of word max rotation }
{
    let free = !word;
    if bits::count(free) <= max {
        return free;
    }
    let rotated = bits::rotate_right(free, rotation);
    bits::rotate_left(bits::deposit(max, rotated), rotation)
}

impl Occupancy {
    // A span of so many slots, none taken: the words past the last slot are full, and the partial word keeps its low slots free.
    pub fn fresh(slots: u64) -> Self
        requires { slots ≤ 4096 }
        ensures { result ≡ fresh_of slots }
    {
        let full_words = (slots / 64) as usize;
        let mut words = [0u64; 64];
        words[full_words..].fill(u64::MAX);
        if full_words < 64 {
            words[full_words] = u64::MAX << (slots % 64);
        }
        Occupancy {
            summary: bits::ones_from((slots + 63) / 64),
            words,
            count: 0,
        }
    }

    // Up to max free slots of the first word with room from a random one on.
    pub fn claim_up_to(self, max: u64, random: u64) -> Claim
        requires { (slots : ℕ) × Right slots self }
        ensures { result ≡ claim self max random }
    {
        let summary = self.summary;
        if max == 0 || summary == u64::MAX {
            return Claim {
                answer: Claimed::Nothing,
                occupancy: self,
            };
        }
        let i = free_word(summary, random);
        let mut words = self.words;
        let word = words[i as usize];
        let mask = window(word, max, random / 64 % 64);
        let next = word | mask;
        words[i as usize] = next;
        let count = self.count + bits::count(mask);
        let summary = if next == u64::MAX {
            bits::set_bit(summary, i)
        } else {
            summary
        };
        Claim {
            answer: Claimed::Taken { word: i, mask },
            occupancy: Occupancy {
                summary,
                words,
                count,
            },
        }
    }

    // The slot is free again.
    pub fn release_slot(self, slot: u64) -> Self
        requires { (slot < 4096) × (0 < self.count) }
        ensures { result ≡ release_slot self slot }
    {
        let word = slot / 64;
        let i = word as usize;
        let mut words = self.words;
        words[i] = bits::clear_bit(words[i], slot % 64);
        Occupancy {
            summary: bits::clear_bit(self.summary, word),
            words,
            count: self.count - 1,
        }
    }

    // The slots `freed` of one word, all of them taken, are free again.
    pub fn release_slots_by_word(self, word: u64, freed: u64) -> Self
        requires { (slots : ℕ) × (Right slots self × Held slots self word freed) }
        ensures { result ≡ release_slots_by_word self word freed }
    {
        if freed == 0 {
            return self;
        }
        let i = word as usize;
        let mut words = self.words;
        words[i] &= !freed;
        Occupancy {
            summary: bits::clear_bit(self.summary, word),
            words,
            count: self.count - bits::count(freed),
        }
    }

    // Whether the slot is taken.
    pub fn is_slot_occupied(self, slot: u64) -> bool
        requires { slot < 4096 }
        ensures { result ≡ is_taken self slot }
    {
        let i = (slot / 64) as usize;
        bits::test_bit(self.words[i], slot % 64)
    }

    // The slots of 64 pending words, all of them taken, are free again.
    pub fn fold_in(self, pending: &[u64]) -> Self
        requires pending_len { length pending.now ≡ 64 }
        requires by_index { (slots : ℕ) × (Right slots self × Pending slots self 0 pending.now) }
        ensures { result ≡ fold_in self pending.now }
    {
        let mut o = self;
        for (i, &freed) in pending.iter().enumerate() {
            if freed != 0 {
                o = o.release_slots_by_word(i as u64, freed);
            }
        }
        o
    }
}
