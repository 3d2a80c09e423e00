// Why a call is refused.
#![tactic(auto)]

ghost use Rattle.std.specs.Prelude.{◌≡◌};
ghost use Rattle.refusals.specs.Numbers.{number, number_of};

#[derive(Clone, Copy, Debug, PartialEq, Eq, Drop)]
pub enum Refusal {
    // Heaps, spans or a lent table's length is not as stated.
    NotAsStated = 1,
    // The lent table is unsound.
    Unsound = 2,
    // There is no such heap.
    NoSuchHeap = 3,
    // An allocation is lent fewer random words than it may use.
    TooFewWords = 4,
    // Size, or raised alignment, is above the largest slot.
    TooLarge = 5,
    // Every slot of the heap's spans in the class is out, and no span is unused.
    Exhausted = 6,
    // The span is not in use, or no slot starts at the offset.
    NoSuchSlot = 7,
    // The block is not out.
    NotOut = 8,
    // A batch's record is malformed.
    Malformed = 9,
    // A batch is no whole number of records, or its answers have no room.
    NotWhole = 10,
}

// The number of a refusal, as tables and C programs know it.
impl From<Refusal> for u64 {
    fn from(refusal: Refusal) -> u64
        ensures { result ≡ number refusal }
    {
        refusal as u64
    }
}

// The number of an answer without a value: 0 where the call was done.
pub fn number_of(answer: Result<(), Refusal>) -> u64
    ensures { result ≡ number_of answer }
{
    match answer {
        Ok(()) => 0,
        Err(refusal) => u64::from(refusal),
    }
}
