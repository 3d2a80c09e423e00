// Words of 64 bits: one bit, all bits from one on, how many are set, rotations, and the lowest set bits.
#![tactic(auto)]

ghost use Rattle.std.specs.Prelude.{◌≡◌, ℕ, ◌-◌, ◌^◌, ◌≤◌, ◌<◌};
ghost use Rattle.laws.specs.Word.{popcount, is_set, set_bit, clear_bit};
ghost use Rattle.bits.specs.Deposit.{lowest};
ghost use Rattle.bits.specs.Rotated.{rotated_right, rotated_left};

// How many bits of x are set.
#[tactic(auto, using(laws::proofs::WordLaws::ones_in_lem))]
pub fn count(x: u64) -> u64
    ensures { result ≡ popcount x }
{
    u64::from(x.count_ones())
}

// Whether bit i of x is set.
#[tactic(auto, using(laws::proofs::BitLaws::test_is))]
pub fn test_bit(x: u64, i: u64) -> bool
    requires { i < 64 }
    ensures { result ≡ is_set x i }
{
    x & (1u64 << i) != 0
}

// x with bit i set.
#[tactic(auto, using(laws::proofs::BitLaws::set_is))]
pub fn set_bit(x: u64, i: u64) -> u64
    requires { i < 64 }
    ensures { result ≡ set_bit x i }
{
    x | (1u64 << i)
}

// x with bit i clear.
#[tactic(auto, using(laws::proofs::BitLaws::clear_is))]
pub fn clear_bit(x: u64, i: u64) -> u64
    requires { i < 64 }
    ensures { result ≡ clear_bit x i }
{
    x & !(1u64 << i)
}

// All bits from bit k on; none where k is 64.
pub fn ones_from(k: u64) -> u64
    requires { k ≤ 64 }
    ensures { result ≡ 2 ^ 64 - 2 ^ k }
{
    u64::MAX.unbounded_shl(k as u32)
}

// x turned by k places towards its low end.
#[tactic(auto, using(crate::proofs::RotationLaws::turned_right))]
pub fn rotate_right(x: u64, k: u64) -> u64
    requires { k < 64 }
    ensures { result ≡ rotated_right x k }
{
    x.rotate_right(k as u32)
}

// x turned by k places towards its high end.
#[tactic(auto, using(crate::proofs::RotationLaws::turned_left))]
pub fn rotate_left(x: u64, k: u64) -> u64
    requires { k < 64 }
    ensures { result ≡ rotated_left x k }
{
    x.rotate_left(k as u32)
}

// The lowest n set bits of word, all of them where it has fewer.
pub fn deposit(n: u64, word: u64) -> u64
    ensures { result ≡ lowest 64 n word }
{
    if n == 0 {
        return 0;
    }
    if word == 0 {
        return 0;
    }
    let rest = word & (word - 1);
    (word ^ rest) | deposit(n - 1, rest)
}
