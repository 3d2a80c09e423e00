// A batch's records taken apart: numbers from bytes, and the words of a seed.
#![tactic(auto)]

ghost use Rattle.std.specs.Prelude.{◌≡◌, ◌+◌, ◌^◌, ◌<◌, ◌≤◌, length, slice_index};
ghost use Rattle.calls.specs.Calls.{words_needed};
ghost use Rattle.calls.specs.Batch.{little_endian, words_from};

const WORD_STEP: u64 = 0x9E3779B97F4A7C15;

// The byte at a place.
pub fn byte_at(bytes: &[u8], at: u64) -> u64
    requires { at < length bytes.now }
    ensures { (result ≡ slice_index bytes.now at) × (result < 256) }
{
    u64::from(bytes[at as usize])
}

// A little-endian number of eight bytes.
pub fn number_at(bytes: &[u8], at: u64) -> u64
    requires { at + 8 ≤ length bytes.now }
    ensures { result ≡ little_endian 8 bytes.now at }
{
    let at = at as usize;
    let b = &bytes[at..at + 8];
    u64::from_le_bytes([b[0], b[1], b[2], b[3], b[4], b[5], b[6], b[7]])
}

// The words of a seed.
pub fn words_from(seed: u64) -> [u64; 65]
    ensures { result ≡ words_from words_needed seed }
{
    let mut words = [0u64; 65];
    let mut next = seed;
    for word in words.iter_mut() {
        *word = next;
        next = next.wrapping_add(WORD_STEP);
    }
    words
}
