// Text of a fixed size: bytes, words and decimal numbers, one after the other. What does not fit is left out, so no function has a condition or fails.
// A `write!` promises its text only where it is `Ok`, and nothing says when it is; what is put here stands there wherever it fits.
#![tactic(auto)]

ghost use Rattle.std.specs.Prelude.{◌≡◌, ◌≤◌, ℕ, List, [], ◌∷◌, length};
ghost use Rattle.trace_text.specs.Wrote.{Wrote, WroteNumber, WroteField, Copied};

use arrayvec::ArrayVec;
use itoa::Buffer;
use std::marker::Model;

// At most N bytes, seen as the list of them.
#[derive(Drop)]
pub struct Text<const N: usize> {
    bytes: ArrayVec<u8, N>,
}

impl<const N: usize> Model for Text<N> {
    ghost Value = { List ℕ };

    ghost view = { λ t. t.bytes.items };

    ghost invariant = { λ t. length t.bytes.items ≤ N };
}

impl<const N: usize> Text<N> {
    pub fn new() -> Self
        ensures { result ≡ [] }
    {
        Text {
            bytes: ArrayVec::new(),
        }
    }

    pub fn as_slice(&self) -> &[u8]
        ensures value { result.now ≡ self.now }
        ensures fits { length result.now ≤ N }
    {
        self.bytes.as_slice()
    }

    // One byte, where there is room.
    pub fn put(&mut self, b: u8)
        ensures { Wrote N self.old (b ∷ []) self.new }
    {
        let _ = self.bytes.try_push(b);
    }

    // The bytes of a text.
    pub fn put_text(&mut self, text: &[u8])
        ensures { Wrote N self.old text.now self.new }
    {
        for b in text {
            let _ = self.bytes.try_push(*b);
        }
    }

    // The number n in decimal.
    pub fn put_number(&mut self, n: u64)
        ensures { WroteNumber N self.old n self.new }
    {
        let mut digits = Buffer::new();
        self.put_text(digits.format(n).as_bytes());
    }

    // A space, and the number n in decimal.
    pub fn put_field(&mut self, n: u64)
        ensures { WroteField N self.old n self.new }
    {
        self.put(b' ');
        self.put_number(n);
    }

    // What fits of the text, in a lent buffer from the place at on. The answer is the next place.
    pub fn copy_to(&self, out: &mut [u8], at: usize) -> usize
        ensures prefix_len { result ≤ length out.new }
        ensures out_len_unchanged { length out.new ≡ length out.old }
        ensures copied { Copied out.old at self.now out.new result }
    {
        put_text(out, at, self.as_slice())
    }
}

// What fits of a text of any length, in a lent buffer from the place at on. The answer is the next place.
pub fn put_text(out: &mut [u8], at: usize, text: &[u8]) -> usize
    ensures prefix_len { result ≤ length out.new }
    ensures out_len_unchanged { length out.new ≡ length out.old }
    ensures copied { Copied out.old at text.now out.new result }
{
    if at >= out.len() {
        return out.len();
    }
    let n = text.len().min(out.len() - at);
    out[at..at + n].copy_from_slice(&text[..n]);
    at + n
}
