// The check of the cells of every used span: class, owner, summaries, pending bits, bits past the last slot and the occupied count.
#![tactic(auto)]

ghost use Rattle.std.specs.Prelude.{◌≡◌, ℕ, ◌^◌, ◌<◌, get_or};
ghost use Rattle.laws.specs.Choice.{Says};
ghost use Rattle.sound.specs.Sound.{SpanFilled};
ghost use Rattle.sound_spans.specs.WordSound.{pad_of, WordSound, UsedCells};

use tables::{
    CLASS, LOCAL_SUMMARY, LOCAL_WORDS, OCCUPIED, OWNER, REMOTE_SUMMARY, REMOTE_WORDS, Shape,
    TablesView,
};

const MOST_SLOTS: u64 = 4096;

// The bits of word i that are past the last slot.
fn pad_of(slots: u64, i: u64) -> u64
    requires { i < 64 }
    ensures { result ≡ pad_of slots i }
{
    let from = i * 64;
    bits::ones_from(slots.saturating_sub(from).min(64))
}

// Whether word i of a span is right: x its local and p its remote word.
fn word_sound(slots: u64, summary: u64, pending: u64, i: u64, x: u64, p: u64) -> bool
    requires { i < 64 }
    ensures { Says result (WordSound slots summary pending i x p) }
{
    let pad = pad_of(slots, i);
    bits::test_bit(summary, i) == (x == u64::MAX)
        && bits::test_bit(pending, i) == (p != 0)
        && x & pad == pad
        && p & pad == 0
        && p & x == p
}

// A word lent is a number of 64 bits. A slice says so where it is a parameter, and not where it is a field.
fn words_fit(bits: &[u64])
    ensures { (i : ℕ) → get_or bits.now i 0 < 2 ^ 64 }
{
    let _words = bits;
}

// Whether the cells of every used span are right, left at the first word or cell that is not.
pub fn spans_filled(shape: &Shape, view: &TablesView) -> bool
    requires { UsedCells view.now.bits view.now.spans view.now.used }
    ensures { Says result ((s : ℕ) → s < view.now.used → SpanFilled shape.now view.now s) }
{
    let sizes = shape.sizes;
    let bits = view.bits;
    let spans = view.spans;
    words_fit(bits);
    let mut ok = true;
    'spans: for s in 0..view.used {
        let class = tables::field(spans, s, CLASS);
        if class >= sizes.classes() {
            ok = false;
            break 'spans;
        }
        if tables::field(spans, s, OWNER) >= shape.heaps {
            ok = false;
            break 'spans;
        }
        let slots = size_classes::slots_per_span(sizes.slot(class));
        let summary = tables::word(bits, s, LOCAL_SUMMARY);
        let pending = tables::word(bits, s, REMOTE_SUMMARY);
        let mut sum: u64 = 0;
        for i in 0..64 {
            let x = tables::word(bits, s, LOCAL_WORDS + i);
            let p = tables::word(bits, s, REMOTE_WORDS + i);
            if !word_sound(slots, summary, pending, i, x, p) {
                ok = false;
                break 'spans;
            }
            sum += bits::count(x);
        }
        if sum - (MOST_SLOTS - slots) != tables::field(spans, s, OCCUPIED) {
            ok = false;
            break 'spans;
        }
    }
    ok
}
