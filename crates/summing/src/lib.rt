// The class summary: one pass over the used spans adds each to the record of its class, then one pass over the classes writes slots and cached blocks.
#![tactic(auto)]

ghost use Rattle.std.specs.Prelude.{◌≡◌, ◌+◌, ◌^◌, ◌<◌, ◌≤◌, length, set};
ghost use Rattle.tables.specs.Shape.{classes};
ghost use Rattle.span.specs.Room.{WordCells};
ghost use Rattle.refusals.specs.Numbers.{number_of};
ghost use Rattle.calls.specs.Summary.{class_records, summed, summary as summarised};
ghost use Rattle.summing.specs.Tally.{summary_cell, summary_at, pending_in, cached_in, added, span_added, class_written, SpanFits, SpansCount, HeadsCount, ClassFits, ClassesFit, Countable, Tallied, Written};

use refusals::Refusal;
use tables::{CLASS, COUNTER, OCCUPIED, REMOTE_WORDS, Shape, TablesView};

// How many cells a class's record has, and which they are.
pub const SUMMARY_CELLS: u64 = 5;

pub const SPANS: u64 = 0;

pub const SLOTS: u64 = 1;

pub const USED: u64 = 2;

pub const CACHED: u64 = 3;

pub const PENDING: u64 = 4;

// Where cell f of the record of class c stands.
fn summary_cell(c: u64, f: u64) -> u64
    requires { summary_cell c f < 2 ^ 64 }
    ensures { result ≡ summary_cell c f }
{
    c * SUMMARY_CELLS + f
}

// Cell f of the record of class c.
pub fn cell(out: &[u64], c: u64, f: u64) -> u64
    requires { summary_cell c f < length out.now }
    ensures { result ≡ summary_at out.now c f }
{
    let at = summary_cell(c, f) as usize;
    out[at]
}

fn put_cell(out: &mut [u64], c: u64, f: u64, v: u64)
    requires { summary_cell c f < length out.old }
    ensures { out.new ≡ set out.old (summary_cell c f) v }
{
    let at = summary_cell(c, f) as usize;
    out[at] = v;
}

// Adds v to cell f of the record of class c.
fn add(out: &mut [u64], c: u64, f: u64, v: u64)
    requires { (summary_cell c f < length out.old) × (summary_at out.old c f + v < 2 ^ 64) }
    ensures { out.new ≡ added out.old c f v }
{
    let v = cell(out, c, f) + v;
    put_cell(out, c, f, v);
}

// The pending slots of span s.
pub fn pending(bits: &[u64], s: u64) -> u64
    requires { WordCells bits.now s }
    ensures { result ≡ pending_in bits.now s 64 }
{
    let mut total: u64 = 0;
    for i in 0..64 {
        total += bits::count(tables::word(bits, s, REMOTE_WORDS + i));
    }
    total
}

// Adds span s to the record of its class.
fn add_span(view: &TablesView, s: u64, out: &mut [u64])
    requires { SpanFits view.now s out.old }
    ensures { out.new ≡ span_added view.now s out.old }
{
    let c = tables::field(view.spans, s, CLASS);
    let occupied = tables::field(view.spans, s, OCCUPIED);
    let pending = pending(view.bits, s);
    add(out, c, SPANS, 1);
    add(out, c, USED, occupied);
    add(out, c, PENDING, pending);
}

// Adds each used span to the record of its class.
fn add_spans(shape: &Shape, view: &TablesView, out: &mut [u64])
    requires spans_count { SpansCount shape.now view.now }
    requires tallied { Tallied shape.now view.now 0 out.old }
    ensures { Tallied shape.now view.now view.now.used out.new }
{
    for s in 0..view.used {
        add_span(view, s, out);
    }
}

// The cached blocks of class c, over all heaps.
fn cached(shape: &Shape, view: &TablesView, c: u64) -> u64
    requires heads_count { HeadsCount shape.now view.now }
    requires c_lt_classes { c < classes shape.now }
    ensures { result ≡ cached_in shape.now view.now shape.now.heaps c }
{
    let classes = shape.sizes.classes();
    let mut total: u64 = 0;
    for h in 0..shape.heaps {
        total += tables::head(view.heads, h * classes + c, COUNTER);
    }
    total
}

// Writes the slots and the cached blocks of class c.
fn write_class(shape: &Shape, view: &TablesView, c: u64, out: &mut [u64])
    requires { ClassFits shape.now view.now c out.old }
    ensures { out.new ≡ class_written shape.now view.now c out.old }
{
    let slots = size_classes::slots_per_span(shape.sizes.slot(c));
    let cached = cached(shape, view, c);
    let spans = cell(out, c, SPANS);
    put_cell(out, c, SLOTS, spans * slots);
    put_cell(out, c, CACHED, cached);
}

// Writes the slots and the cached blocks of every class.
fn write_classes(shape: &Shape, view: &TablesView, out: &mut [u64])
    requires { ClassesFit shape.now view.now out.old }
    ensures { Written shape.now view.now out.old (classes shape.now) out.new }
{
    for c in 0..shape.sizes.classes() {
        write_class(shape, view, c, out);
    }
}

// Fills the records of all classes.
pub fn class_records(shape: &Shape, view: &TablesView, out: &mut [u64])
    requires { Countable shape.now view.now out.old }
    ensures { out.new ≡ class_records (classes shape.now) 0 shape.now view.now }
{
    fresh::zero(out);
    add_spans(shape, view, out);
    write_classes(shape, view, out);
}

// The class summary, or a refusal that leaves the records.
pub fn summary(shape: &Shape, view: &TablesView, out: &mut [u64]) -> Result<(), Refusal>
    requires { shape.now.most ≤ 2 ^ 32 }
    ensures { summed (number_of result) out.new ≡ summarised shape.now view.now out.old }
{
    if !fresh::as_stated(shape, view) {
        return Err(Refusal::NotAsStated);
    }
    if out.len() as u64 != shape.sizes.classes() * SUMMARY_CELLS {
        return Err(Refusal::NotAsStated);
    }
    if !sound_check::is_sound(shape, view) {
        return Err(Refusal::Unsound);
    }
    class_records(shape, view, out);
    Ok(())
}
