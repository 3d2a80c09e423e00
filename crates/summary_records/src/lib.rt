// The class summary as 01 names it: a lent slice of 48 structs, one per class, filled from the flat numbers of the summary.
#![tactic(auto)]

ghost use Rattle.std.specs.Prelude.{◌≡◌, ◌<◌, ℕ, length};
ghost use Rattle.tables.specs.Shape.{base_shape};
ghost use Rattle.tables.specs.Cells.{tables as table};
ghost use Rattle.summing.specs.Tally.{summary_cell, pending_cell};
ghost use Rattle.summary_records.specs.Structured.{filled, record_at, structured, summary_structs};
ghost use Rattle.summary_records.specs.Counting.{counted_of};

use refusals::Refusal;
use size_classes::SlotSizes;
use tables::{Shape, TablesView};

const CLASSES: usize = 48;

const MOST_SPANS: u64 = 1024;

// What is counted of one class.
#[repr(C)]
#[derive(Clone, Copy)]
pub struct ClassRecord {
    pub spans: u64,
    pub slots: u64,
    pub used: u64,
    pub cached: u64,
    pub pending: u64,
}

// The five numbers of class i.
fn record_at(flat: &[u64], i: usize) -> ClassRecord
    requires { summary_cell i pending_cell < length flat.now }
    ensures { result ≡ record_at flat.now i }
{
    let c = i as u64;
    ClassRecord {
        spans: summing::cell(flat, c, summing::SPANS),
        slots: summing::cell(flat, c, summing::SLOTS),
        used: summing::cell(flat, c, summing::USED),
        cached: summing::cell(flat, c, summing::CACHED),
        pending: summing::cell(flat, c, summing::PENDING),
    }
}

// The flat numbers of all classes, where so many records are lent.
fn count_all(heaps: u64, spans: u64, view: &TablesView, lent: usize) -> Result<[u64; 240], Refusal>
    ensures { result ≡ counted_of (base_shape heaps spans) view.now lent }
{
    if lent != CLASSES {
        return Err(Refusal::NotAsStated);
    }
    let list = size_classes::slot_sizes();
    let sizes = SlotSizes::new(&list);
    let shape = Shape {
        sizes: &sizes,
        most: MOST_SPANS,
        heaps,
        spans,
    };
    let mut cells = [0; 240];
    summing::summary(&shape, view, &mut cells)?;
    Ok(cells)
}

// Writes the five numbers of each record.
fn write(out: &mut [ClassRecord], cells: &[u64])
    requires { (i : ℕ) → i < length out.old → summary_cell i pending_cell < length cells.now }
    ensures { out.new ≡ filled cells.now out.old (length out.old) }
{
    for (i, record) in out.iter_mut().enumerate() {
        *record = record_at(cells, i);
    }
}

// The class summary of a table, one record per class, or a refusal with 1 or 2 that leaves the records.
#[unsafe(no_mangle)]
pub extern "C" fn laggersten_summary(
    heaps: u64,
    spans: u64,
    bits: &[u64],
    records: &[u64],
    entries: &[u64],
    heads: &[u64],
    used: u64,
    out: &mut [ClassRecord],
) -> u64
    ensures { structured result out.new ≡ summary_structs (base_shape heaps spans) (table bits.now records.now entries.now heads.now used) out.old }
{
    let view = TablesView {
        bits,
        spans: records,
        entries,
        heads,
        used,
    };
    match count_all(heaps, spans, &view, out.len()) {
        Ok(cells) => {
            write(out, &cells);
            0
        }
        Err(refusal) => u64::from(refusal),
    }
}
