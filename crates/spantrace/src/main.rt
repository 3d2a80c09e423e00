// Reads batch records from standard input to its end, performs them on a fresh table of 4 heaps and 32 spans, and prints a line for each record and for each used span.
#![tactic(auto)]

ghost use Rattle.std.specs.Prelude.{◌≡◌, ◌+◌, ◌*◌, ◌/◌, ◌<◌, ◌≤◌, [], ◌∷◌, length};
ghost use Rattle.calls.specs.Batch.{record_bytes};
ghost use Rattle.tables.specs.Cells.{tables as table};
ghost use Rattle.spantrace.specs.Trace.{WroteAnswer, WroteSpan, SaidOf, letter, place_of, naming, named_in};

use refusals::Refusal;
use size_classes::SlotSizes;
use std::io::{Read, Write};
use tables::{CLASS, COUNTER, LentTables, OCCUPIED, OWNER, SpanList};
use trace_text::Text;

// The tables of 4 heaps and 32 spans have 4160 bitmap words, 160 record cells, 3168 entries and 960 heads.
const HEAPS: u64 = 4;

const SPANS: u64 = 32;

const CLASSES: u64 = 48;

// A record has 28 bytes; 512 of them are read at once, and soundness is checked once for them.
const RECORD_BYTES: usize = 28;

const CHUNK_BYTES: usize = 14336;

const CHUNK_ANSWERS: usize = 1536;

// Room for the lines of 513 records, 64 bytes each, and for those of 32 spans and the end, at most 130 each. The line of a record has less
// than 40: its answer's number has at most 2 digits, its span 2 and its offset 7.
const CHUNK_TEXT: usize = 32832;

const LAST_TEXT: usize = 4224;

// What a record was answered: a number, and where it names a block its span and offset.
#[derive(Clone, Copy)]
struct Answer {
    number: u64,
    span: u64,
    offset: u64,
}

// The three numbers of an answer, as a batch writes them.
impl From<[u64; 3]> for Answer {
    ghost from_gives = { λ triple answer. triple ≡ answer.number ∷ answer.span ∷ answer.offset ∷ [] };

    fn from([number, span, offset]: [u64; 3]) -> Answer {
        Answer {
            number,
            span,
            offset,
        }
    }
}

impl Answer {
    // A number that names no block.
    fn of_number(number: u64) -> Answer
        ensures { result ≡ record { number = number; span = 0; offset = 0 } }
    {
        Answer {
            number,
            span: 0,
            offset: 0,
        }
    }

    // The line of a record: its ordinal from 1 on, and its answer.
    fn put_line<const N: usize>(&self, ordinal: u64, text: &mut Text<N>)
        ensures { WroteAnswer N text.old ordinal self.now.number self.now.span self.now.offset text.new }
    {
        text.put(b'A');
        text.put_field(ordinal);
        text.put_field(self.number);
        text.put_field(self.span);
        text.put_field(self.offset);
        text.put(b'\n');
    }
}

// Where a span stands: in the partial or the full list of its class, its reserve, or the empty list.
#[derive(Clone, Copy)]
enum Place {
    Partial,
    Full,
    Reserve,
    Empty,
}

impl Place {
    // A span with no slot occupied is the reserve or in the empty list, any other in the full or the partial list.
    #[tactic(auto, unfolding(crate::specs::Trace::place_of))]
    fn of(slots: u64, occupied: u64, kept: u64, s: u64) -> Place
        requires { s < 32 }
        ensures { letter result ≡ place_of slots occupied kept s }
    {
        if occupied == 0 {
            if kept == s + 1 {
                Place::Reserve
            } else {
                Place::Empty
            }
        } else if occupied == slots {
            Place::Full
        } else {
            Place::Partial
        }
    }
}

impl From<Place> for u8 {
    ghost from_gives = { λ place b. b ≡ letter place };

    fn from(place: Place) -> u8 {
        match place {
            Place::Partial => b'P',
            Place::Full => b'F',
            Place::Reserve => b'R',
            Place::Empty => b'E',
        }
    }
}

// What is said of a used span.
#[derive(Drop)]
struct SpanLine {
    span: u64,
    slot: u64,
    owner: u64,
    place: Place,
    occupied: u64,
    pending: u64,
    cached: u64,
}

impl SpanLine {
    // The line of a span: its number, slot size, owner, place, and its occupied, pending and cached slots.
    fn put_line<const N: usize>(&self, text: &mut Text<N>)
        ensures { WroteSpan N text.old self.now text.new }
    {
        text.put(b'S');
        text.put_field(self.span);
        text.put_field(self.slot);
        text.put_field(self.owner);
        text.put(b' ');
        text.put(u8::from(self.place));
        text.put_field(self.occupied);
        text.put_field(self.pending);
        text.put_field(self.cached);
        text.put(b'\n');
    }
}

// 1 where an entry names span s, else 0.
#[tactic(auto, unfolding(crate::specs::Trace::naming))]
fn named(e: u64, s: u64) -> u64
    ensures value { result ≡ naming e s }
    ensures upper_bound { result ≤ 1 }
{
    u64::from(tables::entry_span(e) == s)
}

// How many entries of a magazine name span s.
#[tactic(auto, using(crate::proofs::TraceLaws::named_none, crate::proofs::TraceLaws::named_more))]
fn cached(entries: &[u64], base: u64, count: u64, s: u64) -> u64
    requires { base + count ≤ length entries.now }
    ensures { result ≡ named_in entries.now base s count }
{
    let mut total = 0;
    for i in 0..count {
        total += named(tables::entry(entries, base, i), s);
    }
    total
}

// How many bytes the whole records of a chunk take.
#[tactic(auto, unfolding(calls::specs::Batch::record_bytes))]
fn whole_bytes(bytes: &[u8]) -> usize
    ensures within { result ≤ length bytes.now }
    ensures value { result ≡ length bytes.now / record_bytes * record_bytes }
{
    bytes.len() / RECORD_BYTES * RECORD_BYTES
}

// Reads until the buffer is full, the input ends or a read fails. The answer is how many bytes were read, which std's `read_exact` does not tell.
fn fill<R: Read>(input: &mut R, buf: &mut [u8]) -> usize
    ensures { result ≤ length buf.new }
{
    let mut filled = 0;
    while filled < buf.len() {
        match input.read(&mut buf[filled..]) {
            Ok(0) | Err(_) => break,
            Ok(n) => filled += n,
        }
    }
    filled
}

// A table of 4 heaps and 32 spans, and how many records were answered.
#[derive(Drop)]
struct Trace {
    bits: [u64; 4160],
    records: [u64; 160],
    entries: [u64; 3168],
    heads: [u64; 960],
    used: u64,
    done: u64,
}

impl Trace {
    // A table whose cells are not made fresh yet.
    fn new() -> Trace {
        Trace {
            bits: [0; 4160],
            records: [0; 160],
            entries: [0; 3168],
            heads: [0; 960],
            used: 0,
            done: 0,
        }
    }

    // Makes the table fresh, where it stands: a table handed out by value is copied.
    fn make_fresh(&mut self) {
        let mut tables = LentTables {
            bits: &mut self.bits,
            spans: &mut self.records,
            entries: &mut self.entries,
            heads: &mut self.heads,
            used: &mut self.used,
        };
        // The arrays are as long as 4 heaps and 32 spans ask, so this is not refused.
        let _ = laggersten::fresh(HEAPS, SPANS, &mut tables);
    }

    // Performs whole records, three numbers for each in the answers lent; the batch may be refused as a whole.
    fn perform(&mut self, bytes: &[u8], answers: &mut [u64]) -> Result<(), Refusal> {
        let mut tables = LentTables {
            bits: &mut self.bits,
            spans: &mut self.records,
            entries: &mut self.entries,
            heads: &mut self.heads,
            used: &mut self.used,
        };
        laggersten::batch(HEAPS, SPANS, &mut tables, bytes, answers)
    }

    // The line of the next record.
    fn put_next(&mut self, answer: Answer, text: &mut Text<CHUNK_TEXT>)
        ensures { WroteAnswer 32832 text.old self.new.done answer.number answer.span answer.offset text.new }
    {
        self.done = self.done.wrapping_add(1);
        answer.put_line(self.done, text);
    }

    // Performs the whole records of a chunk, and writes a line for each and one for what is left over.
    fn put_chunk(&mut self, bytes: &[u8], text: &mut Text<CHUNK_TEXT>)
        requires { length bytes.now ≤ 14336 }
    {
        let end = whole_bytes(bytes);
        let count = end / RECORD_BYTES;
        let mut answers = [0; CHUNK_ANSWERS];
        match self.perform(&bytes[..end], &mut answers) {
            Ok(()) => {
                let (triples, _) = answers.as_chunks::<3>();
                for triple in &triples[..count] {
                    self.put_next(Answer::from(*triple), text);
                }
            }
            Err(refusal) => {
                for _ in 0..count {
                    self.put_next(Answer::of_number(u64::from(refusal)), text);
                }
            }
        }
        if end < bytes.len() {
            self.put_next(Answer::of_number(u64::from(Refusal::Malformed)), text);
        }
    }

    // One turn: as many records as fit are read, performed and answered. The answer is whether there may be more, and someone reads.
    fn turn<R: Read, W: Write>(&mut self, input: &mut R, output: &mut W) -> bool {
        let mut buf = [0; CHUNK_BYTES];
        let n = fill(input, &mut buf);
        let mut text = Text::new();
        self.put_chunk(&buf[..n], &mut text);
        output.write_all(text.as_slice()).is_ok() && n == CHUNK_BYTES
    }

    // Nothing says that the input ends, so the turns are counted down from a number that no run uses up.
    fn all_turns<R: Read, W: Write>(&mut self, input: &mut R, output: &mut W) {
        for _ in 0..u64::MAX {
            if !self.turn(input, output) {
                break;
            }
        }
    }

    // The line of span s; none where its record or its magazine's count cannot stand in a sound table.
    #[tactic(auto, unfolding(tables::specs::Cells::span_cell, tables::specs::Shape::record_cells, tables::specs::Shape::bitmap_cells))]
    fn span_line(&self, s: u64) -> Option<SpanLine>
        requires { s < 32 }
        ensures { SaidOf (table self.now.bits self.now.records self.now.entries self.now.heads self.now.used) s result }
    {
        let class = tables::field(&self.records, s, CLASS);
        let owner = tables::field(&self.records, s, OWNER);
        if class >= CLASSES || owner >= HEAPS {
            return None;
        }
        let list = size_classes::slot_sizes();
        let sizes = SlotSizes::new(&list);
        let k = tables::class_heap(&sizes, owner, class);
        let count = tables::head(&self.heads, k.row, COUNTER);
        if count > k.capacity {
            return None;
        }
        let occupied = tables::field(&self.records, s, OCCUPIED);
        let kept = linked_list::front(&self.heads, k.row, SpanList::Reserve as u64);
        Some(SpanLine {
            span: s,
            slot: k.slot,
            owner,
            place: Place::of(k.slots, occupied, kept, s),
            occupied,
            pending: summing::pending(&self.bits, s),
            cached: cached(&self.entries, k.base, count, s),
        })
    }

    // The lines of the used spans, in rising order, and the end.
    fn put_last(&self, text: &mut Text<LAST_TEXT>) {
        for s in 0..SPANS.min(self.used) {
            if let Some(line) = self.span_line(s) {
                line.put_line(text);
            }
        }
        text.put_text(b"END");
        text.put_field(self.done);
        text.put(b'\n');
    }

    // Writes these lines, in a text of their own.
    fn finish<W: Write>(&self, output: &mut W) {
        let mut text = Text::new();
        self.put_last(&mut text);
        let _ = output.write_all(text.as_slice());
    }
}

// A failed write stops the reading, and no failure is an error of the program.
fn main(rt: HostRuntime) {
    let mut output = rt.stdout();
    let _ = output.write_all(b"spantrace 4 32\n");
    let mut trace = Trace::new();
    trace.make_fresh();
    trace.all_turns(&mut rt.stdin(), &mut output);
    trace.finish(&mut output);
}
