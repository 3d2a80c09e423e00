// A batch on a table that is known to be sound: records of 28 bytes, answered one after the other.
#![tactic(auto)]

ghost use Rattle.std.specs.Prelude.{◌≡◌, [], ◌∷◌, ◌+◌, ◌*◌, ◌/◌, ◌<◌, ◌≤◌, length};
ghost use Rattle.std.proofs.lemmas.List.Edits.{sets};
ghost use Rattle.tables.specs.Lent.{cells, SameLent};
ghost use Rattle.calls.specs.Outcome.{ended};
ghost use Rattle.calls.specs.Answered.{answer_of};
ghost use Rattle.calls.specs.Run.{perform_sound};
ghost use Rattle.calls.specs.Batch.{record_bytes, marked, record_call, answer_cells, answered, batched, batch_from, whole_records};
ghost use Rattle.sound_calls.specs.Lent.{Lent};
ghost use Rattle.batching.specs.Records.{call_of};

use calls::{Accepted, Answer};
use class_choice::Classes;
use refusals::Refusal;
use tables::{LentTables, Shape};

const FIRST_MARK: u64 = 0xA5;

const SECOND_MARK: u64 = 0x5A;

const RECORD_BYTES: u64 = 28;

const ANSWER_CELLS: u64 = 3;

const ALLOCATION: u64 = 1;

const RELEASE: u64 = 2;

// What a record of a batch asks for.
#[derive(Clone, Copy)]
enum Record {
    Allocate {
        heap: u64,
        size: u64,
        alignment: u64,
        seed: u64,
    },
    Free {
        heap: u64,
        span: u64,
        offset: u64,
    },
}

// Whether the record that starts at a place has the mark.
#[tactic(auto, unfolding(calls::specs::Batch::record_bytes))]
fn marked_at(bytes: &[u8], at: u64) -> bool
    requires { at + record_bytes ≤ length bytes.now }
    ensures { result ≡ marked bytes.now at }
{
    batch_records::byte_at(bytes, at) == FIRST_MARK
        && batch_records::byte_at(bytes, at + 1) == SECOND_MARK
}

// The record that starts at a place; none where it is malformed.
fn record_at(bytes: &[u8], at: u64) -> Option<Record>
    requires { at + record_bytes ≤ length bytes.now }
    ensures { call_of result ≡ record_call bytes.now at }
{
    if !marked_at(bytes, at) {
        return None;
    }
    let kind = batch_records::byte_at(bytes, at + 2);
    let heap = batch_records::byte_at(bytes, at + 3);
    let first = batch_records::number_at(bytes, at + 4);
    let second = batch_records::number_at(bytes, at + 12);
    let third = batch_records::number_at(bytes, at + 20);
    if kind == ALLOCATION {
        return Some(Record::Allocate {
            heap,
            size: first,
            alignment: second,
            seed: third,
        });
    }
    if kind == RELEASE && third == 0 {
        return Some(Record::Free {
            heap,
            span: first,
            offset: second,
        });
    }
    None
}

// The record that starts at a place, performed where it is no malformed one.
pub fn perform_record(
    shape: &Shape,
    classes: &Classes,
    tables: &mut LentTables,
    bytes: &[u8],
    at: u64,
) -> Result<Accepted, Refusal>
    requires sizes { classes.now ≡ shape.now.sizes }
    requires lent { Lent shape.now (cells tables.old) }
    requires record_bytes_in_bounds { at + record_bytes ≤ length bytes.now }
    ensures lent { SameLent tables.old tables.new }
    ensures ended { ended (answer_of result) (cells tables.new) ≡ perform_sound shape.now (cells tables.old) (record_call bytes.now at) }
{
    let Some(record) = record_at(bytes, at) else {
        return Err(Refusal::Malformed);
    };
    match record {
        Record::Allocate {
            heap,
            size,
            alignment,
            seed,
        } => {
            let words = batch_records::words_from(seed);
            sound_calls::allocate_sound(shape, classes, tables, heap, size, alignment, &words)
        }
        Record::Free { heap, span, offset } => {
            sound_calls::free_sound(shape, tables, heap, span, offset)
        }
    }
}

// Three numbers, from a place on.
fn put_three(answers: &mut [u64], at: usize, a: u64, b: u64, c: u64)
    requires { at + 3 ≤ length answers.old }
    ensures { answers.new ≡ sets answers.old at (a ∷ b ∷ c ∷ []) }
{
    answers[at] = a;
    answers[at + 1] = b;
    answers[at + 2] = c;
}

// An answer's three numbers, in the cells of record i.
fn put_answer(answers: &mut [u64], i: u64, answer: Answer)
    requires { i * answer_cells + answer_cells ≤ length answers.old }
    ensures { answers.new ≡ sets answers.old (i * answer_cells) (answer.number ∷ answer.span ∷ answer.offset ∷ []) }
{
    let at = (i * ANSWER_CELLS) as usize;
    put_three(answers, at, answer.number, answer.span, answer.offset);
}

// Record i answered in its cells.
fn answer_record(
    shape: &Shape,
    classes: &Classes,
    tables: &mut LentTables,
    bytes: &[u8],
    answers: &mut [u64],
    i: u64,
)
    requires sizes { classes.now ≡ shape.now.sizes }
    requires lent { Lent shape.now (cells tables.old) }
    requires record_bytes_in_bounds { (i * record_bytes + record_bytes ≤ length bytes.now) × (i * answer_cells + answer_cells ≤ length answers.old) }
    ensures lent { SameLent tables.old tables.new }
    ensures cells { cells tables.new ≡ (perform_sound shape.now (cells tables.old) (record_call bytes.now (i * record_bytes))).table }
    ensures answers { answers.new ≡ answered answers.old i (perform_sound shape.now (cells tables.old) (record_call bytes.now (i * record_bytes))) }
{
    let answer = perform_record(shape, classes, tables, bytes, i * RECORD_BYTES);
    put_answer(answers, i, Answer::from(answer));
}

// How many records the bytes are.
fn record_count(bytes: &[u8]) -> u64
    ensures { result ≡ length bytes.now / record_bytes }
{
    bytes.len() as u64 / RECORD_BYTES
}

// Every record of a batch, in order.
pub fn batch_sound(
    shape: &Shape,
    classes: &Classes,
    tables: &mut LentTables,
    bytes: &[u8],
    answers: &mut [u64],
)
    requires sizes { classes.now ≡ shape.now.sizes }
    requires lent { Lent shape.now (cells tables.old) }
    requires answer_cells_in_bounds { length bytes.now / record_bytes * answer_cells ≤ length answers.old }
    ensures lent { SameLent tables.old tables.new }
    ensures batched { batched 0 answers.new (cells tables.new) ≡ batch_from (length bytes.now / record_bytes) 0 shape.now (cells tables.old) bytes.now answers.old }
{
    for i in 0..record_count(bytes) {
        answer_record(shape, classes, tables, bytes, answers, i);
    }
}

// Whether the bytes are whole records, and the answers long enough.
#[tactic(auto, unfolding(calls::specs::Batch::whole_records, calls::specs::Batch::record_bytes, calls::specs::Batch::answer_cells))]
pub fn whole_records(bytes: &[u8], answers: &[u64]) -> bool
    ensures { result ≡ whole_records bytes.now answers.now }
{
    let long = bytes.len() as u64;
    long % RECORD_BYTES == 0 && long / RECORD_BYTES * ANSWER_CELLS <= answers.len() as u64
}
