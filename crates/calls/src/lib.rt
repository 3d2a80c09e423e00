// The calls as definitions, and what each answers.
#![tactic(auto)]

ghost use Rattle.std.specs.Prelude.{◌≡◌};
ghost use Rattle.calls.specs.Answered.{answer_of};

use refusals::Refusal;

// What an accepted call answers: the block, and the number of words used.
#[derive(Clone, Copy, Debug, PartialEq, Eq, Drop)]
pub struct Accepted {
    pub span: u64,
    pub offset: u64,
    pub words: u64,
}

// What a call answers in numbers, as C and a batch know it: 0 and the block, or a refusal's number and zeros.
#[repr(C)]
#[derive(Clone, Copy)]
pub struct Answer {
    pub number: u64,
    pub span: u64,
    pub offset: u64,
    pub words: u64,
}

impl From<Result<Accepted, Refusal>> for Answer {
    fn from(call: Result<Accepted, Refusal>) -> Answer
        ensures { result ≡ answer_of call }
    {
        match call {
            Ok(block) => Answer {
                number: 0,
                span: block.span,
                offset: block.offset,
                words: block.words,
            },
            Err(refusal) => Answer {
                number: u64::from(refusal),
                span: 0,
                offset: 0,
                words: 0,
            },
        }
    }
}
