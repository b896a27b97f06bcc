// The store's answers and requests as C and Rust see them: plain structs of numbers.

#![tactic(auto)]

mod answers;

pub use answers::{answer_numbers, request_numbers};

// R12.1: an answer. `kind` is 0 refused, 1 complete, 2 written, 3 freed; `refusal` the refusal's number, 0 where none; `value` what the
// answer carries: a value's length, or the bytes freed, else 0.
#[repr(C)]
#[derive(Clone, Copy)]
pub struct CAnswer {
    pub kind: u32,
    pub refusal: u32,
    pub value: usize,
}

// R12.2: what a step asks for. `kind` is 1 read `region`, 2 write the region buffer's bytes from `from` up to `to` at the image place
// `place`, 3 erase `region`, 4 nothing more: `answer` is the answer. What a kind does not use is 0.
#[repr(C)]
#[derive(Clone, Copy)]
pub struct CRequest {
    pub kind: u32,
    pub region: usize,
    pub from: usize,
    pub to: usize,
    pub place: usize,
    pub answer: CAnswer,
}
