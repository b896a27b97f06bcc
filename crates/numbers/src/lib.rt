// The store's running operations into numbers, as C and Rust see them.

#![tactic(auto)]

mod packs;

use operations::COperation;
pub use packs::{pack, pack_start};
use replies::CRequest;

// R12.6: what a start hands out: a refusal's number and an operation of zeros, or 0 and a fresh operation.
#[repr(C)]
#[derive(Clone, Copy)]
pub struct CStart {
    pub refusal: u32,
    pub op: COperation,
}

// R12.7: what a step hands back: the operation as it then stands, and a request or the answer.
#[repr(C)]
#[derive(Clone, Copy)]
pub struct CStepped {
    pub op: COperation,
    pub request: CRequest,
}
