// What collect does with a region: its verdict, and the plan that follows.

#![tactic(auto)]

mod sweeps;

use format::Fault;
pub use sweeps::{judge, sweep_plan};

// R5.7, R5.8: what collect does with a region: it stands, it is erased, or it ends collect by its bad place, which is one of the image.
#[derive(Clone, Copy)]
pub enum Verdict {
    Stands,
    Erase,
    Bad { fault: Fault, place: usize },
}
