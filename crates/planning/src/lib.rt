// What an operation does with what its lookup found: the making of its plan.

#![tactic(auto)]

mod planning;

pub use planning::{append_plan, given_plan, need_of, plan_for, remove_plan};
