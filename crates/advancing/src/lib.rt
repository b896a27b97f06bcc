// What is left of a running operation's plan once the host has replied, and get's copy.

#![tactic(auto)]

mod advance;

pub use advance::next_plan;
