// What a step lays into the region buffer that it is lent, for the host to write.

#![tactic(auto)]

mod lend;

pub use lend::lay_on;
