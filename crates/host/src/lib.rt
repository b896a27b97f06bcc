// A host of the stepped form for the programs: a flash that lies in memory, 4 regions of 64 bytes, and what is written of its services.

#![tactic(auto)]

mod compare;
mod serving;

pub use compare::changes;
pub use serving::{Flash, Host};
