// A running operation: plain data that says what is left to do, how it is started, and what it waits for.

#![tactic(auto)]

mod display;
mod ruled;
mod starts;
mod waits;

ghost use Rattle.std.specs.Prelude.{◌≡◌};
ghost use Rattle.running.specs.Starts.{started};
ghost use Rattle.running.specs.Waits.{with_plan};

use plans::{Answer, Edit, Lent, Plan};
pub use ruled::RuledOp;
pub use starts::{
    start_append, start_collect, start_get, start_initialise, start_invalidate, start_zeroise,
};
pub use waits::{request_of, wait_of};

// R8.1: a running operation, plain data, on a chip of n regions of s bytes: its key, what is lent to it, and what is left of its plan. A fresh one
// has asked for nothing yet.
#[derive(Clone, Copy)]
pub struct Op {
    pub s: usize,
    pub n: usize,
    pub key: u64,
    pub lent: Lent,
    pub fresh: bool,
    pub plan: Plan,
}

impl Op {
    // A fresh running operation.
    pub fn new(s: usize, n: usize, key: u64, lent: Lent, plan: Plan) -> Op
        ensures { result ≡ started s n key lent plan }
    {
        Op {
            s,
            n,
            key,
            lent,
            fresh: true,
            plan,
        }
    }

    // The operation with this left to do.
    pub fn with_plan(self, plan: Plan) -> Op
        ensures { result ≡ with_plan self plan }
    {
        let lent = self.lent;
        Op {
            s: self.s,
            n: self.n,
            key: self.key,
            lent,
            fresh: false,
            plan,
        }
    }
}

// R8.5: what the host says at a step: "begin" at the first, then of the service that was asked for last.
#[derive(Clone, Copy)]
pub enum Reply {
    Begin,
    Done,
    NotReady,
    Failed,
}

// R8.4, R8.5: what an operation waits for: the first step, a region that is read, an edit; or nothing more.
#[derive(Clone, Copy)]
pub enum Wait {
    Begin,
    Read(usize),
    Edit(Edit),
    Over(Answer),
}

// R8.4: what a step asks of the host: to read a region into the buffer, to write the buffer's bytes from a place up to another at an image place,
// or to erase a region; or its answer.
#[derive(Clone, Copy, PartialEq, Eq)]
pub enum Request {
    Read {
        region: usize,
    },
    Write {
        from: usize,
        to: usize,
        place: usize,
    },
    Erase {
        region: usize,
    },
    Answers(Answer),
}
