// The store, one flash service at a time: each step of a running operation answers or asks for one service.
// A step never sees the image: it is lent a region buffer, and the value or get's buffer where there is one.

#![tactic(auto)]

ghost use Rattle.std.specs.Prelude.{◌≡◌};
ghost use Rattle.steps.specs.Step.{stepped, region_after, buffer_after};

use refusals::Refusal;
use running::{Op, Reply, Request, RuledOp};

// R8.3: what a step hands back: the operation as it then stands, and a request or the answer.
#[derive(Clone, Copy)]
pub struct Stepped {
    pub op: Op,
    pub request: Request,
}

// R8.3: one step of a running operation. The host lends a region buffer of s bytes, and append's value or get's buffer, of the length named at
// the start; where an operation has none of these, what is lent there is not looked at. A call that does not fit is BadCall (R6.11).
pub fn step(op: Op, reply: Reply, region: &mut [u8], value: &[u8], buffer: &mut [u8]) -> Stepped
    ensures { (result ≡ stepped op reply region.old value.now buffer.old)
        × (region.new ≡ region_after op reply region.old value.now buffer.old)
        × (buffer.new ≡ buffer_after op reply region.old value.now buffer.old) }
{
    if !rule::call_fits(op, reply, region.len(), value.len(), buffer.len()) {
        return Stepped {
            op,
            request: Request::Answers(Err(Refusal::BadCall)),
        };
    }
    let before = RuledOp { op };
    let plan = advancing::next_plan(before, reply, &region[..], buffer);
    let after = RuledOp {
        op: op.with_plan(plan),
    };
    laying::lay_on(reply, after, region, value);
    Stepped {
        op: after.op,
        request: running::request_of(after),
    }
}
