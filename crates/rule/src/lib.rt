// The written rule, and the calls that it allows.

#![tactic(auto)]

ghost use Rattle.std.specs.Prelude.{◌≡◌};
ghost use Rattle.running.specs.Waits.{wait_of};
ghost use Rattle.running.specs.Ruled.{fresh_fits};
ghost use Rattle.rule.specs.Rule.{rule, reply_fits, buffers_fit, call_fits};

use plans::{Edit, Lent, Then};
use running::{Op, Reply};

// R8.10: the rule as a test on the operation alone.
#[tactic(auto, unfolding(crate::specs::Rule::rule))]
pub fn keeps_rule(op: Op) -> bool
    ensures { result ≡ rule op }
{
    let plan = op.plan;
    chip::is_sized(op.s, op.n)
        && probe::allowed_key(op.key)
        && fresh_fits(op.fresh, plans::first_of(plan.edits), plan.next)
        && plans::plan_fits(op.s, op.n, op.lent, plan)
}

// A fresh operation has a service to ask for.
fn fresh_fits(fresh: bool, first: Option<Edit>, next: Then) -> bool
    ensures { result ≡ fresh_fits fresh first next }
{
    !fresh || first.is_some() || !matches!(next, Then::Ends(_))
}

// Whether a reply may come to what an operation waits for: to a service whichever it is, so that the region it reads is not worked out here.
fn reply_fits(op: Op, reply: Reply) -> bool
    ensures { result ≡ reply_fits (wait_of op) reply }
{
    let plan = op.plan;
    match reply {
        Reply::Begin => op.fresh,
        Reply::Done | Reply::NotReady | Reply::Failed => {
            !op.fresh
                && (plans::first_of(plan.edits).is_some()
                    || matches!(plan.next, Then::Seek { .. } | Then::Sweep { .. }))
        }
    }
}

fn buffers_fit(lent: Lent, value: usize, buffer: usize) -> bool
    ensures { result ≡ buffers_fit lent value buffer }
{
    match lent {
        Lent::Nothing => true,
        Lent::Value(len) => value == len,
        Lent::Buffer(len) => buffer == len,
    }
}

// R6.11: whether a step may be taken with this reply and with buffers of these lengths. Where not, the answer is BadCall.
#[tactic(auto, unfolding(crate::specs::Rule::call_fits))]
pub fn call_fits(op: Op, reply: Reply, region: usize, value: usize, buffer: usize) -> bool
    ensures { result ≡ call_fits op reply region value buffer }
{
    keeps_rule(op) && region == op.s && buffers_fit(op.lent, value, buffer) && reply_fits(op, reply)
}
