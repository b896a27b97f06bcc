// What is left of a plan once its service is done, and get's copy.
ghost use Rattle.std.specs.Prelude.{◌≡◌, true, ◌+◌, ◌≤◌, ◌<◌, length};
ghost use Rattle.plans.specs.Fits.{then_fits};
ghost use Rattle.advancing.specs.Advance.{closes, turned_to, seek_next, advance, given, copied, filled, next_plan, buffer_on};

use lookup::{Looked, Seen};
use plans::{Aim, Edits, Lent, Plan, Then};
use refusals::Refusal;
use region::Standing;
use running::{Reply, RuledOp};
use std::ops::ControlFlow;

// The last region's turn closes the lookup.
fn closed(n: usize, i: usize, turn: ControlFlow<Looked, Seen>) -> ControlFlow<Looked, Seen>
    requires { (i < n) × (n ≤ 64) }
    ensures { result ≡ closes n i turn }
{
    let ControlFlow::Continue(seen) = turn else {
        return turn;
    };
    if i + 1 < n {
        turn
    } else {
        ControlFlow::Break(seen.close())
    }
}

// One more region of the probe order was seen, the i-th.
fn turned_to(aim: Aim, n: usize, i: usize, turn: ControlFlow<Looked, Seen>) -> Plan
    requires { i < 64 }
    ensures { result ≡ turned_to aim n i turn }
{
    match turn {
        ControlFlow::Break(looked) => planning::plan_for(aim, n, looked),
        ControlFlow::Continue(seen) => Plan {
            edits: Edits::Nil,
            next: Then::Seek {
                aim,
                i: i + 1,
                seen,
            },
        },
    }
}

fn seek_next(ruled: RuledOp, aim: Aim, i: usize, seen: Seen, region: &[u8]) -> Plan
    requires { (i < ruled.op.n) × (length region.now ≡ ruled.op.s) }
    ensures { result ≡ seek_next ruled.op aim i seen region.now }
{
    let op = ruled.op;
    let n = op.n;
    let key = op.key;
    let lent = op.lent;
    let r = probe::probe_at(probe::get_region(key, n), n, i);
    let need = planning::need_of(aim, lent.value());
    let turn = lookup::take_turn(seen, key, need, r, region);
    turned_to(aim, n, i, closed(n, i, turn))
}

// The service is done.
fn advanced(ruled: RuledOp, region: &[u8]) -> Plan
    requires { length region.now ≡ ruled.op.s }
    ensures { result ≡ advance ruled.op region.now }
{
    let op = ruled.op;
    let plan = op.plan;
    let edits = plan.edits;
    let next = plan.next;
    if plans::first_of(edits).is_some() {
        return Plan {
            edits: plans::rest_of(edits),
            next,
        };
    }
    match next {
        Then::Ends(_) => Plan {
            edits: Edits::Nil,
            next,
        },
        Then::Seek { aim, i, seen } => seek_next(ruled, aim, i, seen, region),
        Then::Sweep { region: r, erased } => sweeping::sweep_plan(
            op.s,
            op.n,
            r,
            erased,
            sweeping::judge(r, region),
        ),
        Then::Gives {
            region: _,
            rec: _,
            anew: _,
        } => Plan {
            edits: Edits::Nil,
            next,
        },
    }
}

// A record's value goes to the buffer where one is lent.
fn copy_lent(lent: Lent, found: &Standing, buffer: &mut [u8])
    ensures { buffer.new ≡ copied lent found.now.region.now found.now.rec buffer.old }
{
    let Lent::Buffer(_) = lent else {
        return;
    };
    values::copy_value(found, buffer);
}

// Where a value is to be given, it is copied from the region just read, and its answer says what follows.
fn give(n: usize, lent: Lent, plan: Plan, region: &[u8], buffer: &mut [u8]) -> Plan
    requires { then_fits (length region.now) n lent plan.next ≡ true }
    ensures { (result ≡ given n lent region.now plan) × (buffer.new ≡ filled lent region.now plan buffer.old) }
{
    let next = plan.next;
    let Then::Gives {
        region: _,
        rec,
        anew,
    } = next
    else {
        return plan;
    };
    let found = Standing { region, rec };
    copy_lent(lent, &found, buffer);
    planning::given_plan(n, anew, values::read_answer(&found, lent.buffer()))
}

// What is left with the host's reply.
pub fn next_plan(ruled: RuledOp, reply: Reply, region: &[u8], buffer: &mut [u8]) -> Plan
    requires { length region.now ≡ ruled.op.s }
    ensures { (result ≡ next_plan ruled.op reply region.now) × (buffer.new ≡ buffer_on ruled.op reply region.now buffer.old) }
{
    let op = ruled.op;
    let plan = op.plan;
    let lent = op.lent;
    if let Reply::Begin = reply {
        return plan;
    }
    if let Reply::NotReady = reply {
        return plan;
    }
    let Reply::Done = reply else {
        return plans::refuse(Refusal::FlashFailed);
    };
    give(op.n, lent, advanced(ruled, region), region, buffer)
}
