// What an operation waits for, and the request that it makes of the host.
ghost use Rattle.std.specs.Prelude.{◌≡◌, true, ◌≤◌};
ghost use Rattle.chip.specs.Geometry.{Shape};
ghost use Rattle.format.specs.Layout.{kill_offset, kill_length};
ghost use Rattle.plans.specs.declared.Edit.TheVariants.{Kill};
ghost use Rattle.plans.specs.Fits.{edit_fits};
ghost use Rattle.running.specs.Waits.{wait_of, request_edit, request_of};

use crate::{Request, RuledOp, Wait};
use format::{Record, Removal};
use plans::{Edit, Then};
use refusals::Refusal;

// R8.4, R8.5: what an operation waits for. The rule lets none wait before a value that is to be given: BadCall does not come.
pub fn wait_of(ruled: RuledOp) -> Wait
    ensures { result ≡ wait_of ruled.op }
{
    let op = ruled.op;
    let n = op.n;
    let plan = op.plan;
    let edits = plan.edits;
    let next = plan.next;
    if op.fresh {
        return Wait::Begin;
    }
    if let Some(edit) = plans::first_of(edits) {
        return Wait::Edit(edit);
    }
    match next {
        Then::Ends(answer) => Wait::Over(answer),
        Then::Seek { aim: _, i, seen: _ } => Wait::Read(probe::probe_at(
            probe::get_region(op.key, n),
            n,
            i,
        )),
        Then::Sweep { region, erased: _ } => Wait::Read(region),
        Then::Gives {
            region: _,
            rec: _,
            anew: _,
        } => Wait::Over(Err(Refusal::BadCall)),
    }
}

// Where in a record the write begins that makes it dead.
fn kill_offset(how: Removal) -> usize
    ensures { result ≡ kill_offset how }
{
    match how {
        Removal::Invalidate => Record::LEN_OFFSET,
        Removal::Zeroise => 0,
    }
}

// How many bytes it has.
fn kill_length(how: Removal, rec: Record) -> usize
    ensures { result ≡ kill_length how rec }
{
    match how {
        Removal::Invalidate => 1,
        Removal::Zeroise => rec.len,
    }
}

fn request_kill(s: usize, n: usize, len: usize, how: Removal, r: usize, rec: Record) -> Request
    requires { Shape s n × (edit_fits s n len (Kill how r rec) ≡ true) }
    ensures { result ≡ request_edit s len (Kill how r rec) }
{
    let at = rec.at;
    let from = at + kill_offset(how);
    let to = from + kill_length(how, rec);
    Request::Write {
        from,
        to,
        place: r * s + from,
    }
}

// The request for an edit, where a value of so many bytes is lent.
fn request_edit(s: usize, n: usize, len: usize, edit: Edit) -> Request
    requires { Shape s n × (len ≤ 4079) × (edit_fits s n len edit ≡ true) }
    ensures { result ≡ request_edit s len edit }
{
    match edit {
        Edit::Lay { region, at } => Request::Write {
            from: at,
            to: at + (len + Record::LEAST),
            place: region * s + at,
        },
        Edit::Kill { how, region, rec } => request_kill(s, n, len, how, region, rec),
        Edit::Erase { region } => Request::Erase { region },
    }
}

// R8.4: the service that an operation waits for, or its answer. A step asks this of what it has led on, which is not fresh: BadCall does not come.
pub fn request_of(ruled: RuledOp) -> Request
    ensures { result ≡ request_of ruled.op }
{
    let op = ruled.op;
    let lent = op.lent;
    let wait = wait_of(ruled);
    match wait {
        Wait::Begin => Request::Answers(Err(Refusal::BadCall)),
        Wait::Read(region) => Request::Read { region },
        Wait::Edit(edit) => request_edit(op.s, op.n, lent.value(), edit),
        Wait::Over(answer) => Request::Answers(answer),
    }
}
