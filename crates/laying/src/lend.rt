// What a step lays into the region buffer that it is lent.
ghost use Rattle.std.specs.Prelude.{◌≡◌, true, ◌+◌, ◌≤◌, length};
ghost use Rattle.std.proofs.lemmas.List.Edits.{sets};
ghost use Rattle.format.specs.Layout.{record_bytes};
ghost use Rattle.plans.specs.Writes.{value_lent, value_of, laid_in};
ghost use Rattle.plans.specs.Fits.{edit_fits};
ghost use Rattle.laying.specs.Lend.{laid, laid_on};

use chip::Laid;
use plans::{Edit, Lent};
use running::{Reply, RuledOp};

// The record of an append at its own place in the region: of the lent value, or of none where none is lent.
fn lay_new(key: u64, lent: Lent, at: usize, region: &mut [u8], value: &[u8])
    requires { (length (value_of lent value.now) ≤ 4079) × (at + (length (value_of lent value.now) + 15) ≤ length region.old) }
    ensures { region.new ≡ sets region.old at (record_bytes key (value_of lent value.now)) }
{
    let Lent::Value(_) = lent else {
        placing::land_record::<Laid>(region, at, key, b"");
        return;
    };
    placing::land_record::<Laid>(region, at, key, value);
}

// The bytes of an edit, at their own place in the region.
fn lay_edit(key: u64, lent: Lent, edit: Edit, n: usize, region: &mut [u8], value: &[u8])
    requires { (length (value_of lent value.now) ≤ 4079) × (edit_fits (length region.old) n (length (value_of lent value.now)) edit ≡ true) }
    ensures { region.new ≡ laid_in key (value_of lent value.now) edit region.old }
{
    match edit {
        Edit::Lay { region: _, at } => {
            lay_new(key, lent, at, region, value);
        }
        Edit::Kill {
            how,
            region: _,
            rec,
        } => {
            placing::land_kill::<Laid>(region, rec.at, how, rec);
        }
        Edit::Erase { region: _ } => {}
    }
}

// What an operation waits to have written is laid into the region; where it waits for something else, nothing is.
fn lay(ruled: RuledOp, region: &mut [u8], value: &[u8])
    requires { (length region.old ≡ ruled.op.s) × (length (value_of ruled.op.lent value.now) ≡ value_lent ruled.op.lent) }
    ensures { region.new ≡ laid ruled.op region.old value.now }
{
    let op = ruled.op;
    let lent = op.lent;
    let plan = op.plan;
    let edits = plan.edits;
    if op.fresh {
        return;
    }
    let Some(edit) = plans::first_of(edits) else {
        return;
    };
    lay_edit(op.key, lent, edit, op.n, region, value);
}

// R8.5: "not ready" alters nothing, and a failed service ends the operation.
pub fn lay_on(reply: Reply, ruled: RuledOp, region: &mut [u8], value: &[u8])
    requires { (length region.old ≡ ruled.op.s) × (length (value_of ruled.op.lent value.now) ≡ value_lent ruled.op.lent) }
    ensures { region.new ≡ laid_on reply ruled.op region.old value.now }
{
    if let Reply::NotReady = reply {
        return;
    }
    lay(ruled, region, value);
}
