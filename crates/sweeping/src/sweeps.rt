// Collect, a region at a time.
ghost use Rattle.std.specs.Prelude.{◌≡◌, ◌+◌, ◌*◌, ◌≤◌, ◌<◌, length};
ghost use Rattle.chip.specs.Geometry.{Shape};
ghost use Rattle.sweeping.specs.Sweeps.{verdict, swept_to, sweep_plan};

use crate::Verdict;
use plans::{Edit, Edits, Plan, Success, Then};
use region::{Event, Want};

// What becomes of region r: the first live record or bad place decides.
pub fn judge(r: usize, region: &[u8]) -> Verdict
    requires { r * length region.now + length region.now < 18446744073709551616 }
    ensures { result ≡ verdict r region.now }
{
    let event = region::find(region, Want::Any);
    match event {
        Event::Live(_) => Verdict::Stands,
        Event::Bad(fault, at) => Verdict::Bad {
            fault,
            place: r * region.len() + at,
        },
        Event::End(at) => {
            // Records begin at place 0: a walk that ends there met none.
            if at == 0 {
                Verdict::Stands
            } else {
                Verdict::Erase
            }
        }
    }
}

fn swept_to(s: usize, n: usize, r: usize, k: usize) -> Then
    requires { Shape s n × (k ≤ n) }
    ensures { result ≡ swept_to s n r k }
{
    if r < n {
        Then::Sweep {
            region: r,
            erased: k,
        }
    } else {
        Then::Ends(Ok(Success::Freed(k * s)))
    }
}

// Region r was looked at, with k regions erased before it.
pub fn sweep_plan(s: usize, n: usize, r: usize, k: usize, verdict: Verdict) -> Plan
    requires { Shape s n × (r < n) × (k ≤ r) }
    ensures { result ≡ sweep_plan s n r k verdict }
{
    match verdict {
        Verdict::Stands => Plan {
            edits: Edits::Nil,
            next: swept_to(s, n, r + 1, k),
        },
        Verdict::Erase => Plan {
            edits: Edits::One(Edit::Erase { region: r }),
            next: swept_to(s, n, r + 1, k + 1),
        },
        Verdict::Bad { fault, place: _ } => plans::refuse(fault.into()),
    }
}
