// How an operation is started.
ghost use Rattle.std.specs.Prelude.{◌≡◌};
ghost use Rattle.format.specs.declared.Removal.{Removal};
ghost use Rattle.running.specs.Starts.{start_refusal, look_started, get_started, append_started, remove_started, collect_started, initialise_started};

use crate::Op;
use format::Removal;
use lookup::Seen;
use plans::{Aim, Edits, Lent, Plan, Then};
use refusals::Refusal;

// R7.2: what a start refuses.
#[tactic(auto, unfolding(crate::specs::Starts::start_refusal))]
fn start_refusal(s: usize, n: usize, key: u64, len: usize) -> Result<(), Refusal>
    ensures { result ≡ start_refusal s n key len }
{
    refusals::refusal_under(chip::is_sized(s, n), key, len)
}

// An operation that begins with a lookup.
fn look_started(aim: Aim, s: usize, n: usize, key: u64, lent: Lent) -> Result<Op, Refusal>
    ensures { result ≡ look_started aim s n key lent }
{
    start_refusal(s, n, key, lent.value())?;
    let plan = Plan {
        edits: Edits::Nil,
        next: Then::Seek {
            aim,
            i: 0,
            seen: Seen::new(),
        },
    };
    Ok(Op::new(s, n, key, lent, plan))
}

// R8.2: get's start: a fresh operation, or a refusal at once, and then nothing runs. `capacity` is the length of the buffer that will be lent.
pub fn start_get(s: usize, n: usize, key: u64, capacity: usize) -> Result<Op, Refusal>
    ensures { result ≡ get_started s n key capacity }
{
    look_started(Aim::Get, s, n, key, Lent::Buffer(capacity))
}

// R8.2: append's start. `len` is the length of the value that will be lent.
pub fn start_append(s: usize, n: usize, key: u64, len: usize) -> Result<Op, Refusal>
    ensures { result ≡ append_started s n key len }
{
    look_started(Aim::Append, s, n, key, Lent::Value(len))
}

// R8.2: invalidate's start.
pub fn start_invalidate(s: usize, n: usize, key: u64) -> Result<Op, Refusal>
    ensures { result ≡ remove_started Removal.Invalidate s n key }
{
    look_started(Aim::Remove(Removal::Invalidate), s, n, key, Lent::Nothing)
}

// R8.2: zeroise's start.
pub fn start_zeroise(s: usize, n: usize, key: u64) -> Result<Op, Refusal>
    ensures { result ≡ remove_started Removal.Zeroise s n key }
{
    look_started(Aim::Remove(Removal::Zeroise), s, n, key, Lent::Nothing)
}

// R8.2: collect's start. It has no key, and its operation carries 1.
pub fn start_collect(s: usize, n: usize) -> Result<Op, Refusal>
    ensures { result ≡ collect_started s n }
{
    start_refusal(s, n, 1, 0)?;
    let plan = Plan {
        edits: Edits::Nil,
        next: Then::Sweep {
            region: 0,
            erased: 0,
        },
    };
    Ok(Op::new(s, n, 1, Lent::Nothing, plan))
}

// R8.2: initialise's start, with the main key.
pub fn start_initialise(s: usize, n: usize, key: u64) -> Result<Op, Refusal>
    ensures { result ≡ initialise_started s n key }
{
    look_started(Aim::Initialise, s, n, key, Lent::Nothing)
}
