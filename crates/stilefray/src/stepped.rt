// The stepped form: one flash service at a time.
ghost use Rattle.std.specs.Prelude.{◌≡◌};
ghost use Rattle.stilefray.specs.Stepped.{bad_call};
ghost use Rattle.stilefray.specs.Allows.{StartGetAllows, StartAppendAllows, StartInvalidateAllows, StartZeroiseAllows, StartCollectAllows, StartInitialiseAllows, StepAllows};

use numbers::{CStart, CStepped};
use operations::COperation;
use refusals::Refusal;
use running::Request;

// R8.2, R12.6: get's start, in numbers. `capacity` is the length of its buffer.
pub fn stilefray_start_get(s: usize, n: usize, key: u64, capacity: usize) -> CStart
    ensures { StartGetAllows s n key capacity result }
{
    numbers::pack_start(running::start_get(s, n, key, capacity))
}

// R8.2, R12.6: append's start. `len` is the length of its value.
pub fn stilefray_start_append(s: usize, n: usize, key: u64, len: usize) -> CStart
    ensures { StartAppendAllows s n key len result }
{
    numbers::pack_start(running::start_append(s, n, key, len))
}

// R8.2, R12.6: invalidate's start.
pub fn stilefray_start_invalidate(s: usize, n: usize, key: u64) -> CStart
    ensures { StartInvalidateAllows s n key result }
{
    numbers::pack_start(running::start_invalidate(s, n, key))
}

// R8.2, R12.6: zeroise's start.
pub fn stilefray_start_zeroise(s: usize, n: usize, key: u64) -> CStart
    ensures { StartZeroiseAllows s n key result }
{
    numbers::pack_start(running::start_zeroise(s, n, key))
}

// R8.2, R12.6: collect's start.
pub fn stilefray_start_collect(s: usize, n: usize) -> CStart
    ensures { StartCollectAllows s n result }
{
    numbers::pack_start(running::start_collect(s, n))
}

// R8.2, R12.6: initialise's start, with the main key.
pub fn stilefray_start_initialise(s: usize, n: usize, key: u64) -> CStart
    ensures { StartInitialiseAllows s n key result }
{
    numbers::pack_start(running::start_initialise(s, n, key))
}

// R6.11: numbers that stand for no operation or no reply: BadCall, and they stay as they are.
fn bad_call(op: COperation) -> CStepped
    ensures { result ≡ bad_call op }
{
    CStepped {
        op,
        request: replies::request_numbers(Request::Answers(Err(Refusal::BadCall))),
    }
}

// R8.3, R12.7: the step on what the numbers stand for.
pub fn stilefray_step(
    op: COperation,
    reply: u32,
    region: &mut [u8],
    value: &[u8],
    buffer: &mut [u8],
) -> CStepped
    ensures { StepAllows op reply region.old value.now buffer.old result region.new buffer.new }
{
    if !operations::stands(op) {
        return bad_call(op);
    }
    let said = operations::known_reply(reply);
    let Some(told) = said else {
        return bad_call(op);
    };
    let stepped = steps::step(operations::read_as(op), told, region, value, buffer);
    let after = stepped.op;
    let request = stepped.request;
    CStepped {
        op: numbers::pack(after),
        request: replies::request_numbers(request),
    }
}
