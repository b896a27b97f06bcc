// A running operation in numbers.
ghost use Rattle.std.specs.Prelude.{◌≡◌};
ghost use Rattle.numbers.specs.Packs.{lent_number, lent_length, slot_at, kill_number, edit_numbers, slot_of, few, aim_number, next_at, seek_numbers, end_numbers, next_numbers, over, fresh_number, in_numbers, packed, start_numbers, Looks, start_looks};

use crate::CStart;
use format::Removal;
use lookup::Room;
use operations::COperation;
use plans::{Aim, Answer, Edit, Edits, Lent, Plan, Success, Then};
use refusals::Refusal;
use running::Op;

// R12.4: the numbers of the edit that is left.
#[derive(Clone, Copy)]
pub struct Slot {
    pub edit: u32,
    pub version: u8,
    pub flags: u8,
    pub region: usize,
    pub at: usize,
    pub size: usize,
    pub found: u64,
}

// R12.4: the numbers of what comes behind it.
#[derive(Clone, Copy)]
pub struct Next {
    pub next: u32,
    pub aim: u32,
    pub tag: u32,
    pub a: usize,
    pub b: usize,
    pub c: usize,
}

fn lent_number(lent: Lent) -> u32
    ensures { result ≡ lent_number lent }
{
    match lent {
        Lent::Nothing => 0,
        Lent::Value(_) => COperation::LENT_VALUE,
        Lent::Buffer(_) => COperation::LENT_BUFFER,
    }
}

fn lent_length(lent: Lent) -> usize
    ensures { result ≡ lent_length lent }
{
    match lent {
        Lent::Nothing => 0,
        Lent::Value(len) => len,
        Lent::Buffer(len) => len,
    }
}

// An edit with no record in it, or none.
fn slot_at(edit: u32, region: usize, at: usize) -> Slot
    ensures { result ≡ slot_at edit region at }
{
    Slot {
        edit,
        version: 0,
        flags: 0,
        region,
        at,
        size: 0,
        found: 0,
    }
}

fn kill_number(how: Removal) -> u32
    ensures { result ≡ kill_number how }
{
    match how {
        Removal::Invalidate => COperation::EDIT_INVALIDATE,
        Removal::Zeroise => COperation::EDIT_ZEROISE,
    }
}

fn edit_numbers(edit: Edit) -> Slot
    ensures { result ≡ edit_numbers edit }
{
    match edit {
        Edit::Lay { region, at } => slot_at(COperation::EDIT_LAY, region, at),
        Edit::Kill { how, region, rec } => Slot {
            edit: kill_number(how),
            version: rec.version,
            flags: rec.flags,
            region,
            at: rec.at,
            size: rec.len,
            found: rec.key,
        },
        Edit::Erase { region } => slot_at(COperation::EDIT_ERASE, region, 0),
    }
}

fn slot_of(edits: Edits) -> Slot
    ensures { result ≡ slot_of edits }
{
    match edits {
        Edits::Nil => slot_at(0, 0, 0),
        Edits::One(e) => edit_numbers(e),
        Edits::Two(_, _) => slot_at(0, 0, 0),
        Edits::Three(_, _, _) => slot_at(0, 0, 0),
        Edits::Erases { from, to } => slot_at(COperation::EDIT_ERASES, from, to),
    }
}

// Whether the edits have numbers: no plan of today waits with two.
fn is_few(edits: Edits) -> bool
    ensures { result ≡ few edits }
{
    !matches!(edits, Edits::Two(_, _) | Edits::Three(_, _, _))
}

fn aim_number(aim: Aim) -> u32
    ensures { result ≡ aim_number aim }
{
    match aim {
        Aim::Get => COperation::AIM_GET,
        Aim::Append => COperation::AIM_APPEND,
        Aim::Remove(how) => match how {
            Removal::Invalidate => COperation::AIM_INVALIDATE,
            Removal::Zeroise => COperation::AIM_ZEROISE,
        },
        Aim::Initialise => COperation::AIM_INITIALISE,
    }
}

fn next_at(next: u32, a: usize, b: usize) -> Next
    ensures { result ≡ next_at next a b }
{
    Next {
        next,
        aim: 0,
        tag: 0,
        a,
        b,
        c: 0,
    }
}

fn seek_numbers(aim: Aim, i: usize, gathered: Option<Room>) -> Next
    ensures { result ≡ seek_numbers aim i gathered }
{
    let number = aim_number(aim);
    match gathered {
        None => Next {
            next: COperation::NEXT_SEEK,
            aim: number,
            tag: 0,
            a: i,
            b: 0,
            c: 0,
        },
        Some(Room { region, at, blank }) => Next {
            next: COperation::NEXT_SEEK,
            aim: number,
            tag: if blank { 2 } else { 1 },
            a: i,
            b: region,
            c: at,
        },
    }
}

// A refusal that comes after an edit breaks the rule: such numbers stand for no operation.
fn end_numbers(answer: Answer) -> Next
    ensures { result ≡ end_numbers answer }
{
    match answer {
        Ok(Success::Complete(len)) => next_at(COperation::NEXT_COMPLETE, len, 0),
        Ok(Success::Written) => next_at(COperation::NEXT_WRITTEN, 0, 0),
        Ok(Success::Freed(bytes)) => next_at(COperation::NEXT_FREED, bytes, 0),
        Err(_) => next_at(0, 0, 0),
    }
}

// A value is given within the step that comes to it: an operation that rests before it breaks the rule, and its numbers stand for none.
fn next_numbers(next: Then) -> Next
    ensures { result ≡ next_numbers next }
{
    match next {
        Then::Ends(answer) => end_numbers(answer),
        Then::Seek { aim, i, seen } => seek_numbers(aim, i, seen.room),
        Then::Sweep { region, erased } => next_at(COperation::NEXT_SWEEP, region, erased),
        Then::Gives {
            region: _,
            rec: _,
            anew: _,
        } => next_at(0, 0, 0),
    }
}

// Whether nothing is left but the answer.
fn is_over(plan: Plan) -> bool
    ensures { result ≡ over plan }
{
    matches!(plan.next, Then::Ends(_)) && plans::first_of(plan.edits).is_none()
}

fn fresh_number(fresh: bool) -> u32
    ensures { result ≡ fresh_number fresh }
{
    if fresh { 1 } else { 0 }
}

fn in_numbers(op: Op, slot: Slot, next: Next) -> COperation
    ensures { result ≡ in_numbers op slot next }
{
    let lent = op.lent;
    COperation {
        layout: COperation::LAYOUT,
        fresh: fresh_number(op.fresh),
        lent: lent_number(lent),
        edit: slot.edit,
        next: next.next,
        aim: next.aim,
        tag: next.tag,
        version: slot.version,
        flags: slot.flags,
        s: op.s,
        n: op.n,
        key: op.key,
        len: lent_length(lent),
        region: slot.region,
        at: slot.at,
        size: slot.size,
        found: slot.found,
        a: next.a,
        b: next.b,
        c: next.c,
    }
}

// R12.4, R12.7: a running operation in numbers. One that has ended keeps none of its plan: its answer was given.
#[tactic(auto, unfolding(crate::specs::Packs::packed))]
pub fn pack(op: Op) -> COperation
    ensures { result ≡ packed op }
{
    let plan = op.plan;
    let edits = plan.edits;
    let next = plan.next;
    if is_over(plan) {
        return in_numbers(op, slot_at(0, 0, 0), next_at(COperation::NEXT_ENDED, 0, 0));
    }
    if !is_few(edits) {
        return in_numbers(op, slot_at(0, 0, 0), next_at(0, 0, 0));
    }
    in_numbers(op, slot_of(edits), next_numbers(next))
}

// What a start hands out, in numbers: fewer tests, and so `pack` has one caller, into which the compiler takes it.
#[tactic(auto, unfolding(crate::specs::Packs::packed))]
fn pack_fresh(op: Op) -> COperation
    requires { Looks op }
    ensures { result ≡ packed op }
{
    let plan = op.plan;
    let next = plan.next;
    in_numbers(op, slot_at(0, 0, 0), next_numbers(next))
}

// R12.6: a start in numbers.
pub fn pack_start(start: Result<Op, Refusal>) -> CStart
    requires { start_looks start }
    ensures { result ≡ start_numbers start }
{
    match start {
        Ok(op) => CStart {
            refusal: 0,
            op: pack_fresh(op),
        },
        Err(refusal) => CStart {
            refusal: refusal.number(),
            op: COperation::none(),
        },
    }
}
