// The running operation and the reply that numbers stand for.
ghost use Rattle.std.specs.Prelude.{◌≡◌};
ghost use Rattle.operations.specs.Unpacks.{lent_in, record_in, edits_in, aim_in, gathered_in, next_in, read_as, own_fresh, own_lent, bare, own_edit, own_aim, own_gathered, plain, left_in, own_end, own_next, standing, known_reply};

use crate::COperation;
use format::{Record, Removal};
use lookup::{Room, Seen};
use plans::{Aim, Edit, Edits, Lent, Plan, Success, Then};
use running::{Op, Reply};

fn lent_in(lent: u32, len: usize) -> Lent
    ensures { result ≡ lent_in lent len }
{
    if lent == 0 {
        return Lent::Nothing;
    }
    if lent == COperation::LENT_VALUE {
        return Lent::Value(len);
    }
    Lent::Buffer(len)
}

fn record_in(o: COperation) -> Record
    ensures { result ≡ record_in o }
{
    Record {
        at: o.at,
        len: o.size,
        version: o.version,
        flags: o.flags,
        key: o.found,
    }
}

fn edits_in(o: COperation) -> Edits
    ensures { result ≡ edits_in o }
{
    if o.edit == 0 {
        return Edits::Nil;
    }
    if o.edit == COperation::EDIT_LAY {
        return Edits::One(Edit::Lay {
            region: o.region,
            at: o.at,
        });
    }
    if o.edit == COperation::EDIT_INVALIDATE {
        return Edits::One(Edit::Kill {
            how: Removal::Invalidate,
            region: o.region,
            rec: record_in(o),
        });
    }
    if o.edit == COperation::EDIT_ZEROISE {
        return Edits::One(Edit::Kill {
            how: Removal::Zeroise,
            region: o.region,
            rec: record_in(o),
        });
    }
    if o.edit == COperation::EDIT_ERASE {
        return Edits::One(Edit::Erase { region: o.region });
    }
    Edits::Erases {
        from: o.region,
        to: o.at,
    }
}

fn aim_in(aim: u32) -> Aim
    ensures { result ≡ aim_in aim }
{
    if aim == COperation::AIM_GET {
        return Aim::Get;
    }
    if aim == COperation::AIM_APPEND {
        return Aim::Append;
    }
    if aim == COperation::AIM_INVALIDATE {
        return Aim::Remove(Removal::Invalidate);
    }
    if aim == COperation::AIM_ZEROISE {
        return Aim::Remove(Removal::Zeroise);
    }
    Aim::Initialise
}

fn gathered_in(tag: u32, region: usize, at: usize) -> Option<Room>
    ensures { result ≡ gathered_in tag region at }
{
    if tag == 0 {
        return None;
    }
    Some(Room {
        region,
        at,
        blank: tag == 2,
    })
}

fn next_in(o: COperation) -> Then
    ensures { result ≡ next_in o }
{
    if o.next == COperation::NEXT_SEEK {
        return Then::Seek {
            aim: aim_in(o.aim),
            i: o.a,
            seen: Seen {
                room: gathered_in(o.tag, o.b, o.c),
            },
        };
    }
    if o.next == COperation::NEXT_SWEEP {
        return Then::Sweep {
            region: o.a,
            erased: o.b,
        };
    }
    if o.next == COperation::NEXT_COMPLETE {
        return Then::Ends(Ok(Success::Complete(o.a)));
    }
    if o.next == COperation::NEXT_WRITTEN {
        return Then::Ends(Ok(Success::Written));
    }
    Then::Ends(Ok(Success::Freed(o.a)))
}

// R12.4: what the numbers that are used say, each read as the last kind where it is the number of none: `stands` tells whether it is.
#[tactic(auto, unfolding(crate::specs::Unpacks::read_as))]
pub fn read_as(o: COperation) -> Op
    ensures { result ≡ read_as o }
{
    Op {
        s: o.s,
        n: o.n,
        key: o.key,
        lent: lent_in(o.lent, o.len),
        fresh: o.fresh == 1,
        plan: Plan {
            edits: edits_in(o),
            next: next_in(o),
        },
    }
}

fn own_fresh(fresh: u32) -> bool
    ensures { result ≡ own_fresh fresh }
{
    if fresh == 1 {
        return true;
    }
    fresh == 0
}

fn own_lent(lent: u32, len: usize) -> bool
    ensures { result ≡ own_lent lent len }
{
    if lent == 0 {
        return len == 0;
    }
    if lent == COperation::LENT_VALUE {
        return true;
    }
    lent == COperation::LENT_BUFFER
}

// Whether an edit's numbers have no record in them.
fn is_bare(o: COperation) -> bool
    ensures { result ≡ bare o }
{
    o.size == 0 && (o.found == 0 && (o.version == 0 && o.flags == 0))
}

fn own_edit(o: COperation) -> bool
    ensures { result ≡ own_edit o }
{
    if o.edit == 0 {
        return o.region == 0 && (o.at == 0 && is_bare(o));
    }
    if o.edit == COperation::EDIT_LAY {
        return is_bare(o);
    }
    if o.edit == COperation::EDIT_INVALIDATE {
        return true;
    }
    if o.edit == COperation::EDIT_ZEROISE {
        return true;
    }
    if o.edit == COperation::EDIT_ERASE {
        return o.at == 0 && is_bare(o);
    }
    o.edit == COperation::EDIT_ERASES && is_bare(o)
}

fn own_aim(aim: u32) -> bool
    ensures { result ≡ own_aim aim }
{
    if aim == COperation::AIM_GET {
        return true;
    }
    if aim == COperation::AIM_APPEND {
        return true;
    }
    if aim == COperation::AIM_INVALIDATE {
        return true;
    }
    if aim == COperation::AIM_ZEROISE {
        return true;
    }
    aim == COperation::AIM_INITIALISE
}

fn own_gathered(tag: u32, region: usize, at: usize) -> bool
    ensures { result ≡ own_gathered tag region at }
{
    if tag == 0 {
        return region == 0 && at == 0;
    }
    if tag == 2 {
        return true;
    }
    tag == 1
}

// Whether the numbers of what follows have no seek in them.
fn is_plain(o: COperation) -> bool
    ensures { result ≡ plain o }
{
    o.aim == 0 && (o.tag == 0 && o.c == 0)
}

// Whether an edit is left to do: an answer alone is nothing that runs.
fn is_left(o: COperation) -> bool
    ensures { result ≡ left_in o }
{
    if o.edit == 0 {
        return false;
    }
    if o.edit == COperation::EDIT_ERASES {
        return o.region < o.at;
    }
    true
}

fn own_end(o: COperation) -> bool
    ensures { result ≡ own_end o }
{
    if !is_plain(o) {
        return false;
    }
    o.b == 0 && is_left(o)
}

fn own_next(o: COperation) -> bool
    ensures { result ≡ own_next o }
{
    if o.next == COperation::NEXT_SEEK {
        if !own_aim(o.aim) {
            return false;
        }
        return own_gathered(o.tag, o.b, o.c);
    }
    if o.next == COperation::NEXT_SWEEP {
        return is_plain(o);
    }
    if o.next == COperation::NEXT_COMPLETE {
        return own_end(o);
    }
    if o.next == COperation::NEXT_WRITTEN {
        return o.a == 0 && own_end(o);
    }
    o.next == COperation::NEXT_FREED && own_end(o)
}

// R12.5: whether numbers are those of a running operation. With anything more in them they are none: a step would not hand it back.
#[tactic(auto, unfolding(crate::specs::Unpacks::standing))]
pub fn stands(o: COperation) -> bool
    ensures { result ≡ standing o }
{
    if o.layout != COperation::LAYOUT {
        return false;
    }
    if !own_next(o) {
        return false;
    }
    if !own_fresh(o.fresh) {
        return false;
    }
    if !own_lent(o.lent, o.len) {
        return false;
    }
    own_edit(o)
}

// R12.3: the host's reply: 0 begin, 1 done, 2 not ready, 3 failed.
#[tactic(auto, unfolding(crate::specs::Unpacks::known_reply))]
pub fn known_reply(reply: u32) -> Option<Reply>
    ensures { result ≡ known_reply reply }
{
    match reply {
        0 => Some(Reply::Begin),
        1 => Some(Reply::Done),
        2 => Some(Reply::NotReady),
        3 => Some(Reply::Failed),
        _ => None,
    }
}
