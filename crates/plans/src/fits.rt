// Whether a plan lies in a chip of n regions of s bytes, and is one for what is lent.
ghost use Rattle.std.specs.Prelude.{◌≡◌, ◌≤◌, ◌&&◌, ltb};
ghost use Rattle.plans.specs.declared.Edits.TheVariants.{Two, Three};
ghost use Rattle.plans.specs.declared.Then.TheVariants.{Seek};
ghost use Rattle.plans.specs.Writes.{value_lent};
ghost use Rattle.plans.specs.Fits.{lies, record_fits, place_fits, room_fits, lent_for, edit_fits, edits_fit, then_fits, answer_rests, rests, value_short, plan_fits};

use crate::{Aim, Answer, Edit, Edits, Lent, Plan, Then};
use format::Record;
use lookup::{Room, Seen};

fn lies_in(o: usize, len: usize, s: usize) -> bool
    ensures { result ≡ lies o len s }
{
    o <= s && len <= s - o
}

fn record_fits(s: usize, rec: Record) -> bool
    ensures { result ≡ record_fits s rec }
{
    rec.len >= Record::LEAST && rec.len <= Record::MOST && lies_in(rec.at, rec.len, s)
}

// Whether this is what is lent for an aim.
fn lent_for(aim: Aim, lent: Lent) -> bool
    ensures { result ≡ lent_for aim lent }
{
    match aim {
        Aim::Get => matches!(lent, Lent::Buffer(_)),
        Aim::Append => matches!(lent, Lent::Nothing | Lent::Value(_)),
        Aim::Remove(_) | Aim::Initialise => matches!(lent, Lent::Nothing),
    }
}

// Whether an answer may follow: after an edit no refusal does.
fn answer_rests(first: Option<Edit>, answer: Answer) -> bool
    ensures { result ≡ answer_rests first answer }
{
    first.is_none() || answer.is_ok()
}

// Whether an operation may rest before what follows.
fn then_rests(first: Option<Edit>, next: Then) -> bool
    ensures { result ≡ rests first next }
{
    match next {
        Then::Ends(answer) => answer_rests(first, answer),
        Then::Seek { .. } | Then::Sweep { .. } => true,
        Then::Gives { .. } => false,
    }
}

fn value_short(lent: Lent) -> bool
    ensures { result ≡ value_short lent }
{
    lent.value() <= Record::LARGEST - Record::LEAST
}

// R8.10: what a plan has to fit: n regions of s bytes, and what is lent, which is no longer than a value may be.
#[derive(Clone, Copy)]
struct Space {
    s: usize,
    n: usize,
    lent: Lent,
    ghost short: { value_lent lent ≤ 4079 },
}

impl Space {
    // A place for the record of the value that is lent.
    fn has_place(self, r: usize, at: usize) -> bool
        ensures { result ≡ place_fits self.s self.n (value_lent self.lent) r at }
    {
        r < self.n && lies_in(at, self.lent.value() + Record::LEAST, self.s)
    }

    // A region and a record in it.
    fn has_record(self, r: usize, rec: Record) -> bool
        ensures { result ≡ (ltb r self.n && record_fits self.s rec) }
    {
        r < self.n && record_fits(self.s, rec)
    }

    fn has_edit(self, edit: Edit) -> bool
        ensures { result ≡ edit_fits self.s self.n (value_lent self.lent) edit }
    {
        match edit {
            Edit::Lay { region, at } => self.has_place(region, at),
            Edit::Kill {
                how: _,
                region,
                rec,
            } => self.has_record(region, rec),
            Edit::Erase { region } => region < self.n,
        }
    }

    fn has_edits(self, edits: Edits) -> bool
        ensures { result ≡ edits_fit self.s self.n (value_lent self.lent) edits }
    {
        match edits {
            Edits::Nil => true,
            Edits::One(e) => self.has_edit(e),
            Edits::Two(e, f) => self.has_edit(e) && self.has_edit(f),
            Edits::Three(e, f, g) => self.has_edit(e) && self.has_edit(f) && self.has_edit(g),
            Edits::Erases { from: _, to } => to <= self.n,
        }
    }

    fn has_room(self, room: Option<Room>) -> bool
        ensures { result ≡ room_fits self.s self.n (value_lent self.lent) room }
    {
        match room {
            None => true,
            Some(
                Room {
                    region,
                    at,
                    blank: _,
                },
            ) => self.has_place(region, at),
        }
    }

    fn has_seek(self, aim: Aim, i: usize, seen: Seen) -> bool
        ensures { result ≡ then_fits self.s self.n self.lent (Seek aim i seen) }
    {
        lent_for(aim, self.lent) && i < self.n && self.has_room(seen.room)
    }

    fn has_next(self, next: Then) -> bool
        ensures { result ≡ then_fits self.s self.n self.lent next }
    {
        match next {
            Then::Ends(_) => true,
            Then::Seek { aim, i, seen } => self.has_seek(aim, i, seen),
            Then::Sweep { region, erased } => region < self.n && erased <= region,
            Then::Gives {
                region,
                rec,
                anew: _,
            } => self.has_record(region, rec),
        }
    }
}

pub fn plan_fits(s: usize, n: usize, lent: Lent, plan: Plan) -> bool
    ensures { result ≡ plan_fits s n lent plan }
{
    if !value_short(lent) {
        return false;
    }
    let space = Space { s, n, lent };
    let edits = plan.edits;
    let next = plan.next;
    space.has_edits(edits) && space.has_next(next) && then_rests(crate::first_of(edits), next)
}
