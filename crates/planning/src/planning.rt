// The plan of an operation after its lookup.
ghost use Rattle.std.specs.Prelude.{◌≡◌, ◌≤◌};
ghost use Rattle.plans.specs.declared.Edits.TheVariants.{One};
ghost use Rattle.planning.specs.Planning.{need_of, writes, gives, anew, get_plan, place_plan, append_plan, remove_plan, initialise_plan, plan, given_plan};

use format::{Record, Removal};
use lookup::{Hit, Looked, Room, Seen};
use plans::{Aim, Answer, Edit, Edits, Plan, Success, Then};
use refusals::Refusal;

// The bytes of the record that an aim's lookup needs room for, where a value of so many is lent: only append needs any.
pub fn need_of(aim: Aim, len: usize) -> Option<usize>
    requires { len ≤ 4079 }
    ensures { result ≡ need_of aim len }
{
    match aim {
        Aim::Append => Some(len + Record::LEAST),
        Aim::Get | Aim::Remove(_) | Aim::Initialise => None,
    }
}

fn write_one(edit: Edit) -> Plan
    ensures { result ≡ writes (One edit) }
{
    Plan {
        edits: Edits::One(edit),
        next: Then::Ends(Ok(Success::Written)),
    }
}

fn give(region: usize, rec: Record, again: bool) -> Plan
    ensures { result ≡ gives region rec again }
{
    Plan {
        edits: Edits::Nil,
        next: Then::Gives {
            region,
            rec,
            anew: again,
        },
    }
}

// The chip is erased, and the main key appended with an empty value.
fn begin_anew(n: usize) -> Plan
    ensures { result ≡ anew n }
{
    Plan {
        edits: Edits::Erases { from: 0, to: n },
        next: Then::Seek {
            aim: Aim::Append,
            i: 0,
            seen: Seen::new(),
        },
    }
}

fn get_plan(hit: Result<Hit, Refusal>) -> Plan
    ensures { result ≡ get_plan hit }
{
    match hit {
        Ok(hit) => give(hit.region, hit.rec, false),
        Err(refusal) => plans::refuse(refusal),
    }
}

fn place_plan(room: Option<Room>) -> Plan
    ensures { result ≡ place_plan room }
{
    let Some(Room { region, at, blank }) = room else {
        return plans::refuse(Refusal::FlashFull);
    };
    if blank {
        write_one(Edit::Lay { region, at })
    } else {
        plans::refuse(Refusal::CorruptData)
    }
}

pub fn append_plan(looked: Looked) -> Plan
    ensures { result ≡ append_plan looked }
{
    let Looked::Through(seen) = looked else {
        return plans::refuse(looked.refusal());
    };
    place_plan(seen.room)
}

pub fn remove_plan(how: Removal, hit: Result<Hit, Refusal>) -> Plan
    ensures { result ≡ remove_plan how hit }
{
    match hit {
        Ok(Hit { region, rec }) => write_one(Edit::Kill { how, region, rec }),
        Err(refusal) => plans::refuse(refusal),
    }
}

fn initialise_plan(n: usize, hit: Result<Hit, Refusal>) -> Plan
    ensures { result ≡ initialise_plan n hit }
{
    match hit {
        Ok(hit) => give(hit.region, hit.rec, true),
        Err(_) => begin_anew(n),
    }
}

// What an aim makes of how its lookup ended.
pub fn plan_for(aim: Aim, n: usize, looked: Looked) -> Plan
    ensures { result ≡ plan aim n looked }
{
    match aim {
        Aim::Get => get_plan(looked.hit()),
        Aim::Append => append_plan(looked),
        Aim::Remove(how) => remove_plan(how, looked.hit()),
        Aim::Initialise => initialise_plan(n, looked.hit()),
    }
}

// A value was read, with this answer.
pub fn given_plan(n: usize, again: bool, answer: Answer) -> Plan
    ensures { result ≡ given_plan n again answer }
{
    if !again {
        return plans::ends_with(answer);
    }
    if plans::starts_anew(answer) {
        begin_anew(n)
    } else {
        plans::ends_with(answer)
    }
}
