// A list of edits by its first and the others; a plan that has none.
ghost use Rattle.std.specs.Prelude.{◌≡◌};
ghost use Rattle.plans.specs.Writes.{first, rest, ends, refuses};

use crate::{Answer, Edit, Edits, Plan, Then};
use refusals::Refusal;

// R9.7: the first edit that is left to do, if any.
pub fn first_of(edits: Edits) -> Option<Edit>
    ensures { result ≡ first edits }
{
    match edits {
        Edits::Nil => None,
        Edits::One(e) | Edits::Two(e, _) | Edits::Three(e, _, _) => Some(e),
        Edits::Erases { from, to } => {
            if from < to {
                Some(Edit::Erase { region: from })
            } else {
                None
            }
        }
    }
}

// The others.
pub fn rest_of(edits: Edits) -> Edits
    ensures { result ≡ rest edits }
{
    match edits {
        Edits::Nil | Edits::One(_) => Edits::Nil,
        Edits::Two(_, f) => Edits::One(f),
        Edits::Three(_, f, g) => Edits::Two(f, g),
        Edits::Erases { from, to } => {
            if from < to {
                Edits::Erases { from: from + 1, to }
            } else {
                Edits::Nil
            }
        }
    }
}

// A plan that is nothing but an answer.
pub fn ends_with(answer: Answer) -> Plan
    ensures { result ≡ ends answer }
{
    Plan {
        edits: Edits::Nil,
        next: Then::Ends(answer),
    }
}

pub fn refuse(refusal: Refusal) -> Plan
    ensures { result ≡ refuses refusal }
{
    ends_with(Err(refusal))
}
