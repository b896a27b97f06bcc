// The requests as a host prints them.
ghost use Rattle.std.specs.Prelude.{Some};
ghost use Rattle.running.specs.Requests.{text};

use crate::Request;
use plans::Printed;
use std::fmt;

// A service with its places; the answer where none is asked for.
impl fmt::Display for Request {
    ghost output = { λ request. Some (text request) };

    fn fmt<W: fmt::Write>(&self, f: &mut fmt::Formatter<W>) -> fmt::Result {
        match *self {
            Request::Read { region } => write!(f, "read {region}"),
            Request::Write { from, to, place } => write!(f, "write {from}..{to} at {place}"),
            Request::Erase { region } => write!(f, "erase {region}"),
            Request::Answers(answer) => write!(f, "{}", Printed(answer)),
        }
    }
}
