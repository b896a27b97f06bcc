// Answers and requests in numbers.
ghost use Rattle.std.specs.Prelude.{◌≡◌};
ghost use Rattle.replies.specs.Answers.{answer_numbers, service_numbers, request_numbers};

use crate::{CAnswer, CRequest};
use plans::{Answer, Success};
use running::Request;

// R12.1: an answer in numbers.
pub fn answer_numbers(answer: Answer) -> CAnswer
    ensures { result ≡ answer_numbers answer }
{
    match answer {
        Ok(Success::Complete(len)) => CAnswer {
            kind: 1,
            refusal: 0,
            value: len,
        },
        Ok(Success::Written) => CAnswer {
            kind: 2,
            refusal: 0,
            value: 0,
        },
        Ok(Success::Freed(bytes)) => CAnswer {
            kind: 3,
            refusal: 0,
            value: bytes,
        },
        Err(refusal) => CAnswer {
            kind: 0,
            refusal: refusal.number(),
            value: refusal.value(),
        },
    }
}

fn service(kind: u32, region: usize, from: usize, to: usize, place: usize) -> CRequest
    ensures { result ≡ service_numbers kind region from to place }
{
    CRequest {
        kind,
        region,
        from,
        to,
        place,
        answer: CAnswer {
            kind: 0,
            refusal: 0,
            value: 0,
        },
    }
}

// R12.2: a request in numbers.
pub fn request_numbers(request: Request) -> CRequest
    ensures { result ≡ request_numbers request }
{
    match request {
        Request::Read { region } => service(1, region, 0, 0, 0),
        Request::Write { from, to, place } => service(2, 0, from, to, place),
        Request::Erase { region } => service(3, region, 0, 0, 0),
        Request::Answers(answer) => CRequest {
            kind: 4,
            region: 0,
            from: 0,
            to: 0,
            place: 0,
            answer: answer_numbers(answer),
        },
    }
}
