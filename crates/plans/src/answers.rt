// What is made of an answer.
ghost use Rattle.std.specs.Prelude.{◌≡◌};
ghost use Rattle.plans.specs.Answers.{starts_anew};

use crate::Answer;
use refusals::Refusal;

// Whether initialise erases the chip on this answer of its lookup: on refusals 4, 7, 8, 9 and 10.
pub fn starts_anew(answer: Answer) -> bool
    ensures { result ≡ starts_anew answer }
{
    matches!(
        answer,
        Err(
            Refusal::KeyNotFound
                | Refusal::UnsupportedVersion
                | Refusal::CorruptData
                | Refusal::BufferTooSmall(_)
                | Refusal::InvalidCheckSum
        )
    )
}
