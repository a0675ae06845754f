//! The numbers of answers.
ghost use Rattle.cat_api.specs.Room.{AreNumbers, AreSmall, HasNumbers};

use cat_model::types::Counts;
use cat_requests::answer::Answer;
use cat_requests::refusal::Refusal;

fn are_numbers(_counts: Counts)
    ensures { AreNumbers _counts }
{}

fn has_numbers(refusal: Refusal)
    ensures { HasNumbers refusal }
{
    match refusal {
        _ => {}
    }
}

/// The numbers of an answer are of 64 bits.
pub(crate) fn numbers_fit(answer: &Answer)
    ensures { AreSmall answer.now }
{
    match answer {
        Answer::Settled(counts) => are_numbers(*counts),
        Answer::Refused(refusal) => has_numbers(*refusal),
        _ => {}
    }
}
