//! What a call answers.
ghost use Rattle.std.specs.Prelude.{◌≡◌};
ghost use Rattle.cat_core.specs.Answer.{answer_with, core_fault, event_answer, replied};

use crate::fault::CoreFault;
use cat_model::types::Fault;
use std::alloc::AllocError;

/// A refusal of the abstract catalogue, as calls answer it.
pub fn core_fault(fault: Fault) -> CoreFault
    ensures { result ≡ core_fault fault }
{
    match fault {
        Fault::OldSerial(last) => CoreFault::OldSerial(last),
        Fault::NotFound => CoreFault::NotFound,
        Fault::TooLarge(sum) => CoreFault::TooLarge(sum),
        Fault::Spent(counter) => CoreFault::Spent(counter),
    }
}

/// What is answered to an event whose reply says nothing more.
pub fn answered(came: Result<Option<Fault>, AllocError>) -> Result<(), CoreFault>
    ensures { result ≡ event_answer came }
{
    match came {
        Ok(None) => Ok(()),
        Ok(Some(fault)) => Err(core_fault(fault)),
        Err(_) => Err(CoreFault::NoMemory),
    }
}

/// The reply of a call that is not refused.
pub fn with_reply<T: Drop>(answer: Result<(), CoreFault>, reply: T) -> Result<T, CoreFault>
    ensures { result ≡ replied answer reply }
{
    match answer {
        Ok(()) => Ok(reply),
        Err(fault) => Err(fault),
    }
}

/// What is answered to an event that gives its reply with its refusal.
pub fn answered_with<T: Drop>(came: Result<(Option<Fault>, T), AllocError>) -> Result<T, CoreFault>
    ensures { result ≡ answer_with came }
{
    match came {
        Ok((None, reply)) => Ok(reply),
        Ok((Some(fault), _)) => Err(core_fault(fault)),
        Err(_) => Err(CoreFault::NoMemory),
    }
}
