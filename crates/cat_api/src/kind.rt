//! The kinds of commands, and how what the desk says becomes an answer.
ghost use Rattle.std.specs.Prelude.{◌≡◌};
ghost use Rattle.cat_api.specs.Deeds as spec;
ghost use Rattle.cat_requests.specs.Answers.{IsShort, IsShortRefusal};

use cat_core::fault::{CoreFault, Cut};
use cat_desk::command::Reply;
use cat_requests::answer::Answer;
use cat_requests::refusal::Refusal;

/// What kind of command a request is.
#[derive(Clone, Copy, Debug, Drop, PartialEq, Eq)]
pub enum Kind {
    /// A provider's mutation.
    Mutation,
    /// A change of the shelf.
    Shelving,
    /// A record is made due.
    Refreshing,
    /// An entity is forgotten.
    Forgetting,
    /// What is due is processed.
    Settling,
}

fn missing(kind: Kind) -> Refusal
    ensures value { result ≡ spec.missing kind }
    ensures short { IsShortRefusal result }
{
    match kind {
        Kind::Shelving => Refusal::Shelf,
        _ => Refusal::Entity,
    }
}

fn fault_refusal(kind: Kind, fault: CoreFault) -> Refusal
    ensures value { result ≡ spec.fault_refusal kind fault }
    ensures short { IsShortRefusal result }
{
    match fault {
        CoreFault::OldSerial(last) => Refusal::OldSerial(last),
        CoreFault::NotFound => missing(kind),
        CoreFault::TooLarge(sum) => Refusal::TooLarge(sum),
        CoreFault::Spent(counter) => Refusal::Spent(counter),
        CoreFault::Keeper => Refusal::Keeper,
        CoreFault::NoMemory => Refusal::NoMemory,
    }
}

fn cut_refusal(cut: Cut) -> Refusal
    ensures short { IsShortRefusal result }
    ensures value { result ≡ spec.cut_by cut.events cut.fault }
{
    match cut.fault {
        CoreFault::Spent(counter) => Refusal::CutByCounter(cut.events, counter),
        CoreFault::Keeper => Refusal::CutByKeeper(cut.events),
        CoreFault::OldSerial(_)
        | CoreFault::NotFound
        | CoreFault::TooLarge(_)
        | CoreFault::NoMemory => Refusal::CutByMemory(cut.events),
    }
}

fn changed(kind: Kind) -> Answer
    ensures short { IsShort result }
    ensures value { result ≡ spec.changed kind }
{
    match kind {
        Kind::Refreshing => Answer::Refreshed,
        _ => Answer::Done,
    }
}

/// Whether the reply says that memory was wanted.
pub fn lacks_memory(reply: &Reply) -> bool
    ensures { result ≡ spec.lacks_memory reply.now }
{
    match reply {
        Reply::Refused(CoreFault::NoMemory) => true,
        _ => false,
    }
}

/// The answer to a command of this kind, by the desk's reply.
pub fn act_answer(kind: Kind, reply: &Reply) -> Answer
    ensures value { result ≡ spec.act_answer kind reply.now }
    ensures short { IsShort result }
{
    match reply {
        Reply::Mutated(acted) => Answer::Mutated(*acted),
        Reply::Changed => changed(kind),
        Reply::Settled(counts) => Answer::Settled(*counts),
        Reply::Cut(cut) => Answer::Refused(cut_refusal(*cut)),
        Reply::Refused(fault) => Answer::Refused(fault_refusal(kind, *fault)),
        _ => Answer::Refused(Refusal::Reply),
    }
}
