//! The answer to one message.
ghost use Rattle.std.specs.Prelude.{◌≡◌, ◌≢◌, IfOk, OnOk, OnErr, IsErr};
ghost use Rattle.cat_api.specs.Answering.{ActsBy, Answers, AsksBy, Carries, Lacks, LacksIn, TellsBy};
ghost use Rattle.cat_api.specs.Deeds as deeds;
ghost use Rattle.cat_api.specs.Operations.{operation};
ghost use Rattle.cat_api.specs.Operations.Operation.{Act, Ask as AskOf, Tell};
ghost use Rattle.cat_api.specs.Room.{IsBrief, IsBriefBy, IsBriefTo};
ghost use Rattle.cat_desk.specs.Deed.{deed};
ghost use Rattle.cat_requests.specs.Answers as spec;
ghost use Rattle.cat_requests.specs.Requests.{request_of as asked_for};

use crate::kind::{Kind, act_answer, lacks_memory};
use crate::room::numbers_fit;
use crate::task::{Task, task_of};
use cat_desk::command::{Asked, Command};
use cat_desk::feed_desk::{FeedAnswer, FeedDesk};
use cat_feed::change::Since;
use cat_http::body::Bytes;
use cat_http::message::Message;
use cat_http::reply::HttpReply;
use cat_query::ask::Ask;
use cat_requests::answer::{Answer, ROOM, reply_to};
use cat_requests::refusal::Refusal;
use cat_requests::request::{Request, request_of};
use cat_requests::routes::Routes;
use std::alloc::{AllocError, Global};

// Gives a command to the desk. The room for the reply is taken first.
fn act<F: Drop, S: Drop, D: FeedDesk<F, S>>(
    alloc: Global,
    desk: &mut D,
    command: Command<F, S>,
    kind: Kind,
    message: &Message,
) -> Result<HttpReply, AllocError>
    ensures brief { IfOk result IsBrief }
    ensures ok { IfOk result (λ r. ActsBy D.acts desk.old desk.new (deed D.order D.stitch_order command) kind message.now r) }
    ensures err { OnErr result (LacksIn D.acts D.asks D.tells desk.old desk.new (Act (deed D.order D.stitch_order command) kind)) }
{
    let body = Vec::with_capacity(alloc, ROOM)?;
    let reply = desk.act(alloc, command);
    if lacks_memory(&reply) {
        return Err(AllocError);
    }
    let answer = act_answer(kind, &reply);
    numbers_fit(&answer);
    reply_to(alloc, body, message, answer)
}

// What a question was answered: how much there is as a line, and all else as JSON.
fn shown(ask: &Ask, text: Bytes) -> Answer
    ensures { result ≡ deeds.shown ask.now text }
{
    match ask {
        Ask::State => Answer::Line(text),
        _ => Answer::Shown(text),
    }
}

// The answer to a question, by what the desk says and what it appended; none for want of memory.
fn asked_answer(ask: &Ask, asked: Asked, text: Vec<u8>) -> Result<Answer, AllocError>
    ensures ok { IfOk result (λ a. a ≡ deeds.asked_answer ask.now asked text.items) }
    ensures some { OnOk result (asked ≢ Asked.NoMemory) }
{
    match asked {
        Asked::Written => Ok(shown(ask, Bytes::from_vec(text))),
        Asked::NotFound => Ok(Answer::Refused(Refusal::Entity)),
        Asked::NoFacet => Ok(Answer::Refused(Refusal::Facet)),
        Asked::NoMemory => Err(AllocError),
    }
}

// Asks the desk.
fn ask<F: Drop, S: Drop, D: FeedDesk<F, S>>(
    alloc: Global,
    desk: &mut D,
    ask: &Ask,
    message: &Message,
) -> Result<HttpReply, AllocError>
    ensures ok { IfOk result (λ r. AsksBy D.asks desk.old desk.new ask.now message.now r) }
    ensures err { OnErr result (LacksIn D.acts D.asks D.tells desk.old desk.new (AskOf ask.now)) }
{
    let mut text = Vec::new(alloc);
    let asked = desk.ask(alloc, ask, &mut text);
    let answer = asked_answer(ask, asked, text)?;
    reply_to(alloc, Vec::new(alloc), message, answer)
}

// The answer to an ask for changes, by what the desk says and what it appended; none for want of memory.
fn told_answer(told: FeedAnswer, text: Vec<u8>) -> Result<Answer, AllocError>
    ensures ok { IfOk result (λ a. a ≡ deeds.told_answer told text.items) }
    ensures some { OnOk result (told ≢ FeedAnswer.NoMemory) }
{
    match told {
        FeedAnswer::Written => Ok(Answer::Shown(Bytes::from_vec(text))),
        FeedAnswer::Gone(place) => Ok(Answer::Refused(Refusal::Gone(place))),
        FeedAnswer::Ahead(place) => Ok(Answer::Refused(Refusal::Ahead(place))),
        FeedAnswer::Spent => Ok(Answer::Refused(Refusal::SpentFeed)),
        FeedAnswer::NoMemory => Err(AllocError),
    }
}

// Asks the desk for changes.
fn tell<F: Drop, S: Drop, D: FeedDesk<F, S>>(
    alloc: Global,
    desk: &mut D,
    since: Option<Since>,
    message: &Message,
) -> Result<HttpReply, AllocError>
    ensures ok { IfOk result (λ r. TellsBy D.tells desk.old desk.new since message.now r) }
    ensures err { OnErr result (LacksIn D.acts D.asks D.tells desk.old desk.new (Tell since)) }
{
    let mut text = Vec::new(alloc);
    let told = desk.changes(alloc, since, &mut text);
    let answer = told_answer(told, text)?;
    reply_to(alloc, Vec::new(alloc), message, answer)
}

// Carries out a request.
fn carry_out<F: Drop, S: Drop, D: FeedDesk<F, S>>(
    alloc: Global,
    desk: &mut D,
    request: Request,
    message: &Message,
) -> Result<HttpReply, AllocError>
    ensures brief { IfOk result (IsBriefTo (operation request)) }
    ensures ok { IfOk result (λ r. Carries D.acts D.asks D.tells desk.old desk.new (operation request) message.now r) }
    ensures err { OnErr result (LacksIn D.acts D.asks D.tells desk.old desk.new (operation request)) }
{
    match task_of(request) {
        Task::Act(command, kind) => act(alloc, desk, command, kind, message),
        Task::Ask(question) => ask(alloc, desk, &question, message),
        Task::Tell(since) => tell(alloc, desk, since, message),
        Task::Show(file) => reply_to(alloc, Vec::new(alloc), message, Answer::Page(file)),
    }
}

// The reply to a message that is refused; none for want of memory.
fn refused(alloc: Global, message: &Message, refusal: Refusal) -> Result<HttpReply, AllocError>
    ensures ok { IfOk result (λ r. r ≡ spec.reply_to message.now (Answer.Refused refusal)) }
    ensures memory { refusal ≡ Refusal.NoMemory → IsErr result }
{
    if let Refusal::NoMemory = refusal {
        return Err(AllocError);
    }
    reply_to(alloc, Vec::new(alloc), message, Answer::Refused(refusal))
}

/// Answers a message: carries out at the desk what it asks for, or says why it is refused.
///
/// `Err` is want of memory, and no command was done: the room for the reply to a command is taken before the desk acts. An ask for
/// changes may have been answered by the desk, whose feed then took the documents in.
pub fn answer<F: Drop, S: Drop, D: FeedDesk<F, S>>(
    alloc: Global,
    routes: &Routes,
    desk: &mut D,
    message: &Message,
) -> Result<HttpReply, AllocError>
    ensures ok { IfOk result (λ r. Answers D.acts D.asks D.tells desk.old desk.new (asked_for message.now) message.now r) }
    ensures brief { IfOk result (IsBriefBy (asked_for message.now)) }
    ensures err { OnErr result (Lacks D.acts D.asks D.tells desk.old desk.new (asked_for message.now)) }
{
    match request_of(alloc, routes, message) {
        Ok(request) => carry_out(alloc, desk, request, message),
        Err(refusal) => refused(alloc, message, refusal),
    }
}
