//! A desk that answers the messages of a connection.
ghost use Rattle.std.specs.Prelude.{◌≡◌, IfOk, OnErr};
ghost use Rattle.cat_api.specs.Answering.{Answers, AnswersBytes, Lacks};
ghost use Rattle.cat_api.specs.Room.{IsBriefBy};
ghost use Rattle.cat_requests.specs.Requests.{request_of};

use crate::answer::answer;
use cat_connection::Machine;
use cat_desk::feed_desk::FeedDesk;
use cat_http::message::Message;
use cat_http::reply::{HttpReply, write_reply};
use cat_requests::routes::Routes;
use std::alloc::{AllocError, Global};
use std::marker::PhantomData;

/// The most bytes of the reply to a command, and some. This room is taken before the command acts.
const REPLY: usize = 1024;

/// A desk that answers the messages of a connection. `F` and `S` are the results and the documents that the desk takes, which no
/// message brings.
#[derive(Drop)]
pub struct Service<F, S, D> {
    alloc: Global,
    desk: D,
    // Laid out at the first message.
    routes: Option<Routes>,
    results: PhantomData<F>,
    documents: PhantomData<S>,
}

impl<F: Drop, S: Drop, D: FeedDesk<F, S>> Service<F, S, D> {
    /// A desk as a service. It takes no memory.
    pub fn new(alloc: Global, desk: D) -> Service<F, S, D>
        ensures { result.desk ≡ desk }
    {
        Service {
            alloc,
            desk,
            routes: None,
            results: PhantomData,
            documents: PhantomData,
        }
    }

    /// The desk.
    pub fn into_desk(self) -> D
        ensures { result ≡ self.desk }
    {
        self.desk
    }

    // The routes, taken out of the service.
    fn take_routes(&mut self) -> Result<Routes, AllocError>
        ensures { self.new.desk ≡ self.old.desk }
    {
        match self.routes.take() {
            Some(routes) => Ok(routes),
            None => Routes::new(self.alloc),
        }
    }

    // The reply to a message.
    fn reply_of(&mut self, message: &Message) -> Result<HttpReply, AllocError>
        ensures ok { IfOk result (λ r. Answers D.acts D.asks D.tells self.old.desk self.new.desk (request_of message.now) message.now r) }
        ensures brief { IfOk result (IsBriefBy (request_of message.now)) }
        ensures err { OnErr result (Lacks D.acts D.asks D.tells self.old.desk self.new.desk (request_of message.now)) }
    {
        let routes = self.take_routes()?;
        let reply = answer::<F, S, D>(self.alloc, &routes, &mut self.desk, message);
        self.routes = Some(routes);
        reply
    }

    // Answers a message with the bytes of the reply.
    fn answer_message(&mut self, message: &Message) -> Result<Vec<u8>, AllocError>
        ensures ok { IfOk result (λ text. AnswersBytes D.acts D.asks D.tells self.old.desk message.now self.new.desk text.items) }
        ensures err { OnErr result (Lacks D.acts D.asks D.tells self.old.desk self.new.desk (request_of message.now)) }
    {
        let mut out = Vec::with_capacity(self.alloc, REPLY)?;
        let reply = self.reply_of(message)?;
        write_reply(&reply, &mut out)?;
        Ok(out)
    }
}

impl<F: Drop, S: Drop, D: FeedDesk<F, S>> Machine for Service<F, S, D> {
    ghost answers = { λ old m new text. AnswersBytes D.acts D.asks D.tells old.desk m new.desk text };

    ghost lacks = { λ old m new. Lacks D.acts D.asks D.tells old.desk new.desk (request_of m) };

    fn answer(&mut self, message: &Message) -> Result<Vec<u8>, AllocError> {
        self.answer_message(message)
    }
}
