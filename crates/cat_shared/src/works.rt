//! What a share of a book does at its turn.
ghost use Rattle.std.specs.Prelude.{◌≡◌, ◌≢◌, ◌⊎◌, ◌++◌, IfOk, List, ℕ};
ghost use Rattle.cat_desk.specs.Asks.{AsksOnce};
ghost use Rattle.cat_desk.specs.Deed.{deed_of};
ghost use Rattle.cat_desk.specs.declared.command.Asked.TheVariants as asked;
ghost use Rattle.cat_desk.specs.Told.{Tells};
ghost use Rattle.cat_desk.specs.declared.feed_desk.FeedAnswer.TheVariants as told;
ghost use Rattle.cat_shared.specs.Book.{Does, Lacks};

use crate::book::{Book, Named};
use crate::work::Work;
use cat_core::catalogue::{Done, Stitched};
use cat_desk::command::{Asked, Command, Reply};
use cat_desk::feed_desk::FeedAnswer;
use cat_desk::timed_desk::TimedDesk;
use cat_feed::change::Since;
use cat_plan::layers::Layers;
use cat_query::ask::Ask;
use cat_search::index::Index;
use std::alloc::{AllocError, Global};

/// A command of a weight is done under the number of a pass.
#[derive(Drop)]
pub(crate) struct Acting<'b, L: Layers> {
    pub alloc: Global,
    pub number: u64,
    pub weight: u64,
    pub command: Command<Done<'b, L>, Stitched<'b, L>>,
}

impl<'b, L: Layers, B: TimedDesk<L>, N: Named> Work<Book<L, B, N>> for Acting<'b, L> {
    type Answer = Reply;

    ghost does = { λ work before after reply. Does L.rules work.number (B.moment after.desk) (deed_of work.command) (B.ledger before.desk) (B.ledger after.desk) before.journal.all.items after.journal.all.items reply
        ⊎ Lacks (deed_of work.command) before.desk after.desk before.journal.all.items after.journal.all.items reply };

    fn on(self, book: &mut Book<L, B, N>) -> Reply {
        book.act(self.alloc, self.number, self.weight, self.command)
    }
}

/// A question is answered; the text so far is handed over and given back.
#[derive(Drop)]
pub(crate) struct Asking<'c> {
    pub alloc: Global,
    pub ask: &'c Ask,
    pub out: Vec<u8>,
}

impl<'c, L: Layers, B: TimedDesk<L>, N: Named> Work<Book<L, B, N>> for Asking<'c> {
    type Answer = (Asked, Vec<u8>);

    ghost does = { λ work before after answer. (text : List ℕ) × (answer.1.items ≡ work.out.items ++ text)
        × AsksOnce (B.moment after.desk) (B.readings before.desk) (B.readings after.desk) work.ask.now (B.ledger before.desk) (B.ledger after.desk) answer.0 text
        × (answer.0 ≢ asked.Written → answer.1.items ≡ work.out.items) × (after.journal.all.items ≡ before.journal.all.items) };

    fn on(self, book: &mut Book<L, B, N>) -> (Asked, Vec<u8>) {
        let mut out = self.out;
        let asked = book.ask(self.alloc, self.ask, &mut out);
        (asked, out)
    }
}

/// A copy of the documents is taken, for a question.
#[derive(Drop)]
pub(crate) struct Copying<'c> {
    pub alloc: Global,
    pub ask: &'c Ask,
}

impl<'c, L: Layers, B: TimedDesk<L>, N: Named> Work<Book<L, B, N>> for Copying<'c> {
    type Answer = Result<Index, AllocError>;

    ghost does = { λ work before after answer. IfOk answer (λ m. m ≡ (B.ledger before.desk).state.documents) × (after.journal.all.items ≡ before.journal.all.items) };

    fn on(self, book: &mut Book<L, B, N>) -> Result<Index, AllocError> {
        book.prepare(self.alloc, self.ask);
        book.documents()
    }
}

/// Changes are told; the text so far is handed over and given back.
#[derive(Drop)]
pub(crate) struct Telling {
    pub alloc: Global,
    pub since: Option<Since>,
    pub out: Vec<u8>,
}

impl<L: Layers, B: TimedDesk<L>, N: Named> Work<Book<L, B, N>> for Telling {
    type Answer = (FeedAnswer, Vec<u8>);

    ghost does = { λ work before after answer. (text : List ℕ) × (answer.1.items ≡ work.out.items ++ text)
        × Tells (B.ledger before.desk).state.documents work.since (B.feed before.desk) (B.feed after.desk) answer.0 text
        × (answer.0 ≢ told.Written → answer.1.items ≡ work.out.items) × (after.journal.all.items ≡ before.journal.all.items) × (B.ledger after.desk ≡ B.ledger before.desk) };

    fn on(self, book: &mut Book<L, B, N>) -> (FeedAnswer, Vec<u8>) {
        let mut out = self.out;
        let told = book.changes(self.alloc, self.since, &mut out);
        (told, out)
    }
}

/// Nothing is done: the pass has then seen the whole journal.
#[derive(Drop)]
pub(crate) struct Looking;

impl<L: Layers, B: TimedDesk<L>, N: Named> Work<Book<L, B, N>> for Looking {
    type Answer = ();

    ghost does = { λ work before after answer. after.journal.all.items ≡ before.journal.all.items };

    fn on(self, _book: &mut Book<L, B, N>) {}
}
