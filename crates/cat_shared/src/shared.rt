//! A desk over a book that others have too.
ghost use Rattle.std.specs.Prelude.{◌≡◌, ◌≢◌, ◌++◌, List, ℕ, true};
ghost use Rattle.cat_desk.specs.Deed.{deed_of};
ghost use Rattle.cat_desk.specs.Shown.{is_shown};
ghost use Rattle.cat_shared.specs.Shared.{SharedActs, SharedAsks, SharedTells};

use crate::book::{Book, Named};
use crate::weight::weight;
use crate::work::at_turn;
use crate::works::{Acting, Asking, Copying, Telling};
use cat_core::catalogue::{Done, Stitched};
use cat_desk::asks::{is_shown, write_shown};
use cat_desk::command::{Asked, Command, Reply};
use cat_desk::desk::Desk;
use cat_desk::feed_desk::{FeedAnswer, FeedDesk};
use cat_desk::timed_desk::TimedDesk;
use cat_feed::change::Since;
use cat_plan::layers::Layers;
use cat_query::ask::Ask;
use cat_turns::{Pass, Turns};
use std::alloc::Global;
use std::mem;
use std::sync::Wait;

/// A share of a book: a pass to its turns, which each command and each question waits for.
#[derive(Drop)]
pub struct SharedDesk<'a, L: Layers, B: TimedDesk<L>, N: Named, R: Wait> {
    rt: &'a R,
    turns: &'a Turns<Book<L, B, N>>,
    pass: Pass<Book<L, B, N>>,
    pub ghost own: { pass.turns ≡ turns.now.id },
}

impl<'a, L: Layers, B: TimedDesk<L>, N: Named, R: Wait> SharedDesk<'a, L, B, N, R> {
    /// A share by a pass of these turns. It takes no memory.
    pub fn over(
        rt: &'a R,
        turns: &'a Turns<Book<L, B, N>>,
        pass: Pass<Book<L, B, N>>,
    ) -> SharedDesk<'a, L, B, N, R>
        requires { pass.turns ≡ turns.now.id }
        ensures { result.pass ≡ pass }
    {
        SharedDesk { rt, turns, pass }
    }

    /// Gives the pass back. It takes no memory.
    pub fn into_pass(self) -> Pass<Book<L, B, N>>
        ensures { result ≡ self.entry.pass }
    {
        let SharedDesk {
            rt: _,
            turns: _,
            pass,
        } = self;
        pass
    }

    // Takes a copy of the documents at its turn, and answers from it after the turn.
    fn show(&mut self, alloc: Global, ask: &Ask, out: &mut Vec<u8>) -> Asked
        requires { is_shown ask.now ≡ true }
        ensures answer { (text : List ℕ) × (out.new.items ≡ out.old.items ++ text) × SharedAsks L.rules N.settings N.opening ask.now self.old.pass self.new.pass result text }
        ensures same { result ≢ Asked.Written → out.new.items ≡ out.old.items }
    {
        match at_turn(self.rt, self.turns, &mut self.pass, Copying { alloc, ask }) {
            Ok(documents) => write_shown(alloc, &documents, ask, out),
            Err(_) => Asked::NoMemory,
        }
    }

    /// The number under which its entries stand in the journal.
    pub fn number(&self) -> u64
        ensures { result ≡ self.now.pass.number }
    {
        self.pass.number()
    }
}

impl<'a, 'b, L: Layers, B: TimedDesk<L>, N: Named, R: Wait> Desk<Done<'b, L>, Stitched<'b, L>>
    for SharedDesk<'a, L, B, N, R> {
    ghost order = { λ done. done.order.now };

    ghost stitch_order = { λ stitched. stitched.order.now };

    ghost acts = { λ old d new reply. SharedActs L.rules N.settings N.opening d old.pass new.pass reply };

    ghost asks = { λ old ask new asked text. SharedAsks L.rules N.settings N.opening ask old.pass new.pass asked text };

    fn act(&mut self, alloc: Global, command: Command<Done<'b, L>, Stitched<'b, L>>) -> Reply
        ensures acts { SharedActs L.rules N.settings N.opening (deed_of command.entry) self.old.pass self.new.pass result }
    {
        let acting = Acting {
            alloc,
            number: self.pass.number(),
            weight: weight(&command),
            command,
        };
        at_turn(self.rt, self.turns, &mut self.pass, acting)
    }

    fn ask(&mut self, alloc: Global, ask: &Ask, out: &mut Vec<u8>) -> Asked
        ensures answer { (text : List ℕ) × (out.new.items ≡ out.old.items ++ text) × SharedAsks L.rules N.settings N.opening ask.now self.old.pass self.new.pass result text }
        ensures same { result ≢ Asked.Written → out.new.items ≡ out.old.items }
    {
        if is_shown(ask) {
            return self.show(alloc, ask, out);
        }
        let asking = Asking {
            alloc,
            ask,
            out: mem::replace(out, Vec::new(alloc)),
        };
        let (asked, text) = at_turn(self.rt, self.turns, &mut self.pass, asking);
        *out = text;
        asked
    }
}

impl<'a, 'b, L: Layers, B: TimedDesk<L>, N: Named, R: Wait> FeedDesk<Done<'b, L>, Stitched<'b, L>>
    for SharedDesk<'a, L, B, N, R> {
    ghost tells = { λ old since new told text. SharedTells L.rules N.settings N.opening since old.pass new.pass told text };

    fn changes(&mut self, alloc: Global, since: Option<Since>, out: &mut Vec<u8>) -> FeedAnswer
        ensures answer { (text : List ℕ) × (out.new.items ≡ out.old.items ++ text) × SharedTells L.rules N.settings N.opening since self.old.pass self.new.pass result text }
        ensures same { result ≢ FeedAnswer.Written → out.new.items ≡ out.old.items }
    {
        let telling = Telling {
            alloc,
            since,
            out: mem::replace(out, Vec::new(alloc)),
        };
        let (told, text) = at_turn(self.rt, self.turns, &mut self.pass, telling);
        *out = text;
        told
    }
}
