//! What takes commands and questions.
ghost use Rattle.std.specs.Prelude.{◌≡◌, ◌≢◌, ◌++◌, List, ℕ};
ghost use Rattle.cat_desk.specs.Deed.{Deed, deed};
ghost use Rattle.cat_desk.specs.declared.command.Asked.{Asked};
ghost use Rattle.cat_desk.specs.declared.command.Reply.{Reply};
ghost use Rattle.cat_model.specs.declared.types.Order.{Order};
ghost use Rattle.cat_model.specs.declared.types.StitchOrder.{StitchOrder};
ghost use Rattle.cat_query.specs.declared.ask.Ask.{Ask};

use crate::command::{Asked, Command, Reply};
use cat_query::ask::Ask;
use std::alloc::Global;

/// What takes commands and questions, seen by two relations: what a deed may do to it and answer, and what a question may do
/// to it and append. So a catalogue with a clock is one, and so is a share of a catalogue that others change meanwhile.
pub trait Desk<F, S> {
    // the order of a result
    ghost order: { F → Order };

    // the order of a document
    ghost stitch_order: { S → StitchOrder };

    // From the first desk, the deed leads to the second one with this reply.
    ghost acts: { Self → Deed → Self → Reply → Type 0 };

    // At the first desk, the question leads to the second one with this answer, and appends this text.
    ghost asks: { Self → Ask → Self → Asked → List ℕ → Type 0 };

    /// Does what the command says, and answers it.
    fn act(&mut self, alloc: Global, command: Command<F, S>) -> Reply
        ensures { acts self.old (deed order stitch_order command) self.new result };

    /// Answers a question. Only what is answered `Written` changes `out`, by appending a text.
    fn ask(&mut self, alloc: Global, ask: &Ask, out: &mut Vec<u8>) -> Asked
        ensures answer { (text : List ℕ) × (out.new.items ≡ out.old.items ++ text) × asks self.old ask.now self.new result text }
        ensures same { result ≢ Asked.Written → out.new.items ≡ out.old.items };
}
