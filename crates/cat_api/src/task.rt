//! What requests ask of a desk.
ghost use Rattle.std.specs.Prelude.{◌≡◌};
ghost use Rattle.cat_api.specs.Operations.{done_by, operation};
ghost use Rattle.cat_model.specs.declared.types.Order.{Order};
ghost use Rattle.cat_model.specs.declared.types.StitchOrder.{StitchOrder};

use crate::kind::Kind;
use cat_desk::command::Command;
use cat_feed::change::Since;
use cat_page::file::File;
use cat_query::ask::Ask;
use cat_requests::request::Request;

/// What a request asks of a desk. `F` is a result with its order and `S` a document with its stitch order, as in `Command`; no
/// request brings one.
#[derive(Drop)]
pub enum Task<F, S> {
    /// Do what a command of this kind says.
    Act(Command<F, S>, Kind),
    /// Answer a question.
    Ask(Ask),
    /// Tell what changed since a place, or every document without one.
    Tell(Option<Since>),
    /// Show a file of the page, which asks nothing of the desk.
    Show(File),
}

/// What a request asks of a desk.
pub fn task_of<F: Drop, S: Drop>(request: Request) -> Task<F, S>
    ensures { (order : F → Order) (stitch_order : S → StitchOrder) → done_by order stitch_order result ≡ operation request }
{
    match request {
        Request::Mutate(provider, mutation) => {
            Task::Act(Command::Mutate(provider, mutation), Kind::Mutation)
        }
        Request::ShelfPut(name, text) => Task::Act(Command::ShelfPut(name, text), Kind::Shelving),
        Request::ShelfDrop(name) => Task::Act(Command::ShelfDrop(name), Kind::Shelving),
        Request::Refresh(reference) => Task::Act(Command::Refresh(reference), Kind::Refreshing),
        Request::Forget(number) => Task::Act(Command::ForgetNumber(number), Kind::Forgetting),
        Request::Settle => Task::Act(Command::Settle, Kind::Settling),
        Request::Ask(question) => Task::Ask(question),
        Request::Changes(since) => Task::Tell(since),
        Request::Page(file) => Task::Show(file),
    }
}
