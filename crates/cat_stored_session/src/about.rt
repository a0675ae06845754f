//! What a line is about, and what it reached of what is stored.
ghost use Rattle.std.specs.Prelude.{◌≡◌, IfOk, option_map};
ghost use Rattle.std.specs.declared.option.Option.TheVariants.{None};
ghost use Rattle.cat_stored_session.specs.About.{IsAbout, IsFound, entity_about};
ghost use Rattle.cat_model.specs.declared.types.State.{State};

use cat_affected::reached::{reached_from, refs_of};
use cat_affected::seeds::mutation_seeds;
use cat_collections::listing::{Copied, Listing};
use cat_core::catalogue::Saved;
use cat_model::types::State;
use cat_plan::layers::Layers;
use cat_row_updates::reached::Reached;
use cat_session::Session;
use cat_session_lines::line::Line;
use cat_tree::text::Text;
use cat_types::reference::Ref;
use std::alloc::{AllocError, Global};

/// What a line is about, as it is known before the line is carried out.
#[derive(Drop)]
pub enum About {
    /// The inputs of a provider, and the references that a mutation of it names.
    Inputs { provider: Text, seeds: Vec<Ref> },
    /// The text that the shelf has under this name.
    Shelf(Text),
    /// The entity of this reference.
    Entity(Ref),
    /// Nothing that is stored.
    Nothing,
    /// What a settle reaches.
    Settle,
}

// What is about the entity of a reference, if there is one.
fn entity_about(alloc: Global, reference: Option<&Ref>) -> Result<About, AllocError>
    ensures { IfOk result (λ x. x ≡ entity_about (option_map (λ r. r.now) reference.entry)) }
{
    match reference {
        Some(reference) => Ok(About::Entity(reference.duplicate(alloc)?)),
        None => Ok(About::Nothing),
    }
}

/// What a line of a session is about. Of a finish it is the entity of the order that was handed out under the token. The error is want of memory.
pub fn line_about<L: Layers>(
    alloc: Global,
    session: &Session<L>,
    line: &Line,
) -> Result<About, AllocError>
    ensures { IfOk result (λ x. IsAbout line.now session.now.session x) }
{
    match line {
        Line::Mutate(provider, mutation) => Ok(About::Inputs {
            provider: provider.duplicate(alloc)?,
            seeds: mutation_seeds(alloc, provider, mutation, session.view())?,
        }),
        Line::ShelfPut(name, _) | Line::ShelfDrop(name) => {
            Ok(About::Shelf(name.duplicate(alloc)?))
        }
        Line::Forget(reference) => entity_about(alloc, Some(reference)),
        Line::Finish(token) => entity_about(alloc, session.order_reference(*token)),
        Line::Settle => Ok(About::Settle),
        Line::Refresh(_)
        | Line::Clock(_)
        | Line::Take
        | Line::Stitch(_)
        | Line::Place(_)
        | Line::Ask(_) => Ok(About::Nothing),
    }
}

// These references are what was reached; no inputs were.
fn only(references: Vec<Ref>) -> Reached
    ensures references { result.references.items ≡ references.items }
    ensures provider { result.provider ≡ None }
    ensures name { result.name ≡ None }
{
    Reached {
        references,
        provider: None,
        name: None,
    }
}

// What a settle reached, where the references that it reached were gathered.
fn gathered(settled: Option<Listing<Ref>>) -> Option<Reached>
    ensures { (m n : State) → IsFound About.Settle settled m n result }
{
    match settled {
        Some(references) => Some(only(references.into_vec())),
        None => None,
    }
}

/// What was reached of what is stored from what a line is about, of the state that was held before the line and the one after it; of a settle it was
/// gathered, or it may be all, and then there is none. The error is want of memory.
pub fn reached<L: Layers>(
    alloc: Global,
    about: About,
    settled: Option<Listing<Ref>>,
    saved: &Saved<L>,
    after: &State,
) -> Result<Option<Reached>, AllocError>
    ensures { IfOk result (λ found. IsFound about settled saved.now after.now found) }
{
    let before = saved.state();
    match about {
        About::Inputs { provider, seeds } => Ok(Some(Reached {
            references: reached_from(alloc, seeds, before, after)?,
            provider: Some(provider),
            name: None,
        })),
        About::Shelf(name) => Ok(Some(Reached {
            references: Vec::new(alloc),
            provider: None,
            name: Some(name),
        })),
        About::Entity(reference) => Ok(Some(only(refs_of(alloc, &reference, before, after)?))),
        About::Nothing => Ok(Some(only(Vec::new(alloc)))),
        About::Settle => Ok(gathered(settled)),
    }
}
