//! What a command reached of what is stored.
ghost use Rattle.std.specs.Prelude.{◌≡◌, [], IfOk, option_map};
ghost use Rattle.std.specs.declared.option.Option.TheVariants.{None, Some};
ghost use Rattle.cat_desk.specs.Deed.{deed_of};
ghost use Rattle.cat_desk.specs.Deed.Deed.{Settle};
ghost use Rattle.cat_model.specs.declared.types.State.{State};
ghost use Rattle.cat_stored_desk.specs.Reached.{IsFound, refs_from};
ghost use Rattle.cat_model.specs.Given.{given};
ghost use Rattle.cat_affected.specs.Reach.{given_refs, reached};

use cat_affected::reached::{mutated_refs, refs_of};
use cat_collections::listing::{Copied, Listing};
use cat_core::catalogue::{Done, Saved, Stitched};
use cat_desk::command::Command;
use cat_model::types::State;
use cat_plan::layers::Layers;
use cat_row_updates::reached::Reached;
use cat_tree::text::Text;
use cat_types::input::Mutation;
use cat_types::reference::Ref;
use std::alloc::{AllocError, Global};

// What was reached from a reference, if there is one; no inputs were.
fn reached_from(
    alloc: Global,
    reference: Option<&Ref>,
    before: &State,
    after: &State,
) -> Result<Reached, AllocError>
    ensures references { IfOk result (λ x. x.references.items ≡ refs_from (option_map (λ r. r.now) reference.entry) before.now after.now) }
    ensures inputs { IfOk result (λ x. (x.provider ≡ None) × (x.name ≡ None)) }
{
    let references = match reference {
        None => Vec::new(alloc),
        Some(reference) => refs_of(alloc, reference, before, after)?,
    };
    Ok(Reached {
        references,
        provider: None,
        name: None,
    })
}

// What a mutation reached: references, and the inputs of its provider.
fn mutated_reached(
    alloc: Global,
    provider: &Text,
    mutation: &Mutation,
    before: &State,
    after: &State,
) -> Result<Reached, AllocError>
    ensures references { IfOk result (λ x. x.references.items ≡ reached (given_refs provider.now (given provider.now mutation.now) before.now) before.now after.now) }
    ensures provider { IfOk result (λ x. x.provider ≡ Some provider.now) }
    ensures name { IfOk result (λ x. x.name ≡ None) }
{
    let references = mutated_refs(alloc, provider, mutation, before, after)?;
    let provider = provider.duplicate(alloc)?;
    Ok(Reached {
        references,
        provider: Some(provider),
        name: None,
    })
}

// What a change of a text of the shelf reached: that text.
fn text_reached(alloc: Global, name: &Text) -> Result<Reached, AllocError>
    ensures references { IfOk result (λ x. x.references.items ≡ []) }
    ensures provider { IfOk result (λ x. x.provider ≡ None) }
    ensures name { IfOk result (λ x. x.name ≡ Some name.now) }
{
    let name = name.duplicate(alloc)?;
    Ok(Reached {
        references: Vec::new(alloc),
        provider: None,
        name: Some(name),
    })
}

// What a settle reached, whose references were gathered if they are there; no inputs were.
fn settled_reached(settled: Option<Listing<Ref>>) -> Option<Reached>
    ensures { (m n : State) → IsFound Settle settled m n result }
{
    match settled {
        None => None,
        Some(references) => Some(Reached {
            references: references.into_vec(),
            provider: None,
            name: None,
        }),
    }
}

/// What a command reached of what is stored, of the state that was held before it and the one after it. Of a settle it is what was gathered as it went
/// on, and none where nothing was, so that it may have reached all. The error is want of memory.
pub fn reached<L: Layers>(
    alloc: Global,
    command: &Command<Done<'_, L>, Stitched<'_, L>>,
    settled: Option<Listing<Ref>>,
    saved: &Saved<L>,
    after: &State,
) -> Result<Option<Reached>, AllocError>
    ensures { IfOk result (λ found. IsFound (deed_of command.now) settled saved.now after.now found) }
{
    let before = saved.state();
    match command {
        Command::Mutate(provider, mutation) => Ok(Some(mutated_reached(
            alloc, provider, mutation, before, after,
        )?)),
        Command::ShelfPut(name, _) | Command::ShelfDrop(name) => {
            Ok(Some(text_reached(alloc, name)?))
        }
        Command::Forget(reference) => Ok(Some(reached_from(
            alloc,
            Some(reference),
            before,
            after,
        )?)),
        Command::ForgetNumber(number) => {
            let reference = saved.ref_at(*number);
            Ok(Some(reached_from(alloc, reference, before, after)?))
        }
        Command::Finish(done) => {
            let reference = Some(&done.order().reference);
            Ok(Some(reached_from(alloc, reference, before, after)?))
        }
        Command::Refresh(_) | Command::Take | Command::TakeStitch(_) | Command::PutStitch(_) => Ok(
            Some(reached_from(alloc, None, before, after)?),
        ),
        Command::Settle => Ok(settled_reached(settled)),
    }
}
