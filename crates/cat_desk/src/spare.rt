//! The spare copy: taken out for a command, and brought up to what the catalogue holds after it.
ghost use Rattle.std.specs.Prelude.{◌≡◌, ◌<◌, ◌^◌, IfOk, true};
ghost use Rattle.std.specs.Option.{ForSome};
ghost use Rattle.std.specs.declared.option.Option.TheVariants.{None};
ghost use Rattle.cat_desk.specs.Acts.{Acts, done};
ghost use Rattle.cat_desk.specs.Deed.{deed_of};
ghost use Rattle.cat_desk.specs.Spare.{IsSpare, leaves_records, says_whole};

use crate::command::{Command, Reply};
use crate::timed::act;
use cat_core::catalogue::{Catalogue, Done, Saved, Stitched};
use cat_model::types::Acted;
use cat_plan::layers::Layers;
use cat_types::input::Mutation;
use std::alloc::{AllocError, Global};

/// The spare copy, which is taken out, or a new one where there is none. The only error is want of memory.
pub fn taken<L: Layers>(
    alloc: Global,
    catalogue: &Catalogue<L>,
    spare: &mut Option<Saved<L>>,
) -> Result<Saved<L>, AllocError>
    requires { IsSpare spare.old catalogue.now.state }
    ensures saved { IfOk result (λ saved. saved ≡ catalogue.now.state) }
    ensures none { spare.new ≡ None }
{
    match spare.take() {
        Some(saved) => Ok(saved),
        None => catalogue.saved(alloc),
    }
}

// Whether a reply says that the records are as before.
fn leaves_records(reply: &Reply) -> bool
    ensures { result ≡ leaves_records reply.now }
{
    match reply {
        Reply::Refused(_) | Reply::StitchTaken(_) | Reply::Placed(_) => true,
        Reply::Mutated(_)
        | Reply::Changed
        | Reply::Taken(_)
        | Reply::Finished(_)
        | Reply::Settled(_)
        | Reply::Cut(_) => false,
    }
}

/// Whether a reply says that its command was done to its end.
pub fn says_whole(reply: &Reply) -> bool
    ensures { result ≡ says_whole reply.now }
{
    match reply {
        Reply::Refused(_) | Reply::Cut(_) => false,
        Reply::Mutated(_)
        | Reply::Changed
        | Reply::Taken(_)
        | Reply::Finished(_)
        | Reply::StitchTaken(_)
        | Reply::Placed(_)
        | Reply::Settled(_) => true,
    }
}

// A mutation with more items than this is dearer to do again than a copy is to make.
const ITEMS: usize = 64;

// And so is a settle with more leases than this.
const LEASES: u64 = 64;

// Whether a mutation has more items than are done again. Nothing rests on the answer.
fn is_large(mutation: &Mutation) -> bool {
    match mutation {
        Mutation::Full { items, .. } => items.len() > ITEMS,
        Mutation::Delta { added, removed, .. } => added.len() > ITEMS || removed.len() > ITEMS,
    }
}

/// Whether a settle had more than 64 leases, so that a copy is cheaper than to settle again. Nothing rests on the answer.
pub fn is_long_settle(reply: &Reply) -> bool {
    match reply {
        Reply::Settled(counts) => counts.leases > LEASES,
        _ => false,
    }
}

// Whether a command was dearer than a copy is. Nothing rests on the answer.
fn is_dear<L: Layers>(command: &Command<Done<'_, L>, Stitched<'_, L>>, reply: &Reply) -> bool {
    match (command, reply) {
        (Command::Mutate(_, mutation), Reply::Mutated(Acted::Now)) => is_large(mutation),
        (Command::Settle, _) => is_long_settle(reply),
        _ => false,
    }
}

// Does a command to a copy, which is exchanged with what the catalogue holds for as long.
fn done_again<L: Layers>(
    alloc: Global,
    catalogue: &mut Catalogue<L>,
    saved: &mut Saved<L>,
    command: &Command<Done<'_, L>, Stitched<'_, L>>,
    now: u64,
) -> Reply
    requires { now < 2 ^ 53 }
    ensures whole { says_whole result ≡ true → saved.new ≡ done L.rules catalogue.old.settings now None (deed_of command.now) saved.old }
    ensures catalogue { catalogue.new ≡ catalogue.old }
{
    catalogue.exchange(saved);
    let reply = act(alloc, catalogue, command, now);
    catalogue.exchange(saved);
    reply
}

/// What was saved as a spare copy, all but its records shared with a catalogue that holds the same records. None where memory lacks.
pub fn shared<L: Layers>(
    alloc: Global,
    catalogue: &Catalogue<L>,
    saved: Saved<L>,
) -> Option<Saved<L>>
    requires { saved.records ≡ catalogue.now.state.records }
    ensures { IsSpare result catalogue.now.state }
{
    catalogue.saved_with(alloc, saved.into_records()).ok()
}

// A copy from before a command comes to what the catalogue holds after it, and all of it but the records is then shared with the catalogue. None
// where memory lacks.
fn repeated<L: Layers>(
    alloc: Global,
    catalogue: &mut Catalogue<L>,
    mut saved: Saved<L>,
    command: &Command<Done<'_, L>, Stitched<'_, L>>,
    now: u64,
) -> Option<Saved<L>>
    requires now { now < 2 ^ 53 }
    requires whole { catalogue.old.state ≡ done L.rules catalogue.old.settings now None (deed_of command.now) saved }
    ensures catalogue { catalogue.new ≡ catalogue.old }
    ensures spare { IsSpare result catalogue.old.state }
{
    let again = done_again(alloc, catalogue, &mut saved, command, now);
    if !says_whole(&again) {
        drop(saved);
        return None;
    }
    shared(alloc, catalogue, saved)
}

/// A copy of what the catalogue held before a command is brought to what it holds after it: the same is done to the copy, unless the reply says that
/// the records are as before. None where the command was a large mutation or a settle with many leases, for which a new copy is cheaper, where it was a
/// settle that was cut, or where memory lacks.
pub fn brought_up<L: Layers>(
    alloc: Global,
    catalogue: &mut Catalogue<L>,
    saved: Saved<L>,
    command: &Command<Done<'_, L>, Stitched<'_, L>>,
    now: u64,
    reply: &Reply,
) -> Option<Saved<L>>
    requires now { now < 2 ^ 53 }
    requires acts { Acts L.rules now (deed_of command.now) (record catalogue.old { state = saved }) catalogue.old reply.now }
    ensures catalogue { catalogue.new ≡ catalogue.old }
    ensures spare { IsSpare result catalogue.old.state }
{
    if leaves_records(reply) {
        return shared(alloc, catalogue, saved);
    }
    if is_dear(command, reply) || !says_whole(reply) {
        drop(saved);
        return None;
    }
    repeated(alloc, catalogue, saved, command, now)
}

/// Brings the spare copy, where there is one, from what the catalogue held before a command to what it holds after it. Where it can't be brought
/// there, there is none.
pub fn bring_up<L: Layers>(
    alloc: Global,
    catalogue: &mut Catalogue<L>,
    spare: &mut Option<Saved<L>>,
    command: &Command<Done<'_, L>, Stitched<'_, L>>,
    now: u64,
    reply: &Reply,
)
    requires now { now < 2 ^ 53 }
    requires acts { ForSome spare.old (λ saved. Acts L.rules now (deed_of command.now) (record catalogue.old { state = saved }) catalogue.old reply.now) }
    ensures catalogue { catalogue.new ≡ catalogue.old }
    ensures spare { IsSpare spare.new catalogue.old.state }
{
    if let Some(saved) = spare.take() {
        *spare = brought_up(alloc, catalogue, saved, command, now, reply);
    }
}
