//! A session, and its store.
ghost use Rattle.std.specs.Prelude.{◌≡◌, ◌≢◌, ◌≤◌, [], true, false, IfOk, IsOk, OnErr, vec_capacity};
ghost use Rattle.std.specs.Option.{ForSome};
ghost use Rattle.std.specs.declared.option.Option.TheVariants.{None};
ghost use Rattle.std.specs.declared.result.Result.TheVariants.{Ok};
ghost use Rattle.cat_session_lines.specs.Lines.{line_of};
ghost use Rattle.cat_session_lines.specs.Ready.{IsReady};
ghost use Rattle.cat_session_lines.specs.declared.line.Line.{Line};
ghost use Rattle.cat_desk.specs.Spare.{IsSpare};
ghost use Rattle.cat_io.specs.Causes.{Rose};
ghost use Rattle.cat_keeper.specs.Answers.{Are};
ghost use Rattle.cat_keeper.specs.declared.keeper.Committed.TheVariants.{Kept};
ghost use Rattle.cat_stored_session.specs.About.{IsReachedFrom};
ghost use Rattle.cat_stored_session.specs.Carried.{CarriesKept, IsCut};
ghost use Rattle.cat_stored_session.specs.Kept.{changes, is_settle, kept_after, kept_reply, leaves_state, refused_keeper};
ghost use Rattle.cat_stored_desk.specs.Followed.{IsFollowed};
ghost use Rattle.cat_io.specs.Word.{AnswersLine};
ghost use Rattle.cat_model.specs.Sound.{AreOffers, AreSmall};
ghost use Rattle.cat_affected.specs.Gathered.{IsWithin};
ghost use Rattle.cat_row_updates.specs.Renewed.{IsBeyond};
ghost use Rattle.cat_row_updates.specs.declared.reached.Reached.{Reached};
ghost use Rattle.cat_session.specs.Carried.{Carries, acts_on_state, after_whole, put_back};
ghost use Rattle.cat_replies.specs.Events.{cut_by_keeper};
ghost use Rattle.cat_stored_rows.specs.Stored.{stored, texts_of};

use crate::about::{About, line_about, reached};
use cat_collections::listing::Listing;
use cat_core::catalogue::Saved;
use cat_io::Machine;
use cat_keeper::keeper::{Committed, Keeper};
use cat_model::types::State;
use cat_plan::layers::Layers;
use cat_replies::events::push_cut_by_keeper;
use cat_session::again::brought_up;
use cat_session::{Outcome, Session};
use cat_session_lines::line::Line;
use cat_session_lines::read::read_line;
use cat_store::store::Store;
use cat_types::reference::Ref;
use std::alloc::{AllocError, Global};
use std::marker::Model;

/// A session over a catalogue, with the store that follows it. Its type keeps that a keeper which tells its tables holds those of the
/// catalogue's state, and that a spare copy is what the catalogue holds.
#[derive(Drop)]
pub struct KeptSession<L: Layers, K: Keeper> {
    alloc: Global,
    session: Session<L>,
    store: Store<K>,
    // a second copy of what the catalogue holds, to which it is put back where the next line isn't kept
    spare: Option<Saved<L>>,
    // how many lines weren't kept
    refusals: u64,
}

impl<L: Layers, K: Keeper> Model for KeptSession<L, K> {
    ghost use Rattle.std.specs.Prelude.{◌≤◌};
    ghost use Rattle.cat_desk.specs.Spare.{IsSpare};
    ghost use Rattle.cat_stored_desk.specs.Followed.{IsFollowed};
    ghost use Rattle.cat_stored_session.specs.contracts.state.KeptState.{the_row};
    ghost use Rattle.cat_stored_session.specs.declared.state.KeptState.{KeptState};

    ghost Value = { KeptState };

    ghost coded = { the_row.coded };

    ghost view = { λ a. record { ruled = a.session; place = a.store.place; refusals = a.refusals } };

    ghost invariant = { λ a. IsFollowed (K.tables a.store.place a.store.keeper) a.store.orphans a.store.rows a.session.orphans a.session.session.state × ((a.refusals ≤ K.faults a.store.keeper) × IsSpare a.spare a.session.session.state) };
}

// The most bytes of the reply to a settle, and some.
const ROOM: usize = 128;

// The reply to a line whose change wasn't kept.
fn refusal(alloc: Global) -> Result<Vec<u8>, AllocError>
    ensures { IfOk result (λ text. text.items ≡ refused_keeper) }
{
    Vec::from_slice(alloc, b"refused keeper\n")
}

// Whether a line may change the stored rows. Due moments, leases, marks and documents aren't stored.
fn may_change(line: &Line) -> bool
    ensures { result ≡ changes line.now }
{
    match line {
        Line::Mutate(..)
        | Line::ShelfPut(..)
        | Line::ShelfDrop(_)
        | Line::Forget(_)
        | Line::Finish(_)
        | Line::Settle => true,
        Line::Refresh(_)
        | Line::Clock(_)
        | Line::Take
        | Line::Stitch(_)
        | Line::Place(_)
        | Line::Ask(_) => false,
    }
}

// Whether a line is a settle.
fn is_settle(line: &Line) -> bool
    ensures { result ≡ is_settle line.now }
{
    matches!(line, Line::Settle)
}

// Whether a line leaves what the catalogue holds as it is.
fn leaves_state(line: &Line) -> bool
    ensures { result ≡ leaves_state line.now }
{
    matches!(line, Line::Clock(_) | Line::Stitch(_) | Line::Ask(_))
}

// Carries out a line that leaves what the catalogue holds as it is.
fn carry_unchanging<L: Layers>(session: &mut Session<L>, line: Line) -> Result<Vec<u8>, AllocError>
    requires ready { IsReady line }
    requires leaves { leaves_state line ≡ true }
    ensures ok { IfOk result (λ text. Carries L.rules line session.old session.new text.items) }
    ensures err { OnErr result (session.new ≡ session.old) }
    ensures state { session.new.session.state ≡ session.old.session.state }
    ensures rule { session.new.orphans ≡ session.old.orphans }
{
    session.carry_out(line)
}

// Carries out a line that may not change the stored rows, and brings the spare copy, where there is one, to what the catalogue holds after it.
fn pass<L: Layers>(
    alloc: Global,
    session: &mut Session<L>,
    spare: &mut Option<Saved<L>>,
    bytes: &[u8],
    line: Line,
) -> Result<Vec<u8>, AllocError>
    requires read { line_of bytes.now ≡ Ok line }
    requires ready { IsReady line }
    requires stays { changes line ≡ false }
    requires spared { IsSpare spare.old session.old.session.state }
    ensures ok { IfOk result (λ text. Carries L.rules line session.old session.new text.items) }
    ensures err { OnErr result (session.new ≡ session.old) }
    ensures rule { session.new.orphans ≡ session.old.orphans }
    ensures rows { stored session.old.orphans session.new.session.state ≡ stored session.old.orphans session.old.session.state }
    ensures spared { IsSpare spare.new session.new.session.state }
{
    if leaves_state(&line) {
        return carry_unchanging(session, line);
    }
    let _state = session.view();
    let saved = spare.take();
    match session.carry_reaching(line) {
        Ok(
            Outcome {
                text,
                repeatable,
                ..
            },
        ) => {
            *spare = after_line(alloc, session, saved, bytes, repeatable);
            Ok(text)
        }
        Err(_) => {
            *spare = saved;
            Err(AllocError)
        }
    }
}

// The copy that stood for what the catalogue held before a line, where there was one, as what it holds after it. None where the line isn't carried out
// again.
fn after_line<L: Layers>(
    alloc: Global,
    session: &mut Session<L>,
    saved: Option<Saved<L>>,
    bytes: &[u8],
    repeatable: bool,
) -> Option<Saved<L>>
    requires { repeatable ≡ true → (l : Line) → line_of bytes.now ≡ Ok l → acts_on_state l ≡ true
        → ForSome saved (λ held. session.old.session.state ≡ (after_whole L.rules l (put_back session.old held)).session.state) }
    ensures session { session.new ≡ session.old }
    ensures spare { IsSpare result session.old.session.state }
{
    let saved = saved?;
    if !repeatable {
        drop(saved);
        return None;
    }
    brought_up(alloc, session, saved, bytes)
}

// What came of a line, what it is answered where its change isn't kept, room for what a settle is answered that isn't kept, and what the catalogue held before
// the line.
#[derive(Drop)]
struct Carried<L: Layers> {
    outcome: Outcome,
    refused: Vec<u8>,
    room: Vec<u8>,
    saved: Saved<L>,
}

// Carries out a line, and keeps what takes it back.
fn carry<L: Layers>(
    alloc: Global,
    session: &mut Session<L>,
    spare: &mut Option<Saved<L>>,
    line: Line,
) -> Result<Carried<L>, AllocError>
    requires ready { IsReady line }
    requires spared { IsSpare spare.old session.old.session.state }
    ensures text { IfOk result (λ x. Carries L.rules line session.old session.new x.outcome.text.items) }
    ensures whole { IfOk result (λ x. x.outcome.repeatable ≡ true → session.new ≡ after_whole L.rules line session.old) }
    ensures settled { IfOk result (λ x. IsWithin x.outcome.reached session.old.session.state session.new.session.state) }
    ensures refused { IfOk result (λ x. x.refused.items ≡ refused_keeper) }
    ensures room { IfOk result (λ x. 128 ≤ vec_capacity x.room) }
    ensures empty { IfOk result (λ x. x.room.items ≡ []) }
    ensures saved { IfOk result (λ x. x.saved ≡ session.old.session.state) }
    ensures err { OnErr result (session.new ≡ session.old) }
    ensures spared { IsSpare spare.new session.new.session.state }
    ensures none { IsOk result → spare.new ≡ None }
{
    let refused = refusal(alloc)?;
    let room = Vec::with_capacity(alloc, ROOM)?;
    let saved = session.saved(spare)?;
    match session.carry_reaching(line) {
        Ok(outcome) => Ok(Carried {
            outcome,
            refused,
            room,
            saved,
        }),
        Err(_) => {
            *spare = Some(saved);
            Err(AllocError)
        }
    }
}

// Has the store follow a line, given what the line is about, what a settle reached, and what the catalogue held before it and holds after it.
fn keep<L: Layers, K: Keeper>(
    alloc: Global,
    store: &mut Store<K>,
    about: About,
    settled: Option<Listing<Ref>>,
    saved: &Saved<L>,
    after: &State,
) -> Committed
    requires rows { store.old.rows ≡ stored store.old.orphans saved.now }
    requires beyond { (x : Reached) → IsReachedFrom about settled saved.now after.now x → IsBeyond x saved.now after.now }
    requires offers { AreOffers after.now }
    requires small { AreSmall after.now }
    ensures rows { result ≡ Kept → store.new.rows ≡ stored store.old.orphans after.now }
    ensures same { result ≢ Kept → store.new.rows ≡ store.old.rows }
    ensures told { Are (K.tables store.old.place store.old.keeper) (texts_of store.old.rows) → Are (K.tables store.new.place store.new.keeper) (texts_of store.new.rows) }
    ensures place { store.new.place ≡ store.old.place }
    ensures orphans { store.new.orphans ≡ store.old.orphans }
    ensures later { K.faults store.old.keeper ≤ K.faults store.new.keeper }
    ensures cause { result ≡ Committed.Failed → Rose (K.faults store.old.keeper) (K.faults store.new.keeper) }
{
    match reached(alloc, about, settled, saved, after) {
        Err(_) => Committed::NoMemory,
        Ok(None) => store.follow(alloc, after),
        Ok(Some(reached)) => store.follow_reached(alloc, &reached, saved.state(), after),
    }
}

// Fills the room for the reply to a settle of which just so many events stand.
fn cut_line(mut room: Vec<u8>, events: u64) -> Vec<u8>
    requires room { 128 ≤ vec_capacity room }
    requires empty { room.items ≡ [] }
    ensures { result.items ≡ cut_by_keeper events }
{
    match push_cut_by_keeper(&mut room, events) {
        Ok(()) => room,
        Err(_) => unreachable!(),
    }
}

// Of a settle whose change wasn't kept the first event alone is done, which leaves the stored rows as they are, and the room for its reply is filled. The error
// is want of memory for that event: the session is then as before.
fn cut_short<L: Layers>(session: &mut Session<L>, room: Vec<u8>) -> Result<Vec<u8>, AllocError>
    requires room { 128 ≤ vec_capacity room }
    requires empty { room.items ≡ [] }
    ensures cut { IfOk result (λ text. IsCut L.rules session.old session.new text.items) }
    ensures err { OnErr result (session.new ≡ session.old) }
    ensures rows { stored session.old.orphans session.new.session.state ≡ stored session.old.orphans session.old.session.state }
    ensures rule { session.new.orphans ≡ session.old.orphans }
{
    let _state = session.view();
    let events = session.settle_within(1);
    if events == 0 {
        return Err(AllocError);
    }
    Ok(cut_line(room, events))
}

// What is answered to a line whose change wasn't kept, before which the session stands again. The error is want of memory for the first event of a settle: the
// session is then as before.
fn unkept<L: Layers>(
    session: &mut Session<L>,
    is_settle: bool,
    refused: Vec<u8>,
    room: Vec<u8>,
) -> Result<Vec<u8>, AllocError>
    requires refused { refused.items ≡ refused_keeper }
    requires room { 128 ≤ vec_capacity room }
    requires empty { room.items ≡ [] }
    ensures cut { is_settle ≡ true → IfOk result (λ text. IsCut L.rules session.old session.new text.items) }
    ensures whole { is_settle ≡ false → IfOk result (λ text. (session.new ≡ session.old) × (text.items ≡ refused_keeper)) }
    ensures err { OnErr result (session.new ≡ session.old) }
    ensures rows { stored session.old.orphans session.new.session.state ≡ stored session.old.orphans session.old.session.state }
    ensures rule { session.new.orphans ≡ session.old.orphans }
{
    if is_settle {
        cut_short(session, room)
    } else {
        Ok(refused)
    }
}

// Carries out a line that may change the stored rows, and has the store follow. For want of memory all is as before.
fn follow<L: Layers, K: Keeper>(
    alloc: Global,
    session: &mut Session<L>,
    store: &mut Store<K>,
    spare: &mut Option<Saved<L>>,
    refusals: &mut u64,
    bytes: &[u8],
    line: Line,
) -> Result<Vec<u8>, AllocError>
    requires read { line_of bytes.now ≡ Ok line }
    requires ready { IsReady line }
    requires changes { changes line ≡ true }
    requires followed { IsFollowed (K.tables store.old.place store.old.keeper) store.old.orphans store.old.rows session.old.orphans session.old.session.state }
    requires spared { IsSpare spare.old session.old.session.state }
    ensures ok { IfOk result (λ text. CarriesKept L.rules line session.old session.new refusals.old refusals.new text.items) }
    ensures err { OnErr result ((session.new ≡ session.old) × (refusals.new ≡ refusals.old)) }
    // A line that isn't kept is one more than before, and so is the keeper's count of faults.
    ensures cause { refusals.old ≤ K.faults store.old.keeper → refusals.new ≤ K.faults store.new.keeper }
    ensures followed { IsFollowed (K.tables store.new.place store.new.keeper) store.new.orphans store.new.rows session.new.orphans session.new.session.state }
    ensures place { store.new.place ≡ store.old.place }
    ensures spared { IsSpare spare.new session.new.session.state }
{
    let _before = session.sound_state();
    let about = line_about(alloc, session, &line)?;
    let is_settle = is_settle(&line);
    let Carried {
        outcome,
        refused,
        room,
        saved,
    } = carry(alloc, session, spare, line)?;
    let Outcome {
        text,
        repeatable,
        reached,
    } = outcome;
    match keep(alloc, store, about, reached, &saved, session.sound_state()) {
        Committed::Kept => {
            *spare = after_line(alloc, session, Some(saved), bytes, repeatable);
            Ok(text)
        }
        Committed::Failed => {
            session.put_back(saved);
            let answer = unkept(session, is_settle, refused, room)?;
            *refusals = refusals.saturating_add(1);
            Ok(answer)
        }
        Committed::NoMemory => {
            session.put_back(saved);
            Err(AllocError)
        }
    }
}

// Reads a line and carries it out, or says why it is refused. For want of memory all is as before.
fn answer_line<L: Layers, K: Keeper>(
    alloc: Global,
    session: &mut Session<L>,
    store: &mut Store<K>,
    spare: &mut Option<Saved<L>>,
    refusals: &mut u64,
    line: &[u8],
) -> Result<Vec<u8>, AllocError>
    requires followed { IsFollowed (K.tables store.old.place store.old.keeper) store.old.orphans store.old.rows session.old.orphans session.old.session.state }
    requires spared { IsSpare spare.old session.old.session.state }
    ensures ok { IfOk result (λ text. AnswersLine (kept_after L.rules) (kept_reply L.rules) (record { ruled = session.old; place = store.old.place; refusals = refusals.old })
        (record { ruled = session.new; place = store.new.place; refusals = refusals.new }) line.now text.items) }
    ensures err { OnErr result ((session.new ≡ session.old) × (refusals.new ≡ refusals.old)) }
    ensures cause { refusals.old ≤ K.faults store.old.keeper → refusals.new ≤ K.faults store.new.keeper }
    ensures followed { IsFollowed (K.tables store.new.place store.new.keeper) store.new.orphans store.new.rows session.new.orphans session.new.session.state }
    ensures place { store.new.place ≡ store.old.place }
    ensures spared { IsSpare spare.new session.new.session.state }
{
    match read_line(alloc, line) {
        Ok(read) => {
            if may_change(&read) {
                follow(alloc, session, store, spare, refusals, line, read)
            } else {
                pass(alloc, session, spare, line, read)
            }
        }
        Err(fault) => session.refused(fault),
    }
}

impl<L: Layers, K: Keeper> KeptSession<L, K> {
    /// A session with a store that follows it. It takes no memory.
    pub fn new(alloc: Global, session: Session<L>, store: Store<K>) -> KeptSession<L, K>
        requires { IsFollowed (K.tables store.place store.keeper) store.orphans store.rows session.orphans session.session.state }
        ensures { result ≡ record { ruled = session; place = store.place; refusals = 0 } }
    {
        KeptSession {
            alloc,
            session,
            store,
            spare: None,
            refusals: 0,
        }
    }
}

impl<L: Layers + Drop, K: Keeper> KeptSession<L, K> {
    /// The keeper, which holds the tables of the state in which the session ended, where it tells them. It has counted at least as many faults
    /// as there were lines that weren't kept.
    pub fn into_keeper(self) -> K
        ensures faults { self.refusals ≤ K.faults result }
        ensures told { Are (K.tables self.place result) (texts_of (stored self.ruled.orphans self.ruled.session.state)) }
    {
        let store = self.store;
        store.keeper
    }
}

impl<L: Layers, K: Keeper> Machine for KeptSession<L, K> {
    ghost after = { kept_after L.rules };

    ghost reply = { kept_reply L.rules };

    fn answer(&mut self, line: &[u8]) -> Result<Vec<u8>, AllocError> {
        answer_line(
            self.alloc,
            &mut self.session,
            &mut self.store,
            &mut self.spare,
            &mut self.refusals,
            line,
        )
    }
}
