//! The top call over the catalogue.

ghost use Rattle.std.specs.Prelude.{◌≡◌, ◌≢◌, ℕ, List, [], ◌∷◌, Ok, None, map, string_bytes};
ghost use Rattle.cat_command_line.specs.Words.{IsWithin, command_of};
ghost use Rattle.cat_connection.specs.Status.{EndsAsUsage, IsOneOf};
ghost use Rattle.cat_connection.specs.Items.{Item};
ghost use Rattle.cat_connection.specs.Worded as wire;
ghost use Rattle.cat_in_memory.specs.Sessions.{reply_next, session_at, session_next};
ghost use Rattle.cat_io.specs.Runs.{after_lines};
ghost use Rattle.cat_io.specs.Word.{Word};
ghost use Rattle.cat_layers.specs.Layered.{layered};
ghost use Rattle.cat_model.specs.Fresh.{IsFresh, facts_of, fresh_docs};
ghost use Rattle.cat_model.specs.Sound.{Quiet, Sound};
ghost use Rattle.cat_model.specs.declared.types.Counts.{Counts};
ghost use Rattle.cat_model.specs.declared.types.OrphanRule.{OrphanRule};
ghost use Rattle.cat_model.specs.declared.types.OrphanRule.TheVariants.{Delete};
ghost use Rattle.cat_model.specs.declared.types.State.{State};
ghost use Rattle.cat_reopening_laws.specs.Reached.{IsLasting, connected};
ghost use Rattle.cat_replies.specs.Events.{settled};
ghost use Rattle.cat_session_lines.specs.Lines.{line_of};
ghost use Rattle.cat_session_lines.specs.declared.line.Line.TheVariants.{Settle};
ghost use Rattle.cat_session_model.specs.Inputs.{accepted_commands, inputs_fold, inputs_of};
ghost use Rattle.cat_session_model.specs.Program.{program_settings, session_start};
ghost use Rattle.cat_session_model.specs.Quiet.{IsAtRest};
ghost use Rattle.cat_stored_session.specs.Kept.{kept_after};
ghost use Rattle.cat_stored_session.specs.declared.state.KeptState.{KeptState};
ghost use Rattle.cat_tool.specs.Ends.{AnswersLines, AnswersMessages, Ends, EndsAs, HasNoFault};

use cat_command_line::{CatalogueOptions, Command, WordFault, command_of};
use cat_connection::{Status, usage};
use cat_in_memory::law::program_sessions_keep_their_laws;
use cat_in_memory::{run_connection, run_mirror, run_session, tell_sample};
use cat_io::{Clock, Sink, Source};
use cat_keeper::keeper::Keeper;
use cat_listener::Doors;
use cat_model::types::OrphanRule;
use cat_reopening_laws::law::lasting_states_are_fresh;
use cat_server::{Ended, run_server};
use cat_stored_session::law::kept_sessions_stay_sound;
use cat_stored_session::{run_stored, run_stored_connection};
use std::alloc::Global;
use std::sync::Wait;
use std::thread::Threads;

// A session.
fn answer_lines<S: Source, O: Sink, K: Keeper>(
    alloc: Global,
    options: CatalogueOptions,
    source: &mut S,
    sink: &mut O,
    keeper: K,
) -> Ended<K>
    ensures { AnswersLines S.left S.faults O.written O.faults K.tables K.faults result.status source.old source.new sink.old sink.new keeper result.keeper options }
{
    let CatalogueOptions { orphans, place } = options;
    match place {
        None => {
            let orphans = orphans.unwrap_or(OrphanRule::Keep);
            let status = run_session(alloc, orphans, source, sink);
            Ended {
                status,
                keeper: Some(keeper),
            }
        }
        Some(place) => {
            let ran = run_stored(alloc, orphans, place, keeper, source, sink);
            Ended {
                status: ran.status,
                keeper: Some(ran.keeper),
            }
        }
    }
}

// A connection.
fn answer_messages<S: Source, O: Sink, K: Keeper>(
    alloc: Global,
    options: CatalogueOptions,
    source: &mut S,
    sink: &mut O,
    keeper: K,
) -> Ended<K>
    ensures { AnswersMessages S.left S.faults O.written O.faults K.tables K.faults result.status source.old source.new sink.old sink.new keeper result.keeper options }
{
    let CatalogueOptions { orphans, place } = options;
    match place {
        None => {
            let orphans = orphans.unwrap_or(OrphanRule::Keep);
            let status = run_connection(alloc, orphans, source, sink);
            Ended {
                status,
                keeper: Some(keeper),
            }
        }
        Some(place) => {
            let ran = run_stored_connection(alloc, orphans, place, keeper, source, sink);
            Ended {
                status: ran.status,
                keeper: Some(ran.keeper),
            }
        }
    }
}

// Runs a command.
fn carry_out<
    S: Source,
    O: Sink,
    C: Clock + Drop + Send,
    D: Doors + Send,
    K: Keeper + Drop + Send,
    R: Threads + Wait + Sync,
>(
    rt: &R,
    alloc: Global,
    command: Command,
    source: &mut S,
    sink: &mut O,
    clock: C,
    doors: &mut D,
    keeper: K,
) -> Ended<K>
    requires within { IsWithin command }
    ensures { EndsAs S.left S.faults O.written O.faults D.closed D.faults K.tables K.faults result.status source.old source.new sink.old sink.new doors.old doors.new keeper result.keeper command }
{
    match command {
        Command::Session(options) => answer_lines(alloc, options, source, sink, keeper),
        Command::Wire(options) => answer_messages(alloc, options, source, sink, keeper),
        Command::Serve(serving) => run_server(rt, alloc, serving, sink, clock, doors, keeper),
        Command::Mirror => {
            let status = run_mirror(alloc, source, sink);
            Ended {
                status,
                keeper: Some(keeper),
            }
        }
        Command::Sample(sample) => {
            let status = tell_sample(alloc, sample.seed, sample.count, sink);
            Ended {
                status,
                keeper: Some(keeper),
            }
        }
    }
}

// The words gave no command: they are none, which the usage line says, or memory was wanted for them.
fn refuse<O: Sink>(fault: WordFault, sink: &mut O) -> Status
    ensures usage { fault ≡ WordFault.Usage → EndsAsUsage O.written O.faults result sink.old sink.new }
    ensures memory { fault ≡ WordFault.NoMemory → (result ≡ Status.NoMemory) × (sink.new ≡ sink.old) }
{
    match fault {
        WordFault::Usage => usage(sink),
        WordFault::NoMemory => Status::NoMemory,
    }
}

// Runs the command that the words are, or refuses them.
fn run_words<
    S: Source,
    O: Sink,
    C: Clock + Drop + Send,
    D: Doors + Send,
    K: Keeper + Drop + Send,
    R: Threads + Wait + Sync,
>(
    rt: &R,
    alloc: Global,
    words: &[String],
    source: &mut S,
    sink: &mut O,
    clock: C,
    doors: &mut D,
    keeper: K,
) -> Ended<K>
    ensures { Ends S.left S.faults O.written O.faults D.closed D.faults K.tables K.faults result.status source.old source.new sink.old sink.new doors.old doors.new keeper result.keeper (command_of (map string_bytes words.now)) }
{
    match command_of(alloc, words) {
        Ok(command) => carry_out(rt, alloc, command, source, sink, clock, doors, keeper),
        Err(fault) => Ended {
            status: refuse(fault, sink),
            keeper: Some(keeper),
        },
    }
}

/// Runs the command that the words are. `session` answers the lines of the source over an empty catalogue, one reply a line; `wire`
/// answers the messages of one HTTP connection over an empty catalogue whose moment is 0; each of them keeps or deletes what leaves at a
/// finish, by the rule for orphans among its words. With `--store` or `--journal` they answer over the catalogue that the keeper has in
/// that file, and keep there what changes. `serve` listens at an address, and serves the HTTP connections that come over an empty
/// catalogue, or over the one that the keeper has in a file, with workers beside them. `mirror` follows the feed whose changes are the lines of the source. `sample` with a
/// seed and a count makes a sample and writes its line. Other words write the usage line.
///
/// `Status` says how it ended: well, or for which cause, and `Ends` says of each command which statuses it has, and what the source, the sink, the doors and the
/// keeper are afterwards.
pub fn run<
    S: Source,
    O: Sink,
    C: Clock + Drop + Send,
    D: Doors + Send,
    K: Keeper + Drop + Send,
    R: Threads + Wait + Sync,
>(
    rt: &R,
    alloc: Global,
    words: &[String],
    source: &mut S,
    sink: &mut O,
    clock: C,
    doors: &mut D,
    keeper: K,
) -> Ended<K>
    // Each command ends as its own definition says, which has all that is promised of one call.
    ensures ended { Ends S.left S.faults O.written O.faults D.closed D.faults K.tables K.faults result.status source.old source.new sink.old sink.new doors.old doors.new keeper result.keeper (command_of (map string_bytes words.now)) }

    // Where no end counted a fault, a command ends whole, for want of memory or at the bound, but a store may be refused.
    ensures complete { command_of (map string_bytes words.now) ≢ None → HasNoFault S.faults O.faults D.faults K.faults source.old source.new sink.old sink.new doors.old doors.new keeper result.keeper
        → IsOneOf result.status (Status.Whole ∷ Status.BadRow ∷ Status.NoMemory ∷ Status.Bound ∷ []) }

    // After every prefix of the lines, where that catalogue is quiet its documents are those computed afresh.
    ensures fresh { (rule : OrphanRule) (lines : List (List ℕ)) (outcomes : List Word) (now : ℕ)
        → Quiet (session_at rule lines outcomes).state now → IsFresh layered (session_at rule lines outcomes).state }

    // Under the rule that deletes, it never has an orphan, and where it is quiet its documents are just those computed afresh.
    ensures no_orphan { (lines : List (List ℕ)) (outcomes : List Word) → (session_at Delete lines outcomes).state.orphans ≡ [] }
    ensures just_fresh { (lines : List (List ℕ)) (outcomes : List Word) (now : ℕ) → Quiet (session_at Delete lines outcomes).state now
        → (session_at Delete lines outcomes).state.documents ≡ fresh_docs layered (facts_of layered (session_at Delete lines outcomes).state) }

    // Its inputs are those that the accepted commands made, one after the other.
    ensures inputs { (rule : OrphanRule) (lines : List (List ℕ)) (outcomes : List Word)
        → inputs_of (session_at rule lines outcomes).state
        ≡ inputs_fold (accepted_commands layered (program_settings rule) session_start lines outcomes) (inputs_of session_start.state) }

    // So it is of a session over a store, whatever wasn't kept of its lines.
    ensures fresh_kept { (m : KeptState) (lines : List (List ℕ)) (outcomes : List Word) (now : ℕ)
        → Sound layered m.ruled.session.state → Quiet (after_lines (kept_after layered) m lines outcomes).ruled.session.state now
        → IsFresh layered (after_lines (kept_after layered) m lines outcomes).ruled.session.state }

    // So it is of a connection over an empty catalogue, and of every state that sessions and connections over one store come to, one after the other,
    // whatever wasn't kept of them.
    ensures fresh_connection { (rule : OrphanRule) (items : List Item) (outcomes : List wire.Word) (now : ℕ)
        → Quiet (connected rule items outcomes) now → IsFresh layered (connected rule items outcomes) }
    ensures fresh_lasting { (m : State) (now : ℕ) → IsLasting m → Quiet m now → IsFresh layered m }

    // A settle that is answered `settled` leaves it at rest, nothing due and nothing marked.
    ensures settled { (rule : OrphanRule) (lines : List (List ℕ)) (outcomes : List Word) (outcome : Word) (line : List ℕ) (counts : Counts)
        → line_of line ≡ Ok Settle → reply_next rule lines outcomes outcome line ≡ settled counts
        → IsAtRest (session_next rule lines outcomes outcome line) }
{
    program_sessions_keep_their_laws();
    kept_sessions_stay_sound();
    lasting_states_are_fresh();
    run_words(rt, alloc, words, source, sink, clock, doors, keeper)
}
