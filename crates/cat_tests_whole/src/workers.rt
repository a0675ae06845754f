//! Two workers whose orders are out at once.
ghost use Rattle.std.specs.Prelude.{◌≡◌, []};

use cat_core::catalogue::{Catalogue, Done, Stitched};
use cat_desk::command::Command;
use cat_desk::desk::Desk;
use cat_desk::fed::Fed;
use cat_desk::timed::Timed;
use cat_dispatcher::Share;
use cat_history::Limits;
use cat_inputs::form::Form;
use cat_inputs::input::read_mutation;
use cat_io::FixedClock;
use cat_laws::theorem::sound_is_kept;
use cat_layers::layered::Layered;
use cat_model::types::OrphanRule;
use cat_query::ask::Ask;
use cat_session_model::settings::settings;
use cat_shared::book::{Book, Named};
use cat_shared::shared::SharedDesk;
use cat_tree::text::Text;
use cat_turns::{Pass, Turns};
use cat_workers::gate::{Gate, GateCall, Go};
use cat_workers::work::work_loop;
use std::alloc::{AllocError, Global};
use std::sync::Wait;
use std::sync::atomic::{AtomicBool, Ordering};
use std::test::Fail;
use std::thread::{Threads, for_each_mut, yield_now};

/// How often the first result looks for the second one before it gives up.
const MOST_LOOKS: u64 = 1_000_000;

/// Two Components, as a provider gives them.
const TWO: &[u8] =
    b"{\"serial\":1,\"entities\":[{\"entity\":{\"apiVersion\":\"backstage.io/v1alpha1\",\"kind\":\"Component\",\"metadata\":{\"name\":\"web\"},\"spec\":{\"type\":\"service\",\"lifecycle\":\"production\",\"owner\":\"a\"}}},{\"entity\":{\"apiVersion\":\"backstage.io/v1alpha1\",\"kind\":\"Component\",\"metadata\":{\"name\":\"app\"},\"spec\":{\"type\":\"service\",\"lifecycle\":\"production\",\"owner\":\"a\"}}}]}";

/// A book that begins with an empty catalogue.
pub(crate) struct Empty;

impl Named for Empty {
    ghost use Rattle.cat_model.specs.Step.{start};
    ghost use Rattle.cat_model.specs.declared.types.OrphanRule.TheVariants.{Keep};
    ghost use Rattle.cat_session_model.specs.Program.{program_settings};

    ghost settings = { program_settings Keep };

    ghost opening = { start };

    ghost faults = { 0 };
}

/// A catalogue whose moment is 0 throughout.
pub(crate) type Still = Fed<Layered, FixedClock>;

pub(crate) type Pages = Book<Layered, Still, Empty>;

/// Holds back the first result until the second one is about to come back.
#[derive(Drop)]
struct Meeting {
    second: AtomicBool,
    met: AtomicBool,
}

impl Meeting {
    // The second result is about to come back, before the looks are used up.
    fn meets(&self) -> bool {
        for _ in 0..MOST_LOOKS {
            if self.second.load(Ordering::SeqCst) {
                return true;
            }
            yield_now();
        }
        false
    }
}

impl Gate for Meeting {
    ghost told = { λ _ _. Unit {0} };

    ghost said = { λ _ _. Unit {0} };

    fn before(&self, call: GateCall) {
        match call {
            GateCall::Finish(1) => self.met.store(self.meets(), Ordering::SeqCst),
            GateCall::Finish(2) => self.second.store(true, Ordering::SeqCst),
            _other => {}
        }
    }

    fn idle(&self) -> Go {
        Go::Stop
    }
}

pub(crate) fn empty_book(alloc: Global) -> Pages
    ensures { result.journal.all.items ≡ [] }
{
    sound_is_kept();
    let catalogue = Catalogue::empty(alloc, Layered, settings(OrphanRule::Keep));
    let timed = Timed::new(catalogue, FixedClock::at(0));
    let limits = Limits {
        entries: 4096,
        weight: 1 << 20,
    };
    Book::new(alloc, Fed::new(alloc, timed, 0), limits)
}

/// The desks of two workers, each at a seat of its own.
fn shares<'a, R: Wait>(
    rt: &'a R,
    alloc: Global,
    turns: &'a Turns<Pages>,
    pass: &mut Pass<Pages>,
) -> Result<Vec<Share<'a, Layered, Still, Empty, R>>, AllocError>
    requires { pass.old.turns ≡ turns.now.id }
    ensures { pass.new.turns ≡ pass.old.turns }
{
    let mut shares = Vec::new(alloc);
    if let Ok(first) = turns.split(rt, pass) {
        shares.push(Share::over(SharedDesk::over(rt, turns, first)))?;
    }
    if let Ok(second) = turns.split(rt, pass) {
        shares.push(Share::over(SharedDesk::over(rt, turns, second)))?;
    }
    Ok(shares)
}

/// Gives both Components to the catalogue.
fn give_two<R: Wait>(
    alloc: Global,
    desk: &mut SharedDesk<'_, Layered, Still, Empty, R>,
) -> Result<(), AllocError> {
    if let Ok(mutation) = read_mutation(alloc, Form::Full, TWO) {
        let _reply = desk.act(alloc, Command::Mutate(Text::of(alloc, "git")?, mutation));
    }
    Ok(())
}

/// The answer to the question for the state.
fn state<R: Wait>(alloc: Global, desk: &mut SharedDesk<'_, Layered, Still, Empty, R>) -> Vec<u8> {
    let mut out = Vec::new(alloc);
    let _asked = <SharedDesk<'_, Layered, Still, Empty, R> as Desk<
        Done<'_, Layered>,
        Stitched<'_, Layered>,
    >>::ask(desk, alloc, &Ask::State, &mut out);
    out
}

/// The state after two workers worked beside each other, through this gate, what was given to the catalogue.
fn state_worked<R: Threads + Wait + Sync>(
    rt: &R,
    alloc: Global,
    turns: &Turns<Pages>,
    pass: Pass<Pages>,
    gate: &Meeting,
) -> Result<Vec<u8>, AllocError>
    requires { pass.turns ≡ turns.now.id }
{
    let mut own = pass;
    let mut shares = shares(rt, alloc, turns, &mut own)?;
    let mut desk = SharedDesk::over(rt, turns, own);
    give_two(alloc, &mut desk)?;
    for_each_mut(
        rt,
        shares.as_mut_slice(),
        2,
        &|_, share| work_loop(rt, alloc, &Layered, share, gate),
    );
    Ok(state(alloc, &mut desk))
}

// A result that is late would leave its record leased.
#[test]
fn two_orders_are_out_at_once(rt: HostRuntime) -> Result<(), Fail> {
    let alloc = rt.alloc();
    let gate = Meeting {
        second: AtomicBool::new(false),
        met: AtomicBool::new(false),
    };
    let Ok((turns, pass)) = Turns::new(alloc, empty_book(alloc), 3) else {
        panic!(rt; "no memory")
    };
    let told = state_worked(&rt, alloc, &turns, pass, &gate)?;
    assert!(rt; gate.met.load(Ordering::SeqCst));
    let wanted: &[u8] = b"state records 2 orphans 0 due 0 leased 0 marked 2";
    assert_eq!(rt; told.as_slice(), wanted);
    Ok(())
}
