//! The journal of clients and workers beside each other, played again by one catalogue.
ghost use Rattle.std.specs.Prelude.{◌≡◌};

use crate::workers::{Empty, Pages, Still, empty_book};
use cat_core::catalogue::{Catalogue, Done, Stitched};
use cat_core::fault::CoreFault;
use cat_desk::command::{Command, Reply};
use cat_desk::desk::Desk;
use cat_dispatcher::Share;
use cat_history::History;
use cat_inputs::form::Form;
use cat_inputs::input::read_mutation;
use cat_layers::layered::Layered;
use cat_model::types::{Order, OrphanRule, State};
use cat_query::answers::push_list;
use cat_query::read::read_query;
use cat_session_model::settings::settings;
use cat_shared::entry::{Entry, Input, Noted};
use cat_shared::shared::SharedDesk;
use cat_tree::text::Text;
use cat_turns::{Pass, Turns};
use cat_workers::gate::{Gate, GateCall, Go};
use cat_workers::stitch::stitch_loop;
use cat_workers::work::work_loop;
use itoa::Buffer;
use std::alloc::{AllocError, Global};
use std::sync::Wait;
use std::sync::atomic::{AtomicU64, Ordering};
use std::test::Fail;
use std::thread::{Threads, for_each_mut, yield_now};

/// How many clients give, and how many deltas each of them gives.
const CLIENTS: u64 = 2;

const DELTAS: u64 = 12;

/// A client, which gives deltas as the provider of its number.
#[derive(Drop)]
struct Client<'a, R: Wait> {
    number: u64,
    desk: SharedDesk<'a, Layered, Still, Empty, R>,
}

/// What a thread does at its share of the book.
#[derive(Drop)]
enum Helper<'a, R: Wait> {
    Client(Client<'a, R>),
    Worker(Share<'a, Layered, Still, Empty, R>),
    Stitcher(Share<'a, Layered, Still, Empty, R>),
}

/// Lets workers go on until the clients have given all.
#[derive(Drop)]
struct Giving {
    done: AtomicU64,
}

impl Gate for Giving {
    ghost told = { λ _ _. Unit {0} };

    ghost said = { λ _ _. Unit {0} };

    fn before(&self, _call: GateCall) {}

    fn idle(&self) -> Go {
        if self.done.load(Ordering::SeqCst) == CLIENTS {
            return Go::Stop;
        }
        yield_now();
        Go::On
    }
}

// The team that owns what is given with this serial.
fn team(serial: u64) -> &'static str {
    match serial % 3 {
        0 => "g0",
        1 => "g1",
        _ => "g2",
    }
}

// An item of a Component with this name, owned by a team.
fn component(alloc: Global, name: &str, team: &str) -> Result<String, AllocError> {
    let begin =
        "{\"entity\":{\"apiVersion\":\"backstage.io/v1alpha1\",\"kind\":\"Component\",\"metadata\":{\"name\":\"";
    let spec = "\"},\"spec\":{\"type\":\"service\",\"lifecycle\":\"production\",\"owner\":\"";
    [begin, name, spec, team, "\"}}},"].concat(alloc)
}

// An item of a Component that only this client gives, with this serial.
fn own_component(alloc: Global, client: u64, serial: u64) -> Result<String, AllocError> {
    let mut first = Buffer::new();
    let mut second = Buffer::new();
    let name = ["c", first.format(client), "-", second.format(serial)].concat(alloc)?;
    component(alloc, name.as_str(), team(serial))
}

// An item of a Group with this name.
fn group(alloc: Global, name: &str) -> Result<String, AllocError> {
    let begin =
        "{\"entity\":{\"apiVersion\":\"backstage.io/v1alpha1\",\"kind\":\"Group\",\"metadata\":{\"name\":\"";
    [
        begin,
        name,
        "\"},\"spec\":{\"type\":\"team\",\"children\":[]}}}",
    ]
    .concat(alloc)
}

// A delta of a Component that is new and of one that all clients give, each owned by one of three teams, with the team.
fn delta(alloc: Global, client: u64, serial: u64) -> Result<String, AllocError> {
    let mut buffer = Buffer::new();
    let own = own_component(alloc, client, serial)?;
    let all = component(alloc, "c", team(serial))?;
    let group = group(alloc, team(serial))?;
    let items = [own.as_str(), all.as_str(), group.as_str()].concat(alloc)?;
    [
        "{\"serial\":",
        buffer.format(serial),
        ",\"added\":[",
        items.as_str(),
        "],\"removed\":[]}",
    ]
    .concat(alloc)
}

// Gives all deltas of a client.
fn give<R: Wait>(alloc: Global, client: &mut Client<'_, R>) -> Result<(), AllocError> {
    let number = client.number;
    let mut buffer = Buffer::new();
    let provider = ["p", buffer.format(number)].concat(alloc)?;
    for serial in 1..=DELTAS {
        let text = delta(alloc, number, serial)?;
        if let Ok(mutation) = read_mutation(alloc, Form::Delta, text.as_bytes()) {
            let provider = Text::of(alloc, provider.as_str())?;
            let _reply = client.desk.act(alloc, Command::Mutate(provider, mutation));
        }
    }
    Ok(())
}

fn help<R: Wait>(rt: &R, alloc: Global, helper: &mut Helper<'_, R>, giving: &Giving) {
    match helper {
        Helper::Client(client) => {
            let _given = give(alloc, client);
            giving.done.fetch_add(1, Ordering::SeqCst);
        }
        Helper::Worker(share) => work_loop(rt, alloc, &Layered, share, giving),
        Helper::Stitcher(share) => stitch_loop(rt, alloc, &Layered, share, giving),
    }
}

// What a thread of this number does at its share: the first two give, the next two work, and the last one stitches.
fn in_role<'a, R: Wait>(
    number: u64,
    desk: SharedDesk<'a, Layered, Still, Empty, R>,
) -> Helper<'a, R> {
    match number {
        0 | 1 => Helper::Client(Client { number, desk }),
        2 | 3 => Helper::Worker(Share::over(desk)),
        _ => Helper::Stitcher(Share::over(desk)),
    }
}

// Gives a helper a seat of its own, if one is free.
fn seat<'a, R: Wait>(
    rt: &'a R,
    turns: &'a Turns<Pages>,
    pass: &mut Pass<Pages>,
    helpers: &mut Vec<Helper<'a, R>>,
    number: u64,
) -> Result<(), AllocError>
    requires { pass.old.turns ≡ turns.now.id }
    ensures { pass.new.turns ≡ pass.old.turns }
{
    if let Ok(seat) = turns.split(rt, pass) {
        helpers.push(in_role(number, SharedDesk::over(rt, turns, seat)))?;
    }
    Ok(())
}

// Two clients, two workers and one that stitches, each at a seat of its own.
fn helpers<'a, R: Wait>(
    rt: &'a R,
    alloc: Global,
    turns: &'a Turns<Pages>,
    pass: &mut Pass<Pages>,
) -> Result<Vec<Helper<'a, R>>, AllocError>
    requires { pass.old.turns ≡ turns.now.id }
    ensures { pass.new.turns ≡ pass.old.turns }
{
    let mut helpers = Vec::new(alloc);
    seat(rt, turns, pass, &mut helpers, 0)?;
    seat(rt, turns, pass, &mut helpers, 1)?;
    seat(rt, turns, pass, &mut helpers, 2)?;
    seat(rt, turns, pass, &mut helpers, 3)?;
    seat(rt, turns, pass, &mut helpers, 4)?;
    Ok(helpers)
}

// Puts numbers, and a space behind each, behind what stands so far.
fn push_numbers(text: &mut Vec<u8>, numbers: &[u64]) -> Result<(), AllocError> {
    let mut buffer = Buffer::new();
    for number in numbers {
        text.extend_from_slice(buffer.format(*number).as_bytes())?;
        text.push(b' ')?;
    }
    Ok(())
}

// What a catalogue has: its documents, and what its numbers have come to.
fn shown(alloc: Global, state: &State) -> Result<Vec<u8>, Fail> {
    let mut text = Vec::new(alloc);
    push_list(alloc, &mut text, &state.documents, &read_query(alloc, "")?)?;
    push_numbers(
        &mut text,
        &[state.arrival, state.number, state.token, state.ticket],
    )?;
    Ok(text)
}

/// A catalogue that plays a journal again, with the orders that it gave.
#[derive(Drop)]
struct Player {
    catalogue: Catalogue<Layered>,
    orders: Vec<Order>,
}

impl Player {
    fn new(alloc: Global) -> Player {
        Player {
            catalogue: Catalogue::empty(alloc, Layered, settings(OrphanRule::Keep)),
            orders: Vec::new(alloc),
        }
    }

    fn give(&mut self, alloc: Global, input: &Input) -> Result<(), CoreFault> {
        let catalogue = &mut self.catalogue;
        match input {
            Input::Mutate(provider, mutation) => {
                catalogue.mutate(alloc, provider, mutation)?;
                Ok(())
            }
            Input::ShelfPut(name, text) => catalogue.shelf_put(alloc, name, text),
            Input::ShelfDrop(name) => catalogue.shelf_drop(alloc, name),
            Input::Refresh(reference) => catalogue.refresh(reference),
            Input::Forget(reference) => catalogue.forget(alloc, reference),
            Input::ForgetNumber(number) => catalogue.forget_number(alloc, *number),
        }
    }

    fn take(&mut self, alloc: Global) -> Result<bool, AllocError> {
        match self.catalogue.take(alloc, 0) {
            Ok(Some(order)) => {
                self.orders.push(order)?;
                Ok(true)
            }
            _ => Ok(false),
        }
    }

    fn finish(&mut self, alloc: Global, token: u64) -> Result<bool, AllocError> {
        for order in self.orders.as_slice() {
            if order.token == token {
                let done = Done::of(alloc, &Layered, order)?;
                return Ok(self.catalogue.finish(alloc, &done, 0).is_ok());
            }
        }
        Ok(false)
    }

    fn place(&mut self, alloc: Global, ticket: u64) -> Result<bool, AllocError> {
        match self.catalogue.take_stitch(alloc, ticket.saturating_sub(1)) {
            Ok(Some(order)) => {
                let stitched = Stitched::of(alloc, &Layered, &order)?;
                Ok(self.catalogue.put_stitch(alloc, &stitched).is_ok())
            }
            _ => Ok(false),
        }
    }

    // Does again what was noted, at the moment 0, and says whether it could be done.
    fn play(&mut self, alloc: Global, noted: &Noted) -> Result<bool, AllocError> {
        match noted {
            Noted::Acted(input, _) => Ok(self.give(alloc, input).is_ok()),
            Noted::Taken { .. } => self.take(alloc),
            Noted::Finished { token, .. } => self.finish(alloc, *token),
            Noted::Stitched { ticket, .. } => self.place(alloc, *ticket),
            Noted::Settled { .. } => Ok(self.catalogue.settle(alloc, 0).is_ok()),
            Noted::Cut { .. } | Noted::Unkept | Noted::CutUnkept { .. } => Ok(false),
        }
    }
}

/// What a book's catalogue has, beside what one has that played the journal again.
#[derive(Drop)]
struct Comparison {
    /// How many inputs stand in the journal.
    inputs: u64,
    served: Vec<u8>,
    /// Nothing, if an entry of the journal couldn't be played.
    played: Option<Vec<u8>>,
}

// How many inputs stand in a journal.
fn inputs_in(journal: &History<Entry>) -> u64 {
    let mut inputs = 0u64;
    for place in 0..journal.kept() {
        if let Some(entry) = journal.at(place)
            && matches!(entry.noted, Noted::Acted(..))
        {
            inputs = inputs.saturating_add(1);
        }
    }
    inputs
}

// What a player's catalogue has after a journal, if it could be played.
fn played_on(
    alloc: Global,
    player: &mut Player,
    journal: &History<Entry>,
) -> Result<Option<Vec<u8>>, Fail> {
    for place in 0..journal.kept() {
        if let Some(entry) = journal.at(place)
            && !player.play(alloc, &entry.noted)?
        {
            return Ok(None);
        }
    }
    Ok(Some(shown(alloc, player.catalogue.view())?))
}

// What a catalogue has that played a journal again, if nothing of it is gone and it could be played.
fn played(alloc: Global, journal: &History<Entry>) -> Result<Option<Vec<u8>>, Fail> {
    if journal.gone() > 0 {
        return Ok(None);
    }
    let mut player = Player::new(alloc);
    let text = played_on(alloc, &mut player, journal);
    drop(player);
    text
}

fn compared(alloc: Global, book: &Pages) -> Result<Comparison, Fail> {
    Ok(Comparison {
        inputs: inputs_in(book.journal()),
        served: shown(alloc, book.desk().timed().catalogue().view())?,
        played: played(alloc, book.journal())?,
    })
}

// The same at a turn, after threads worked beside each other.
fn compared_after<R: Threads + Wait + Sync>(
    rt: &R,
    alloc: Global,
    turns: &Turns<Pages>,
    pass: Pass<Pages>,
) -> Result<Comparison, Fail>
    requires { pass.turns ≡ turns.now.id }
{
    let mut own = pass;
    let giving = Giving {
        done: AtomicU64::new(0),
    };
    let mut helpers = helpers(rt, alloc, turns, &mut own)?;
    for_each_mut(
        rt,
        helpers.as_mut_slice(),
        5,
        &|_, helper| help(rt, alloc, helper, &giving),
    );
    turns.act(
        rt,
        &mut own,
        |book: &mut Pages| -> Result<Comparison, Fail>
            ensures { book.new ≡ book.old }
        { compared(alloc, book) },
    )
}

// All deltas stand in the journal, in an order that depends on the threads.
#[test]
fn one_catalogue_replays_what_threads_did(rt: HostRuntime) -> Result<(), Fail> {
    let alloc = rt.alloc();
    let Ok((turns, pass)) = Turns::new(alloc, empty_book(alloc), 6) else {
        panic!(rt; "no memory")
    };
    let Comparison {
        inputs,
        served,
        played,
    } = compared_after(&rt, alloc, &turns, pass)?;
    let Some(played) = played else {
        panic!(rt; "the journal can't be played again")
    };
    assert_eq!(rt; inputs, CLIENTS * DELTAS);
    assert_eq!(rt; served.as_slice(), played.as_slice());
    Ok(())
}
