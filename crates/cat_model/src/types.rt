//! What the catalogue is made of, and what it answers. In contracts each of these is the record or the list of its values.
ghost use Rattle.std.specs.Prelude.{◌≡◌, IfOk};

use crate::records::Records;
use crate::rows::IndexedRows;
use cat_collections::listing::{Copied, Listing};
use cat_collections::map::Map;
use cat_state_parts::index::Index;
use cat_state_parts::items::OfferedItems;
use cat_state_parts::marks::Marks;
use cat_tree::text::Text;
use cat_types::entries::Entries;
use cat_types::input::Offered;
use cat_types::issue::Issue;
use cat_types::node::Node;
use cat_types::parts::Parts;
use cat_types::reference::Ref;
use cat_types::work::{Output, Work};
use std::alloc::{AllocError, Global};
use std::fmt;
use thiserror::Error;

/// What a provider gave: its last serial, and its items by reference.
#[derive(Drop)]
pub struct ProviderInputs {
    pub serial: u64,
    pub items: OfferedItems,
}

/// Who offers a row: a provider, or the entity that emitted it.
#[derive(Drop)]
pub enum Origin {
    Provider(Text),
    Entity(Ref),
}

/// One offer of an origin for a reference.
#[derive(Drop)]
pub struct Row {
    pub origin: Origin,
    pub reference: Ref,
    pub offered: Offered,
}

/// What becomes of records that leave.
#[derive(Clone, Copy, Drop)]
pub enum Leaving {
    Deleted,
    Orphaned,
}

/// The rule for what leaves at a finish: its last entity is kept as an orphan, or it is deleted.
#[derive(Clone, Copy, Debug, Drop, PartialEq, Eq)]
pub enum OrphanRule {
    Keep,
    Delete,
}

/// A lease on a record: its token, and the moment at which it lapses.
#[derive(Drop)]
pub struct Lease {
    pub token: u64,
    pub expires: u64,
}

/// What the catalogue keeps for a held reference: its number, its last good output, its issues, the moment from which it is
/// due, and its lease.
#[derive(Drop)]
pub struct Record {
    pub number: u64,
    pub output: Option<Output>,
    pub issues: Listing<Issue>,
    pub due: u64,
    pub lease: Option<Lease>,
}

/// What is kept of a reference that left at a finish: its number and its last entity.
#[derive(Drop)]
pub struct Orphan {
    pub number: u64,
    pub entity: Node,
}

/// A catalogue. Rows stand by arrival, all else by provider, name or reference; the last four are the next numbers to be drawn.
pub struct State {
    pub providers: Map<Text, ProviderInputs>,
    pub shelf: Map<Text, Text>,
    pub rows: IndexedRows,
    pub holders: Map<Ref, u64>,
    pub records: Records,
    pub orphans: Map<Ref, Orphan>,
    pub marks: Marks,
    pub documents: Index,
    pub arrival: u64,
    pub number: u64,
    pub token: u64,
    pub ticket: u64,
}

// Written out, and not derived: so the crates above let go of a state by one call.
impl Drop for State {
    fn drop(self) {
        let State {
            providers: _,
            shelf: _,
            rows: _,
            holders: _,
            records: _,
            orphans: _,
            marks: _,
            documents: _,
            arrival: _,
            number: _,
            token: _,
            ticket: _,
        } = self;
    }
}

impl State {
    /// The records of a state. All else is let go.
    pub fn into_records(self) -> Records
        ensures { result ≡ self.records }
    {
        let State {
            providers: _,
            shelf: _,
            rows: _,
            holders: _,
            records,
            orphans: _,
            marks: _,
            documents: _,
            arrival: _,
            number: _,
            token: _,
            ticket: _,
        } = self;
        records
    }
}

/// The rows, and the next arrival.
#[derive(Drop)]
pub struct Numbered {
    pub rows: IndexedRows,
    pub next: u64,
}

/// How long a result stands before its record is due again, how long a lease lasts, the limit on the stored input bytes, and the
/// rule for orphans.
#[derive(Drop)]
pub struct Settings {
    pub interval: u64,
    pub lease: u64,
    pub input_limit: u64,
    pub orphans: OrphanRule,
}

/// A mutation as it acts on a provider's items: with keys filled in, in the order of its list.
#[derive(Drop)]
pub struct Given {
    pub serial: u64,
    pub full: bool,
    pub items: Entries<Ref, Offered>,
    pub removed: Listing<Ref>,
}

/// The work on a reference under a lease.
#[derive(Drop)]
pub struct Order {
    pub reference: Ref,
    pub token: u64,
    pub work: Work,
}

/// The parts of a reference's document under its mark's ticket.
#[derive(Drop)]
pub struct StitchOrder {
    pub reference: Ref,
    pub ticket: u64,
    pub parts: Parts,
}

/// The counters from which numbers are drawn.
#[derive(Clone, Copy, Debug, Drop)]
pub enum Counter {
    Arrival,
    Number,
    Token,
    Ticket,
}

impl fmt::Display for Counter {
    fn fmt<W: fmt::Write>(&self, f: &mut fmt::Formatter<W>) -> fmt::Result {
        match self {
            Counter::Arrival => write!(f, "arrival"),
            Counter::Number => write!(f, "number"),
            Counter::Token => write!(f, "token"),
            Counter::Ticket => write!(f, "ticket"),
        }
    }
}

/// Why an event is refused, the least number first.
#[derive(Clone, Copy, Debug, Drop, Error)]
pub enum Fault {
    #[error("the serial is below {0}")]
    OldSerial(u64),
    #[error("not found")]
    NotFound,
    #[error("the inputs would have {0} bytes")]
    TooLarge(u64),
    #[error("the counter {0} is spent")]
    Spent(Counter),
}

/// Why a settle stopped before its end: its next event was refused, or it had as many events as it was given.
#[derive(Clone, Copy, Drop)]
pub enum Stop {
    Refused(Fault),
    Limit,
}

/// How far a settle has come: the state after the events that stand, the rounds, leases and stitches, the events in all,
/// and why it stopped, if it did. The counts stand still at the greatest number of 64 bits.
#[derive(Drop)]
pub struct Progress {
    pub state: State,
    pub rounds: u64,
    pub leases: u64,
    pub stitched: u64,
    pub events: u64,
    pub stop: Option<Stop>,
}

/// What a mutation that isn't refused does: it acts, or its serial is the last one again.
#[derive(Clone, Copy, Debug, Drop, PartialEq, Eq)]
pub enum Acted {
    Now,
    Again,
}

/// What a finish does: it counts with a good or a bad result, or it is late, with the token of the present lease.
#[derive(Clone, Copy, Debug, Drop, PartialEq, Eq)]
pub enum Finished {
    Good,
    Bad,
    Late(Option<u64>),
}

/// What the put of a stitch does: it counts, or it is late, with the present ticket.
#[derive(Clone, Copy, Debug, Drop, PartialEq, Eq)]
pub enum Placed {
    Counted,
    Late(Option<u64>),
}

/// What a settle that isn't cut answers.
#[derive(Clone, Copy, Debug, Drop, PartialEq, Eq)]
pub struct Counts {
    pub rounds: u64,
    pub leases: u64,
    pub stitched: u64,
}

/// How many records and orphans there are, how many records are due and how many have a live lease, and how many
/// references are marked.
#[derive(Clone, Copy, Debug, Drop, PartialEq, Eq)]
pub struct StateCounts {
    pub records: u64,
    pub orphans: u64,
    pub due: u64,
    pub leased: u64,
    pub marked: u64,
}

impl Copied for ProviderInputs {
    fn duplicate(&self, alloc: Global) -> Result<ProviderInputs, AllocError> {
        let items = self.items.share()?;
        Ok(ProviderInputs {
            serial: self.serial,
            items,
        })
    }
}

impl Copied for Row {
    fn duplicate(&self, alloc: Global) -> Result<Row, AllocError> {
        let origin = self.origin.duplicate(alloc)?;
        let reference = self.reference.duplicate(alloc)?;
        let offered = self.offered.duplicate(alloc)?;
        Ok(Row {
            origin,
            reference,
            offered,
        })
    }
}

impl Copied for Lease {
    fn duplicate(&self, alloc: Global) -> Result<Lease, AllocError> {
        Ok(Lease {
            token: self.token,
            expires: self.expires,
        })
    }
}

impl Copied for Record {
    fn duplicate(&self, alloc: Global) -> Result<Record, AllocError> {
        let output = self.output.duplicate(alloc)?;
        let issues = self.issues.duplicate(alloc)?;
        let lease = self.lease.duplicate(alloc)?;
        Ok(Record {
            number: self.number,
            output,
            issues,
            due: self.due,
            lease,
        })
    }
}

impl Copied for Orphan {
    fn duplicate(&self, alloc: Global) -> Result<Orphan, AllocError> {
        let entity = self.entity.duplicate(alloc)?;
        Ok(Orphan {
            number: self.number,
            entity,
        })
    }
}

impl State {
    // The providers, the shelf, the rows and the holders, shared.
    fn share_inputs(
        &self,
    ) -> Result<
        (
            Map<Text, ProviderInputs>,
            Map<Text, Text>,
            IndexedRows,
            Map<Ref, u64>,
        ),
        AllocError,
    >
        ensures { IfOk result (λ r. r ≡ (self.now.providers, self.now.shelf, self.now.rows, self.now.holders)) }
    {
        let providers = self.providers.share()?;
        let shelf = self.shelf.share()?;
        let rows = self.rows.share()?;
        let holders = self.holders.share()?;
        Ok((providers, shelf, rows, holders))
    }

    // The orphans, the marks and the documents, shared.
    fn share_outcomes(&self) -> Result<(Map<Ref, Orphan>, Marks, Index), AllocError>
        ensures { IfOk result (λ r. r ≡ (self.now.orphans, self.now.marks, self.now.documents)) }
    {
        let orphans = self.orphans.share()?;
        let marks = self.marks.share()?;
        let documents = self.documents.share()?;
        Ok((orphans, marks, documents))
    }

    /// The state with other records. All else is shared. Takes no memory.
    pub fn with_records(&self, records: Records) -> Result<State, AllocError>
        ensures { IfOk result (λ made. made ≡ record self.now { records = records }) }
    {
        let (providers, shelf, rows, holders) = self.share_inputs()?;
        let (orphans, marks, documents) = self.share_outcomes()?;
        Ok(State {
            providers,
            shelf,
            rows,
            holders,
            records,
            orphans,
            marks,
            documents,
            arrival: self.arrival,
            number: self.number,
            token: self.token,
            ticket: self.ticket,
        })
    }
}

impl Copied for State {
    fn duplicate(&self, alloc: Global) -> Result<State, AllocError> {
        let records = self.records.duplicate(alloc)?;
        self.with_records(records)
    }
}

impl Copied for Origin {
    fn duplicate(&self, alloc: Global) -> Result<Origin, AllocError> {
        match self {
            Origin::Provider(name) => Ok(Origin::Provider(name.duplicate(alloc)?)),
            Origin::Entity(reference) => Ok(Origin::Entity(reference.duplicate(alloc)?)),
        }
    }
}
