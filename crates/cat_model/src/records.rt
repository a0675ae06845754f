//! Records by reference, by the moment from which they are due, and by the moment at which their leases lapse.
ghost use Rattle.std.specs.Prelude.{◌≡◌, ◌+◌, ◌<◌, ◌≤◌, ◌==◌, ◌∷◌, [], IfOk, IsTrue, Option, is_ok, is_some, if◌then◌else◌, length, option_map, slice_get};
ghost use Rattle.std.specs.FinMap.Entries.{is_sorted};
ghost use Rattle.std.specs.List.{filter};
ghost use Rattle.cat_owned_map.specs.BoxedLeft.{boxed_left};
ghost use Rattle.cat_collections.specs.Rows.{without};
ghost use Rattle.cat_collections.specs.Table.{find, get, keys, put, text_cmp};
ghost use Rattle.cat_types.specs.Amended.{amended};
ghost use Rattle.cat_model.specs.Dues.{first_taken, is_due, is_free, is_leased, lapse, may_take, moment_cmp, refs_due, refs_until, rerecorded_at, soonest};
ghost use Rattle.std.specs.declared.option.Option.TheVariants.{Some};

use crate::types::{Lease, Record};
use cat_collections::listing::{Copied, Listing};
use cat_collections::pair::Pair;
use cat_collections::tree::MOST;
use cat_owned_map::boxed::{BoxedItems, Node, Slot};
use cat_owned_map::owned::Owned;
use cat_state_parts::marks::Above;
use cat_types::reference::Ref;
use cat_types::sorted::in_order;
use std::alloc::{AllocError, Global};
use std::marker::Model;

// Moments, each with the reference of its record.
type Moments = Owned<(u64, Ref), ()>;

/// Records by reference. Contracts see them in order of reference. They are kept by the moments from which they are due, too,
/// so that the one which a take leases is found without a look at those that are due later, and by the moments at which their
/// leases lapse, 0 for those that have none, so that live leases are counted without a look at any.
pub struct Records {
    entries: Owned<Ref, Record>,
    dues: Moments,
    lapses: Moments,
}

// Written out, and not derived: so the crates above let go of records by one call.
impl Drop for Records {
    fn drop(self) {
        let Records {
            entries: _,
            dues: _,
            lapses: _,
        } = self;
    }
}

impl Model for Records {
    ghost use Rattle.cat_model.specs.Dues.{AreMoments, due_of, lapse_of};
    ghost use Rattle.cat_collections.specs.Table.{Map};
    ghost use Rattle.cat_model.specs.declared.types.Record.{Record as TheRecord};
    ghost use Rattle.cat_model.specs.contracts.types.Record.{the_row};
    ghost use Rattle.std.specs.Coded.{coded_list, coded×, coded_ℕ};

    ghost Value = { Map TheRecord };

    ghost coded = { coded_list (coded× (coded_list coded_ℕ) the_row.coded) };

    ghost view = { λ a. a.entries };

    ghost invariant = { λ a. AreMoments due_of a.entries a.dues × AreMoments lapse_of a.entries a.lapses };
}

/// A record under its reference, with all memory that putting it takes. Contracts see both.
#[derive(Drop)]
pub struct ReadyRecord {
    entry: Node<(Ref, Record)>,
    due: Node<((u64, Ref), ())>,
    lapse: Node<((u64, Ref), ())>,
}

impl Model for ReadyRecord {
    ghost use Rattle.std.specs.Prelude.{◌≡◌};
    ghost use Rattle.cat_collections.specs.Table.{Text};
    ghost use Rattle.cat_model.specs.Dues.{lapse_of};
    ghost use Rattle.cat_model.specs.declared.types.Record.{Record as TheRecord};
    ghost use Rattle.cat_model.specs.contracts.types.Record.{the_row};
    ghost use Rattle.std.specs.Coded.{coded_list, coded×, coded_ℕ};

    ghost Value = { Text × TheRecord };

    ghost coded = { coded× (coded_list coded_ℕ) the_row.coded };

    ghost view = { λ a. a.entry };

    ghost invariant = { λ a. (a.due ≡ ((a.entry.1.due, a.entry.0), tt {0})) × (a.lapse ≡ ((lapse_of a.entry.1, a.entry.0), tt {0})) };
}

// Takes the memory for a moment with a reference.
fn ready_moment(
    alloc: Global,
    moment: u64,
    reference: &Ref,
) -> Result<Node<((u64, Ref), ())>, AllocError>
    ensures { IfOk result (λ n. n ≡ ((moment, reference.now), tt {0})) }
{
    let slot = Slot::new(alloc)?;
    let reference = reference.duplicate(alloc)?;
    Ok(slot.fill(((moment, reference), ())))
}

// The moment at which a lease lapses, 0 where there is none.
fn lapse_of(lease: &Option<Lease>) -> u64
    ensures { result ≡ lapse lease.now }
{
    match lease {
        None => 0,
        Some(lease) => lease.expires,
    }
}

impl ReadyRecord {
    /// Takes the memory for a record under its reference.
    pub fn new(alloc: Global, reference: Ref, kept: Record) -> Result<ReadyRecord, AllocError>
        ensures { IfOk result (λ r. r ≡ (reference, kept)) }
    {
        let entry = Slot::new(alloc)?;
        let due = ready_moment(alloc, kept.due, &reference)?;
        let lapse = ready_moment(alloc, lapse_of(&kept.lease), &reference)?;
        Ok(ReadyRecord {
            entry: entry.fill((reference, kept)),
            due,
            lapse,
        })
    }
}

/// Takes the memory for records under their references.
pub fn ready(alloc: Global, records: Vec<(Ref, Record)>) -> Result<Vec<ReadyRecord>, AllocError>
    ensures { IfOk result (λ r. r.items ≡ records.items) }
{
    let mut ready = Vec::new(alloc);
    for (reference, record) in records {
        ready.push(ReadyRecord::new(alloc, reference, record)?)?;
    }
    Ok(ready)
}

// Strikes out the moment of a record.
fn strike(moments: &mut Moments, reference: &Ref, moment: u64)
    requires { IsTrue (is_some (find moment_cmp (moment, reference.now) moments.old)) }
    ensures moments { moments.new ≡ without moment_cmp (moment, reference.now) moments.old }
    ensures room { length moments.new < MOST }
{
    let sought = Pair {
        first: &moment,
        second: reference,
    };
    match moments.seek_take(&sought) {
        None => unreachable!(),
        Some(_node) => {}
    }
}

// Puts the moment of a record.
fn put_moment(moments: &mut Moments, node: Node<((u64, Ref), ())>)
    requires room { length moments.old < MOST }
    ensures { moments.new ≡ put moment_cmp node.0 node.1 moments.old }
{
    moments.put_node(node);
}

// The moment of a record goes from one to another.
fn move_moment(moments: &mut Moments, reference: &Ref, before: u64, after: u64)
    requires { IsTrue (is_some (find moment_cmp (before, reference.now) moments.old)) }
    ensures { moments.new ≡ put moment_cmp (after, reference.now) (tt {0}) (without moment_cmp (before, reference.now) moments.old) }
{
    let sought = Pair {
        first: &before,
        second: reference,
    };
    match moments.seek_take(&sought) {
        None => unreachable!(),
        Some(node) => {
            let (((_, reference), nothing), slot) = node.open();
            moments.put_node(slot.fill(((after, reference), nothing)));
        }
    }
}

fn is_free(now: u64, lease: &Option<Lease>) -> bool
    ensures { result ≡ is_free now lease.now }
{
    match lease {
        None => true,
        Some(lease) => lease.expires <= now,
    }
}

// Whether a record is due and has no live lease.
fn may_take(now: u64, kept: Option<&Record>) -> bool
    ensures { result ≡ may_take now (option_map (λ x. x.now) kept.entry) }
{
    match kept {
        None => false,
        Some(kept) => kept.due <= now && is_free(now, &kept.lease),
    }
}

// In order of the moments, up to the present one, the first reference whose record may be taken.
fn first_taken<'a>(now: u64, records: &Owned<Ref, Record>, dues: &'a Moments) -> Option<&'a Ref>
    ensures { option_map (λ r. r.now) result ≡ first_taken now records.now dues.now }
{
    for ((due, reference), _) in dues.iter() {
        if now < *due {
            return None;
        }
        if may_take(now, records.get(reference)) {
            return Some(reference);
        }
    }
    None
}

// The references of the moments up to the present one, in order of the moments.
fn refs_until(alloc: Global, now: u64, dues: &Moments) -> Result<Vec<Ref>, AllocError>
    ensures { IfOk result (λ refs. refs.items ≡ refs_until now dues.now) }
{
    let mut refs = Vec::new(alloc);
    for ((due, reference), _) in dues.iter() {
        if now < *due {
            return Ok(refs);
        }
        refs.push(reference.duplicate(alloc)?)?;
    }
    Ok(refs)
}

// Whether the first of the moments is after the present one, or there is none.
fn is_none_until(now: u64, dues: &Moments) -> bool
    ensures { result ≡ (length (refs_until now dues.now) == 0) }
{
    match dues.at(0) {
        None => true,
        Some(((due, _), _)) => now < *due,
    }
}

// How many of the moments stand up to the present one.
#[tactic(auto, using(crate::proofs::Counted::before_until))]
fn count_until(now: u64, moments: &Moments) -> usize
    ensures { result ≡ length (refs_until now moments.now) }
{
    moments.seek_place(&Above { number: now })
}

impl Records {
    /// No records. Takes no memory.
    pub fn new() -> Records
        ensures { result ≡ [] }
    {
        Records {
            entries: Owned::new(),
            dues: Owned::new(),
            lapses: Owned::new(),
        }
    }

    /// How many records there are.
    pub fn len(&self) -> usize
        ensures records { result ≡ length self.now }
        ensures most { result ≤ MOST }
    {
        self.entries.len()
    }

    /// Whether there are no records.
    pub fn is_empty(&self) -> bool
        ensures { result ≡ (length self.now == 0) }
    {
        self.entries.is_empty()
    }

    /// References rise. Does nothing; its callers learn it.
    pub fn in_order(&self)
        ensures { IsTrue (is_sorted text_cmp self.now) }
    {
        self.entries.in_order();
    }

    /// Lends the record of a reference; none where it has none.
    pub fn get(&self, reference: &Ref) -> Option<&Record>
        ensures { option_map (λ x. x.now) result ≡ get self.now reference.now }
    {
        self.entries.get(reference)
    }

    /// Lends the record at a place in the order of the references, with its reference.
    pub fn at(&self, place: usize) -> Option<&(Ref, Record)>
        ensures { option_map (λ e. e.now) result ≡ slice_get self.now place }
    {
        self.entries.at(place)
    }

    /// Lends the records in order of their references.
    pub fn iter(&self) -> BoxedItems<'_, (Ref, Record)>
        ensures { boxed_left result ≡ self.now }
    {
        self.entries.iter()
    }

    /// Copies of the references in order.
    pub fn keys(&self, alloc: Global) -> Result<Listing<Ref>, AllocError>
        ensures { IfOk result (λ ks. ks ≡ keys self.now) }
    {
        let mut references = Vec::new(alloc);
        for (reference, _) in self.iter() {
            references.push(reference.duplicate(alloc)?)?;
        }
        Ok(Listing::from_vec(references))
    }

    #[tactic(auto, using(crate::proofs::Soonest::first_is))]
    /// The reference of the record that a take leases at this moment: of those that are due and have no live lease the first
    /// in order of due moment, and of reference where moments tie. It looks at the records that are due before it alone.
    pub fn first_due(&self, now: u64) -> Option<&Ref>
        ensures { option_map (λ r. r.now) result ≡ option_map (λ e. e.0) (soonest now self.now) }
    {
        self.entries.in_order();
        self.dues.in_order();
        first_taken(now, &self.entries, &self.dues)
    }
}

impl Records {
    #[tactic(auto, using(crate::proofs::DueNow::due_is))]
    /// The references of the records that are due at this moment, in order. Of the records none but these is looked at.
    pub fn due(&self, alloc: Global, now: u64) -> Result<Listing<Ref>, AllocError>
        ensures { IfOk result (λ l. l ≡ refs_due now self.now) }
    {
        self.entries.in_order();
        self.dues.in_order();
        let refs = refs_until(alloc, now, &self.dues)?;
        Ok(Listing::from_vec(in_order(refs)))
    }

    #[tactic(auto, using(crate::proofs::DueNow::none_is))]
    /// Whether no record is due at this moment. It looks at the one that is due first alone.
    pub fn is_none_due(&self, now: u64) -> bool
        ensures { result ≡ (length (refs_due now self.now) == 0) }
    {
        self.entries.in_order();
        self.dues.in_order();
        is_none_until(now, &self.dues)
    }

    /// How many records are due at this moment. None of them is looked at.
    pub fn count_due(&self, now: u64) -> usize
        ensures { result ≡ length (filter (λ e. is_due now (Some e.1)) self.now) }
    {
        self.entries.in_order();
        self.dues.in_order();
        count_until(now, &self.dues)
    }

    /// How many records have a live lease at this moment. None of them is looked at.
    pub fn count_leased(&self, now: u64) -> usize
        ensures { result ≡ length (filter (λ e. is_leased now (Some e.1)) self.now) }
    {
        self.entries.in_order();
        self.lapses.in_order();
        let lapsed = count_until(now, &self.lapses);
        self.entries.len() - lapsed
    }
}

impl Records {
    /// Puts a record under its reference, in place of a former one. Takes no memory.
    pub fn put_ready(&mut self, ready: ReadyRecord)
        requires room { length self.old < MOST }
        ensures { self.new ≡ put text_cmp ready.0 ready.1 self.old }
    {
        self.entries.in_order();
        self.dues.in_order();
        self.lapses.in_order();
        let ReadyRecord { entry, due, lapse } = ready;
        if let Some(former) = self.entries.put_node(entry) {
            let (reference, record) = former.item();
            strike(&mut self.dues, reference, record.due);
            strike(&mut self.lapses, reference, lapse_of(&record.lease));
        }
        put_moment(&mut self.dues, due);
        put_moment(&mut self.lapses, lapse);
    }

    /// Puts a record under its reference, in place of a former one. Where memory is wanted, all is as before.
    pub fn put(&mut self, alloc: Global, reference: Ref, kept: Record) -> Result<(), AllocError>
        ensures { self.new ≡ (if is_ok result then put text_cmp reference kept self.old else self.old) }
    {
        if self.entries.len() == MOST {
            return Err(AllocError);
        }
        let ready = ReadyRecord::new(alloc, reference, kept)?;
        self.put_ready(ready);
        Ok(())
    }

    /// Takes a reference's record away, if it has one. Takes no memory.
    pub fn remove(&mut self, reference: &Ref)
        ensures { self.new ≡ without text_cmp reference.now self.old }
    {
        self.entries.in_order();
        self.dues.in_order();
        self.lapses.in_order();
        if let Some(former) = self.entries.take(reference) {
            let (_, record) = former.item();
            strike(&mut self.dues, reference, record.due);
            strike(&mut self.lapses, reference, lapse_of(&record.lease));
        }
    }

    /// Gives the record of a reference, if there is one, this lease, and this due moment if one is given. Takes no memory.
    pub fn renew(&mut self, reference: &Ref, due: Option<u64>, lease: Option<Lease>)
        ensures { self.new ≡ rerecorded_at reference.now due lease (get self.old reference.now) self.old }
    {
        self.entries.in_order();
        self.dues.in_order();
        self.lapses.in_order();
        if let Some(node) = self.entries.take(reference) {
            let ((reference, record), slot) = node.open();
            let mut record = record;
            let before = record.due;
            let lapsed = lapse_of(&record.lease);
            record.due = due.unwrap_or(before);
            record.lease = lease;
            move_moment(&mut self.dues, &reference, before, record.due);
            move_moment(
                &mut self.lapses,
                &reference,
                lapsed,
                lapse_of(&record.lease),
            );
            self.entries.put_node(slot.fill((reference, record)));
        }
    }

    /// Takes the records of some references away, and then puts others. Takes no memory.
    pub fn amend(&mut self, ready: Vec<ReadyRecord>, gone: &[Ref])
        requires room { length self.old + length ready.items ≤ MOST }
        ensures { self.new ≡ amended text_cmp ready.items gone.now self.old }
    {
        for reference in gone {
            self.in_order();
            self.remove(reference);
        }
        for record in ready {
            self.in_order();
            self.put_ready(record);
        }
    }
}

// Copies of records with their references.
fn copied(alloc: Global, records: &Owned<Ref, Record>) -> Result<Vec<(Ref, Record)>, AllocError>
    ensures { IfOk result (λ made. made.items ≡ records.now) }
{
    let mut made = Vec::with_capacity(alloc, records.len())?;
    for entry in records.iter() {
        made.push(entry.duplicate(alloc)?)?;
    }
    Ok(made)
}

// Copies of moments with their references.
fn copied_moments(alloc: Global, moments: &Moments) -> Result<Vec<((u64, Ref), ())>, AllocError>
    ensures { IfOk result (λ made. made.items ≡ moments.now) }
{
    let mut made = Vec::with_capacity(alloc, moments.len())?;
    for (moment, _) in moments.iter() {
        made.push((moment.duplicate(alloc)?, ()))?;
    }
    Ok(made)
}

// A copy of moments with their references.
fn moments_again(alloc: Global, moments: &Moments) -> Result<Moments, AllocError>
    ensures { IfOk result (λ made. made ≡ moments.now) }
{
    moments.in_order();
    let copies = copied_moments(alloc, moments)?;
    Owned::from_vec(alloc, copies)
}

impl Copied for Records {
    fn duplicate(&self, alloc: Global) -> Result<Records, AllocError> {
        self.entries.in_order();
        let entries = copied(alloc, &self.entries)?;
        let dues = moments_again(alloc, &self.dues)?;
        let lapses = moments_again(alloc, &self.lapses)?;
        Ok(Records {
            entries: Owned::from_vec(alloc, entries)?,
            dues,
            lapses,
        })
    }
}
