//! The marks of a catalogue, by reference and by ticket.
ghost use Rattle.std.specs.Prelude.{◌≡◌, ◌==◌, ◌+◌, [], IfOk, IsTrue, if◌then◌else◌, is_ok, length, option_map};
ghost use Rattle.std.specs.FinMap.Entries.{is_sorted};
ghost use Rattle.cat_collections.specs.Left.{items_left};
ghost use Rattle.cat_collections.specs.Rows.{without};
ghost use Rattle.cat_collections.specs.Table.{get, put, text_cmp};
ghost use Rattle.cat_types.specs.Amended.{amended};
ghost use Rattle.cat_state_parts.specs.Marks.{least_above, tickets_with, tickets_without};

use cat_collections::key::{Key, Seek};
use cat_collections::listing::Copied;
use cat_collections::map::Map;
use cat_collections::tree::Items;
use cat_types::reference::Ref;
use std::alloc::{AllocError, Global};
use std::cmp::Ordering;
use std::marker::Model;

// Each mark by its ticket, and by its reference where tickets tie.
type Tickets = Map<(u64, Ref), ()>;

/// Which references' documents have to be stitched again, each under the ticket of its mark. Contracts see the tickets by
/// reference, in order. A copy shares all of it and takes no memory.
pub struct Marks {
    marks: Map<Ref, u64>,
    by_ticket: Tickets,
}

// Written out, and not derived: so the crates above let go of marks by one call.
impl Drop for Marks {
    fn drop(self) {
        let Marks {
            marks: _,
            by_ticket: _,
        } = self;
    }
}

impl Model for Marks {
    ghost use Rattle.cat_state_parts.specs.Marks.{IsIndexed, Mark};
    ghost use Rattle.std.specs.Prelude.{List};
    ghost use Rattle.std.specs.Coded.{coded_list, coded×, coded_ℕ};

    ghost Value = { List Mark };

    ghost coded = { coded_list (coded× (coded_list coded_ℕ) coded_ℕ) };

    ghost view = { λ a. a.marks };

    ghost invariant = { λ a. IsIndexed a.marks a.by_ticket };
}

/// Stands in a search for the first key whose number may be above this one: it comes behind all keys with this number or a lower
/// one, and before all others.
#[derive(Drop)]
pub struct Above {
    pub number: u64,
}

impl Seek<(u64, Ref)> for Above {
    ghost sought = { λ a. (a.number + 1, []) };

    fn compare_with(&self, other: &(u64, Ref)) -> Ordering {
        if other.0 <= self.number {
            return Ordering::Greater;
        }
        let below = other.0 - 1;
        match self.number.cmp(&below) {
            Ordering::Equal => "".cmp(other.1.as_str()),
            unequal => unequal,
        }
    }
}

// The tickets without that of a reference.
fn tickets_without(
    alloc: Global,
    marks: &Map<Ref, u64>,
    tickets: &Tickets,
    reference: &Ref,
) -> Result<Tickets, AllocError>
    ensures { IfOk result (λ x. x ≡ tickets_without reference.now (get marks.now reference.now) tickets.now) }
{
    let mut next = tickets.share()?;
    if let Some(ticket) = marks.get(reference) {
        next.remove(alloc, &(*ticket, reference.duplicate(alloc)?))?;
    }
    Ok(next)
}

// The tickets with this one of a reference, in place of the one that it had.
fn tickets_with(
    alloc: Global,
    marks: &Map<Ref, u64>,
    tickets: &Tickets,
    reference: &Ref,
    ticket: u64,
) -> Result<Tickets, AllocError>
    ensures { IfOk result (λ x. x ≡ tickets_with ticket reference.now (get marks.now reference.now) tickets.now) }
{
    let mut next = tickets_without(alloc, marks, tickets, reference)?;
    next.put(alloc, (ticket, reference.duplicate(alloc)?), ())?;
    Ok(next)
}

impl Copied for Marks {
    fn duplicate(&self, _alloc: Global) -> Result<Marks, AllocError> {
        self.share()
    }
}

impl Marks {
    /// No marks. Takes no memory.
    pub fn new() -> Marks
        ensures { result ≡ [] }
    {
        Marks {
            marks: Map::new(),
            by_ticket: Map::new(),
        }
    }

    /// How many references are marked.
    pub fn len(&self) -> usize
        ensures { result ≡ length self.now }
    {
        self.marks.len()
    }

    /// Whether no reference is marked.
    pub fn is_empty(&self) -> bool
        ensures { result ≡ (length self.now == 0) }
    {
        self.marks.is_empty()
    }

    /// References rise. Does nothing; its callers learn it.
    pub fn in_order(&self)
        ensures { IsTrue (is_sorted text_cmp self.now) }
    {
        self.marks.in_order();
    }

    /// The ticket of a reference's mark; none where it has no mark.
    pub fn get(&self, reference: &Ref) -> Option<&u64>
        ensures { option_map (λ x. x.now) result ≡ get self.now reference.now }
    {
        self.marks.get(reference)
    }

    /// A copy that shares the marks. Takes no memory.
    pub fn share(&self) -> Result<Marks, AllocError>
        ensures { IfOk result (λ m. m ≡ self.now) }
    {
        Ok(Marks {
            marks: self.marks.share()?,
            by_ticket: self.by_ticket.share()?,
        })
    }

    /// Lends the marks in order of their references.
    pub fn iter(&self) -> Items<'_, (Ref, u64)>
        ensures { items_left result ≡ self.now }
    {
        self.marks.iter()
    }

    /// Marks a reference with this ticket, in place of the one that it had. Where memory is wanted, all is as before.
    pub fn put(&mut self, alloc: Global, reference: Ref, ticket: u64) -> Result<(), AllocError>
        ensures { self.new ≡ (if is_ok result then put text_cmp reference ticket self.old else self.old) }
    {
        let by_ticket = tickets_with(alloc, &self.marks, &self.by_ticket, &reference, ticket)?;
        self.marks.put(alloc, reference, ticket)?;
        self.by_ticket = by_ticket;
        Ok(())
    }

    /// Takes a reference's mark away, if it has one. Where memory is wanted, all is as before.
    pub fn remove(&mut self, alloc: Global, reference: &Ref) -> Result<(), AllocError>
        ensures { self.new ≡ (if is_ok result then without text_cmp reference.now self.old else self.old) }
    {
        let by_ticket = tickets_without(alloc, &self.marks, &self.by_ticket, reference)?;
        self.marks.remove(alloc, reference)?;
        self.by_ticket = by_ticket;
        Ok(())
    }

    /// The marks without those of some references, and then with others put.
    pub fn amended(
        &self,
        alloc: Global,
        put: Vec<(Ref, u64)>,
        gone: &[Ref],
    ) -> Result<Marks, AllocError>
        ensures { IfOk result (λ m. m ≡ amended text_cmp put.items gone.now self.now) }
    {
        let mut next = self.share()?;
        for reference in gone {
            next.remove(alloc, reference)?;
        }
        for (marked, ticket) in put {
            next.put(alloc, marked, ticket)?;
        }
        Ok(next)
    }

    /// The mark with the least ticket above this one, the first by reference where several have it; none where no mark has
    /// such a ticket. It looks at no more marks than lie one below the other in a tree of them.
    pub fn next(&self, after: u64) -> Option<(&Ref, u64)>
        ensures { option_map (λ e. (e.0.now, e.1)) result ≡ least_above after self.now }
    {
        self.marks.in_order();
        self.by_ticket.in_order();
        let place = self.by_ticket.seek_place(&Above { number: after });
        match self.by_ticket.at(place) {
            Some(entry) => Some((&entry.0.1, entry.0.0)),
            None => None,
        }
    }
}
