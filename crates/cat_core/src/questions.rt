//! What is asked of a state.
ghost use Rattle.std.specs.Prelude.{◌≡◌, IfOk, IsTrue, option_map};
ghost use Rattle.std.specs.FinMap.Entries.{is_sorted};
ghost use Rattle.cat_collections.specs.Table.{text_cmp};
ghost use Rattle.cat_plan.specs.Linked.{AreLinked, AreRecorded};
ghost use Rattle.cat_model.specs.Reply.{is_quiet, issues_at, next_mark, next_stitch, placed, resting, state_counts};
ghost use Rattle.cat_model.specs.Sound.{its_number};

use cat_collections::listing::{Copied, Listing};
use cat_events::done::Stitched;
use cat_events::present::present_stitch;
use cat_links::links::Links;
use cat_model::types::{Placed, State, StateCounts, StitchOrder};
use cat_plan::layers::Layers;
use cat_plan::linked_parts::present_parts;
use cat_types::issue::Issue;
use cat_types::reference::Ref;
use std::alloc::{AllocError, Global};

/// Whether no record is due at this moment and no reference is marked.
pub(crate) fn is_quiet(m: &State, now: u64) -> bool
    ensures { result ≡ is_quiet m.now now }
{
    m.records.is_none_due(now) && m.marks.len() == 0
}

/// How many records, orphans, due records, live leases and marks there are.
pub(crate) fn counts_of(m: &State, now: u64) -> StateCounts
    requires { IsTrue (is_sorted text_cmp m.now.records) }
    ensures { result ≡ state_counts m.now now }
{
    StateCounts {
        records: m.records.len() as u64,
        orphans: m.orphans.len() as u64,
        due: m.records.count_due(now) as u64,
        leased: m.records.count_leased(now) as u64,
        marked: m.marks.len() as u64,
    }
}

/// The number of a record or an orphan.
pub fn number_of(m: &State, reference: &Ref) -> Option<u64>
    ensures { result ≡ its_number m.now reference.now }
{
    match m.records.get(reference) {
        Some(kept) => Some(kept.number),
        None => match m.orphans.get(reference) {
            Some(orphan) => Some(orphan.number),
            None => None,
        },
    }
}

/// Whether what is known under a reference is an orphan.
pub fn rests(m: &State, reference: &Ref) -> Option<bool>
    ensures { result ≡ resting m.now reference.now }
{
    match m.records.get(reference) {
        Some(_) => Some(false),
        None => match m.orphans.get(reference) {
            Some(_) => Some(true),
            None => None,
        },
    }
}

/// A record's issues.
pub fn issues_of<'a>(m: &'a State, reference: &Ref) -> Option<&'a Listing<Issue>>
    ensures { option_map (λ x. x.now) result ≡ issues_at m.now reference.now }
{
    match m.records.get(reference) {
        None => None,
        Some(kept) => Some(&kept.issues),
    }
}

// The mark with the least ticket above.
fn next_mark(m: &State, after: u64) -> Option<(&Ref, u64)>
    ensures { option_map (λ e. (e.0.now, e.1)) result ≡ next_mark m.now after }
{
    m.marks.next(after)
}

/// The order of the mark with the least ticket above, with the parts of its reference.
pub fn stitch_after<L: Layers>(
    alloc: Global,
    layers: &L,
    links: &Links,
    m: &State,
    after: u64,
) -> Result<Option<StitchOrder>, AllocError>
    requires linked { AreLinked L.rules links.now m.now }
    requires recorded { AreRecorded m.now }
    ensures { IfOk result (λ o. o ≡ next_stitch L.rules m.now after) }
{
    match next_mark(m, after) {
        None => Ok(None),
        Some((reference, ticket)) => {
            let parts = present_parts(alloc, layers, links, m, reference)?;
            match parts {
                None => Ok(None),
                Some(parts) => Ok(Some(StitchOrder {
                    reference: reference.duplicate(alloc)?,
                    ticket,
                    parts,
                })),
            }
        }
    }
}

/// What the put of a stitch answers where nothing is refused.
pub fn stitch_reply<L: Layers>(
    alloc: Global,
    layers: &L,
    stitched: &Stitched<'_, L>,
    links: &Links,
    m: &State,
) -> Result<Placed, AllocError>
    requires linked { AreLinked L.rules links.now m.now }
    requires recorded { AreRecorded m.now }
    ensures { IfOk result (λ x. x ≡ placed L.rules stitched.now.order.now m.now) }
{
    let order = stitched.order();
    if present_stitch(alloc, layers, order, m, links)? {
        Ok(Placed::Counted)
    } else {
        Ok(Placed::Late(m.marks.get(&order.reference).copied()))
    }
}
