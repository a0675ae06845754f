//! What a change puts into a table, and what it takes out.
ghost use Rattle.std.specs.Prelude.{◌≡◌, ◌≤◌, ◌<◌, ◌^◌, IfOk, length};
ghost use Rattle.cat_model.specs.Catalogue.{tickets};
ghost use Rattle.cat_plan.specs.Amended.{entries_of};

use crate::build::Gives;
use cat_collections::listing::{Copied, Listing};
use cat_types::reference::Ref;
use std::alloc::{AllocError, Global};

/// The entries that a change puts into a table, and the references that it takes out of it.
#[derive(Drop)]
pub struct Amendment<X> {
    pub put: Vec<(Ref, X)>,
    pub gone: Listing<Ref>,
}

/// The entries that the function gives these references, in their turn; one without a value is left out.
pub fn entries_of<X: Drop, F: Gives<Ref, X>>(
    alloc: Global,
    refs: &[Ref],
    f: &F,
) -> Result<Vec<(Ref, X)>, AllocError>
    ensures { IfOk result (λ l. l.items ≡ entries_of (F.gives f.now) refs.now) }
{
    let mut made = Vec::new(alloc);
    for reference in refs {
        if let Some(value) = f.give(alloc, reference)? {
            made.push((reference.duplicate(alloc)?, value))?;
        }
    }
    Ok(made)
}

/// The references with the numbers from this one on.
pub fn numbered(alloc: Global, first: u64, refs: &[Ref]) -> Result<Vec<(Ref, u64)>, AllocError>
    requires { first ≤ 2 ^ 59 }
    ensures { IfOk result (λ l. l.items ≡ tickets first refs.now) }
{
    let mut made = Vec::new(alloc);
    let mut number = first;
    for reference in refs {
        made.push((reference.duplicate(alloc)?, number))?;
        number += 1;
    }
    Ok(made)
}

/// How many references there are.
pub fn count_of(refs: &[Ref]) -> usize
    ensures count { result ≡ length refs.now }
    ensures small { result < 2 ^ 63 }
{
    refs.len()
}
