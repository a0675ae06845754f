//! What comes and goes where one list of relations takes the place of another.
ghost use Rattle.std.specs.Prelude.{◌≡◌, not, IfOk};
ghost use Rattle.std.specs.List.{filter};
ghost use Rattle.std.specs.List.Sorted.{IsStrictlySortedBy};
ghost use Rattle.cat_types.specs.Relation.{relation_cmp};
ghost use Rattle.cat_collections.specs.Order.{in_order};
ghost use Rattle.cat_links.specs.Links.{has, only_in};

use cat_collections::listing::Copied;
use cat_types::relation::Relation;
use cat_types::sorted::{append, in_order, is_among};
use std::alloc::{AllocError, Global};

/// What only the later of two lists has, and what only the earlier has, in order, each once.
#[derive(Drop)]
pub struct Moved {
    pub come: Vec<Relation>,
    pub gone: Vec<Relation>,
}

// Copies of the relations in order, each once.
fn distinct(alloc: Global, relations: &[Relation]) -> Result<Vec<Relation>, AllocError>
    ensures { IfOk result (λ list. list.items ≡ in_order relation_cmp relations.now) }
{
    let mut list = Vec::new(alloc);
    append(alloc, &mut list, relations)?;
    Ok(in_order(list))
}

// Copies of the relations that aren't among others in order.
fn not_among(
    alloc: Global,
    relations: &[Relation],
    others: &[Relation],
) -> Result<Vec<Relation>, AllocError>
    requires { IsStrictlySortedBy relation_cmp others.now }
    ensures { IfOk result (λ list. list.items ≡ filter (λ x. not (has x others.now)) relations.now) }
{
    let mut list = Vec::new(alloc);
    for relation in relations {
        if !is_among(relation, others) {
            list.push(relation.duplicate(alloc)?)?;
        }
    }
    Ok(list)
}

/// What comes and goes where the relations of `after` take the place of those of `before`.
pub fn difference(
    alloc: Global,
    before: &[Relation],
    after: &[Relation],
) -> Result<Moved, AllocError>
    ensures come { IfOk result (λ moved. moved.come.items ≡ only_in after.now before.now) }
    ensures gone { IfOk result (λ moved. moved.gone.items ≡ only_in before.now after.now) }
{
    let before = distinct(alloc, before)?;
    let after = distinct(alloc, after)?;
    let come = not_among(alloc, after.as_slice(), before.as_slice())?;
    let gone = not_among(alloc, before.as_slice(), after.as_slice())?;
    Ok(Moved { come, gone })
}
