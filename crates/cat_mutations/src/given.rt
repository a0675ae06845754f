//! What a mutation gives to a provider.
ghost use Rattle.std.specs.Prelude.{◌≡◌, ℕ, List, IfOk, Option};
ghost use Rattle.cat_model.specs.Given.{given, key_or, offers_of, provider_key};

use cat_collections::listing::{Copied, Listing};
use cat_model::types::Given;
use cat_tree::text::Text;
use cat_types::entries::Entries;
use cat_types::input::{Item, Mutation, Offered};
use cat_types::reference::Ref;
use std::alloc::{AllocError, Global};

// The key of a provider's item that names none.
fn provider_key(alloc: Global, provider: &Text) -> Result<Text, AllocError>
    ensures { IfOk result (λ t. t ≡ provider_key provider.now) }
{
    let mut text = String::from_str(alloc, "provider:")?;
    text.push_str(provider.as_str())?;
    Ok(Text::from_string(text))
}

fn key_of(alloc: Global, provider: &Text, key: &Option<Text>) -> Result<Text, AllocError>
    ensures { IfOk result (λ t. t ≡ key_or provider.now key.now) }
{
    match key {
        None => provider_key(alloc, provider),
        Some(key) => key.duplicate(alloc),
    }
}

fn offers(
    alloc: Global,
    provider: &Text,
    items: &[Item],
) -> Result<Entries<Ref, Offered>, AllocError>
    ensures { IfOk result (λ t. t ≡ offers_of provider.now items.now) }
{
    let mut entries = Vec::new(alloc);
    for item in items {
        let reference = item.reference.duplicate(alloc)?;
        let key = key_of(alloc, provider, &item.key)?;
        let tree = item.tree.duplicate(alloc)?;
        entries.push((reference, Offered { key, tree }))?;
    }
    Ok(Entries::from_vec(entries))
}

/// A mutation as it acts on a provider's items: an item that names no key has the provider's.
pub fn given_by(alloc: Global, provider: &Text, mutation: &Mutation) -> Result<Given, AllocError>
    ensures { IfOk result (λ x. x ≡ given provider.now mutation.now) }
{
    match mutation {
        Mutation::Full { serial, items } => {
            let items = offers(alloc, provider, items.as_slice())?;
            Ok(Given {
                serial: *serial,
                full: true,
                items,
                removed: Listing::new(alloc),
            })
        }
        Mutation::Delta {
            serial,
            added,
            removed,
        } => {
            let items = offers(alloc, provider, added.as_slice())?;
            let removed = removed.duplicate(alloc)?;
            Ok(Given {
                serial: *serial,
                full: false,
                items,
                removed,
            })
        }
    }
}

/// The serial number of a mutation.
pub fn serial_of(mutation: &Mutation) -> u64
    ensures { (provider : List ℕ) → result ≡ (given provider mutation.now).serial }
{
    match mutation {
        Mutation::Full { serial, .. } => *serial,
        Mutation::Delta { serial, .. } => *serial,
    }
}
