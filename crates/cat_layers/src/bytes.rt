//! How much input is stored.
ghost use Rattle.std.specs.Prelude.{◌≡◌, ◌+◌, ◌^◌, ◌≤◌, min};
ghost use Rattle.std.specs.List.{sum_by};
ghost use Rattle.cat_layers.specs.Bytes.{entry_bytes, provider_bytes, stored_bytes};

use cat_collections::map::Map;
use cat_model::types::ProviderInputs;
use cat_tree::text::Text;

/// Where the sum stands still.
const MOST: u64 = 1 << 62;

fn added(total: u64, more: u64) -> u64
    requires { total ≤ 2 ^ 62 }
    ensures { result ≡ min (total + more) (2 ^ 62) }
{
    (total + more.min(MOST)).min(MOST)
}

fn of_providers(providers: &Map<Text, ProviderInputs>) -> u64
    ensures { result ≡ min (sum_by provider_bytes providers.now) (2 ^ 62) }
{
    let mut total = 0u64;
    for (_, inputs) in providers.iter() {
        total = added(total, inputs.items.bytes());
    }
    total
}

fn with_shelf(before: u64, shelf: &Map<Text, Text>) -> u64
    requires { before ≤ 2 ^ 62 }
    ensures { result ≡ min (before + sum_by entry_bytes shelf.now) (2 ^ 62) }
{
    let mut total = before;
    for (name, body) in shelf.iter() {
        total = added(total, name.as_str().len() as u64);
        total = added(total, body.as_str().len() as u64);
    }
    total
}

/// The sum of the stored input bytes: the lengths of the compact texts of all provider items' trees, and of all names and
/// texts of the shelf. It stands still at 2^62. Providers have counted what their items say.
pub fn stored_bytes(providers: &Map<Text, ProviderInputs>, shelf: &Map<Text, Text>) -> u64
    ensures { result ≡ stored_bytes providers.now shelf.now }
{
    let items = of_providers(providers);
    with_shelf(items, shelf)
}
