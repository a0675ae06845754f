//! What the provider of a sample gives.
ghost use Rattle.std.specs.Prelude.{◌≡◌, ◌<◌, ◌≤◌, ◌^◌, ◌++◌, IfOk, OnOk};
ghost use Rattle.cat_tree.specs.Data.{dict, members_of};
ghost use Rattle.cat_tree.specs.View.{data_of};
ghost use Rattle.cat_sample.specs.Sample as made;

use cat_collections::listing::Listing;
use cat_stitch::make::{empty_map, with_words, words};
use cat_tree::edit::with_key;
use cat_tree::text::Text;
use cat_tree::tree::{Tree, Trees};
use cat_types::fault::RefFault;
use cat_types::input::{Item, Mutation};
use cat_types::node::Node;
use cat_types::reference::ref_of;
use itoa::Buffer;
use std::alloc::{AllocError, Global};

/// How many Groups a sample has.
pub(crate) const GROUPS: u64 = 10;

/// Letters and a number, as `c12`.
pub(crate) fn numbered(alloc: Global, letters: &str, number: u64) -> Result<Text, AllocError>
    ensures { IfOk result (λ t. t ≡ made.numbered letters.now number) }
{
    let mut text = String::from_str(alloc, letters)?;
    let mut digits = Buffer::new();
    text.push_str(digits.format(number))?;
    Ok(Text::from_string(text))
}

// The seed after a draw.
fn next_seed(seed: u64) -> u64
    requires { seed < 2 ^ 31 }
    ensures next { result ≡ made.next_seed seed }
    ensures below { result < 2 ^ 31 }
{
    (seed * 1_103_515_245 + 12_345) % 2_147_483_648
}

// A descriptor of a kind, a name and what is said of it.
fn descriptor(alloc: Global, kind: &str, name: &str, said: Tree) -> Result<Tree, AllocError>
    ensures { IfOk result (λ t. data_of t ≡ made.descriptor kind.now name.now (data_of said)) }
{
    let metadata = with_words(alloc, empty_map(alloc), "name", name)?;
    let tree = with_words(
        alloc,
        empty_map(alloc),
        "apiVersion",
        "backstage.io/v1alpha1",
    )?;
    let tree = with_words(alloc, tree, "kind", kind)?;
    let tree = with_key(alloc, tree, "metadata", metadata)?;
    with_key(alloc, tree, "spec", said)
}

// The Group of a number.
fn group(alloc: Global, number: u64) -> Result<Tree, AllocError>
    ensures { IfOk result (λ t. data_of t ≡ made.group_tree number) }
{
    let name = numbered(alloc, "g", number)?;
    let none = Tree::List(Trees::new(alloc));
    let said = with_key(alloc, empty_map(alloc), "children", none)?;
    let said = with_words(alloc, said, "type", "team")?;
    descriptor(alloc, "Group", name.as_str(), said)
}

// The Component that another depends on, as the list of one text.
fn depends_on(alloc: Global, number: u64) -> Result<Tree, AllocError>
    ensures { IfOk result (λ t. data_of t ≡ made.one_text (made.numbered made.component_words number)) }
{
    let text = numbered(alloc, "component:c", number)?;
    let mut list = Vec::new(alloc);
    list.push(Tree::Words(text))?;
    Ok(Tree::List(Trees::from_vec(list)))
}

// What is said of the Component of a number of its dependency: the first has none.
fn dependency(alloc: Global, number: u64, drawn: u64) -> Result<Tree, AllocError>
    ensures { IfOk result (λ t. data_of t ≡ dict (members_of (made.dependency number drawn))) }
{
    if number == 0 {
        return Ok(empty_map(alloc));
    }
    let other = depends_on(alloc, drawn % number)?;
    with_key(alloc, empty_map(alloc), "dependsOn", other)
}

// What is said of a Component beside its dependency.
fn said_of(alloc: Global, depending: Tree, owner: &str) -> Result<Tree, AllocError>
    ensures { IfOk result (λ t. data_of t ≡ made.with_owner owner.now (data_of depending)) }
{
    let said = with_words(alloc, depending, "lifecycle", "production")?;
    let said = with_words(alloc, said, "owner", owner)?;
    with_words(alloc, said, "type", "service")
}

// The Component of a number, by what was drawn for it.
fn component(alloc: Global, number: u64, drawn: u64) -> Result<Tree, AllocError>
    ensures { IfOk result (λ t. data_of t ≡ made.component_tree number drawn) }
{
    let name = numbered(alloc, "c", number)?;
    let owner = numbered(alloc, "g", drawn % GROUPS)?;
    let depending = dependency(alloc, number, drawn)?;
    let said = said_of(alloc, depending, owner.as_str())?;
    descriptor(alloc, "Component", name.as_str(), said)
}

// Adds the item of a descriptor, under the reference that it names.
fn push_item(alloc: Global, items: &mut Listing<Item>, tree: Tree) -> Result<(), AllocError>
    ensures { OnOk result (items.new ≡ items.old ++ made.item_of (data_of tree)) }
{
    match ref_of(alloc, &tree) {
        Ok(reference) => {
            let tree = Node::new(alloc, tree)?;
            items.push(Item {
                reference,
                key: None,
                tree,
            })
        }
        Err(RefFault::NoMemory) => Err(AllocError),
        Err(_) => Ok(()),
    }
}

// Adds the Groups.
fn push_groups(alloc: Global, items: &mut Listing<Item>) -> Result<(), AllocError>
    ensures { OnOk result (items.new ≡ items.old ++ made.groups 0 10) }
{
    let mut number = 0;
    while number < GROUPS {
        push_item(alloc, items, group(alloc, number)?)?;
        number += 1;
    }
    Ok(())
}

// Adds so many Components.
fn push_components(
    alloc: Global,
    items: &mut Listing<Item>,
    seed: u64,
    count: u64,
) -> Result<(), AllocError>
    requires { seed < 2 ^ 31 }
    ensures { OnOk result (items.new ≡ items.old ++ made.components seed 0 count) }
{
    let mut state = seed;
    let mut number = 0;
    while number < count {
        state = next_seed(state);
        push_item(alloc, items, component(alloc, number, state / 65_536)?)?;
        number += 1;
    }
    Ok(())
}

/// The mutation that gives ten Groups and so many Components.
pub(crate) fn mutation(alloc: Global, seed: u64, count: u64) -> Result<Mutation, AllocError>
    requires { seed < 2 ^ 31 }
    ensures { IfOk result (λ m. m ≡ made.sample_mutation seed count) }
{
    let mut items = Listing::new(alloc);
    push_groups(alloc, &mut items)?;
    push_components(alloc, &mut items, seed, count)?;
    Ok(Mutation::Full { serial: 1, items })
}
