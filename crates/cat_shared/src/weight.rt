//! How much an entry of a journal weighs.
use cat_core::catalogue::{Done, Stitched};
use cat_desk::command::Command;
use cat_plan::layers::Layers;
use cat_tree::room::size;
use cat_types::input::{Item, Mutation};

/// How many bytes of text what is noted of a command keeps in memory: those of the trees that a provider gives, and of a text that is put on the shelf.
/// References and names aren't counted.
pub(crate) fn weight<L: Layers>(command: &Command<Done<'_, L>, Stitched<'_, L>>) -> u64 {
    match command {
        Command::Mutate(_, Mutation::Full { items, .. }) => items_weight(items.as_slice()),
        Command::Mutate(_, Mutation::Delta { added, .. }) => items_weight(added.as_slice()),
        Command::ShelfPut(_, text) => text.as_str().len() as u64,
        _ => 0,
    }
}

fn items_weight(items: &[Item]) -> u64 {
    let mut total: u64 = 0;
    for item in items {
        total = total.saturating_add(size(item.tree.tree()));
    }
    total
}
