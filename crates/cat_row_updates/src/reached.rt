//! What an event reached, and the rows that are made of it.
use cat_keeper::table::Table;
use cat_stored_rows::stored::Stored;
use cat_tree::text::Text;
use cat_types::reference::Ref;

/// What an event may have changed of what is stored: references, and at most one provider and one text of the shelf.
#[derive(Drop)]
pub struct Reached {
    pub references: Vec<Ref>,
    pub provider: Option<Text>,
    pub name: Option<Text>,
}

/// The rows of the state after an event, and the keys at which they may differ from those before it, in order, each once.
#[derive(Drop)]
pub struct Renewed {
    pub rows: Stored,
    pub keys: Vec<(Table, Text)>,
}
