//! Documents by reference, with the references under each term of their search rows, and the references of those that wait.
ghost use Rattle.std.specs.Prelude.{◌≡◌, IfOk, IfSome, [], is_ok, length, option_map, slice_get, if◌then◌else◌};
ghost use Rattle.cat_tree.specs.View.{data_of};
ghost use Rattle.cat_collections.specs.Rows.{without};
ghost use Rattle.cat_collections.specs.Table.{get, put, text_cmp};
ghost use Rattle.cat_state_parts.specs.Index.{AgreeBeyond, AreLists};

use cat_collections::listing::Copied;
use cat_collections::map::Map;
use cat_tree::text::Text;
use cat_tree::tree::Tree;
use cat_types::node::Node;
use cat_types::reference::Ref;
use std::alloc::{AllocError, Global};
use std::marker::Model;

/// A key in lower case, and what a condition says behind it in lower case: nothing, or `=` and a value.
pub type Term = (Text, Text);

/// References in order, each once. A copy shares them.
pub type Set = Map<Ref, ()>;

/// The references under each term.
pub type Lists = Map<Term, Set>;

/// Documents by reference, and for each term of search rows the references of the documents that had it when they were last
/// listed. A change of a document is noted and listed later, so it takes time by the logarithm of the number of documents,
/// whatever the document is; what is found is corrected by the documents that wait. Contracts see the documents alone, in
/// order of reference. A copy shares all of it.
#[derive(Drop)]
pub struct Index {
    documents: Map<Ref, Node>,
    // those that the lists are of
    listed: Map<Ref, Node>,
    // the references whose document may be another than the listed one
    pending: Set,
    lists: Lists,
}

impl Model for Index {
    ghost use Rattle.std.specs.Prelude.{ℕ, List};
    ghost use Rattle.std.specs.Coded.{coded_list, coded×, coded_ℕ};
    ghost use Rattle.cat_tree.specs.Data.{Data, data_code};

    ghost Value = { List (List ℕ × Data) };

    ghost coded = { coded_list (coded× (coded_list coded_ℕ) data_code) };

    ghost use Rattle.cat_state_parts.specs.Index.{AgreeBeyond, AreLists};

    ghost view = { λ a. a.documents };

    ghost invariant = { λ a. AreLists a.listed a.lists × AgreeBeyond a.pending a.documents a.listed };
}

impl Index {
    /// No documents. Takes no memory.
    pub fn empty() -> Index
        ensures { result ≡ [] }
    {
        Index {
            documents: Map::new(),
            listed: Map::new(),
            pending: Map::new(),
            lists: Map::new(),
        }
    }

    /// How many documents there are.
    pub fn len(&self) -> usize
        ensures { result ≡ length self.now }
    {
        self.documents.len()
    }

    /// Lends the document at a place in the order of the references, with its reference.
    pub fn at(&self, place: usize) -> Option<&(Ref, Node)>
        ensures { option_map (λ e. e.now) result ≡ slice_get self.now place }
    {
        self.documents.at(place)
    }

    /// Lends the document of a reference; none where there is none.
    pub fn get(&self, reference: &Ref) -> Option<&Tree>
        ensures { option_map (λ t. data_of t.now) result ≡ get self.now reference.now }
    {
        Some(self.documents.get(reference)?.tree())
    }

    /// Lends the documents by reference.
    pub fn documents(&self) -> &Map<Ref, Node>
        ensures { result.now ≡ self.now }
    {
        &self.documents
    }

    /// Lends the references under each term of the documents; none where a reference waits to be listed.
    pub fn lists(&self) -> Option<&Lists>
        ensures { IfSome result (λ l. AreLists self.now l.now) }
    {
        if self.pending.is_empty() {
            Some(&self.lists)
        } else {
            None
        }
    }

    /// A copy, which shares everything. Takes no memory.
    pub fn share(&self) -> Result<Index, AllocError>
        ensures { IfOk result (λ i. i ≡ self.now) }
    {
        Ok(Index {
            documents: self.documents.share()?,
            listed: self.listed.share()?,
            pending: self.pending.share()?,
            lists: self.lists.share()?,
        })
    }
}

/// What an index is made of, lent.
#[derive(Drop)]
pub struct IndexParts<'a> {
    /// The documents by reference.
    pub documents: &'a Map<Ref, Node>,
    /// The documents that the lists are of.
    pub listed: &'a Map<Ref, Node>,
    /// The references whose document may be another than the listed one.
    pub pending: &'a Set,
    /// The references under each term of the listed documents.
    pub lists: &'a Lists,
}

impl Index {
    /// Lends what it is made of: the lists are those of the listed documents, which are the documents but for those that wait.
    pub fn parts(&self) -> IndexParts<'_>
        ensures documents { result.documents.now ≡ self.now }
        ensures lists { AreLists result.listed.now result.lists.now }
        ensures others { AgreeBeyond result.pending.now result.documents.now result.listed.now }
    {
        IndexParts {
            documents: &self.documents,
            listed: &self.listed,
            pending: &self.pending,
            lists: &self.lists,
        }
    }

    /// The index of documents with the lists of those that are listed, and the references of those that wait.
    pub fn of_parts(
        documents: Map<Ref, Node>,
        listed: Map<Ref, Node>,
        pending: Set,
        lists: Lists,
    ) -> Index
        requires lists { AreLists listed lists }
        requires others { AgreeBeyond pending documents listed }
        ensures { result ≡ documents }
    {
        Index {
            documents,
            listed,
            pending,
            lists,
        }
    }
}

impl Index {
    /// Puts the document of a reference, in place of a former one. It waits to be listed. Where memory is wanted, the index is
    /// as before. Copies of the index stay as they are.
    pub fn put(&mut self, alloc: Global, reference: Ref, document: Node) -> Result<(), AllocError>
        ensures { self.new ≡ (if is_ok result then put text_cmp reference document self.old else self.old) }
    {
        let pending = with_reference(alloc, &self.pending, &reference)?;
        self.documents.put(alloc, reference, document)?;
        self.pending = pending;
        Ok(())
    }

    /// Removes the document of a reference, if there is one. The reference waits to be listed. Where memory is wanted, the
    /// index is as before. Copies of the index stay as they are.
    pub fn remove(&mut self, alloc: Global, reference: &Ref) -> Result<(), AllocError>
        ensures { self.new ≡ (if is_ok result then without text_cmp reference.now self.old else self.old) }
    {
        let pending = with_reference(alloc, &self.pending, reference)?;
        self.documents.remove(alloc, reference)?;
        self.pending = pending;
        Ok(())
    }
}

impl Copied for Index {
    fn duplicate(&self, _alloc: Global) -> Result<Index, AllocError> {
        self.share()
    }
}

// The references with this one.
fn with_reference(alloc: Global, references: &Set, reference: &Ref) -> Result<Set, AllocError>
    ensures { IfOk result (λ s. s ≡ put text_cmp reference.now (tt {0}) references.now) }
{
    let mut set = references.share()?;
    set.put(alloc, reference.copy(alloc)?, ())?;
    Ok(set)
}
