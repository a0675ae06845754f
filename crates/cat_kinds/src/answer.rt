//! The relations that an entity states, or the reference fields that have no reading.
ghost use Rattle.std.specs.Prelude.{◌≡◌, ◌++◌, map, IfOk, OnOk};
ghost use Rattle.cat_tree.specs.View.{data_of};
ghost use Rattle.cat_kinds.specs.Mentions.{mention_of};
ghost use Rattle.cat_kinds.specs.Kinds as spec;

use crate::mention::{Mention, mentions};
use cat_collections::listing::Listing;
use cat_tree::ask::grandchild;
use cat_tree::text::Text;
use cat_tree::tree::Tree;
use cat_types::fault::RefFault;
use cat_types::reference::{Ref, parse, text_at};
use cat_types::relation::{RelKind, Relation};
use cat_types::sorted::in_order;
use std::alloc::{AllocError, Global};

/// A reference field that has no reading: its dotted path, as `spec.owner` or `spec.dependsOn.0`, and why.
#[derive(Drop)]
pub struct KindFault {
    pub place: Text,
    pub fault: RefFault,
}

/// What the reference fields of an entity say.
#[derive(Drop)]
pub enum KindAnswer {
    /// The fields that have no reading, in the order of the table and of the lists; there is at least one.
    Faults(Listing<KindFault>),
    /// Both directions of each reference, each once, by source, name of the kind, and target.
    Relations(Listing<Relation>),
}

// The faults so far, and the relations that were stated so far.
#[derive(Drop)]
struct Findings {
    faults: Vec<KindFault>,
    stated: Vec<Relation>,
}

// The entity's own namespace, which is `default` where it isn't a text.
#[tactic(auto, unfolding(crate::specs::Kinds::namespace_of))]
fn namespace_of(tree: &Tree) -> &str
    ensures { result.now ≡ spec.namespace_of (data_of tree.now) }
{
    text_at(grandchild(tree, "metadata", "namespace")).unwrap_or("default")
}

fn field_path(alloc: Global, key: &str, position: Option<usize>) -> Result<Text, AllocError>
    ensures { IfOk result (λ t. t ≡ spec.placed key.now position) }
{
    let mut path = String::from_str(alloc, "spec.")?;
    path.push_str(key)?;
    match position {
        Some(position) => {
            let digits = position.to_string(alloc)?;
            path.push_str(".")?;
            path.push_str(digits.as_str())?;
            Ok(Text::from_string(path))
        }
        None => Ok(Text::from_string(path)),
    }
}

fn push_fault(
    alloc: Global,
    faults: &mut Vec<KindFault>,
    mention: &Mention,
    fault: RefFault,
) -> Result<(), AllocError>
    ensures { OnOk result (faults.new.items
        ≡ faults.old.items ++ spec.fault_of (mention_of mention.now) (Err fault)) }
{
    let place = field_path(alloc, mention.field.key, mention.position)?;
    faults.push(KindFault { place, fault })?;
    Ok(())
}

fn relation(
    alloc: Global,
    source: &Ref,
    kind: RelKind,
    target: &Ref,
) -> Result<Relation, AllocError>
    ensures { IfOk result (λ x. x ≡ spec.relation source.now kind target.now) }
{
    let source = source.copy(alloc)?;
    let target = target.copy(alloc)?;
    Ok(Relation {
        source,
        kind,
        target,
    })
}

fn push_both_ways(
    alloc: Global,
    stated: &mut Vec<Relation>,
    source: &Ref,
    mention: &Mention,
    target: &Ref,
) -> Result<(), AllocError>
    ensures { OnOk result (stated.new.items
        ≡ stated.old.items ++ spec.both_ways source.now (mention_of mention.now) (Ok target.now)) }
{
    stated.push(relation(alloc, source, mention.field.relation, target)?)?;
    stated.push(relation(alloc, target, mention.field.reverse, source)?)?;
    Ok(())
}

impl Findings {
    // Both directions of a mention, or its fault.
    fn read(
        &mut self,
        alloc: Global,
        source: &Ref,
        namespace: &str,
        mention: &Mention,
    ) -> Result<(), AllocError>
        ensures faults { OnOk result (self.new.faults.items ≡ self.old.faults.items
            ++ spec.fault_of (mention_of mention.now) (spec.reading_of namespace.now (mention_of mention.now))) }
        ensures stated { OnOk result (self.new.stated.items ≡ self.old.stated.items
            ++ spec.both_ways source.now (mention_of mention.now) (spec.reading_of namespace.now (mention_of mention.now))) }
    {
        match parse(alloc, mention.text, mention.field.default_kind, namespace) {
            Ok(target) => push_both_ways(alloc, &mut self.stated, source, mention, &target),
            Err(RefFault::NoMemory) => Err(AllocError),
            Err(fault) => push_fault(alloc, &mut self.faults, mention, fault),
        }
    }

    // Both directions of each mention, or its fault.
    fn read_each(
        &mut self,
        alloc: Global,
        source: &Ref,
        namespace: &str,
        mentions: &[Mention],
    ) -> Result<(), AllocError>
        ensures faults { OnOk result (self.new.faults.items ≡ self.old.faults.items
            ++ spec.faults_of namespace.now (map mention_of mentions.now)) }
        ensures stated { OnOk result (self.new.stated.items ≡ self.old.stated.items
            ++ spec.stated_by source.now namespace.now (map mention_of mentions.now)) }
    {
        for mention in mentions {
            self.read(alloc, source, namespace, mention)?;
        }
        Ok(())
    }
}

// What the reference fields say, as it was found.
#[tactic(auto, unfolding(crate::specs::Kinds::kind_faults, crate::specs::Kinds::relations_of))]
fn read_all(alloc: Global, tree: &Tree, reference: &Ref) -> Result<Findings, AllocError>
    ensures faults { IfOk result (λ f. f.faults.items ≡ spec.kind_faults (data_of tree.now)) }
    ensures stated { IfOk result (λ f. spec.in_order f.stated.items ≡ spec.relations_of (data_of tree.now) reference.now) }
{
    let mentions = mentions(alloc, tree)?;
    let mut found = Findings {
        faults: Vec::new(alloc),
        stated: Vec::new(alloc),
    };
    found.read_each(alloc, reference, namespace_of(tree), mentions.as_slice())?;
    Ok(found)
}

/// The relations that the fields of an entity state, or the fields that have no reading.
///
/// `reference` is the entity's own; it is the source or the target of each relation. A reference is read with the
/// default kind of its field and the entity's own namespace. A field of another form than the table's, a member of a
/// list that isn't a text, and a field that the entity's kind hasn't are passed over. The only refusal is want of memory.
pub fn relations(alloc: Global, tree: &Tree, reference: &Ref) -> Result<KindAnswer, AllocError>
    ensures { IfOk result (λ a. a ≡ spec.answer_of (data_of tree.now) reference.now) }
{
    let found = read_all(alloc, tree, reference)?;
    if found.faults.is_empty() {
        Ok(KindAnswer::Relations(Listing::from_vec(in_order(found.stated))))
    } else {
        Ok(KindAnswer::Faults(Listing::from_vec(found.faults)))
    }
}
