//! The breaches that were found, in order, and the questions that find them.
ghost use Rattle.std.specs.Prelude.{◌≡◌, [], ◌∷◌, ◌++◌, map, option_map, IfOk, OnOk};
ghost use Rattle.std.specs.Fmt.{decimal};
ghost use Rattle.cat_tree.specs.Ask.{child_of};
ghost use Rattle.cat_tree.specs.Data.{items_of, members_of};
ghost use Rattle.cat_tree.specs.View.{data_of, entry_of};
ghost use Rattle.cat_schema.specs.Faults.{fault, below, unless, field, fields, over_items, over_members, member_fault, value_fault, key_fault, members, values, keys, member_fields_at, member_fields, part_fields, lists};

use crate::form::{Form, Wanted, has_form, is_as};
use cat_tree::ask::child;
use cat_tree::text::Text;
use cat_tree::tree::Tree;
use cat_types::names::is_key;
use std::alloc::{AllocError, Global};
use std::marker::Model;

/// A breach of a rule, which is shown as `S5 metadata.name`.
#[derive(Drop)]
pub struct SchemaFault {
    /// The number of the rule, 1 to 24.
    pub rule: u8,
    /// The dotted path of the field, label, link or tag, with positions in lists from 0; empty for the
    /// root.
    pub place: Text,
}

/// The breaches that were found so far. Each question adds those that it finds; where memory is wanted,
/// some of them may stand.
#[derive(Drop)]
pub struct Faults {
    alloc: Global,
    items: Vec<SchemaFault>,
}

impl Model for Faults {
    ghost use Rattle.std.specs.Prelude.{List};
    ghost use Rattle.cat_schema.specs.declared.faults.SchemaFault.{SchemaFault};

    ghost Value = { List SchemaFault };

    ghost view = { λ a. a.items.items };
}

// The dotted path of a key at a place.
fn below(alloc: Global, place: &str, key: &str) -> Result<Text, AllocError>
    ensures { IfOk result (λ t. t ≡ below place.now key.now) }
{
    if place.is_empty() {
        return Text::of(alloc, key);
    }
    let mut path = String::from_str(alloc, place)?;
    path.push_str(".")?;
    path.push_str(key)?;
    Ok(Text::from_string(path))
}

// The dotted path of a position at a place.
fn below_position(alloc: Global, place: &str, position: usize) -> Result<Text, AllocError>
    ensures { IfOk result (λ t. t ≡ below place.now (decimal position)) }
{
    let position = position.to_string(alloc)?;
    below(alloc, place, position.as_str())
}

impl Faults {
    /// No breaches. Takes no memory.
    pub fn new(alloc: Global) -> Faults
        ensures { result ≡ [] }
    {
        Faults {
            alloc,
            items: Vec::new(alloc),
        }
    }

    /// The breaches in order.
    pub fn into_vec(self) -> Vec<SchemaFault>
        ensures { result.items ≡ self }
    {
        self.items
    }

    fn add(&mut self, rule: u8, place: Text) -> Result<(), AllocError>
        ensures { OnOk result (self.new ≡ self.old ++ fault rule place ∷ []) }
    {
        self.items.push(SchemaFault { rule, place })?;
        Ok(())
    }

    /// Adds a breach at the root, unless the test holds.
    pub fn expect_root(&mut self, holds: bool, rule: u8) -> Result<(), AllocError>
        ensures { OnOk result (self.new ≡ self.old ++ unless holds rule []) }
    {
        if holds {
            return Ok(());
        }
        let place = Text::of(self.alloc, "")?;
        self.add(rule, place)
    }

    fn expect_key(
        &mut self,
        holds: bool,
        rule: u8,
        place: &str,
        key: &str,
    ) -> Result<(), AllocError>
        ensures { OnOk result (self.new
            ≡ self.old ++ unless holds rule (below place.now key.now)) }
    {
        if holds {
            return Ok(());
        }
        let place = below(self.alloc, place, key)?;
        self.add(rule, place)
    }

    fn expect_position(
        &mut self,
        holds: bool,
        rule: u8,
        place: &str,
        position: usize,
    ) -> Result<(), AllocError>
        ensures { OnOk result (self.new
            ≡ self.old ++ unless holds rule (below place.now (decimal position))) }
    {
        if holds {
            return Ok(());
        }
        let place = below_position(self.alloc, place, position)?;
        self.add(rule, place)
    }

    /// The field at a key is as wanted.
    #[tactic(auto, unfolding(crate::specs::Faults::field))]
    pub fn field(
        &mut self,
        rule: u8,
        wanted: Wanted,
        parent: &Tree,
        place: &str,
        key: &str,
    ) -> Result<(), AllocError>
        ensures { OnOk result (self.new
            ≡ self.old ++ field rule wanted (data_of parent.now) place.now key.now) }
    {
        self.expect_key(is_as(wanted, child(parent, key)), rule, place, key)
    }

    /// Each of the fields at these keys is as wanted.
    pub fn fields(
        &mut self,
        rule: u8,
        wanted: Wanted,
        parent: &Tree,
        place: &str,
        keys: &[&str],
    ) -> Result<(), AllocError>
        ensures { OnOk result (self.new
            ≡ self.old ++ fields rule wanted (data_of parent.now) place.now (map (λ k. k.now) keys.now)) }
    {
        for key in keys {
            self.field(rule, wanted, parent, place, key)?;
        }
        Ok(())
    }

    fn each_item(
        &mut self,
        rule: u8,
        form: Form,
        trees: &[Tree],
        place: &str,
    ) -> Result<(), AllocError>
        ensures { OnOk result (self.new
            ≡ self.old ++ over_items (member_fault rule form place.now) 0 (items_of (map data_of trees.now))) }
    {
        for (position, tree) in trees.iter().enumerate() {
            self.expect_position(has_form(form, tree), rule, place, position)?;
        }
        Ok(())
    }

    /// Each member of the list has the form; another tree has no members.
    #[tactic(auto, unfolding(crate::specs::Faults::members))]
    pub fn members(
        &mut self,
        rule: u8,
        form: Form,
        part: Option<&Tree>,
        place: &str,
    ) -> Result<(), AllocError>
        ensures { OnOk result (self.new
            ≡ self.old ++ members rule form (option_map (λ t. data_of t.now) part.entry) place.now) }
    {
        match part {
            Some(Tree::List(trees)) => self.each_item(rule, form, trees.as_slice(), place),
            _ => Ok(()),
        }
    }

    fn each_value(
        &mut self,
        rule: u8,
        form: Form,
        pairs: &[(Text, Tree)],
        place: &str,
    ) -> Result<(), AllocError>
        ensures { OnOk result (self.new
            ≡ self.old ++ over_members (value_fault rule form place.now) (members_of (map entry_of pairs.now))) }
    {
        for (key, tree) in pairs {
            self.expect_key(has_form(form, tree), rule, place, key.as_str())?;
        }
        Ok(())
    }

    /// Each value of the map has the form; another tree has no values.
    #[tactic(auto, unfolding(crate::specs::Faults::values))]
    pub fn values(
        &mut self,
        rule: u8,
        form: Form,
        part: Option<&Tree>,
        place: &str,
    ) -> Result<(), AllocError>
        ensures { OnOk result (self.new
            ≡ self.old ++ values rule form (option_map (λ t. data_of t.now) part.entry) place.now) }
    {
        match part {
            Some(Tree::Map(pairs)) => self.each_value(rule, form, pairs.as_slice(), place),
            _ => Ok(()),
        }
    }

    fn each_key(&mut self, rule: u8, pairs: &[(Text, Tree)], place: &str) -> Result<(), AllocError>
        ensures { OnOk result (self.new
            ≡ self.old ++ over_members (key_fault rule place.now) (members_of (map entry_of pairs.now))) }
    {
        for (key, _) in pairs {
            self.expect_key(is_key(key.as_str()), rule, place, key.as_str())?;
        }
        Ok(())
    }

    /// Each key of the map has the form of a key; another tree has no keys.
    #[tactic(auto, unfolding(crate::specs::Faults::keys))]
    pub fn keys(&mut self, rule: u8, part: Option<&Tree>, place: &str) -> Result<(), AllocError>
        ensures { OnOk result (self.new
            ≡ self.old ++ keys rule (option_map (λ t. data_of t.now) part.entry) place.now) }
    {
        match part {
            Some(Tree::Map(pairs)) => self.each_key(rule, pairs.as_slice(), place),
            _ => Ok(()),
        }
    }

    fn fields_at(
        &mut self,
        rule: u8,
        wanted: Wanted,
        parent: &Tree,
        place: &str,
        position: usize,
        keys: &[&str],
    ) -> Result<(), AllocError>
        ensures { OnOk result (self.new ≡ self.old
            ++ fields rule wanted (data_of parent.now) (below place.now (decimal position)) (map (λ k. k.now) keys.now)) }
    {
        let place = below_position(self.alloc, place, position)?;
        self.fields(rule, wanted, parent, place.as_str(), keys)
    }

    fn each_item_fields(
        &mut self,
        rule: u8,
        wanted: Wanted,
        trees: &[Tree],
        place: &str,
        keys: &[&str],
    ) -> Result<(), AllocError>
        ensures { OnOk result (self.new ≡ self.old
            ++ over_items (member_fields_at rule wanted place.now (map (λ k. k.now) keys.now)) 0 (items_of (map data_of trees.now))) }
    {
        for (position, tree) in trees.iter().enumerate() {
            self.fields_at(rule, wanted, tree, place, position, keys)?;
        }
        Ok(())
    }

    /// The fields of each member of the list are as wanted.
    #[tactic(auto, unfolding(crate::specs::Faults::member_fields))]
    pub fn member_fields(
        &mut self,
        rule: u8,
        wanted: Wanted,
        part: Option<&Tree>,
        place: &str,
        keys: &[&str],
    ) -> Result<(), AllocError>
        ensures { OnOk result (self.new ≡ self.old
            ++ member_fields rule wanted (option_map (λ t. data_of t.now) part.entry) place.now (map (λ k. k.now) keys.now)) }
    {
        match part {
            Some(Tree::List(trees)) => {
                self.each_item_fields(rule, wanted, trees.as_slice(), place, keys)
            }
            _ => Ok(()),
        }
    }

    /// The fields of a part, where it is there, are as wanted.
    pub fn part_fields(
        &mut self,
        rule: u8,
        wanted: Wanted,
        part: Option<&Tree>,
        place: &str,
        keys: &[&str],
    ) -> Result<(), AllocError>
        ensures { OnOk result (self.new ≡ self.old
            ++ part_fields rule wanted (option_map (λ t. data_of t.now) part.entry) place.now (map (λ k. k.now) keys.now)) }
    {
        match part {
            Some(tree) => self.fields(rule, wanted, tree, place, keys),
            None => Ok(()),
        }
    }

    /// Each member of the list at a key has the form; another tree, or none, has no members.
    pub fn members_at(
        &mut self,
        rule: u8,
        form: Form,
        parent: &Tree,
        place: &str,
        key: &str,
    ) -> Result<(), AllocError>
        ensures { OnOk result (self.new ≡ self.old
            ++ members rule form (child_of key.now (data_of parent.now)) (below place.now key.now)) }
    {
        let place = below(self.alloc, place, key)?;
        self.members(rule, form, child(parent, key), place.as_str())
    }

    // The field at a key is absent or a list whose members have the form.
    fn list(
        &mut self,
        rule: u8,
        form: Form,
        parent: &Tree,
        place: &str,
        key: &str,
    ) -> Result<(), AllocError>
        ensures { OnOk result (self.new ≡ self.old
            ++ (field rule (Wanted.Optional Form.List) (data_of parent.now) place.now key.now
            ++ members rule form (child_of key.now (data_of parent.now)) (below place.now key.now))) }
    {
        self.field(rule, Wanted::Optional(Form::List), parent, place, key)?;
        self.members_at(rule, form, parent, place, key)
    }

    /// Each of the fields at these keys is absent or a list whose members have the form.
    pub fn lists(
        &mut self,
        rule: u8,
        form: Form,
        parent: &Tree,
        place: &str,
        keys: &[&str],
    ) -> Result<(), AllocError>
        ensures { OnOk result (self.new ≡ self.old
            ++ lists rule form (data_of parent.now) place.now (map (λ k. k.now) keys.now)) }
    {
        for key in keys {
            self.list(rule, form, parent, place, key)?;
        }
        Ok(())
    }
}
