//! What holds of the relations of every entity.
ghost use Rattle.std.specs.Prelude.{◌≡◌, ◌↔◌, []};
ghost use Rattle.std.specs.List.{Contains};
ghost use Rattle.std.specs.List.Sorted.{IsStrictlySortedBy};
ghost use Rattle.cat_types.specs.Relation.{relation_cmp};
ghost use Rattle.cat_tree.specs.Data.{Data};
ghost use Rattle.cat_collections.specs.Table.{Text};
ghost use Rattle.cat_types.specs.declared.relation.RelKind.{RelKind as Kind};
ghost use Rattle.cat_types.specs.declared.relation.Relation.{Relation};
ghost use Rattle.cat_kinds.specs.Kinds.{namespace_of, relations_of, reverse, reversed, stated_by};
ghost use Rattle.cat_kinds.specs.Mentions.{mentions};
ghost use Rattle.cat_kinds.specs.Whole.{ReadsEachReference};
ghost use Rattle.cat_schema.specs.Rules.{breaches};

/// The kind of a relation seen from its target, seen from there, is the kind again.
pub fn reverses_back()
    ensures { (kind : Kind) → reverse (reverse kind) ≡ kind }
{}

/// Each relation that an entity states stands there the other way too.
pub fn has_each_reverse()
    ensures { (d : Data) (source : Text) (x : Relation)
        → Contains (relations_of d source) x → Contains (relations_of d source) (reversed x) }
{}

/// The relations of an entity are just those that its mentions state, and they rise strictly by source, name of the
/// kind, and target, so that none stands twice.
pub fn stands_in_order()
    ensures rises { (d : Data) (source : Text) → IsStrictlySortedBy relation_cmp (relations_of d source) }
    ensures exact { (d : Data) (source : Text) (x : Relation) → Contains (relations_of d source) x
        ↔ Contains (stated_by source (namespace_of d) (mentions d)) x }
{}

/// Where a descriptor breaks no rule of the schema, each reference in the fields of its kind is read: no field and no item
/// is passed over.
pub fn reads_each_reference()
    ensures { (d : Data) → breaches d ≡ [] → ReadsEachReference d }
{}
