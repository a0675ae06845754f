//! The one table of reference fields, which the rules of the schema and the relations of entities read, after the Descriptor Format and the Well-known Relations of the Backstage
//! documentation.
ghost use Rattle.std.specs.Prelude.{◌≡◌, map};
ghost use Rattle.cat_schema.specs.Fields.{field_rows, row_of, has_field};

use crate::kind::{Kind, is_same};
use cat_types::relation::RelKind;

/// A field of `spec` that names other entities.
#[derive(Clone, Copy, Debug)]
pub struct RefField {
    /// The kinds whose entities have the field.
    pub kinds: &'static [Kind],
    /// The key of the field.
    pub key: &'static str,
    /// Whether the field is a list of references, or a single one.
    pub is_list: bool,
    /// The kind of a reference that names none, if it may name none.
    pub default_kind: Option<&'static str>,
    /// The relation of the entity to what the field names.
    pub relation: RelKind,
    /// The relation of what the field names to the entity.
    pub reverse: RelKind,
}

static FIELDS: [RefField; 13] = [
    RefField {
        kinds: &[
            Kind::Component,
            Kind::Api,
            Kind::Resource,
            Kind::System,
            Kind::Domain,
        ],
        key: "owner",
        is_list: false,
        default_kind: Some("group"),
        relation: RelKind::OwnedBy,
        reverse: RelKind::OwnerOf,
    },
    RefField {
        kinds: &[Kind::Component, Kind::Api, Kind::Resource],
        key: "system",
        is_list: false,
        default_kind: Some("system"),
        relation: RelKind::PartOf,
        reverse: RelKind::HasPart,
    },
    RefField {
        kinds: &[Kind::Component],
        key: "subcomponentOf",
        is_list: false,
        default_kind: Some("component"),
        relation: RelKind::PartOf,
        reverse: RelKind::HasPart,
    },
    RefField {
        kinds: &[Kind::Component],
        key: "providesApis",
        is_list: true,
        default_kind: Some("api"),
        relation: RelKind::ProvidesApi,
        reverse: RelKind::ApiProvidedBy,
    },
    RefField {
        kinds: &[Kind::Component],
        key: "consumesApis",
        is_list: true,
        default_kind: Some("api"),
        relation: RelKind::ConsumesApi,
        reverse: RelKind::ApiConsumedBy,
    },
    RefField {
        kinds: &[Kind::Component, Kind::Resource],
        key: "dependsOn",
        is_list: true,
        default_kind: None,
        relation: RelKind::DependsOn,
        reverse: RelKind::DependencyOf,
    },
    RefField {
        kinds: &[Kind::Component, Kind::Resource],
        key: "dependencyOf",
        is_list: true,
        default_kind: None,
        relation: RelKind::DependencyOf,
        reverse: RelKind::DependsOn,
    },
    RefField {
        kinds: &[Kind::System],
        key: "domain",
        is_list: false,
        default_kind: Some("domain"),
        relation: RelKind::PartOf,
        reverse: RelKind::HasPart,
    },
    RefField {
        kinds: &[Kind::Domain],
        key: "subdomainOf",
        is_list: false,
        default_kind: Some("domain"),
        relation: RelKind::PartOf,
        reverse: RelKind::HasPart,
    },
    RefField {
        kinds: &[Kind::Group],
        key: "parent",
        is_list: false,
        default_kind: Some("group"),
        relation: RelKind::ChildOf,
        reverse: RelKind::ParentOf,
    },
    RefField {
        kinds: &[Kind::Group],
        key: "children",
        is_list: true,
        default_kind: Some("group"),
        relation: RelKind::ParentOf,
        reverse: RelKind::ChildOf,
    },
    RefField {
        kinds: &[Kind::Group],
        key: "members",
        is_list: true,
        default_kind: Some("user"),
        relation: RelKind::HasMember,
        reverse: RelKind::MemberOf,
    },
    RefField {
        kinds: &[Kind::User],
        key: "memberOf",
        is_list: true,
        default_kind: Some("group"),
        relation: RelKind::MemberOf,
        reverse: RelKind::HasMember,
    },
];

/// All reference fields, in the order in which faults stand.
pub fn fields() -> &'static [RefField]
    ensures { map row_of result.now ≡ field_rows }
{
    &FIELDS
}

/// Whether entities of the kind have the field. Takes no memory.
pub fn has_field(kind: Kind, field: &RefField) -> bool
    ensures { result ≡ has_field kind (row_of field.now) }
{
    field.kinds.iter().any(|other| is_same(kind, *other))
}
