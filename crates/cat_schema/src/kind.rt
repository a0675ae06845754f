//! The kinds of entities, after the Backstage documentation's System Model. Nothing here takes memory.
ghost use Rattle.std.specs.Prelude.{◌≡◌, map};
ghost use Rattle.cat_schema.specs.Kinds.{kind_named, same_kind, required_texts, required_lists};

/// A kind of entity, which says what a descriptor's `spec` must hold.
#[derive(Clone, Copy, Debug, PartialEq, Eq)]
pub enum Kind {
    Component,
    Api,
    Resource,
    System,
    Domain,
    Group,
    User,
    Location,
}

/// The kind of a name, spelled exactly, as `Component` and `API`; none for another text.
pub fn kind_named(name: &str) -> Option<Kind>
    ensures { result ≡ kind_named name.now }
{
    if name == "Component" {
        Some(Kind::Component)
    } else if name == "API" {
        Some(Kind::Api)
    } else if name == "Resource" {
        Some(Kind::Resource)
    } else if name == "System" {
        Some(Kind::System)
    } else if name == "Domain" {
        Some(Kind::Domain)
    } else if name == "Group" {
        Some(Kind::Group)
    } else if name == "User" {
        Some(Kind::User)
    } else if name == "Location" {
        Some(Kind::Location)
    } else {
        None
    }
}

/// Whether the kinds are the same.
pub fn is_same(left: Kind, right: Kind) -> bool
    ensures { result ≡ same_kind left right }
{
    left == right
}

static OF_COMPONENT: [&str; 3] = ["type", "lifecycle", "owner"];

static OF_API: [&str; 4] = ["type", "lifecycle", "owner", "definition"];

static OF_RESOURCE: [&str; 2] = ["type", "owner"];

static OWNER: [&str; 1] = ["owner"];

static TYPE: [&str; 1] = ["type"];

static CHILDREN: [&str; 1] = ["children"];

static NONE: [&str; 0] = [];

/// The keys of the texts of `spec` that the kind requires, in the order in which breaches stand.
pub fn required_texts(kind: Kind) -> &'static [&'static str]
    ensures { map (λ k. k.now) result.now ≡ required_texts kind }
{
    match kind {
        Kind::Component => &OF_COMPONENT,
        Kind::Api => &OF_API,
        Kind::Resource => &OF_RESOURCE,
        Kind::System | Kind::Domain => &OWNER,
        Kind::Group => &TYPE,
        Kind::User | Kind::Location => &NONE,
    }
}

/// The keys of the lists of `spec` that the kind requires.
pub fn required_lists(kind: Kind) -> &'static [&'static str]
    ensures { map (λ k. k.now) result.now ≡ required_lists kind }
{
    match kind {
        Kind::Group => &CHILDREN,
        _ => &NONE,
    }
}
