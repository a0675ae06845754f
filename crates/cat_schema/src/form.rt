//! What the rules ask of one field. Nothing here takes memory.
ghost use Rattle.std.specs.Prelude.{◌≡◌, option_map};
ghost use Rattle.cat_tree.specs.View.{data_of};
ghost use Rattle.cat_schema.specs.Forms.{has_text, has_text_form, is_link, has_form, is_as};

use crate::kind::kind_named;
use cat_tree::ask::child;
use cat_tree::tree::Tree;
use cat_types::names::{is_location_type, is_name, is_namespace, is_tag};

/// What a tree may be asked to be.
#[derive(Clone, Copy, Debug, PartialEq, Eq)]
pub enum Form {
    /// A map.
    Map,
    /// A list.
    List,
    /// A text.
    Words,
    /// A text that isn't empty.
    Filled,
    /// `backstage.io/v1alpha1` or `backstage.io/v1beta1`.
    ApiVersion,
    /// The name of a kind.
    KindName,
    /// The name of an entity.
    Name,
    /// The value of a label: the empty text or a name.
    NameOrEmpty,
    /// A namespace.
    Namespace,
    /// A tag.
    Tag,
    /// A type of a location.
    LocationType,
    /// `required` or `optional`.
    Presence,
    /// A map with a text `url` that isn't empty.
    Link,
}

/// Whether a field must be there; null isn't absent.
#[derive(Clone, Copy, Debug, PartialEq, Eq)]
pub enum Wanted {
    /// It is there and has the form.
    Needed(Form),
    /// It is absent or has the form.
    Optional(Form),
}

// Whether a text has the form; a map, a list and a link are no texts.
fn has_text_form(form: Form, text: &str) -> bool
    ensures { result ≡ has_text_form form text.now }
{
    match form {
        Form::Map | Form::List | Form::Link => false,
        Form::Words => true,
        Form::Filled => !text.is_empty(),
        Form::ApiVersion => text == "backstage.io/v1alpha1" || text == "backstage.io/v1beta1",
        Form::KindName => kind_named(text).is_some(),
        Form::Name => is_name(text),
        Form::NameOrEmpty => text.is_empty() || is_name(text),
        Form::Namespace => is_namespace(text),
        Form::Tag => is_tag(text),
        Form::LocationType => is_location_type(text),
        Form::Presence => text == "required" || text == "optional",
    }
}

fn is_text_of_form(form: Form, tree: &Tree) -> bool
    ensures { result ≡ has_text (has_text_form form) (data_of tree.now) }
{
    match tree {
        Tree::Words(text) => has_text_form(form, text.as_str()),
        _ => false,
    }
}

fn is_link(tree: &Tree) -> bool
    ensures { result ≡ is_link (data_of tree.now) }
{
    match child(tree, "url") {
        Some(url) => is_text_of_form(Form::Filled, url),
        None => false,
    }
}

/// Whether a tree has the form.
pub fn has_form(form: Form, tree: &Tree) -> bool
    ensures { result ≡ has_form form (data_of tree.now) }
{
    match form {
        Form::Map => matches!(tree, Tree::Map(_)),
        Form::List => matches!(tree, Tree::List(_)),
        Form::Link => is_link(tree),
        _ => is_text_of_form(form, tree),
    }
}

/// Whether a field, if it is there, is as wanted.
pub fn is_as(wanted: Wanted, part: Option<&Tree>) -> bool
    ensures { result ≡ is_as wanted (option_map (λ t. data_of t.now) part.entry) }
{
    match wanted {
        Wanted::Needed(form) => match part {
            Some(tree) => has_form(form, tree),
            None => false,
        },
        Wanted::Optional(form) => match part {
            Some(tree) => has_form(form, tree),
            None => true,
        },
    }
}
