//! Owned UTF-8 text, seen as the list of its bytes.
ghost use Rattle.std.specs.Prelude.{◌≡◌, IfOk, string_bytes};
ghost use Rattle.cat_key.specs.Texts.{text_antisymmetric, text_cmp, text_total};

use cat_key::copied::Copied;
use cat_key::key::Key;
use std::alloc::{AllocError, Global};
use std::cmp::Ordering;
use std::marker::Model;

/// Owned UTF-8 text. Contracts see it as the list of its bytes.
pub struct Text {
    text: String,
}

// Written out, and not derived: so the crates above let go of a text by one call.
impl Drop for Text {
    fn drop(self) {
        let Text { text: _ } = self;
    }
}

impl Model for Text {
    ghost use Rattle.std.specs.Prelude.{ℕ, List, string_bytes};

    ghost Value = { List ℕ };

    ghost view = { λ a. string_bytes a.text };
}

impl Text {
    /// A copy of a text with memory of its own.
    pub fn of(alloc: Global, text: &str) -> Result<Text, AllocError>
        ensures { IfOk result (λ t. t ≡ text.now) }
    {
        Ok(Text {
            text: String::from_str(alloc, text)?,
        })
    }

    /// The text of a `String`, whose memory it takes over.
    pub fn from_string(text: String) -> Text
        ensures { result ≡ string_bytes text }
    {
        Text { text }
    }

    /// Lends the text.
    pub fn as_str(&self) -> &str
        ensures { result.now ≡ self.now }
    {
        self.text.as_str()
    }
}

impl Key for Text {
    ghost order = { text_cmp };

    ghost total = { text_total };

    ghost apart = { text_antisymmetric };

    fn compare(&self, other: &Text) -> Ordering {
        self.as_str().cmp(other.as_str())
    }
}

impl Copied for Text {
    fn duplicate(&self, alloc: Global) -> Result<Text, AllocError> {
        Text::of(alloc, self.as_str())
    }
}
