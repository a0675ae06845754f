//! Tokens, and what they leave to do.
ghost use Rattle.std.specs.Prelude.{◌≡◌, option_map};
ghost use Rattle.sha2.specs.Sha256.{sha256};
ghost use Rattle.cat_access.specs.Tokens as spec;

use cat_http::body::Bytes;
use cat_http::message::Field;
use cat_tree::text::Text;
use sha2::{Digest, Sha256};
use std::marker::Model;

/// What who has a token may do.
#[derive(Clone, Copy, Debug, Drop, PartialEq, Eq)]
pub enum Right {
    /// Ask, and change nothing.
    Read,
    /// Ask, and change.
    Write,
}

/// A token, of which nothing secret is kept.
#[derive(Drop)]
pub struct Token {
    /// Who has it.
    pub name: Text,
    /// What it leaves to do.
    pub right: Right,
    /// The SHA-256 of its bytes.
    pub digest: Bytes,
}

/// Tokens in their order. Contracts see them as their list.
#[derive(Drop)]
pub struct Tokens {
    tokens: Vec<Token>,
}

impl Model for Tokens {
    ghost use Rattle.std.specs.Prelude.{List};
    ghost use Rattle.cat_access.specs.declared.token.Token.{Token as Seen};

    ghost Value = { List Seen };

    ghost view = { λ a. a.tokens.items };
}

impl Tokens {
    /// The tokens of a `Vec`, whose memory they take over.
    pub fn from_vec(tokens: Vec<Token>) -> Tokens
        ensures { result ≡ tokens.items }
    {
        Tokens { tokens }
    }

    /// Lends the tokens.
    pub fn as_slice(&self) -> &[Token]
        ensures { result.now ≡ self.now }
    {
        self.tokens.as_slice()
    }
}

/// Whether a message is let in.
#[derive(Clone, Copy, Debug, Drop, PartialEq, Eq)]
pub enum Verdict {
    /// It is.
    Granted,
    /// It isn't, since it brings no token that is known.
    Unknown,
    /// It isn't, since its token leaves nothing to change.
    Refused,
}

// The token that a field brings: what follows `Bearer` and a space.
fn bearer(field: &Field) -> Option<&[u8]>
    ensures { option_map (λ t. t.now) result ≡ spec.bearer field.now }
{
    match field {
        Field::Once(value) => after_scheme(value.as_slice()),
        Field::Absent | Field::Often => None,
    }
}

fn after_scheme(value: &[u8]) -> Option<&[u8]>
    ensures { option_map (λ t. t.now) result ≡ spec.after_scheme value.now }
{
    if value.len() < 7 {
        return None;
    }
    if value[..7].eq_ignore_ascii_case(b"bearer ") {
        Some(&value[7..])
    } else {
        None
    }
}

// What the token with this digest leaves to do.
fn right_by(tokens: &[Token], digest: &[u8]) -> Option<Right>
    ensures { result ≡ spec.right_by tokens.now digest.now }
{
    for token in tokens {
        if token.digest.as_slice() == digest {
            return Some(token.right);
        }
    }
    None
}

fn right_of(tokens: &[Token], secret: &[u8]) -> Option<Right>
    ensures { result ≡ spec.right_by tokens.now (sha256 secret.now) }
{
    let digest = Sha256::digest(secret);
    right_by(tokens, &digest)
}

fn verdict_by(right: Option<Right>, changes: bool) -> Verdict
    ensures { result ≡ spec.verdict_by right changes }
{
    match right {
        None => Verdict::Unknown,
        Some(Right::Write) => Verdict::Granted,
        Some(Right::Read) => {
            if changes {
                Verdict::Refused
            } else {
                Verdict::Granted
            }
        }
    }
}

fn right_in(tokens: &[Token], authorization: &Field) -> Option<Right>
    ensures { result ≡ spec.right_in tokens.now (spec.bearer authorization.now) }
{
    match bearer(authorization) {
        Some(secret) => right_of(tokens, secret),
        None => None,
    }
}

/// Whether a message is let in that brings this field `Authorization`, and may change something or not, where these are the tokens.
#[tactic(auto, unfolding(crate::specs::Tokens::verdict_of))]
pub fn decide(tokens: &Tokens, authorization: &Field, changes: bool) -> Verdict
    ensures { result ≡ spec.verdict_of tokens.now authorization.now changes }
{
    verdict_by(right_in(tokens.as_slice(), authorization), changes)
}
