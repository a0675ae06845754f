//! How long a tree's compact JSON text is, and the text where there is room for it. Nothing here takes
//! memory.
ghost use Rattle.std.specs.Prelude.{◌≡◌, ◌+◌, ◌<◌, ◌≤◌, ◌^◌, ◌++◌, ◌∷◌, [], true, min, length, decimal, vec_len, vec_capacity};
ghost use Rattle.std.specs.Char.{digit_char};
ghost use Rattle.std.specs.Fmt.{signed_decimal};
ghost use Rattle.json.specs.Print.{escape, escape_byte, quoted};
ghost use Rattle.serde_json.specs.Written.{comma_if};
ghost use Rattle.cat_tree.specs.Text.{text_of};
ghost use Rattle.cat_tree.specs.View.{data_of};

use crate::tree::Tree;

const MOST_SIZE: u64 = 1 << 62;

// The sum, or 2^62 where it is more.
fn added(total: u64, more: u64) -> u64
    requires { total + more ≤ 2 ^ 63 }
    ensures { result ≡ min (total + more) (2 ^ 62) }
{
    (total + more).min(MOST_SIZE)
}

// How many bytes stand for a byte in a string.
#[tactic(auto, unfolding(json::specs::Print::escape_byte))]
fn escape_size(byte: u8) -> u64
    ensures size { result ≡ length (escape_byte byte) }
    ensures most { result ≤ 6 }
{
    match byte {
        b'"' | b'\\' | 8 | 9 | 10 | 12 | 13 => 2,
        0..=31 => 6,
        _ => 1,
    }
}

// Whether a byte stands for itself in a string.
#[tactic(auto, unfolding(json::specs::Print::escape_byte))]
fn is_plain_byte(byte: u8) -> bool
    ensures { result ≡ true → escape_byte byte ≡ byte ∷ [] }
{
    !matches!(byte, b'"' | b'\\' | 0..=31)
}

// Whether each byte stands for itself in a string, as in most texts.
fn is_plain(bytes: &[u8]) -> bool
    ensures { result ≡ true → escape bytes.now ≡ bytes.now }
{
    for byte in bytes {
        if !is_plain_byte(*byte) {
            return false;
        }
    }
    true
}

// The same sum, byte by byte.
fn escaped_size(bytes: &[u8]) -> u64
    ensures { result ≡ min (2 + length (escape bytes.now)) (2 ^ 62) }
{
    let mut total: u64 = 2;
    for byte in bytes {
        total = added(total, escape_size(*byte));
    }
    total
}

fn quoted_size(text: &str) -> u64
    ensures { result ≡ min (length (quoted text.now)) (2 ^ 62) }
{
    let bytes = text.as_bytes();
    if is_plain(bytes) {
        added(2, (bytes.len() as u64).min(MOST_SIZE))
    } else {
        escaped_size(bytes)
    }
}

fn number_size(z: i128) -> u64
    ensures size { result ≡ length (signed_decimal z) }
    ensures most { result ≤ 40 }
{
    let mut buffer = itoa::Buffer::new();
    buffer.format(z).len() as u64
}

// One more byte where something stands before.
fn with_comma(later: bool, total: u64) -> u64
    requires { total ≤ 2 ^ 62 }
    ensures { result ≡ min (total + length (comma_if later)) (2 ^ 62) }
{
    if later { added(total, 1) } else { total }
}

/// The length of the tree's compact JSON text, or 2^62 where that is more.
#[tactic(auto, using(crate::proofs::Weights::falls))]
pub fn size(tree: &Tree) -> u64
    ensures { result ≡ min (length (text_of (data_of tree.now))) (2 ^ 62) }
{
    match tree {
        Tree::Null | Tree::Flag(true) => 4,
        Tree::Flag(false) => 5,
        Tree::Whole(z) => number_size(*z),
        Tree::Words(text) => quoted_size(text.as_str()),
        Tree::List(trees) => {
            let mut total: u64 = 1;
            let mut later = false;
            for tree in trees.as_slice() {
                total = added(with_comma(later, total), size(tree));
                later = true;
            }
            added(total, 1)
        }
        Tree::Map(pairs) => {
            let mut total: u64 = 1;
            let mut later = false;
            for (key, tree) in pairs.as_slice() {
                total = added(with_comma(later, total), quoted_size(key.as_str()));
                total = added(added(total, 1), size(tree));
                later = true;
            }
            added(total, 1)
        }
    }
}

// Appends the bytes.
fn put(out: &mut Vec<u8>, bytes: &[u8])
    requires { vec_len out.old + length bytes.now ≤ vec_capacity out.old }
    ensures items { out.new.items ≡ out.old.items ++ bytes.now }
    ensures len { vec_len out.new ≡ vec_len out.old + length bytes.now }
    ensures capacity { vec_capacity out.old ≤ vec_capacity out.new }
{
    match out.extend_from_slice(bytes) {
        Ok(()) => {}
        Err(_) => unreachable!(),
    }
}

fn hex_digit(n: u8) -> u8
    requires { n < 16 }
    ensures { result ≡ digit_char n }
{
    if n < 10 { b'0' + n } else { b'a' + (n - 10) }
}

// Appends what stands for the byte in a string.
#[tactic(auto, unfolding(json::specs::Print::escape_byte))]
fn put_escape(out: &mut Vec<u8>, byte: u8)
    requires { vec_len out.old + length (escape_byte byte) ≤ vec_capacity out.old }
    ensures items { out.new.items ≡ out.old.items ++ escape_byte byte }
    ensures len { vec_len out.new ≡ vec_len out.old + length (escape_byte byte) }
    ensures capacity { vec_capacity out.old ≤ vec_capacity out.new }
{
    match byte {
        b'"' => put(out, b"\\\""),
        b'\\' => put(out, b"\\\\"),
        8 => put(out, b"\\b"),
        9 => put(out, b"\\t"),
        10 => put(out, b"\\n"),
        12 => put(out, b"\\f"),
        13 => put(out, b"\\r"),
        0..=31 => put(
            out,
            &[
                b'\\',
                b'u',
                b'0',
                b'0',
                hex_digit(byte / 16),
                hex_digit(byte % 16),
            ],
        ),
        _ => put(out, &[byte]),
    }
}

// Appends what stands for the bytes in a string.
fn put_escaped(out: &mut Vec<u8>, bytes: &[u8])
    requires { vec_len out.old + length (escape bytes.now) ≤ vec_capacity out.old }
    ensures items { out.new.items ≡ out.old.items ++ escape bytes.now }
    ensures len { vec_len out.new ≡ vec_len out.old + length (escape bytes.now) }
    ensures capacity { vec_capacity out.old ≤ vec_capacity out.new }
{
    if is_plain(bytes) {
        return put(out, bytes);
    }
    for byte in bytes {
        put_escape(out, *byte);
    }
}

fn put_quoted(out: &mut Vec<u8>, text: &str)
    requires { vec_len out.old + length (quoted text.now) ≤ vec_capacity out.old }
    ensures items { out.new.items ≡ out.old.items ++ quoted text.now }
    ensures len { vec_len out.new ≡ vec_len out.old + length (quoted text.now) }
    ensures capacity { vec_capacity out.old ≤ vec_capacity out.new }
{
    put(out, b"\"");
    put_escaped(out, text.as_bytes());
    put(out, b"\"");
}

fn put_number(out: &mut Vec<u8>, z: i128)
    requires { vec_len out.old + length (signed_decimal z) ≤ vec_capacity out.old }
    ensures items { out.new.items ≡ out.old.items ++ signed_decimal z }
    ensures len { vec_len out.new ≡ vec_len out.old + length (signed_decimal z) }
    ensures capacity { vec_capacity out.old ≤ vec_capacity out.new }
{
    let mut buffer = itoa::Buffer::new();
    put(out, buffer.format(z).as_bytes());
}

// Appends a comma where something stands before.
fn put_comma(out: &mut Vec<u8>, later: bool)
    requires { vec_len out.old + length (comma_if later) ≤ vec_capacity out.old }
    ensures items { out.new.items ≡ out.old.items ++ comma_if later }
    ensures len { vec_len out.new ≡ vec_len out.old + length (comma_if later) }
    ensures capacity { vec_capacity out.old ≤ vec_capacity out.new }
{
    if later {
        put(out, b",");
    }
}

/// Appends the tree's compact JSON text, for which the vector has room. Takes no memory.
#[tactic(auto, using(crate::proofs::Weights::falls))]
pub fn write_within(tree: &Tree, out: &mut Vec<u8>)
    requires { vec_len out.old + length (text_of (data_of tree.now)) ≤ vec_capacity out.old }
    ensures items { out.new.items ≡ out.old.items ++ text_of (data_of tree.now) }
    ensures len { vec_len out.new ≡ vec_len out.old + length (text_of (data_of tree.now)) }
    ensures capacity { vec_capacity out.old ≤ vec_capacity out.new }
{
    match tree {
        Tree::Null => put(out, b"null"),
        Tree::Flag(true) => put(out, b"true"),
        Tree::Flag(false) => put(out, b"false"),
        Tree::Whole(z) => put_number(out, *z),
        Tree::Words(text) => put_quoted(out, text.as_str()),
        Tree::List(trees) => {
            let mut later = false;
            put(out, b"[");
            for tree in trees.as_slice() {
                put_comma(out, later);
                write_within(tree, out);
                later = true;
            }
            put(out, b"]");
        }
        Tree::Map(pairs) => {
            let mut later = false;
            put(out, b"{");
            for (key, tree) in pairs.as_slice() {
                put_comma(out, later);
                put_quoted(out, key.as_str());
                put(out, b":");
                write_within(tree, out);
                later = true;
            }
            put(out, b"}");
        }
    }
}
