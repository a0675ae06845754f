//! What the fields of a head say.
ghost use Rattle.std.specs.Prelude.{◌≡◌, ℕ, ◌≤◌, ◌<◌, length, map, All, SomeIff, IsTrue};
ghost use Rattle.std.specs.List.{list_all, list_any};
ghost use Rattle.std.specs.Str.Parse.{digits_value};
ghost use Rattle.httparse.specs.Spans.{IsHeaderWithin, header_bytes};
ghost use Rattle.cat_http.specs.Head.{values, is_length, is_close, has_close, is_fetch_name, same_but_case};
ghost use Rattle.httparse.specs.Grammar.{is_ows, skip_ows};
ghost use Rattle.cat_http.specs.Found.{Finds};

use httparse::spans::{HeaderSpan, Span};

/// How often a field stands in a head.
#[derive(Clone, Copy, Drop)]
pub enum Found {
    /// It doesn't stand there.
    Absent,
    /// It stands once, and its value is there.
    Once(Span),
    /// It stands more than once.
    Often,
}

fn is_same(a: &[u8], b: &[u8]) -> bool
    ensures { result ≡ same_but_case a.now b.now }
{
    a.eq_ignore_ascii_case(b)
}

/// The value of the field of that name, if it stands once.
pub fn find_field(head: &[u8], fields: &[HeaderSpan], name: &[u8]) -> Found
    requires { All (IsHeaderWithin (length head.now)) fields.now }
    ensures { Finds head.now (values name.now (map (header_bytes head.now) fields.now)) result }
{
    let mut found = Found::Absent;
    for field in fields {
        if is_same(field.name.of(head), name) {
            match found {
                Found::Absent => found = Found::Once(field.value),
                _ => return Found::Often,
            }
        }
    }
    found
}

/// The number that 1 to 19 digits write.
pub fn read_length(value: &[u8]) -> Option<usize>
    ensures { SomeIff result (IsTrue (is_length value.now)) (digits_value 10 value.now) }
{
    if value.is_empty() || value.len() > 19 {
        return None;
    }
    let mut number: usize = 0;
    for digit in value {
        if !digit.is_ascii_digit() {
            return None;
        }
        let units = (*digit - b'0') as usize;
        number = number * 10 + units;
    }
    Some(number)
}

/// The bytes from the first that is no white space.
fn skip_white(bytes: &[u8]) -> &[u8]
    ensures { result.now ≡ skip_ows bytes.now }
{
    for i in 0..bytes.len() {
        if bytes[i] != b' ' && bytes[i] != b'\t' {
            return &bytes[i..];
        }
    }
    &[]
}

fn is_white(bytes: &[u8]) -> bool
    ensures { result ≡ list_all is_ows bytes.now }
{
    bytes.iter().all(|b| *b == b' ' || *b == b'\t')
}

fn is_close_word(piece: &[u8]) -> bool
    ensures { result ≡ is_close piece.now }
{
    let word = skip_white(piece);
    if word.len() < 5 {
        return false;
    }
    is_same(&word[..5], b"close") && is_white(&word[5..])
}

fn has_close_word(value: &[u8]) -> bool
    ensures { result ≡ has_close value.now }
{
    value
        .split(|b| *b == b',')
        .any(|piece| is_close_word(piece))
}

/// Whether a field of that name has the word `close`.
pub fn asks_to_close(head: &[u8], fields: &[HeaderSpan], name: &[u8]) -> bool
    requires { All (IsHeaderWithin (length head.now)) fields.now }
    ensures { result ≡ list_any has_close (values name.now (map (header_bytes head.now) fields.now)) }
{
    for field in fields {
        if is_same(field.name.of(head), name) && has_close_word(field.value.of(head)) {
            return true;
        }
    }
    false
}

fn is_fetch_name(name: &[u8]) -> bool
    ensures { result ≡ is_fetch_name name.now }
{
    if name.len() < 10 {
        return false;
    }
    is_same(&name[..10], b"sec-fetch-")
}

/// Whether a field's name begins with `Sec-Fetch-`.
pub fn has_fetch_field(head: &[u8], fields: &[HeaderSpan]) -> bool
    requires { All (IsHeaderWithin (length head.now)) fields.now }
    ensures { result ≡ list_any (λ f. is_fetch_name f.0) (map (header_bytes head.now) fields.now) }
{
    for field in fields {
        if is_fetch_name(field.name.of(head)) {
            return true;
        }
    }
    false
}
