//! Messages from browsers.
ghost use Rattle.std.specs.Prelude.{◌≡◌};
ghost use Rattle.std.specs.List.{list_any, list_all, before_first};
ghost use Rattle.cat_http.specs.Head.{same_but_case};
ghost use Rattle.cat_access.specs.Browser as spec;

use crate::access::Access;
use cat_http::message::{Field, Message};
use cat_tree::text::Text;

fn is_there(field: &Field) -> bool
    ensures { result ≡ spec.is_there field.now }
{
    match field {
        Field::Absent => false,
        Field::Once(_) | Field::Often => true,
    }
}

/// Whether a browser sends the message.
pub fn is_from_browser(message: &Message) -> bool
    ensures { result ≡ spec.is_from_browser message.now }
{
    is_there(&message.sender.origin) || message.sender.fetches
}

fn is_same(a: &[u8], b: &[u8]) -> bool
    ensures { result ≡ same_but_case a.now b.now }
{
    a.eq_ignore_ascii_case(b)
}

fn is_among(text: &[u8], texts: &[Text]) -> bool
    ensures { result ≡ list_any (same_but_case text.now) texts.now }
{
    texts
        .iter()
        .any(|other| is_same(text, other.as_str().as_bytes()))
}

// What stands before the port.
fn name_of(host: &[u8]) -> &[u8]
    ensures { result.now ≡ spec.name_of host.now }
{
    for i in 0..host.len() {
        if host[i] == b':' {
            return &host[..i];
        }
    }
    host
}

fn is_digit_or_point(byte: u8) -> bool
    ensures { result ≡ spec.is_digit_or_point byte }
{
    byte.is_ascii_digit() || byte == b'.'
}

fn has_digits_and_points(name: &[u8]) -> bool
    ensures { result ≡ list_all spec.is_digit_or_point name.now }
{
    name.iter().all(|byte| is_digit_or_point(*byte))
}

fn is_address(name: &[u8]) -> bool
    ensures { result ≡ spec.is_address name.now }
{
    !name.is_empty() && has_digits_and_points(name)
}

// Whether the server can be asked under this host by its own page alone.
fn is_own_host(hosts: &[Text], host: &[u8]) -> bool
    ensures { result ≡ spec.is_own_host hosts.now host.now }
{
    let name = name_of(host);
    host.starts_with(b"[")
        || is_address(name)
        || is_same(name, b"localhost")
        || is_among(name, hosts)
}

fn knows_host(hosts: &[Text], host: &Field) -> bool
    ensures { result ≡ spec.knows_host hosts.now host.now }
{
    match host {
        Field::Once(host) => is_own_host(hosts, host.as_slice()),
        Field::Absent | Field::Often => false,
    }
}

// Whether the origin is that of the server's own page under this host.
fn is_own_origin(host: &[u8], origin: &[u8]) -> bool
    ensures { result ≡ spec.is_own_origin host.now origin.now }
{
    if origin.len() < 7 {
        return false;
    }
    is_same(&origin[..7], b"http://") && is_same(&origin[7..], host)
}

fn knows_origin(origins: &[Text], host: &Field, origin: &Field) -> bool
    ensures { result ≡ spec.knows_origin origins.now host.now origin.now }
{
    match (host, origin) {
        (Field::Once(host), Field::Once(origin)) => {
            is_own_origin(host.as_slice(), origin.as_slice())
                || is_among(origin.as_slice(), origins)
        }
        _ => false,
    }
}

fn reads(method: &str) -> bool
    ensures { result ≡ spec.reads method.now }
{
    method == "GET" || method == "HEAD"
}

/// Whether the message may ask what it asks for: no browser sends it, or it asks under the server's own name, and either reads or comes from a
/// page that may change something.
#[tactic(auto, unfolding(crate::specs::Browser::is_admitted))]
pub fn is_admitted(access: &Access, message: &Message) -> bool
    ensures { result ≡ spec.is_admitted access.now message.now }
{
    if !is_from_browser(message) {
        return true;
    }
    let sender = &message.sender;
    knows_host(access.hosts.as_slice(), &sender.host)
        && (reads(message.method.as_str())
            || knows_origin(access.origins.as_slice(), &sender.host, &sender.origin))
}
