//! The bytes of replies.
ghost use Rattle.std.specs.Prelude.{◌≡◌, ◌≤◌, ◌<◌, ◌+◌, ◌++◌, [], codes, decimal, length, flat_map, OnOk, OnErr, is_ok, vec_len, vec_capacity};
ghost use Rattle.cat_http.specs.Content.{media_type, rules_of};
ghost use Rattle.cat_http.specs.Reply.{joined, status_line, content_lines, rule_lines, allow_line, challenge_line, guard_line, close_line, end_of, from_allow, from_challenge, from_rules, reply_bytes, Adds};
ghost use Rattle.cat_http.specs.Status.{phrase};

use crate::body::{Bytes, Texts};
use crate::content::Content;
use crate::status::Status;
use cat_tree::text::Text;
use itoa::Buffer;
use std::alloc::AllocError;

/// A reply to a message.
#[derive(Drop)]
pub struct HttpReply {
    /// The status.
    pub status: Status,
    /// What the body is.
    pub content: Content,
    /// The body, which is left out where the status is `NoContent`.
    pub body: Bytes,
    /// The methods that the path has, which are written where the status is `MethodNotAllowed`.
    pub allow: Texts,
    /// Whether the connection ends after it.
    pub close: bool,
    /// Whether it answers HEAD.
    pub bare: bool,
    /// Whether it goes to a browser.
    pub browser: bool,
}

fn put(out: &mut Vec<u8>, bytes: &[u8]) -> Result<(), AllocError>
    ensures { Adds out.old.items out.new.items (vec_capacity out.old) (vec_capacity out.new)
        (is_ok result) bytes.now }
{
    out.extend_from_slice(bytes)
}

fn put_two(out: &mut Vec<u8>, first: &[u8], second: &[u8]) -> Result<(), AllocError>
    ensures { Adds out.old.items out.new.items (vec_capacity out.old) (vec_capacity out.new)
        (is_ok result) (first.now ++ second.now) }
{
    put(out, first)?;
    put(out, second)
}

fn put_three(out: &mut Vec<u8>, first: &[u8], second: &[u8], third: &[u8]) -> Result<(), AllocError>
    ensures { Adds out.old.items out.new.items (vec_capacity out.old) (vec_capacity out.new)
        (is_ok result) (first.now ++ (second.now ++ third.now)) }
{
    put(out, first)?;
    put_two(out, second, third)
}

fn put_phrase(out: &mut Vec<u8>, status: Status) -> Result<(), AllocError>
    ensures { Adds out.old.items out.new.items (vec_capacity out.old) (vec_capacity out.new)
        (is_ok result) (codes " " ++ (phrase status ++ codes "\r\n")) }
{
    put_three(out, b" ", status.phrase().as_bytes(), b"\r\n")
}

fn put_status(out: &mut Vec<u8>, status: Status) -> Result<(), AllocError>
    ensures { Adds out.old.items out.new.items (vec_capacity out.old) (vec_capacity out.new)
        (is_ok result) (status_line status) }
{
    put(out, b"HTTP/1.1 ")?;
    let mut buffer = Buffer::new();
    put(out, buffer.format(status.code()).as_bytes())?;
    put_phrase(out, status)
}

fn put_length(out: &mut Vec<u8>, body: &[u8]) -> Result<(), AllocError>
    ensures { Adds out.old.items out.new.items (vec_capacity out.old) (vec_capacity out.new)
        (is_ok result) (codes "\r\nContent-Length: " ++ (decimal (length body.now) ++ codes "\r\n")) }
{
    let mut buffer = Buffer::new();
    let length = buffer.format(body.len()).as_bytes();
    put_three(out, b"\r\nContent-Length: ", length, b"\r\n")
}

fn put_type(out: &mut Vec<u8>, content: Content, body: &[u8]) -> Result<(), AllocError>
    ensures { Adds out.old.items out.new.items (vec_capacity out.old) (vec_capacity out.new)
        (is_ok result) (media_type content ++ (codes "\r\nContent-Length: " ++ (decimal (length body.now) ++ codes "\r\n"))) }
{
    put(out, content.media_type().as_bytes())?;
    put_length(out, body)
}

fn put_type_line(out: &mut Vec<u8>, content: Content, body: &[u8]) -> Result<(), AllocError>
    ensures { Adds out.old.items out.new.items (vec_capacity out.old) (vec_capacity out.new)
        (is_ok result) (codes "Content-Type: " ++ (media_type content ++ (codes "\r\nContent-Length: " ++ (decimal (length body.now) ++ codes "\r\n")))) }
{
    put(out, b"Content-Type: ")?;
    put_type(out, content, body)
}

fn put_content(
    out: &mut Vec<u8>,
    status: Status,
    content: Content,
    body: &[u8],
) -> Result<(), AllocError>
    ensures { Adds out.old.items out.new.items (vec_capacity out.old) (vec_capacity out.new)
        (is_ok result) (content_lines status content body.now) }
{
    if !status.has_content() {
        return put(out, b"");
    }
    put_type_line(out, content, body)
}

fn put_rules(out: &mut Vec<u8>, status: Status, content: Content) -> Result<(), AllocError>
    ensures { Adds out.old.items out.new.items (vec_capacity out.old) (vec_capacity out.new)
        (is_ok result) (rule_lines status content) }
{
    if !status.has_content() {
        return put(out, b"");
    }
    put(out, content.rules().as_bytes())
}

fn put_methods(out: &mut Vec<u8>, methods: &[Text]) -> Result<(), AllocError>
    ensures { Adds out.old.items out.new.items (vec_capacity out.old) (vec_capacity out.new)
        (is_ok result) (flat_map (λ other. codes ", " ++ other) methods.now) }
{
    for method in methods {
        match put_two(out, b", ", method.as_str().as_bytes()) {
            Ok(()) => {}
            Err(error) => return Err(error),
        }
    }
    Ok(())
}

fn put_joined(out: &mut Vec<u8>, methods: &[Text]) -> Result<(), AllocError>
    ensures { Adds out.old.items out.new.items (vec_capacity out.old) (vec_capacity out.new)
        (is_ok result) (joined methods.now) }
{
    if methods.is_empty() {
        return put(out, b"");
    }
    put(out, methods[0].as_str().as_bytes())?;
    put_methods(out, &methods[1..])
}

fn put_allow(out: &mut Vec<u8>, status: Status, methods: &[Text]) -> Result<(), AllocError>
    ensures { Adds out.old.items out.new.items (vec_capacity out.old) (vec_capacity out.new)
        (is_ok result) (allow_line status methods.now) }
{
    if !status.has_methods() {
        return put(out, b"");
    }
    put(out, b"Allow: ")?;
    put_joined(out, methods)?;
    put(out, b"\r\n")
}

fn put_close(out: &mut Vec<u8>, close: bool) -> Result<(), AllocError>
    ensures { Adds out.old.items out.new.items (vec_capacity out.old) (vec_capacity out.new)
        (is_ok result) (close_line close) }
{
    if close {
        put(out, b"Connection: close\r\n")
    } else {
        put(out, b"")
    }
}

fn put_end(out: &mut Vec<u8>, reply: &HttpReply) -> Result<(), AllocError>
    ensures { Adds out.old.items out.new.items (vec_capacity out.old) (vec_capacity out.new)
        (is_ok result) (end_of reply.now) }
{
    if reply.bare || !reply.status.has_content() {
        put_two(out, b"\r\n", b"")
    } else {
        put_two(out, b"\r\n", reply.body.as_slice())
    }
}

fn put_challenge(out: &mut Vec<u8>, status: Status) -> Result<(), AllocError>
    ensures { Adds out.old.items out.new.items (vec_capacity out.old) (vec_capacity out.new)
        (is_ok result) (challenge_line status) }
{
    if status.has_challenge() {
        put(out, b"WWW-Authenticate: Bearer\r\n")
    } else {
        put(out, b"")
    }
}

fn put_guard(out: &mut Vec<u8>, browser: bool, content: Content) -> Result<(), AllocError>
    ensures { Adds out.old.items out.new.items (vec_capacity out.old) (vec_capacity out.new)
        (is_ok result) (guard_line browser content) }
{
    if browser && !content.has_rules() {
        put(out, b"X-Content-Type-Options: nosniff\r\n")
    } else {
        put(out, b"")
    }
}

fn put_last_lines(out: &mut Vec<u8>, reply: &HttpReply) -> Result<(), AllocError>
    ensures { Adds out.old.items out.new.items (vec_capacity out.old) (vec_capacity out.new)
        (is_ok result) (close_line reply.now.close ++ end_of reply.now) }
{
    put_close(out, reply.close)?;
    put_end(out, reply)
}

fn put_from_challenge(out: &mut Vec<u8>, reply: &HttpReply) -> Result<(), AllocError>
    ensures { Adds out.old.items out.new.items (vec_capacity out.old) (vec_capacity out.new)
        (is_ok result) (from_challenge reply.now) }
{
    put_challenge(out, reply.status)?;
    put_guard(out, reply.browser, reply.content)?;
    put_last_lines(out, reply)
}

fn put_from_allow(out: &mut Vec<u8>, reply: &HttpReply) -> Result<(), AllocError>
    ensures { Adds out.old.items out.new.items (vec_capacity out.old) (vec_capacity out.new)
        (is_ok result) (from_allow reply.now) }
{
    put_allow(out, reply.status, reply.allow.as_slice())?;
    put_from_challenge(out, reply)
}

fn put_from_rules(out: &mut Vec<u8>, reply: &HttpReply) -> Result<(), AllocError>
    ensures { Adds out.old.items out.new.items (vec_capacity out.old) (vec_capacity out.new)
        (is_ok result) (from_rules reply.now) }
{
    put_rules(out, reply.status, reply.content)?;
    put_from_allow(out, reply)
}

fn put_from_content(out: &mut Vec<u8>, reply: &HttpReply) -> Result<(), AllocError>
    ensures { Adds out.old.items out.new.items (vec_capacity out.old) (vec_capacity out.new)
        (is_ok result) (content_lines reply.now.status reply.now.content reply.now.body ++ from_rules reply.now) }
{
    put_content(out, reply.status, reply.content, reply.body.as_slice())?;
    put_from_rules(out, reply)
}

fn put_reply(out: &mut Vec<u8>, reply: &HttpReply) -> Result<(), AllocError>
    ensures { Adds out.old.items out.new.items (vec_capacity out.old) (vec_capacity out.new)
        (is_ok result) (reply_bytes reply.now) }
{
    put_status(out, reply.status)?;
    put_from_content(out, reply)
}

/// Appends the bytes of the reply. Where memory is wanting, `out` stays as it was.
pub fn write_reply(reply: &HttpReply, out: &mut Vec<u8>) -> Result<(), AllocError>
    ensures ok { OnOk result (out.new.items ≡ out.old.items ++ reply_bytes reply.now) }
    ensures err { OnErr result (out.new.items ≡ out.old.items) }
    ensures room { OnErr result
        (vec_capacity out.old < vec_len out.old + length (reply_bytes reply.now)) }
{
    let before = out.len();
    match put_reply(out, reply) {
        Ok(()) => Ok(()),
        Err(error) => {
            out.truncate(before);
            Err(error)
        }
    }
}
