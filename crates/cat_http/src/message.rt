//! Messages, cut from the bytes of a connection.
ghost use Rattle.std.specs.Prelude.{◌≡◌, ◌↔◌, ◌≤◌, ◌<◌, ◌+◌, ◌^◌, ◌&&◌, not, ◌==◌, nat_lt, ℕ, length, map, take, drop, codes, All, IfOk, IfErr, IsTrue, IsUtf8, slice_range};
ghost use Rattle.httparse.specs.Spans.{IsWithin, IsHeaderWithin, header_bytes, span_bytes};
ghost use Rattle.cat_http.specs.Head.{parts_at, parts_in, values, body_length, is_last};
ghost use Rattle.cat_http.specs.Message.{rule_status, refused, sized, check, field_of, sender_of, message_of, answered, AnswersHead, AnswersRest, headless, Stands, Lacks, OneStands, StandsLater, TakesWithin, HasNoEarlier, Gives, GivesWhat};
ghost use Rattle.cat_http.specs.Lines.{head_length};

use crate::body::Bytes;
use crate::fields::{Found, asks_to_close, find_field, has_fetch_field, read_length};
use crate::head::{blank_length, count_lines, find_head};
use crate::request_target::cut_target;
use crate::status::Status;
use cat_tree::text::Text;
use httparse::Status as Read;
use httparse::spans::{EMPTY_HEADER_SPAN, HeaderSpan, RequestSpans, parse_request};
use std::alloc::{AllocError, Global};
use std::str::from_utf8;

/// How many bytes a head may have.
const HEAD_BYTES: usize = 16_384;
/// How many field lines a head may have.
const FIELD_LINES: usize = 64;
/// How many bytes a body may have.
const BODY_BYTES: usize = 4_194_304;

/// A request.
#[derive(Drop)]
pub struct Message {
    /// The method, as it is written.
    pub method: Text,
    /// What the target names, up to its first `?`.
    pub path: Text,
    /// What follows the first `?` of the target.
    pub query: Text,
    /// The bytes behind the head.
    pub body: Bytes,
    /// Whether the connection ends after it.
    pub last: bool,
    /// What the head says of who sends it.
    pub sender: Sender,
}

/// What a head says of who sends the message.
#[derive(Drop)]
pub struct Sender {
    /// The field `Host`: under which name the server was asked.
    pub host: Field,
    /// The field `Origin`: whose page a browser shows that sends the message.
    pub origin: Field,
    /// The field `Authorization`.
    pub authorization: Field,
    /// Whether a field's name begins with `Sec-Fetch-`, as those of browsers do.
    pub fetches: bool,
}

/// What stands in the fields of one name.
#[derive(Drop)]
pub enum Field {
    /// There is no such field.
    Absent,
    /// It stands once, with this value.
    Once(Bytes),
    /// It stands more than once.
    Often,
}

/// The first check that a message fails.
#[derive(Clone, Copy, Debug, PartialEq, Eq, Drop)]
pub enum Rule {
    /// The head is over 16,384 bytes, or has over 64 fields.
    HeadSize,
    /// The head doesn't read.
    Head,
    /// A message of HTTP/1.1 has no host, or several.
    Host,
    /// The body has a transfer coding.
    TransferCoding,
    /// The length of the body is malformed, or stands twice.
    Length,
    /// The body is over 4,194,304 bytes.
    Body,
}

/// What stands at the front of the bytes.
#[derive(Drop)]
pub enum Next {
    /// A message, and how many bytes it takes with what stands before it.
    Whole(Message, u64),
    /// Less than a message.
    More,
    /// A message that is refused, with the status of the reply.
    Refused(u16, Rule),
}

/// A whole message stands there, and memory is wanting for it.
#[derive(Clone, Copy, Debug, Drop)]
pub struct Lack {
    /// How many bytes it takes with what stands before it.
    pub used: u64,
    /// Whether the connection ends after it.
    pub last: bool,
    /// Whether its method is HEAD.
    pub bare: bool,
}

fn status(rule: Rule) -> Status
    ensures { result ≡ rule_status rule }
{
    match rule {
        Rule::HeadSize => Status::RequestHeaderFieldsTooLarge,
        Rule::Head | Rule::Host | Rule::Length => Status::BadRequest,
        Rule::TransferCoding => Status::NotImplemented,
        Rule::Body => Status::PayloadTooLarge,
    }
}

fn refuse(rule: Rule) -> Next
    ensures { result ≡ refused rule }
{
    Next::Refused(status(rule).code(), rule)
}

fn lacks_host(head: &[u8], fields: &[HeaderSpan], minor: u8) -> bool
    requires { All (IsHeaderWithin (length head.now)) fields.now }
    ensures { let hosts = values (codes "host") (map (header_bytes head.now) fields.now) in
        result ≡ (minor == 1 && not (length hosts == 1)) }
{
    if minor != 1 {
        return false;
    }
    match find_field(head, fields, b"host") {
        Found::Once(_) => false,
        _ => true,
    }
}

fn has_coding(head: &[u8], fields: &[HeaderSpan]) -> bool
    requires { All (IsHeaderWithin (length head.now)) fields.now }
    ensures { let codings = values (codes "transfer-encoding") (map (header_bytes head.now) fields.now) in
        result ≡ not (length codings == 0) }
{
    match find_field(head, fields, b"transfer-encoding") {
        Found::Absent => false,
        _ => true,
    }
}

fn declared_length(head: &[u8], fields: &[HeaderSpan]) -> Option<usize>
    requires { All (IsHeaderWithin (length head.now)) fields.now }
    ensures { result ≡ body_length (values (codes "content-length") (map (header_bytes head.now) fields.now)) }
{
    match find_field(head, fields, b"content-length") {
        Found::Absent => Some(0),
        Found::Once(value) => read_length(value.of(head)),
        Found::Often => None,
    }
}

/// The length of the body, or the first check that the fields fail.
fn check_fields(head: &[u8], fields: &[HeaderSpan], minor: u8) -> Result<usize, Rule>
    requires { All (IsHeaderWithin (length head.now)) fields.now }
    ensures { result ≡ check minor (map (header_bytes head.now) fields.now) }
{
    if lacks_host(head, fields, minor) {
        return Err(Rule::Host);
    }
    if has_coding(head, fields) {
        return Err(Rule::TransferCoding);
    }
    match declared_length(head, fields) {
        None => Err(Rule::Length),
        Some(length) if length > BODY_BYTES => Err(Rule::Body),
        Some(length) => Ok(length),
    }
}

fn ends_connection(head: &[u8], fields: &[HeaderSpan], minor: u8) -> bool
    requires { All (IsHeaderWithin (length head.now)) fields.now }
    ensures { result ≡ is_last minor (map (header_bytes head.now) fields.now) }
{
    minor == 0 || asks_to_close(head, fields, b"connection")
}

fn text_of(bytes: &[u8]) -> &str
    requires { IsUtf8 bytes.now }
    ensures { result.now ≡ bytes.now }
{
    match from_utf8(bytes) {
        Ok(text) => text,
        Err(_) => unreachable!(),
    }
}

fn field_of(
    alloc: Global,
    head: &[u8],
    fields: &[HeaderSpan],
    name: &[u8],
) -> Result<Field, AllocError>
    requires { All (IsHeaderWithin (length head.now)) fields.now }
    ensures { IfOk result (λ f. f ≡ field_of (values name.now (map (header_bytes head.now) fields.now))) }
{
    match find_field(head, fields, name) {
        Found::Absent => Ok(Field::Absent),
        Found::Once(value) => Ok(Field::Once(Bytes::of(alloc, value.of(head))?)),
        Found::Often => Ok(Field::Often),
    }
}

fn sender_of(alloc: Global, head: &[u8], fields: &[HeaderSpan]) -> Result<Sender, AllocError>
    requires { All (IsHeaderWithin (length head.now)) fields.now }
    ensures { IfOk result (λ s. s ≡ sender_of (map (header_bytes head.now) fields.now)) }
{
    let host = field_of(alloc, head, fields, b"host")?;
    let origin = field_of(alloc, head, fields, b"origin")?;
    let authorization = field_of(alloc, head, fields, b"authorization")?;
    Ok(Sender {
        host,
        origin,
        authorization,
        fetches: has_fetch_field(head, fields),
    })
}

// The message of this head and body.
fn make_message(
    alloc: Global,
    head: &[u8],
    fields: &[HeaderSpan],
    spans: RequestSpans,
    body: &[u8],
) -> Result<Message, AllocError>
    requires method { IsWithin (length head.now) spans.method }
    requires path { IsWithin (length head.now) spans.path }
    requires fields { All (IsHeaderWithin (length head.now)) fields.now }
    requires method_text { IsUtf8 (span_bytes head.now spans.method) }
    requires path_text { IsUtf8 (span_bytes head.now spans.path) }
    ensures { IfOk result (λ m. m ≡ message_of (parts_in head.now fields.now spans) body.now) }
{
    let method = text_of(spans.method.of(head));
    let (path, query) = cut_target(text_of(spans.path.of(head)));
    Ok(Message {
        method: Text::of(alloc, method)?,
        path: Text::of(alloc, path)?,
        query: Text::of(alloc, query)?,
        body: Bytes::of(alloc, body)?,
        last: ends_connection(head, fields, spans.version),
        sender: sender_of(alloc, head, fields)?,
    })
}

/// The message whose head was read, once its body is there.
fn answer(
    alloc: Global,
    head: &[u8],
    headers: &[HeaderSpan],
    spans: RequestSpans,
    after: &[u8],
    used: usize,
) -> Result<Next, Lack>
    requires method { IsWithin (length head.now) spans.method }
    requires path { IsWithin (length head.now) spans.path }
    requires count { spans.headers ≤ length headers.now }
    requires fields { All (IsHeaderWithin (length head.now)) (take spans.headers headers.now) }
    requires method_text { IsUtf8 (span_bytes head.now spans.method) }
    requires path_text { IsUtf8 (span_bytes head.now spans.path) }
    requires fits { used + length after.now < 2 ^ 64 }
    ensures { Gives result (answered (parts_at head.now headers.now spans) after.now used) }
{
    let fields = &headers[..spans.headers];
    match check_fields(head, fields, spans.version) {
        Err(rule) => Ok(refuse(rule)),
        Ok(length) => {
            if length > after.len() {
                return Ok(Next::More);
            }
            let last = ends_connection(head, fields, spans.version);
            let bare = text_of(spans.method.of(head)) == "HEAD";
            match make_message(alloc, head, fields, spans, &after[..length]) {
                Ok(message) => Ok(Next::Whole(message, (used + length) as u64)),
                Err(_) => Err(Lack {
                    used: (used + length) as u64,
                    last,
                    bare,
                }),
            }
        }
    }
}

/// The message whose head is all of `head`.
fn read_head(alloc: Global, head: &[u8], after: &[u8], used: usize) -> Result<Next, Lack>
    requires { used + length after.now < 2 ^ 64 }
    ensures { GivesWhat (AnswersHead head.now after.now used) result }
{
    if count_lines(head) > FIELD_LINES + 2 {
        return Ok(refuse(Rule::HeadSize));
    }
    let mut headers = [EMPTY_HEADER_SPAN; FIELD_LINES];
    match parse_request(head, &mut headers) {
        Ok(Read::Complete(spans)) => {
            if spans.len != head.len() {
                return Ok(refuse(Rule::Head));
            }
            answer(alloc, head, &headers, spans, after, used)
        }
        Ok(Read::Partial) => Ok(refuse(Rule::Head)),
        Err(_) => Ok(refuse(Rule::Head)),
    }
}

/// The bytes in which a head has to lie.
fn front(bytes: &[u8]) -> &[u8]
    ensures value { result.now ≡ take 16384 bytes.now }
    ensures within { length result.now ≤ length bytes.now }
{
    if bytes.len() < HEAD_BYTES {
        bytes
    } else {
        &bytes[..HEAD_BYTES]
    }
}

fn without_head(bytes: &[u8]) -> Next
    ensures { result ≡ headless bytes.now }
{
    if bytes.len() < HEAD_BYTES {
        Next::More
    } else {
        refuse(Rule::HeadSize)
    }
}

/// What stands behind the empty lines, which have `blank` bytes.
fn read_rest(alloc: Global, rest: &[u8], blank: usize) -> Result<Next, Lack>
    requires { blank + length rest.now < 2 ^ 64 }
    ensures { GivesWhat (AnswersRest rest.now blank (head_length (take 16384 rest.now))) result }
{
    match find_head(front(rest)) {
        None => Ok(without_head(rest)),
        Some(length) => {
            let (head, after) = rest.split_at(length);
            read_head(alloc, head, after, blank + length)
        }
    }
}

/// What stands at the front of the buffer.
pub fn next_message(alloc: Global, buffer: &[u8]) -> Result<Next, Lack>
    ensures exact { IfOk result (Stands buffer.now) }
    ensures lack { IfErr result (Lacks buffer.now) }
    ensures within { TakesWithin (length buffer.now) result }
    ensures only { OneStands buffer.now }
    ensures later { StandsLater buffer.now }
    ensures more { (result ≡ Ok Next.More) ↔ HasNoEarlier buffer.now }
{
    let blank = blank_length(buffer);
    read_rest(alloc, &buffer[blank..], blank)
}
