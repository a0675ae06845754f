//! Replies that take no memory.

ghost use Rattle.std.specs.Prelude.{◌≡◌};
ghost use Rattle.cat_http.specs.Reply.{reply_bytes};
ghost use Rattle.cat_http.specs.Errors as spec;

use crate::message::Rule;

/// The bytes of the reply to a refused message. The connection ends after it.
pub fn refusal(rule: Rule) -> &'static [u8]
    ensures { result.now ≡ reply_bytes (spec.refusal rule) }
{
    match rule {
        Rule::HeadSize => {
            b"HTTP/1.1 431 Request Header Fields Too Large\r\nContent-Type: application/json\r\nContent-Length: 63\r\nConnection: close\r\n\r\n{\"error\":{\"message\":\"head_size\"},\"response\":{\"statusCode\":431}}"
        }
        Rule::Head => {
            b"HTTP/1.1 400 Bad Request\r\nContent-Type: application/json\r\nContent-Length: 58\r\nConnection: close\r\n\r\n{\"error\":{\"message\":\"head\"},\"response\":{\"statusCode\":400}}"
        }
        Rule::Host => {
            b"HTTP/1.1 400 Bad Request\r\nContent-Type: application/json\r\nContent-Length: 58\r\nConnection: close\r\n\r\n{\"error\":{\"message\":\"host\"},\"response\":{\"statusCode\":400}}"
        }
        Rule::TransferCoding => {
            b"HTTP/1.1 501 Not Implemented\r\nContent-Type: application/json\r\nContent-Length: 69\r\nConnection: close\r\n\r\n{\"error\":{\"message\":\"transfer_coding\"},\"response\":{\"statusCode\":501}}"
        }
        Rule::Length => {
            b"HTTP/1.1 400 Bad Request\r\nContent-Type: application/json\r\nContent-Length: 60\r\nConnection: close\r\n\r\n{\"error\":{\"message\":\"length\"},\"response\":{\"statusCode\":400}}"
        }
        Rule::Body => {
            b"HTTP/1.1 413 Payload Too Large\r\nContent-Type: application/json\r\nContent-Length: 58\r\nConnection: close\r\n\r\n{\"error\":{\"message\":\"body\"},\"response\":{\"statusCode\":413}}"
        }
    }
}

/// The bytes of the reply to a message that lacks memory: whether the connection ends after it, and whether it is a HEAD.
pub fn no_memory(close: bool, bare: bool) -> &'static [u8]
    ensures { result.now ≡ reply_bytes (spec.no_memory close bare) }
{
    match (close, bare) {
        (false, false) => {
            b"HTTP/1.1 507 Insufficient Storage\r\nContent-Type: application/json\r\nContent-Length: 60\r\n\r\n{\"error\":{\"message\":\"memory\"},\"response\":{\"statusCode\":507}}"
        }
        (false, true) => {
            b"HTTP/1.1 507 Insufficient Storage\r\nContent-Type: application/json\r\nContent-Length: 60\r\n\r\n"
        }
        (true, false) => {
            b"HTTP/1.1 507 Insufficient Storage\r\nContent-Type: application/json\r\nContent-Length: 60\r\nConnection: close\r\n\r\n{\"error\":{\"message\":\"memory\"},\"response\":{\"statusCode\":507}}"
        }
        (true, true) => {
            b"HTTP/1.1 507 Insufficient Storage\r\nContent-Type: application/json\r\nContent-Length: 60\r\nConnection: close\r\n\r\n"
        }
    }
}
