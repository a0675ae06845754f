//! Messages as clients send them.
use crate::fault::Fault;
use cat_case::case::Case;
use cat_case::shown::{push_bytes, push_counted, push_number, push_texts};
use cat_http::message::{Message, Next, Rule, next_message};
use std::alloc::{AllocError, Global};

// Puts the method, the path and the query of a message behind what stands so far.
fn push_front(out: &mut String, message: &Message) -> Result<(), AllocError> {
    push_texts(
        out,
        &[
            message.method.as_str(),
            " [",
            message.path.as_str(),
            "] [",
            message.query.as_str(),
            "] [",
        ],
    )
}

// Puts a message, and how many bytes it takes, behind what stands so far.
fn push_message(out: &mut String, message: &Message, length: u64) -> Result<(), Fault> {
    let end = if message.last { "] last " } else { "] open " };
    push_front(out, message)?;
    push_bytes(out, message.body.as_slice())?;
    push_counted(out, end, length).map_err(Fault::Memory)
}

// Puts the status of a message that is refused, and the rule by which it is, behind what stands so far.
fn push_refused(out: &mut String, status: u16, rule: &Rule) -> Result<(), AllocError> {
    push_number(out, status as u64)?;
    write!(out, " {rule:?}")
}

// Puts what stands at the front of bytes behind what stands so far.
fn push_next(out: &mut String, next: &Next) -> Result<(), Fault> {
    match next {
        Next::Whole(message, length) => push_message(out, message, *length),
        Next::More => out.push_str("more").map_err(Fault::Memory),
        Next::Refused(status, rule) => push_refused(out, *status, rule).map_err(Fault::Memory),
    }
}

/// Puts what stands at the front of bytes behind what stands so far: a message with its method, path, query, body, whether it is the
/// last, and its length; more to come; or the status and the rule by which it is refused.
pub fn front(out: &mut String, alloc: Global, case: &Case) -> Result<(), Fault> {
    match next_message(alloc, case.bytes(1)) {
        Ok(next) => push_next(out, &next),
        Err(_) => Err(Fault::Memory(AllocError)),
    }
}
