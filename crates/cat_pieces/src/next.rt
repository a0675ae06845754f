//! The next message of the bytes that have come.

ghost use Rattle.std.specs.Prelude.{◌≡◌, length, if◌then◌else◌};
ghost use Rattle.cat_listener.specs.Step.{IsWithin, text_bytes};
ghost use Rattle.cat_connection.specs.Items.Item.{message as message_item};
ghost use Rattle.cat_connection.specs.Runs.{AnswersItem};
ghost use Rattle.cat_pieces.specs.Replies.{Replies, step_with};

use cat_connection::Machine;
use cat_http::fixed::{no_memory, refusal};
use cat_http::head::blank_length;
use cat_http::message::{Message, Next, next_message};
use cat_listener::{Part, Step, Text};
use std::alloc::Global;

// The reply of a machine to a message, or to its want of memory.
fn reply<M: Machine>(machine: &mut M, message: &Message) -> Text
    ensures { AnswersItem M.answers M.lacks machine.old (message_item message.now) machine.new (text_bytes result) }
{
    match machine.answer(message) {
        Ok(text) => Text::Made(text),
        Err(_) => {
            let bare = message.method.as_str() == "HEAD";
            Text::Fixed(no_memory(message.last, bare))
        }
    }
}

// The connection ends with the reply to the last message.
fn step_after(last: bool, used: usize, text: Text) -> Step
    ensures { result ≡ step_with last used text }
{
    if last {
        Step::Last(text)
    } else {
        Step::Reply(used, text)
    }
}

// Of which part more is wanted: the body, once an empty line has come.
fn part_wanted(bytes: &[u8]) -> Part {
    let mut ended = true;
    for byte in bytes {
        match byte {
            b'\n' if ended => return Part::Body,
            b'\n' => ended = true,
            b'\r' => {}
            _ => ended = false,
        }
    }
    Part::Head
}

/// Has the machine answer the message that stands whole at the front of the bytes, if one does.
///
/// A refused message is answered with its refusal, with which the connection ends. A message for which memory lacks is answered 507: where it lacks
/// for the message itself the machine stays, and else the machine says what it did.
pub fn next_step<M: Machine>(alloc: Global, machine: &mut M, bytes: &[u8]) -> Step
    ensures answers { Replies M.answers M.lacks machine.old bytes.now result machine.new }
    ensures within { IsWithin (length bytes.now) result }
{
    match next_message(alloc, bytes) {
        Ok(Next::Whole(message, used)) => {
            let text = reply(machine, &message);
            step_after(message.last, used as usize, text)
        }
        Ok(Next::More) => {
            let blank = blank_length(bytes);
            Step::More(blank, part_wanted(&bytes[blank..]))
        }
        Ok(Next::Refused(_, rule)) => Step::Last(Text::Fixed(refusal(rule))),
        Err(lack) => {
            let text = Text::Fixed(no_memory(lack.last, lack.bare));
            step_after(lack.last, lack.used as usize, text)
        }
    }
}
