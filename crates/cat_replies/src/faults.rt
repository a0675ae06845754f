//! Replies to lines that are no commands, and to questions that have no answer.
ghost use Rattle.std.specs.Prelude.{◌≡◌};
ghost use Rattle.cat_replies.specs.Faults as spec;
ghost use Rattle.cat_replies.specs.Line.{Appends};

use crate::events::push_no_memory;
use crate::line::{Piece, push_line};
use cat_inputs::fault::InputFault;
use cat_query::fault::QueryFault;
use cat_tree::read::TreeFault;
use std::alloc::AllocError;

/// Appends that no command has the word of the line.
pub fn push_bad_word(out: &mut Vec<u8>) -> Result<(), AllocError>
    ensures { Appends out.old out.new result spec.bad_word }
{
    push_line(out, &[Piece::Text("refused word")])
}

/// Appends that the arguments of the line are of another number or form.
pub fn push_bad_arguments(out: &mut Vec<u8>) -> Result<(), AllocError>
    ensures { Appends out.old out.new result spec.bad_arguments }
{
    push_line(out, &[Piece::Text("refused arguments")])
}

/// Appends that the line is too long.
pub fn push_long_line(out: &mut Vec<u8>) -> Result<(), AllocError>
    ensures { Appends out.old out.new result spec.long_line }
{
    push_line(out, &[Piece::Text("refused long")])
}

fn push_no_tree(out: &mut Vec<u8>, fault: TreeFault) -> Result<(), AllocError>
    ensures { Appends out.old out.new result (spec.no_tree fault) }
{
    match fault {
        TreeFault::Syntax => push_line(out, &[Piece::Text("refused json syntax")]),
        TreeFault::Fraction => push_line(out, &[Piece::Text("refused json fraction")]),
        TreeFault::NoMemory => push_no_memory(out),
    }
}

fn push_at(out: &mut Vec<u8>, words: &str, place: usize) -> Result<(), AllocError>
    ensures { Appends out.old out.new result (spec.at words.now place) }
{
    push_line(out, &[Piece::Text(words), Piece::Number(place as u64)])
}

/// Appends why a body is no mutation, as `refused deep 3`.
pub fn push_no_mutation(out: &mut Vec<u8>, fault: InputFault) -> Result<(), AllocError>
    ensures { Appends out.old out.new result (spec.no_mutation fault) }
{
    match fault {
        InputFault::Json(fault) => push_no_tree(out, fault),
        InputFault::Shape(place) => {
            push_line(
                out,
                &[Piece::Text("refused shape "), Piece::Text(place.text())],
            )
        }
        InputFault::TooMany => push_line(out, &[Piece::Text("refused too_many")]),
        InputFault::Deep(place) => push_at(out, "refused deep ", place),
        InputFault::NoRef(place, fault) => push_line(
            out,
            &[
                Piece::Text("refused no_ref "),
                Piece::Number(place as u64),
                Piece::Text(" "),
                Piece::Text(fault.text()),
            ],
        ),
        InputFault::Duplicate(place) => push_at(out, "refused duplicate ", place),
        InputFault::NoMemory => push_no_memory(out),
    }
}

/// Appends that a text of a list names no entity, with its place.
pub fn push_no_reference(out: &mut Vec<u8>, place: usize) -> Result<(), AllocError>
    ensures { Appends out.old out.new result (spec.no_reference place) }
{
    push_at(out, "refused reference ", place)
}

/// Appends why a text is no query, as `refused filter 0 1`.
pub fn push_no_query(out: &mut Vec<u8>, fault: QueryFault) -> Result<(), AllocError>
    ensures { Appends out.old out.new result (spec.no_query fault) }
{
    match fault {
        QueryFault::Filter(filter, condition) => push_line(
            out,
            &[
                Piece::Text("refused filter "),
                Piece::Number(filter as u64),
                Piece::Text(" "),
                Piece::Number(condition as u64),
            ],
        ),
        QueryFault::BadOrder => push_line(out, &[Piece::Text("refused order")]),
        QueryFault::BadLimit => push_line(out, &[Piece::Text("refused limit")]),
        QueryFault::BadCursor => push_line(out, &[Piece::Text("refused cursor")]),
        QueryFault::NoMemory => push_no_memory(out),
    }
}

/// Appends that a query asks for facets and names none.
pub fn push_no_facet(out: &mut Vec<u8>) -> Result<(), AllocError>
    ensures { Appends out.old out.new result spec.no_facet }
{
    push_line(out, &[Piece::Text("refused facet")])
}
