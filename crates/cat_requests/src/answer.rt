//! How requests are answered.
ghost use Rattle.std.specs.Prelude.{◌≡◌, ◌++◌, ◌+◌, ◌≤◌, ◌∷◌, [], IfOk, IsOk, OnOk, map, length, vec_capacity, vec_len};
ghost use Rattle.cat_http.specs.Errors.{error_body};
ghost use Rattle.cat_feed.specs.Place.{since_text};
ghost use Rattle.cat_replies.specs.Events.{counter_text};
ghost use Rattle.cat_replies.specs.Line.{joined};
ghost use Rattle.cat_replies.specs.Piece.{piece_most, piece_text};
ghost use Rattle.cat_requests.specs.Answers as spec;
ghost use Rattle.cat_requests.specs.Refusals.{allowed, input_words, methods_of, query_words, status_of, words_of};

use crate::refusal::{Methods, Refusal};
use cat_access::browser::is_from_browser;
use cat_feed::change::Since;
use cat_http::body::{Bytes, Texts};
use cat_http::content::Content;
use cat_http::message::Message;
use cat_http::reply::HttpReply;
use cat_http::status::Status;
use cat_inputs::fault::InputFault;
use cat_model::types::{Acted, Counter, Counts};
use cat_page::file::File;
use cat_query::fault::QueryFault;
use cat_replies::line::{Piece, push_text};
use cat_tree::read::TreeFault;
use cat_tree::text::Text;
use std::alloc::{AllocError, Global};

/// The most bytes of the body of an answer that shows nothing of the catalogue, and some.
pub const ROOM: usize = 160;

/// What is answered to a request.
#[derive(Drop)]
pub enum Answer {
    /// What the catalogue was asked.
    Shown(Bytes),
    /// What the catalogue was asked, as a line.
    Line(Bytes),
    /// A file of the page.
    Page(File),
    /// The mutation acted, or its serial is the last one again.
    Mutated(Acted),
    /// It is done, and nothing is to be said.
    Done,
    /// The record is due.
    Refreshed,
    /// What a settle did.
    Settled(Counts),
    /// The request is refused.
    Refused(Refusal),
}

const NONE: Piece<'static> = Piece::Text("");

fn counter_text(counter: Counter) -> &'static str
    ensures text { result.now ≡ counter_text counter }
    ensures short { length result.now ≤ 7 }
{
    match counter {
        Counter::Arrival => "arrival",
        Counter::Number => "number",
        Counter::Token => "token",
        Counter::Ticket => "ticket",
    }
}

// Appends the body of an error: four pieces of words, and the status.
fn push_error<'x>(
    out: &mut Vec<u8>,
    status: Status,
    one: Piece<'x>,
    two: Piece<'x>,
    three: Piece<'x>,
    four: Piece<'x>,
) -> Result<(), AllocError>
    ensures ok { OnOk result (out.new.items ≡ out.old.items
        ++ error_body status (joined (piece_text one.entry ∷ piece_text two.entry ∷ piece_text three.entry ∷ piece_text four.entry ∷ []))) }
    ensures room { vec_len out.old + (80 + (piece_most one.entry + (piece_most two.entry + (piece_most three.entry + piece_most four.entry))))
        ≤ vec_capacity out.old → IsOk result }
{
    push_text(
        out,
        &[
            Piece::Text("{\"error\":{\"message\":\""),
            one,
            two,
            three,
            four,
            Piece::Text("\"},\"response\":{\"statusCode\":"),
            Piece::Number(status.code() as u64),
            Piece::Text("}}"),
        ],
    )
}

fn push_words(out: &mut Vec<u8>, status: Status, words: &str) -> Result<(), AllocError>
    ensures ok { OnOk result (out.new.items ≡ out.old.items ++ error_body status (joined (words.now ∷ []))) }
    ensures room { vec_len out.old + (80 + length words.now) ≤ vec_capacity out.old → IsOk result }
{
    push_error(out, status, Piece::Text(words), NONE, NONE, NONE)
}

fn push_at(out: &mut Vec<u8>, status: Status, words: &str, number: u64) -> Result<(), AllocError>
    ensures ok { OnOk result (out.new.items ≡ out.old.items
        ++ error_body status (joined (words.now ∷ piece_text (Piece.Number number) ∷ []))) }
    ensures room { vec_len out.old + (100 + length words.now) ≤ vec_capacity out.old → IsOk result }
{
    push_error(
        out,
        status,
        Piece::Text(words),
        Piece::Number(number),
        NONE,
        NONE,
    )
}

fn push_place(
    out: &mut Vec<u8>,
    status: Status,
    words: &str,
    place: Since,
) -> Result<(), AllocError>
    ensures ok { OnOk result (out.new.items ≡ out.old.items
        ++ error_body status (joined (words.now ∷ since_text place ∷ []))) }
    ensures room { vec_len out.old + (121 + length words.now) ≤ vec_capacity out.old → IsOk result }
{
    push_error(
        out,
        status,
        Piece::Text(words),
        Piece::Number(place.epoch),
        Piece::Text("."),
        Piece::Number(place.number),
    )
}

fn push_input(out: &mut Vec<u8>, fault: InputFault) -> Result<(), AllocError>
    ensures { OnOk result (out.new.items ≡ out.old.items ++ error_body Status.BadRequest (joined (input_words fault))) }
{
    match fault {
        InputFault::Json(TreeFault::Syntax) => push_words(out, Status::BadRequest, "json syntax"),
        InputFault::Json(TreeFault::Fraction) => push_words(
            out,
            Status::BadRequest,
            "json fraction",
        ),
        InputFault::Json(TreeFault::NoMemory) => push_words(out, Status::BadRequest, "memory"),
        InputFault::Shape(place) => push_error(
            out,
            Status::BadRequest,
            Piece::Text("shape "),
            Piece::Text(place.text()),
            NONE,
            NONE,
        ),
        InputFault::TooMany => push_words(out, Status::BadRequest, "too_many"),
        InputFault::Deep(i) => push_at(out, Status::BadRequest, "deep ", i as u64),
        InputFault::NoRef(i, fault) => push_error(
            out,
            Status::BadRequest,
            Piece::Text("no_ref "),
            Piece::Number(i as u64),
            Piece::Text(" "),
            Piece::Text(fault.text()),
        ),
        InputFault::Duplicate(i) => push_at(out, Status::BadRequest, "duplicate ", i as u64),
        InputFault::NoMemory => push_words(out, Status::BadRequest, "memory"),
    }
}

fn push_query(out: &mut Vec<u8>, fault: QueryFault) -> Result<(), AllocError>
    ensures { OnOk result (out.new.items ≡ out.old.items ++ error_body Status.BadRequest (joined (query_words fault))) }
{
    match fault {
        QueryFault::Filter(filter, condition) => push_error(
            out,
            Status::BadRequest,
            Piece::Text("filter "),
            Piece::Number(filter as u64),
            Piece::Text(" "),
            Piece::Number(condition as u64),
        ),
        QueryFault::BadOrder => push_words(out, Status::BadRequest, "order"),
        QueryFault::BadLimit => push_words(out, Status::BadRequest, "limit"),
        QueryFault::BadCursor => push_words(out, Status::BadRequest, "cursor"),
        QueryFault::NoMemory => push_words(out, Status::BadRequest, "memory"),
    }
}

// Appends the body of a refusal.
fn push_refusal(out: &mut Vec<u8>, refusal: Refusal) -> Result<(), AllocError>
    ensures ok { OnOk result (out.new.items ≡ out.old.items ++ error_body (status_of refusal) (joined (words_of refusal))) }
    ensures room { spec.IsShortRefusal refusal → vec_len out.old + 160 ≤ vec_capacity out.old → IsOk result }
{
    match refusal {
        Refusal::Origin => push_words(out, Status::Forbidden, "origin"),
        Refusal::Route => push_words(out, Status::NotFound, "route"),
        Refusal::Method(_) => push_words(out, Status::MethodNotAllowed, "method"),
        Refusal::Entity => push_words(out, Status::NotFound, "entity"),
        Refusal::Shelf => push_words(out, Status::NotFound, "shelf"),
        Refusal::Name => push_words(out, Status::BadRequest, "name"),
        Refusal::Text => push_words(out, Status::BadRequest, "text"),
        Refusal::Reference(i) => push_at(out, Status::BadRequest, "reference ", i as u64),
        Refusal::Input(fault) => push_input(out, fault),
        Refusal::Query(fault) => push_query(out, fault),
        Refusal::Facet => push_words(out, Status::BadRequest, "facet"),
        Refusal::Place => push_words(out, Status::BadRequest, "since"),
        Refusal::Gone(place) => push_place(out, Status::Gone, "gone ", place),
        Refusal::Ahead(place) => push_place(out, Status::BadRequest, "ahead ", place),
        Refusal::OldSerial(last) => push_at(out, Status::Conflict, "old_serial ", last),
        Refusal::TooLarge(sum) => push_at(out, Status::PayloadTooLarge, "too_large ", sum),
        Refusal::Spent(counter) => push_spent(out, counter),
        Refusal::CutByCounter(events, counter) => push_cut(out, events, counter),
        Refusal::CutByMemory(events) => push_at(
            out,
            Status::InsufficientStorage,
            "memory ",
            events,
        ),
        Refusal::CutByKeeper(events) => push_at(out, Status::ServiceUnavailable, "keeper ", events),
        Refusal::SpentFeed => push_words(out, Status::InternalServerError, "spent feed"),
        Refusal::Reply => push_words(out, Status::InternalServerError, "reply"),
        Refusal::Keeper => push_words(out, Status::ServiceUnavailable, "keeper"),
        Refusal::NoMemory => push_words(out, Status::InsufficientStorage, "memory"),
    }
}

fn push_spent(out: &mut Vec<u8>, counter: Counter) -> Result<(), AllocError>
    ensures ok { OnOk result (out.new.items ≡ out.old.items ++ error_body Status.InternalServerError (joined (words_of (Refusal.Spent counter)))) }
    ensures room { vec_len out.old + 160 ≤ vec_capacity out.old → IsOk result }
{
    let name = counter_text(counter);
    push_error(
        out,
        Status::InternalServerError,
        Piece::Text("spent "),
        Piece::Text(name),
        NONE,
        NONE,
    )
}

fn push_cut(out: &mut Vec<u8>, events: u64, counter: Counter) -> Result<(), AllocError>
    ensures ok { OnOk result (out.new.items ≡ out.old.items ++ error_body Status.InternalServerError (joined (words_of (Refusal.CutByCounter events counter)))) }
    ensures room { vec_len out.old + 160 ≤ vec_capacity out.old → IsOk result }
{
    let name = counter_text(counter);
    push_error(
        out,
        Status::InternalServerError,
        Piece::Text("spent "),
        Piece::Text(name),
        Piece::Text(" "),
        Piece::Number(events),
    )
}

fn push_counts(out: &mut Vec<u8>, counts: Counts) -> Result<(), AllocError>
    ensures ok { OnOk result (out.new.items ≡ out.old.items ++ spec.counts_body counts) }
    ensures room { vec_len out.old + 160 ≤ vec_capacity out.old → IsOk result }
{
    push_text(
        out,
        &[
            Piece::Text("{\"leases\":"),
            Piece::Number(counts.leases),
            Piece::Text(",\"rounds\":"),
            Piece::Number(counts.rounds),
            Piece::Text(",\"stitched\":"),
            Piece::Number(counts.stitched),
            Piece::Text("}"),
        ],
    )
}

fn push_acted(out: &mut Vec<u8>, acted: Acted) -> Result<(), AllocError>
    ensures ok { OnOk result (out.new.items ≡ out.old.items ++ spec.acted_body acted) }
    ensures room { vec_len out.old + 160 ≤ vec_capacity out.old → IsOk result }
{
    match acted {
        Acted::Now => out.extend_from_slice(b"{\"again\":false}"),
        Acted::Again => out.extend_from_slice(b"{\"again\":true}"),
    }
}

fn status(refusal: Refusal) -> Status
    ensures { result ≡ status_of refusal }
{
    match refusal {
        Refusal::Origin => Status::Forbidden,
        Refusal::Route | Refusal::Entity | Refusal::Shelf => Status::NotFound,
        Refusal::Method(_) => Status::MethodNotAllowed,
        Refusal::Name
        | Refusal::Text
        | Refusal::Reference(_)
        | Refusal::Input(_)
        | Refusal::Query(_)
        | Refusal::Facet
        | Refusal::Place
        | Refusal::Ahead(_) => Status::BadRequest,
        Refusal::OldSerial(_) => Status::Conflict,
        Refusal::Gone(_) => Status::Gone,
        Refusal::TooLarge(_) => Status::PayloadTooLarge,
        Refusal::Spent(_) | Refusal::CutByCounter(_, _) | Refusal::SpentFeed | Refusal::Reply =>
            Status::InternalServerError,
        Refusal::CutByKeeper(_) | Refusal::Keeper => Status::ServiceUnavailable,
        Refusal::CutByMemory(_) | Refusal::NoMemory => Status::InsufficientStorage,
    }
}

fn method_names(methods: Methods) -> &'static [&'static str]
    ensures { map (λ t. t.now) result.now ≡ methods_of methods }
{
    match methods {
        Methods::Reads => &["GET", "HEAD"],
        Methods::ReadsAndDeletes => &["GET", "HEAD", "DELETE"],
        Methods::Posts => &["POST"],
        Methods::PutsAndDeletes => &["PUT", "DELETE"],
    }
}

fn texts_of(alloc: Global, names: &[&str]) -> Result<Texts, AllocError>
    ensures { IfOk result (λ ts. ts ≡ map (λ t. t.now) names.now) }
{
    let mut texts = Vec::new(alloc);
    for name in names {
        texts.push(Text::of(alloc, name)?)?;
    }
    Ok(Texts::from_vec(texts))
}

fn allowed(alloc: Global, refusal: Refusal) -> Result<Texts, AllocError>
    ensures ok { IfOk result (λ ts. ts ≡ allowed refusal) }
    ensures room { spec.IsShortRefusal refusal → IsOk result }
{
    match refusal {
        Refusal::Method(methods) => texts_of(alloc, method_names(methods)),
        _ => Ok(Texts::from_vec(Vec::new(alloc))),
    }
}

// The reply to a message with this status, body of this content, and methods.
fn reply_with(
    message: &Message,
    status: Status,
    content: Content,
    body: Bytes,
    allow: Texts,
) -> HttpReply
    ensures { result ≡ spec.reply_with message.now status content body allow }
{
    HttpReply {
        status,
        content,
        body,
        allow,
        close: message.last,
        bare: message.method.as_str() == "HEAD",
        browser: is_from_browser(message),
    }
}

fn refuse(
    alloc: Global,
    body: Vec<u8>,
    message: &Message,
    refusal: Refusal,
) -> Result<HttpReply, AllocError>
    requires empty { body.items ≡ [] }
    ensures ok { IfOk result (λ r. r ≡ spec.reply_to message.now (Answer.Refused refusal)) }
    ensures room { spec.IsShortRefusal refusal → 160 ≤ vec_capacity body → IsOk result }
{
    let mut body = body;
    let allow = allowed(alloc, refusal)?;
    push_refusal(&mut body, refusal)?;
    Ok(reply_with(
        message,
        status(refusal),
        Content::Json,
        Bytes::from_vec(body),
        allow,
    ))
}

fn mutated(
    body: Vec<u8>,
    alloc: Global,
    message: &Message,
    acted: Acted,
) -> Result<HttpReply, AllocError>
    requires empty { body.items ≡ [] }
    ensures ok { IfOk result (λ r. r ≡ spec.reply_to message.now (Answer.Mutated acted)) }
    ensures room { 160 ≤ vec_capacity body → IsOk result }
{
    let mut body = body;
    push_acted(&mut body, acted)?;
    Ok(reply_with(
        message,
        Status::Ok,
        Content::Json,
        Bytes::from_vec(body),
        Texts::from_vec(Vec::new(alloc)),
    ))
}

fn settled(
    body: Vec<u8>,
    alloc: Global,
    message: &Message,
    counts: Counts,
) -> Result<HttpReply, AllocError>
    requires empty { body.items ≡ [] }
    ensures ok { IfOk result (λ r. r ≡ spec.reply_to message.now (Answer.Settled counts)) }
    ensures room { 160 ≤ vec_capacity body → IsOk result }
{
    let mut body = body;
    push_counts(&mut body, counts)?;
    Ok(reply_with(
        message,
        Status::Ok,
        Content::Json,
        Bytes::from_vec(body),
        Texts::from_vec(Vec::new(alloc)),
    ))
}

fn refreshed(body: Vec<u8>, alloc: Global, message: &Message) -> Result<HttpReply, AllocError>
    requires empty { body.items ≡ [] }
    ensures ok { IfOk result (λ r. r ≡ spec.reply_to message.now Answer.Refreshed) }
    ensures room { 160 ≤ vec_capacity body → IsOk result }
{
    let mut body = body;
    body.extend_from_slice(b"{}")?;
    Ok(reply_with(
        message,
        Status::Ok,
        Content::Json,
        Bytes::from_vec(body),
        Texts::from_vec(Vec::new(alloc)),
    ))
}

fn page(alloc: Global, message: &Message, file: File) -> Result<HttpReply, AllocError>
    ensures { IfOk result (λ r. r ≡ spec.reply_to message.now (Answer.Page file)) }
{
    let body = Bytes::of(alloc, file.bytes())?;
    Ok(reply_with(
        message,
        Status::Ok,
        file.content(),
        body,
        Texts::from_vec(Vec::new(alloc)),
    ))
}

/// The reply to a message, by what is answered to its request. The body is written to `body`; with room for 160 bytes memory
/// is wanted only by an answer that says why a body or a query doesn't read, or that tells the methods of a path.
pub fn reply_to(
    alloc: Global,
    body: Vec<u8>,
    message: &Message,
    answer: Answer,
) -> Result<HttpReply, AllocError>
    requires empty { body.items ≡ [] }
    ensures ok { IfOk result (λ r. r ≡ spec.reply_to message.now answer) }
    ensures room { spec.IsShort answer → 160 ≤ vec_capacity body → IsOk result }
{
    let none = Texts::from_vec(Vec::new(alloc));
    match answer {
        Answer::Shown(text) => Ok(reply_with(message, Status::Ok, Content::Json, text, none)),
        Answer::Line(text) => Ok(reply_with(message, Status::Ok, Content::Line, text, none)),
        Answer::Page(file) => page(alloc, message, file),
        Answer::Mutated(acted) => mutated(body, alloc, message, acted),
        Answer::Done => {
            let body = Bytes::from_vec(body);
            Ok(reply_with(message, Status::NoContent, Content::Json, body, none))
        }
        Answer::Refreshed => refreshed(body, alloc, message),
        Answer::Settled(counts) => settled(body, alloc, message, counts),
        Answer::Refused(refusal) => refuse(alloc, body, message, refusal),
    }
}
