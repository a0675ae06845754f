//! The statuses of replies.
ghost use Rattle.std.specs.Prelude.{◌≡◌};
ghost use Rattle.cat_http.specs.Status as spec;

/// The status of a reply.
#[derive(Clone, Copy, Debug, Drop, PartialEq, Eq)]
pub enum Status {
    /// 200: what was asked for stands in the body.
    Ok,
    /// 204: it is done, and there is no body.
    NoContent,
    /// 400: the message is malformed.
    BadRequest,
    /// 401: the message doesn't say who sends it.
    Unauthorized,
    /// 403: who sends the message may not ask this.
    Forbidden,
    /// 404: there is no such thing.
    NotFound,
    /// 405: the path has other methods.
    MethodNotAllowed,
    /// 409: what is asked doesn't fit what stands.
    Conflict,
    /// 410: it isn't there any more.
    Gone,
    /// 413: the body is too large.
    PayloadTooLarge,
    /// 431: the head is too large.
    RequestHeaderFieldsTooLarge,
    /// 500: a counter is at its end.
    InternalServerError,
    /// 501: the message needs what isn't there.
    NotImplemented,
    /// 503: what would change couldn't be kept.
    ServiceUnavailable,
    /// 507: want of memory.
    InsufficientStorage,
}

impl Status {
    /// The number.
    pub fn code(self) -> u16
        ensures { result ≡ spec.code self }
    {
        match self {
            Status::Ok => 200,
            Status::NoContent => 204,
            Status::BadRequest => 400,
            Status::Unauthorized => 401,
            Status::Forbidden => 403,
            Status::NotFound => 404,
            Status::MethodNotAllowed => 405,
            Status::Conflict => 409,
            Status::Gone => 410,
            Status::PayloadTooLarge => 413,
            Status::RequestHeaderFieldsTooLarge => 431,
            Status::InternalServerError => 500,
            Status::NotImplemented => 501,
            Status::ServiceUnavailable => 503,
            Status::InsufficientStorage => 507,
        }
    }

    /// The phrase.
    pub fn phrase(self) -> &'static str
        ensures { result.now ≡ spec.phrase self }
    {
        match self {
            Status::Ok => "OK",
            Status::NoContent => "No Content",
            Status::BadRequest => "Bad Request",
            Status::Unauthorized => "Unauthorized",
            Status::Forbidden => "Forbidden",
            Status::NotFound => "Not Found",
            Status::MethodNotAllowed => "Method Not Allowed",
            Status::Conflict => "Conflict",
            Status::Gone => "Gone",
            Status::PayloadTooLarge => "Payload Too Large",
            Status::RequestHeaderFieldsTooLarge => "Request Header Fields Too Large",
            Status::InternalServerError => "Internal Server Error",
            Status::NotImplemented => "Not Implemented",
            Status::ServiceUnavailable => "Service Unavailable",
            Status::InsufficientStorage => "Insufficient Storage",
        }
    }

    /// Whether a reply with this status has a body, and says what it is.
    pub(crate) fn has_content(self) -> bool
        ensures { result ≡ spec.has_content self }
    {
        match self {
            Status::NoContent => false,
            _ => true,
        }
    }

    /// Whether a reply with this status says the methods of the path.
    pub(crate) fn has_methods(self) -> bool
        ensures { result ≡ spec.has_methods self }
    {
        match self {
            Status::MethodNotAllowed => true,
            _ => false,
        }
    }

    /// Whether a reply with this status asks for a token.
    pub(crate) fn has_challenge(self) -> bool
        ensures { result ≡ spec.has_challenge self }
    {
        match self {
            Status::Unauthorized => true,
            _ => false,
        }
    }
}
