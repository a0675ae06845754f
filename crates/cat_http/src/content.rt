//! What the body of a reply is.
ghost use Rattle.std.specs.Prelude.{◌≡◌};
ghost use Rattle.cat_http.specs.Content as spec;

/// What the body of a reply is.
#[derive(Clone, Copy, Debug, Drop, PartialEq, Eq)]
pub enum Content {
    /// JSON: what the catalogue answers.
    Json,
    /// A line of text.
    Line,
    /// The document of the page.
    Document,
    /// A style sheet of the page.
    Style,
    /// A script of the page.
    Script,
    /// A picture of the page.
    Picture,
}

impl Content {
    /// The media type (RFC 9110, section 8.3.1).
    pub fn media_type(self) -> &'static str
        ensures { result.now ≡ spec.media_type self }
    {
        match self {
            Content::Json => "application/json",
            Content::Line => "text/plain; charset=utf-8",
            Content::Document => "text/html; charset=utf-8",
            Content::Style => "text/css; charset=utf-8",
            Content::Script => "text/javascript; charset=utf-8",
            Content::Picture => "image/svg+xml",
        }
    }

    /// Whether a browser is told what it may do with a body.
    pub(crate) fn has_rules(self) -> bool
        ensures { result ≡ spec.has_rules self }
    {
        !matches!(self, Content::Json)
    }

    /// What a browser is told of a body beside its type: nothing of JSON.
    pub(crate) fn rules(self) -> &'static str
        ensures { result.now ≡ spec.rules_of self }
    {
        match self {
            Content::Json => "",
            _ => {
                "Content-Security-Policy: default-src 'none'; script-src 'self'; style-src 'self'; connect-src 'self'; img-src 'self'; \
                 base-uri 'none'; form-action 'none'; frame-ancestors 'none'\r\nX-Content-Type-Options: nosniff\r\nCache-Control: no-cache\r\n"
            }
        }
    }
}
