//! The command words of session lines.
ghost use Rattle.std.specs.Prelude.{◌≡◌};
ghost use Rattle.cat_session_lines.specs.Keywords.{keyword_named as the_keyword, keyword_text};

/// What a session line asks for, by its first word.
#[derive(Clone, Copy, Debug, Drop, PartialEq, Eq)]
pub enum Keyword {
    Full,
    Delta,
    Put,
    Drop,
    Refresh,
    Forget,
    Clock,
    Take,
    Finish,
    Stitch,
    Place,
    Settle,
    Quiet,
    State,
    Get,
    List,
    Page,
    Facets,
    Many,
    Conflicts,
    Failed,
    Orphans,
}

const KEYWORDS: [Keyword; 22] = [
    Keyword::Full,
    Keyword::Delta,
    Keyword::Put,
    Keyword::Drop,
    Keyword::Refresh,
    Keyword::Forget,
    Keyword::Clock,
    Keyword::Take,
    Keyword::Finish,
    Keyword::Stitch,
    Keyword::Place,
    Keyword::Settle,
    Keyword::Quiet,
    Keyword::State,
    Keyword::Get,
    Keyword::List,
    Keyword::Page,
    Keyword::Facets,
    Keyword::Many,
    Keyword::Conflicts,
    Keyword::Failed,
    Keyword::Orphans,
];

impl Keyword {
    /// How the keyword is written, as `conflicts`.
    pub fn text(self) -> &'static str
        ensures { result.now ≡ keyword_text self }
    {
        match self {
            Keyword::Full => "full",
            Keyword::Delta => "delta",
            Keyword::Put => "put",
            Keyword::Drop => "drop",
            Keyword::Refresh => "refresh",
            Keyword::Forget => "forget",
            Keyword::Clock => "clock",
            Keyword::Take => "take",
            Keyword::Finish => "finish",
            Keyword::Stitch => "stitch",
            Keyword::Place => "place",
            Keyword::Settle => "settle",
            Keyword::Quiet => "quiet",
            Keyword::State => "state",
            Keyword::Get => "get",
            Keyword::List => "list",
            Keyword::Page => "page",
            Keyword::Facets => "facets",
            Keyword::Many => "many",
            Keyword::Conflicts => "conflicts",
            Keyword::Failed => "failed",
            Keyword::Orphans => "orphans",
        }
    }
}

/// The keyword that is written so; none for other bytes.
pub fn keyword_named(bytes: &[u8]) -> Option<Keyword>
    ensures { result ≡ the_keyword bytes.now }
{
    KEYWORDS
        .iter()
        .copied()
        .find(|keyword| keyword.text().as_bytes() == bytes)
}
