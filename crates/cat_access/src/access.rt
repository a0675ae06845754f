//! What is given of who may ask.
use cat_http::body::Texts;
use std::alloc::Global;

/// Under which names browsers may ask, and whose pages may have them change something.
#[derive(Drop)]
pub struct Access {
    /// The names of the server, beside `localhost` and addresses.
    pub hosts: Texts,
    /// The origins, beside the server's own, whose pages may change something, as `https://portal.example`.
    pub origins: Texts,
}

impl Access {
    ghost use Rattle.std.specs.Prelude.{◌≡◌};
    ghost use Rattle.cat_access.specs.Browser.{no_access};

    /// No names and no origins are given. It takes no memory.
    pub fn none(alloc: Global) -> Access
        ensures { result ≡ no_access }
    {
        Access {
            hosts: Texts::from_vec(Vec::new(alloc)),
            origins: Texts::from_vec(Vec::new(alloc)),
        }
    }
}
