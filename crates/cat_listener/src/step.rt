//! What a server makes of the bytes of a connection.

ghost use Rattle.std.specs.Prelude.{◌≡◌};
ghost use Rattle.cat_listener.specs.Step.{text_bytes};

/// The bytes of a reply.
#[derive(Drop)]
pub enum Text {
    /// Bytes that were made for it.
    Made(Vec<u8>),
    /// Bytes that stand in the program. They need no memory.
    Fixed(&'static [u8]),
}

impl Text {
    /// The bytes.
    pub fn as_slice(&self) -> &[u8]
        ensures { result.now ≡ text_bytes self.now }
    {
        match self {
            Text::Made(bytes) => bytes.as_slice(),
            Text::Fixed(bytes) => bytes,
        }
    }
}

/// Of which part of a message more is wanted.
#[derive(Clone, Copy)]
pub enum Part {
    /// The head.
    Head,
    /// The body.
    Body,
}

/// What a server makes of the bytes that have come on a connection and aren't answered yet.
#[derive(Drop)]
pub enum Step {
    /// The reply to the message at the front, which has so many bytes.
    Reply(usize, Text),
    /// The reply to the message at the front, with which the connection ends.
    Last(Text),
    /// No whole message stands at the front. So many bytes there belong to none, and more is wanted of this part.
    More(usize, Part),
}
