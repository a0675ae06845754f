//! The law of mirrors.
ghost use Rattle.std.specs.Prelude.{ℕ, List};
ghost use Rattle.cat_feed.specs.Feed.{begun};
ghost use Rattle.cat_feed.specs.Mirror.{empty};
ghost use Rattle.cat_feed.specs.Turns.{AreInOrder, AreMirrored, Turn};

/// A mirror that asks a feed from its own place now and then, while others ask too and the documents change, and applies each
/// answer, has after each of them just the documents that it asked about.
#[tactic(auto, using(crate::proofs::Mirrored::mirrors_follow))]
pub fn mirrors_follow()
    ensures { (epoch : ℕ) (turns : List Turn) → AreInOrder turns → AreMirrored turns (begun epoch) empty }
{}
