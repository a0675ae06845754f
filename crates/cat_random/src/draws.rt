//! Numbers that are drawn, each from the one before.

const MODULUS: u64 = 2_147_483_648;

/// A row of draws, which its seed tells.
#[derive(Drop)]
pub struct Draws {
    state: u64,
}

impl Draws {
    /// The row of a seed.
    pub fn new(seed: u64) -> Draws {
        Draws {
            state: seed % MODULUS,
        }
    }

    /// The next number, below this one; 0 where this is 0.
    pub fn below(&mut self, most: u64) -> u64 {
        let product = self.state.wrapping_mul(1_103_515_245);
        self.state = product.wrapping_add(12_345) % MODULUS;
        (self.state / 65_536).checked_rem(most).unwrap_or(0)
    }

    /// One of some words, of which there is one at least.
    pub fn word(&mut self, words: &[&'static str]) -> &'static str {
        let place = self.below(words.len() as u64) as usize;
        words.get(place).copied().unwrap_or("")
    }
}
