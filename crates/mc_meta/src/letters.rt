//! Letters of flags.
ghost use Rattle.std.specs.Prelude.{◌≡◌, ◌+◌, ◌<◌, ◌≤◌, [], ◌∷◌, ◌++◌, ◌↔◌, length, slice_get, None};
ghost use Rattle.mc_meta.specs.Flags.{is_among};

use std::marker::Model;

/// At most six letters of flags, in the line's order. Contracts see the list of them.
#[derive(Drop)]
pub struct Letters {
    bytes: [u8; 6],
    count: u8,
}

impl Model for Letters {
    ghost use Rattle.std.specs.Prelude.{ℕ, List, ◌≤◌, take};

    ghost Value = { List ℕ };

    ghost view = { λ l. take l.count l.bytes };

    ghost invariant = { λ l. l.count ≤ 6 };
}

impl Letters {
    // Begins without a letter.
    pub(crate) fn new() -> Letters
        ensures value { result ≡ [] }
    {
        Letters {
            bytes: [0; 6],
            count: 0,
        }
    }

    /// Returns the letter at a place; `None` if and only if the place is past the end.
    pub fn get(&self, i: usize) -> Option<u8>
        ensures value { result ≡ slice_get self.now i }
        ensures none { (result ≡ None) ↔ (length self.now ≤ i) }
        ensures limit { length self.now ≤ 6 }
    {
        if i < self.count as usize {
            Some(self.bytes[i])
        } else {
            None
        }
    }

    /// Returns the letters, in the line's order.
    pub fn bytes(&self) -> &[u8]
        ensures value { result.now ≡ self.now }
    {
        &self.bytes[..self.count as usize]
    }

    /// Checks whether a letter is one of them.
    pub fn has(&self, letter: u8) -> bool
        ensures value { result ≡ is_among self.now letter }
    {
        self.bytes().contains(&letter)
    }

    // Appends a letter.
    pub(crate) fn push(&mut self, letter: u8)
        requires room { length self.old < 6 }
        ensures value { self.new ≡ self.old ++ letter ∷ [] }
    {
        self.bytes[self.count as usize] = letter;
        self.count += 1;
    }
}
