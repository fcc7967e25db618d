//! The magic with which a text begins, byte after byte.
ghost use Rattle.std.specs.Prelude.{◌≡◌, ◌+◌};
ghost use Rattle.zy_read.specs.Magic.{magic_step, IsInMagic};
ghost use Rattle.zy_read.specs.declared.magic.MagicStep.TheVariants.{Next};

/// The part of a magic that is next: six letters, the digit of a version, which is 1 or 2, and a
/// line feed.
#[derive(Clone, Copy)]
pub enum MagicPart {
    /// A letter.
    Letters,
    /// The digit.
    Digit,
    /// The line feed that ends the magic of this version.
    LineFeed { version: u32 },
}

/// What a byte of a magic does.
#[derive(Clone, Copy)]
pub enum MagicStep {
    /// This part is next.
    Next(MagicPart),
    /// The magic of this version is whole.
    Whole { version: u32 },
    /// The byte is not one of the magic.
    Wrong,
}

impl MagicPart {
    /// Returns what this byte does, when this part is next and `at` bytes were read.
    pub fn step(self, letters: &[u8; 6], at: u64, byte: u8) -> MagicStep
        requires within { IsInMagic self at }
        ensures value { result ≡ magic_step self letters.now at byte }
        ensures next { (part : _) → result ≡ Next part → IsInMagic part (at + 1) }
    {
        match self {
            MagicPart::Letters if byte != letters[at as usize] => MagicStep::Wrong,
            MagicPart::Letters if at == 5 => MagicStep::Next(MagicPart::Digit),
            MagicPart::Letters => MagicStep::Next(MagicPart::Letters),
            MagicPart::Digit => match byte {
                b'1' => MagicStep::Next(MagicPart::LineFeed { version: 1 }),
                b'2' => MagicStep::Next(MagicPart::LineFeed { version: 2 }),
                _ => MagicStep::Wrong,
            },
            MagicPart::LineFeed { version } if byte == b'\n' => MagicStep::Whole { version },
            MagicPart::LineFeed { .. } => MagicStep::Wrong,
        }
    }
}
