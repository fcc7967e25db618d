//! What is found of the first answer in some bytes.

/// What is found of the first answer to a command in some bytes.
#[derive(Clone, Copy)]
pub enum First {
    /// The bytes begin with an answer of this length; 0 if the command asks for none.
    Whole { length: usize },
    /// The bytes neither begin with an answer, nor begin one.
    Refused,
    /// A server may have answered in a way that is not followed here.
    Other,
    /// No whole answer was found, or answers to the command are not read.
    Unread,
}
