//! What a seat at a core's token knows. No value of this type is made.
use zy_control::ControlPass;

/// How many times the seat put the token, how many times it took the token, whether the token was
/// there after the last of these steps, and the pass on the control words that was lent to the last
/// rest, if there was one.
pub struct View {
    pub rung: u64,
    pub taken: u64,
    pub token: bool,
    pub lent: Option<ControlPass>,
}
