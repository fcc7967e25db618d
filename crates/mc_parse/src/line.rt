//! What a line says.
use crate::asking::Ask;
use crate::error_line::ErrorLine;

/// What a line of a classic command says.
#[derive(Clone, Copy)]
pub(crate) enum Line<'a> {
    /// The line has this fault.
    Fault(ErrorLine),
    /// The line asks for this, quietly or not.
    Asks { ask: Ask<'a>, quiet: bool },
}
