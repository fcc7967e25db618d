//! Needs of calls.

use mc_allows::Fact;

/// A fact that is needed before the call at this place of a list.
#[derive(Drop)]
pub struct Need {
    pub fact: Fact,
    pub reader: usize,
}
