//! What a core found at the other cores.
ghost use Rattle.std.specs.Prelude.{◌≡◌, ◌<◌};
ghost use Rattle.zy_steal.specs.Look.{look_at, IsBlank, Notes};

use std::marker::Model;

/// Why a claim took nothing.
#[derive(Clone, Copy, Drop)]
pub enum Look {
    /// The queue was empty.
    Empty { at: u64 },
    /// Another core took the place first.
    Raced { saw: u64, found: u64 },
}

/// The look at each of at most 64 cores, if there was one. It takes no memory.
#[derive(Drop)]
pub struct Looks {
    looks: [Option<Look>; 64],
}

impl Model for Looks {
    ghost use Rattle.std.specs.Prelude.{List, Option};
    ghost use Rattle.zy_steal.specs.declared.looks.Look.{Look};

    ghost Value = { List (Option Look) };

    ghost view = { λ l. l.looks };
}

impl Looks {
    /// Begins without a look.
    pub fn new() -> Looks
        ensures value { IsBlank result }
    {
        Looks { looks: [None; 64] }
    }

    /// Returns the look at this core; `None` if and only if there was none.
    pub fn look(&self, core: u32) -> Option<Look>
        ensures value { result ≡ look_at self.now core }
    {
        match self.looks.get(core as usize) {
            Some(look) => *look,
            None => None,
        }
    }

    // Notes the look at this core.
    pub(crate) fn note(&mut self, core: u32, look: Look)
        requires few { core < 64 }
        ensures value { Notes core look self.old self.new }
    {
        self.looks[core as usize] = Some(look);
    }
}
