//! The parts of blocks and rings that are for contracts only.
use std::marker::Brand;

/// The parts of a block that are for contracts only.
pub trait Marked {
    ghost use Rattle.zy_table.specs.declared.name.Name.{Name};

    /// The type of marks.
    ghost Mark: { Type 0 };

    /// Its mark: what must not change while the block is away from its home.
    ghost mark: { Self → Mark };

    /// Its label: the table that it belongs to.
    ghost label: { Self → Name };
}

/// The state of a connection before its home publishes it, for contracts only. The caller names it
/// by a marker type, which does not exist at run time.
pub trait Publishing {
    ghost use Rattle.zy_shuffle.specs.Run.{Before};

    ghost before: { Before };
}

/// The connection was idle: all that had arrived was finished, and the home had settled it, until
/// something new came.
pub struct WasIdle;

impl Publishing for WasIdle {
    ghost use Rattle.zy_shuffle.specs.Run.{was_idle};

    ghost before = { was_idle };
}

/// The connection was held: the home took it from the queue or from its doorbell, and something is
/// left to do.
pub struct WasHeld;

impl Publishing for WasHeld {
    ghost use Rattle.zy_shuffle.specs.Run.{was_held};

    ghost before = { was_held };
}

/// The label that the maker of a ring names, for contracts only. It is named by a marker type,
/// which does not exist at run time.
pub trait Label {
    ghost use Rattle.zy_table.specs.declared.name.Name.{Name};

    ghost label: { Name };
}

impl Label for Brand {
    ghost use Rattle.zy_table.specs.Name.{no_name};

    ghost label = { no_name };
}
