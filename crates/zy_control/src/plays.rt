//! What a seat learns from each step on the control words. These types are for proofs only.
ghost use Rattle.zy_control.specs.View.{gave, newcomer};
ghost use Rattle.zy_control.specs.Step.{counts, sees_done, sees_stop, stops, announces, withdraws, sees_sleepers};
ghost use Rattle.zy_control.specs.Step.{enters};

use crate::view::View;
use atomic_table::{Play, Split};

// A fetch-add of done, by which a core counts itself.
pub(crate) struct Counts;

impl Play<u8, View> for Counts {
    ghost then = { λ step before found after. counts before found after };
}

// A load of done.
pub(crate) struct SeesDone;

impl Play<u8, View> for SeesDone {
    ghost then = { λ step before found after. sees_done before found after };
}

// A load of stop.
pub(crate) struct SeesStop;

impl Play<u8, View> for SeesStop {
    ghost then = { λ step before found after. sees_stop before found after };
}

// A fetch-or of stop.
pub(crate) struct Stops;

impl Play<u8, View> for Stops {
    ghost then = { λ step before found after. stops step.first before found after };
}

// A fetch-or of sleepers, by which a core announces itself.
pub(crate) struct Announces;

impl Play<u8, View> for Announces {
    ghost then = { λ step before found after. announces step.first before found after };
}

// A fetch-and of sleepers, by which a core withdraws.
pub(crate) struct Withdraws;

impl Play<u8, View> for Withdraws {
    ghost then = { λ step before found after. withdraws step.first before found after };
}

// A load of sleepers.
pub(crate) struct SeesSleepers;

impl Play<u8, View> for SeesSleepers {
    ghost then = { λ step before found after. sees_sleepers before found after };
}

// A load of stop that makes the seat of a watcher.
pub(crate) struct Enters;

impl Play<u8, View> for Enters {
    ghost then = { λ step before found after. enters before found after };
}

// The root gives the seat of a core.
pub(crate) struct Gives;

impl Split<View> for Gives {
    ghost left = { gave };

    ghost right = { newcomer };
}
