//! Steps of a feeder.
ghost use Rattle.std.specs.Prelude.{◌≡◌, true, false, IfSome, IfNone};
ghost use Rattle.zy_rx.specs.Feed.{rings_of, sent_by, HasOffered};

use std::sync::Wait;
use zy_rx::{Fed, Feeder};

// Makes steps of a feeder that has not ended, until an item is handed back. Returns whether it has
// ended, and `None` if it is broken.
pub(crate) fn feed<R: Wait, F: Feeder>(rt: &R, feeder: &mut F, is_ended: bool) -> Option<bool>
    requires ended { is_ended ≡ true → F.ended feeder.old }
    requires fresh { is_ended ≡ false → ¬ F.ended feeder.old × ¬ F.broken feeder.old }
    ensures ended { IfSome result (λ e. e ≡ true → F.ended feeder.new) }
    ensures fresh { IfSome result (λ e. e ≡ false → ¬ F.ended feeder.new × ¬ F.broken feeder.new) }
    ensures broken { IfNone result (F.broken feeder.new) }
    ensures leads { F.leads feeder.old feeder.new }
    ensures rings { rings_of (F.inlets feeder.new) ≡ rings_of (F.inlets feeder.old) }
{
    if is_ended {
        return Some(true);
    }
    for _ in rt.forever() {
        match feeder.step() {
            Fed::Offered => {}
            Fed::Full => return Some(false),
            Fed::Ended => return Some(true),
            Fed::Broken => return None,
        }
    }
    unreachable!()
}

/// The result of a step of a feeder.
#[derive(Clone, Copy, Drop)]
pub struct Step {
    /// Whether an item was offered.
    pub has_offered: bool,
    /// Whether the feeder has ended.
    pub is_ended: bool,
}

/// Makes one step of a feeder that has not ended; if there is other work, only if the step need not
/// wait. Returns its result, and `None` if the feeder is broken.
pub fn feed_once<F: Feeder>(feeder: &mut F, is_ended: bool, has_work: bool) -> Option<Step>
    requires ended { is_ended ≡ true → F.ended feeder.old }
    requires fresh { is_ended ≡ false → ¬ F.ended feeder.old × ¬ F.broken feeder.old }
    ensures ended { IfSome result (λ s. s.is_ended ≡ true → F.ended feeder.new) }
    ensures fresh { IfSome result (λ s. s.is_ended ≡ false → ¬ F.ended feeder.new × ¬ F.broken feeder.new) }
    ensures broken { IfNone result (F.broken feeder.new) }
    ensures offered { IfSome result (λ s. s.has_offered ≡ true
        → HasOffered (F.inlets feeder.old) (F.inlets feeder.new)) }
    ensures unsent { IfSome result (λ s. s.has_offered ≡ false
        → sent_by (F.inlets feeder.new) ≡ sent_by (F.inlets feeder.old)) }
    ensures kept { is_ended ≡ true → feeder.new ≡ feeder.old }
    ensures leads { F.leads feeder.old feeder.new }
    ensures rings { rings_of (F.inlets feeder.new) ≡ rings_of (F.inlets feeder.old) }
{
    if is_ended || (has_work && feeder.may_wait()) {
        return Some(Step {
            has_offered: false,
            is_ended,
        });
    }
    match feeder.step() {
        Fed::Offered => Some(Step {
            has_offered: true,
            is_ended: false,
        }),
        Fed::Full => Some(Step {
            has_offered: false,
            is_ended: false,
        }),
        Fed::Ended => Some(Step {
            has_offered: false,
            is_ended: true,
        }),
        Fed::Broken => None,
    }
}
