//! Merging the histories of all shards.
ghost use Rattle.std.specs.Prelude.{◌≡◌, None, IfOk, IfErr};
ghost use Rattle.mc_calls.specs.Order.{IsOrdered, IsMergeOf, history_of};

use crate::journal::Journal;
use mc_calls::Holds;
use mc_history::Histories;

/// Makes the journal of the entries of all histories, by stamp and then by shard, and of the holds.
/// No entry is moved: the journal keeps the histories, and a walk through its entries merges them
/// on the way.
///
/// Takes no memory, and never answers `Err`.
pub fn merge(histories: Histories, holds: Holds) -> Result<Journal, (Histories, Holds)>
    requires ordered { (shard : _) → IsOrdered None (history_of histories shard) }
    ensures ok { IfOk result (λ journal. IsMergeOf histories journal.entries) }
    ensures holds { IfOk result (λ journal. journal.holds ≡ holds) }
    ensures returned { IfErr result (λ e. e.0 ≡ histories) }
    ensures kept { IfErr result (λ e. e.1 ≡ holds) }
{
    Ok(Journal::apart(histories.into_vec(), holds))
}
