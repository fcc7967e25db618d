//! When a command was sent and ended.
ghost use Rattle.std.specs.Prelude.{◌≡◌, true, slice_get};
ghost use Rattle.zy_times.specs.Times.{number_if};
ghost use Rattle.zy_outputs.specs.Sessions.{IsEarlyMark};

/// Returns the moment at an offset, if there is one.
pub(crate) fn moment_at(moments: &[u32], at: usize) -> Option<u32>
    ensures value { result ≡ slice_get moments.now at }
{
    if at < moments.len() {
        Some(moments[at])
    } else {
        None
    }
}

/// Checks whether a mark came before the command was sent that it ends at the earliest.
pub(crate) fn is_early(sent: u32, mark: Option<u32>) -> bool
    ensures early { result ≡ true → IsEarlyMark sent mark }
{
    match mark {
        Some(mark) => mark < sent,
        None => false,
    }
}

/// Returns 1 if the flag is true, and 0 otherwise.
pub(crate) fn number_if(flag: bool) -> usize
    ensures value { result ≡ number_if flag }
{
    if flag { 1 } else { 0 }
}
