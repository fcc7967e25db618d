//! Lists of moments.
ghost use Rattle.std.specs.Prelude.{◌≡◌, ◌++◌, replicate, OnOk};
ghost use Rattle.std.specs.List.{slice_get};
ghost use Rattle.zy_times.specs.Times.{number_if};

use zy_base::NoMemory;

/// Appends the same moment this number of times.
pub(crate) fn push_many(moments: &mut Vec<u32>, moment: u32, number: usize) -> Result<(), NoMemory>
    ensures more { OnOk result (moments.new.items ≡ moments.old.items ++ replicate number moment) }
{
    for _ in 0..number {
        moments.push(moment)?;
    }
    Ok(())
}

/// Returns the moment at an offset, if there is one.
pub(crate) fn moment_at(moments: &Vec<u32>, at: usize) -> Option<u32>
    ensures value { result ≡ slice_get moments.now.items at }
{
    if at < moments.len() {
        Some(moments[at])
    } else {
        None
    }
}

/// Returns 1 if the flag is true, and 0 otherwise.
pub(crate) fn number_if(flag: bool) -> usize
    ensures value { result ≡ number_if flag }
{
    if flag { 1 } else { 0 }
}
