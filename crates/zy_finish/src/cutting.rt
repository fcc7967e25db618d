//! The bytes of parts of an output.
ghost use Rattle.std.specs.Prelude.{◌≡◌, take, drop};
ghost use Rattle.std.specs.List.{concat};
ghost use Rattle.zy_finish.specs.Left.{bytes_between};

use zy_calls::Output;

// Returns the first `count` texts, joined; all of them if there are fewer.
fn first(output: &Output, count: u64) -> &[u8]
    ensures value { result.now ≡ concat (take count output.now.texts) }
{
    if count < output.count() {
        output.upto(count)
    } else {
        output.bytes()
    }
}

/// Returns the texts from one number up to another, joined. Takes no memory.
pub(crate) fn between(output: &Output, start: u64, stop: u64) -> &[u8]
    ensures value { result.now ≡ bytes_between start stop output.now.texts }
{
    if stop < start {
        return &[];
    }
    let skipped = first(output, start).len();
    &first(output, stop)[skipped..]
}

/// Returns the texts from one number on, joined. Takes no memory.
pub(crate) fn behind(output: &Output, start: u64) -> &[u8]
    ensures value { result.now ≡ concat (drop start output.now.texts) }
{
    let skipped = first(output, start).len();
    &output.bytes()[skipped..]
}
