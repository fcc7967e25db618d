//! Whether the times of a session fit its answers.
ghost use Rattle.std.specs.Prelude.{◌≡◌, ◌<◌, ◌≤◌, ℕ, Bool, true, List, length, take, IfSome};
ghost use Rattle.std.specs.List.{slice_get};
ghost use Rattle.zy_capture.specs.declared.record.Record.{Record};
ghost use Rattle.zy_times.specs.First.{AreRises};
ghost use Rattle.zy_times.specs.Sessions.{sent_in, marks_at, IsEndedIn, MarksFitIn};
ghost use Rattle.zy_times.specs.Times.{trues, number_if};
ghost use Rattle.zy_verdict.specs.Numbers.{ended_among};

/// Checks whether the marks of a session fit, by the moments at which its commands were sent and
/// its marks came. Commands past the end of the flags are not answered.
pub fn marks_fit(sent: &[u32], marks: &[u32], answered: &[bool]) -> bool
    requires size { length answered.now ≤ length sent.now }
    ensures fit { result ≡ true → (records : List Record) (conn session : ℕ)
        → AreRises (sent_in records conn session) (length records) sent.now
        → AreRises (marks_at records conn session) (length records) marks.now
        → (moment : ℕ) → MarksFitIn records conn session answered.now moment }
{
    let mut ended = 0;
    for index in 0..answered.len() {
        let mark = moment_at(marks, ended);
        if !is_matched(answered[index], sent[index], mark) {
            return false;
        }
        ended += number_if(answered[index]);
    }
    marks.len() <= ended
}

/// Checks whether a command of a session is not ended at a moment, by the moments at which marks of
/// the session came, and by how many answered commands come before it.
pub fn is_unended(marks: &[u32], before: usize, moment: u32) -> bool
    ensures unended { result ≡ true → (records : List Record) (conn session index : ℕ) (answered : List Bool)
        → AreRises (marks_at records conn session) (length records) marks.now
        → trues (take index answered) ≡ before → moment ≤ length records
        → IsEndedIn records conn session answered index moment → Prim.⊥ }
{
    is_before(moment, moment_at(marks, before))
}

/// Returns how many commands this number of marks ends.
pub fn ended_by(marks: usize, answered: &[bool]) -> usize
    ensures value { result ≡ ended_among marks answered.now }
{
    let mut left = marks;
    let mut ended = 0;
    for index in 0..answered.len() {
        if left == 0 {
            return ended;
        }
        left -= number_if(answered[index]);
        ended += 1;
    }
    ended
}

// Returns 1 if the flag is true, and 0 otherwise.
fn number_if(flag: bool) -> usize
    ensures value { result ≡ number_if flag }
{
    if flag { 1 } else { 0 }
}

// Returns the moment at an offset, if there is one.
fn moment_at(moments: &[u32], at: usize) -> Option<u32>
    ensures value { result ≡ slice_get moments.now at }
{
    if at < moments.len() {
        Some(moments[at])
    } else {
        None
    }
}

// Checks whether a moment comes before that of a mark, if there is one.
fn is_before(moment: u32, mark: Option<u32>) -> bool
    ensures before { result ≡ true → IfSome mark (λ m. moment < m) }
{
    match mark {
        Some(mark) => moment < mark,
        None => true,
    }
}

// Checks whether a command, if it is answered, was sent when the mark that ends it came.
fn is_matched(answered: bool, sent: u32, mark: Option<u32>) -> bool
    ensures matched { result ≡ true → answered ≡ true → IfSome mark (λ m. sent ≤ m) }
{
    match mark {
        Some(mark) => !answered || sent <= mark,
        None => true,
    }
}
