//! Where a line ends.
ghost use Rattle.std.specs.Prelude.{◌≡◌, ◌<◌, ◌+◌, Some, None, take, drop, length, MatchOption};
ghost use Rattle.zy_frame.specs.Line.{first_line, chomped};

use memchr::memchr;
use zy_base::Blob;

// Returns the place of the first line feed.
pub(crate) fn line_end(bytes: &[u8]) -> Option<usize>
    ensures value { MatchOption result (first_line bytes.now ≡ None) (λ at. (at < length bytes.now)
        × (first_line bytes.now ≡ Some (record { line = take at bytes.now; after = drop (at + 1) bytes.now }))) }
{
    memchr(b'\n', bytes)
}

// Returns the line without one carriage return at its end.
pub(crate) fn chomp(line: &[u8]) -> &[u8]
    ensures value { result.now ≡ chomped line.now }
{
    if line.is_empty() {
        return line;
    }
    let last = line.len() - 1;
    if line[last] != b'\r' {
        return line;
    }
    &line[..last]
}

// Takes one carriage return off the end of the line. Takes no memory.
pub(crate) fn chomp_kept(line: &mut Blob)
    ensures value { line.new ≡ chomped line.old }
{
    let len = chomp(line.bytes()).len();
    line.truncate(len);
}
