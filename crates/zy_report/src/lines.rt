//! The lines of the table.
ghost use Rattle.std.specs.Prelude.{◌≡◌, ◌≤◌, ◌++◌, OnOk};
ghost use Rattle.zy_report.specs.Report.{right, count_text, line_text};

use itoa::Buffer;
use mc_calls::Tallied;
use zy_base::{Blob, NoMemory};

const SPACES: [u8; 12] = *b"            ";

/// Appends a line: what is counted, and the counts.
pub(crate) fn append_line(text: &mut Blob, name: &[u8], counts: Tallied) -> Result<(), NoMemory>
    ensures ok { OnOk result (text.new ≡ text.old ++ line_text name.now counts) }
{
    append_right(text, 3, name)?;
    append_count(text, counts.gets)?;
    append_count(text, counts.sets)?;
    append_count(text, counts.hits)?;
    append_count(text, counts.misses)?;
    append_count(text, counts.items)?;
    text.append(b"\n")
}

// Appends a count.
fn append_count(text: &mut Blob, count: u64) -> Result<(), NoMemory>
    ensures ok { OnOk result (text.new ≡ text.old ++ count_text count) }
{
    let mut buffer = Buffer::new();
    append_right(text, 12, buffer.format(count).as_bytes())
}

// Appends some bytes, after spaces that fill up this many places.
fn append_right(text: &mut Blob, places: usize, bytes: &[u8]) -> Result<(), NoMemory>
    requires few { places ≤ 12 }
    ensures ok { OnOk result (text.new ≡ text.old ++ right places bytes.now) }
{
    let missing = places.saturating_sub(bytes.len());
    text.append(&SPACES[..missing])?;
    text.append(bytes)
}
