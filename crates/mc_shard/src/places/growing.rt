//! More lines.
ghost use Rattle.std.specs.Prelude.{◌≡◌, ◌<◌, IfOk};
ghost use Rattle.mc_shard.specs.Places.{AreEmpty, doubled, half};

use crate::line::Line;
use std::alloc::Global;
use zy_base::NoMemory;

// The fewest lines.
const FIRST_LINES: usize = 16;

// Makes the first lines, without a slot.
pub(super) fn empty_lines(alloc: Global) -> Result<Vec<Line>, NoMemory>
    ensures empty { IfOk result (λ lines. AreEmpty lines.items) }
{
    let Ok(mut lines) = Vec::with_capacity(alloc, FIRST_LINES) else {
        return Err(NoMemory);
    };
    for _ in 0..FIRST_LINES {
        lines.push_reserved(Line::new(false));
    }
    Ok(lines)
}

// Makes twice the lines. Each line becomes two, by the last bit of those that numbers then have.
pub(super) fn doubled(lines: &Vec<Line>, shift: u32) -> Result<Vec<Line>, NoMemory>
    requires within { shift < 32 }
    ensures lines { IfOk result (λ new. new.items ≡ doubled shift lines.now.items) }
{
    let Some(count) = lines.len().checked_mul(2) else {
        return Err(NoMemory);
    };
    let Ok(mut twice) = Vec::with_capacity(*lines.allocator(), count) else {
        return Err(NoMemory);
    };
    for at in 0..lines.len() {
        twice.push_reserved(half_of(&lines[at], shift, 0));
        twice.push_reserved(half_of(&lines[at], shift, 1));
    }
    Ok(twice)
}

// Returns the half of a line whose slots have this bit next.
fn half_of(line: &Line, shift: u32, bit: u32) -> Line
    requires within { shift < 32 }
    ensures value { result ≡ half shift bit line.now }
{
    let mut half = Line::new(line.is_marked());
    let slots = line.slots();
    for at in 0..slots.len() {
        let slot = slots[at];
        if (slot.hash >> shift) % 2 == bit {
            half.push(slot);
        }
    }
    half
}
