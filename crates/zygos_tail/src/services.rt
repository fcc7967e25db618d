//! Service times that are given, from which those of commands are chosen at random.
use std::alloc::Global;
use std::io::Read;
use zy_base::NoMemory;

// The most times that are kept.
const MOST: usize = 1_048_576;

/// Reads the times of an input, in nanoseconds. Each has 4 bytes, the most significant first; bytes
/// beyond these times are ignored.
pub(crate) fn read_services<I: Read>(alloc: Global, input: &mut I) -> Result<Vec<u64>, NoMemory> {
    let mut times = Vec::new(alloc);
    match add_all(&mut times, input) {
        Ok(()) => Ok(times),
        Err(e) => {
            drop(times);
            Err(e)
        }
    }
}

// Appends the times of an input, to its end.
fn add_all<I: Read>(times: &mut Vec<u64>, input: &mut I) -> Result<(), NoMemory> {
    let mut buffer = [0u8; 65_536];
    let mut part = Part { value: 0, bytes: 0 };
    for _ in 0..u64::MAX {
        match input.read(&mut buffer) {
            Ok(0) | Err(_) => return Ok(()),
            Ok(n) => part.add_piece(times, &buffer[..n])?,
        }
    }
    Ok(())
}

// The bytes of a time that is not complete.
#[derive(Clone, Copy)]
struct Part {
    value: u64,
    bytes: u32,
}

impl Part {
    // Appends the times that a piece of the input completes.
    fn add_piece(&mut self, times: &mut Vec<u64>, piece: &[u8]) -> Result<(), NoMemory> {
        for byte in piece {
            let value = self.value.wrapping_mul(256).wrapping_add(u64::from(*byte));
            if self.bytes < 3 {
                self.value = value;
                self.bytes = self.bytes.wrapping_add(1);
            } else {
                self.value = 0;
                self.bytes = 0;
                if times.len() < MOST {
                    times.push(value)?;
                }
            }
        }
        Ok(())
    }
}
