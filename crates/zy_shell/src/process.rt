//! What a program does with its process: its arguments, and its end without memory.

use crate::failure::Failure;
use crate::saying::say;
use crate::standard::StdSink;
use std::alloc::Global;
use std::env::{Env, FillError};
use std::io::Write;
use std::process::ExitCode;
use zy_base::{Blob, NoMemory};

/// Writes to standard error that there is no memory for the program's arguments or for a buffer, and
/// returns the exit status. Takes no memory.
pub fn without_memory<W: Write + Drop>(error: W, program: &'static [u8]) -> ExitCode {
    let mut says = StdSink::new(error);
    let answer: Result<(), Failure> = Err(Failure::OutOfMemory);
    say(&mut says, program, b"", &answer);
    drop(says);
    ExitCode::from(Failure::OutOfMemory.status())
}

/// Returns the arguments, as bytes.
pub fn words<R: Env>(rt: &R, alloc: Global) -> Result<Vec<Blob>, NoMemory> {
    let mut words = Vec::new(alloc);
    match add_words(rt, alloc, &mut words) {
        Ok(()) => Ok(words),
        Err(e) => {
            drop(words);
            Err(e)
        }
    }
}

fn add_words<R: Env>(rt: &R, alloc: Global, words: &mut Vec<Blob>) -> Result<(), NoMemory> {
    for i in 1..usize::MAX {
        match word(rt, alloc, i)? {
            Some(word) => words.push(word)?,
            None => break,
        }
    }
    Ok(())
}

// Returns one argument, by a buffer that doubles until it fits.
fn word<R: Env>(rt: &R, alloc: Global, i: usize) -> Result<Option<Blob>, NoMemory> {
    let mut size = 256usize;
    for _ in 0..usize::BITS {
        let mut buffer = vec![in alloc; 0u8; size]?;
        match rt.arg(i, buffer.as_mut_slice()) {
            Ok(length) => {
                buffer.truncate(length);
                return Ok(Some(Blob::from_vec(buffer)));
            }
            Err(FillError::NotPresent) => {
                drop(buffer);
                return Ok(None);
            }
            Err(FillError::TooLong) => {
                drop(buffer);
                size = size.saturating_add(size);
            }
        }
    }
    Err(NoMemory)
}
