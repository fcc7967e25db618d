//! Items files that are read, written and faulty.
use crate::failing::sink_of;
use std::alloc::Global;
use zy_base::{FileFault, NoMemory};
use zy_items::{ItemsReader, Standing, write_items};

const ITEMS: &[u8] = b"ZYGITM1\n\0\0\0\0\0\0\0\x1c\
    I\0\0\0\0\0\0\0\x01a\0\0\0\0\0\0\0\0\0\0\0\x1c\0\0\0\0\0\0\0\x01x\
    I\0\0\0\0\0\0\0\x02ab\0\0\0\x07\0\0\0\0\0\0\0\x03\0\0\0\0\0\0\0\0\
    L\0\0\0\0\0\0\0\x01bL\0\0\0\0\0\0\0\x01cE";

// Reads these bytes, with another byte at a place if it is one of theirs.
fn read(alloc: Global, at: usize, other: u8) -> Result<Standing, FileFault> {
    let mut reader = ItemsReader::new(alloc);
    let mut place = 0usize;
    for byte in ITEMS {
        let byte = if place == at { other } else { *byte };
        let _ = reader.feed(byte);
        place = place.saturating_add(1);
    }
    reader.end()
}

// Checks whether what was read is written as it was.
fn is_written(alloc: Global, standing: &Standing) -> Result<bool, NoMemory> {
    let mut sink = sink_of(alloc, 100, 1000)?;
    let is_whole = write_items(&mut sink, standing).is_ok();
    let is_same = sink.bytes() == Some(ITEMS);
    drop(sink);
    Ok(is_whole && is_same)
}

#[test]
fn an_items_file_is_written_as_it_was_read(rt: HostRuntime) {
    let is_same = match read(rt.alloc(), ITEMS.len(), 0) {
        Ok(standing) => {
            let written = is_written(rt.alloc(), &standing);
            drop(standing);
            matches!(written, Ok(true))
        }
        Err(_) => false,
    };
    assert!(rt; is_same);
}

// Returns the place of the fault if this byte has another value.
fn fault_at(alloc: Global, at: usize, other: u8) -> Option<u64> {
    match read(alloc, at, other) {
        Ok(standing) => {
            drop(standing);
            None
        }
        Err(FileFault::Form { at }) => Some(at),
        Err(_) => None,
    }
}

#[test]
fn each_fault_of_an_items_file_is_at_its_field(rt: HostRuntime) {
    let alloc = rt.alloc();
    assert!(rt; fault_at(alloc, 7, 0) == Some(7));
    assert!(rt; fault_at(alloc, 16, b'J') == Some(16));
    assert!(rt; fault_at(alloc, 24, 0) == Some(17));
    assert!(rt; fault_at(alloc, 24, 251) == Some(17));
    assert!(rt; fault_at(alloc, 37, 29) == Some(30));
    assert!(rt; fault_at(alloc, 56, b'A') == Some(56));
    assert!(rt; fault_at(alloc, 88, b'I') == Some(88));
    assert!(rt; fault_at(alloc, 97, b'b') == Some(97));
}
