//! The gate of virtual time: it takes no time, and notes which commands passed it.
use crate::zeros::zeros;
use std::alloc::Global;
use std::sync::atomic::{AtomicU32, AtomicU64, Ordering};
use zy_base::{Gate, NoMemory};

// The most commands of a hold.
const MOST: u64 = 64;

/// The commands that passed in a turn.
#[derive(Drop)]
pub(crate) struct TurnGate {
    count: AtomicU64,
    slots: Vec<Slot>,
}

// The connection of a command that passed, and its index there.
#[derive(Default, Drop)]
struct Slot {
    conn: AtomicU32,
    index: AtomicU64,
}

/// A command that passed.
#[derive(Clone, Copy, Drop)]
pub(crate) struct Passed {
    pub(crate) conn: u32,
    pub(crate) index: u64,
}

impl TurnGate {
    /// Makes a gate that was not passed yet.
    pub(crate) fn new(alloc: Global) -> Result<TurnGate, NoMemory> {
        let slots = zeros(alloc, MOST)?;
        Ok(TurnGate {
            count: AtomicU64::new(0),
            slots,
        })
    }

    /// Begins a turn.
    pub(crate) fn begin(&self) {
        self.count.store(0, Ordering::SeqCst);
    }

    /// Returns how many commands passed in this turn.
    pub(crate) fn count(&self) -> u64 {
        self.count.load(Ordering::SeqCst).min(MOST)
    }

    /// Returns the command that passed after this number of others.
    pub(crate) fn passed(&self, at: u64) -> Passed {
        match self.slots.get(at as usize) {
            Some(slot) => Passed {
                conn: slot.conn.load(Ordering::SeqCst),
                index: slot.index.load(Ordering::SeqCst),
            },
            None => Passed { conn: 0, index: 0 },
        }
    }
}

impl Gate for TurnGate {
    fn pass(&self, _core: u32, conn: u32, index: u64) {
        let at = self.count.load(Ordering::SeqCst);
        if let Some(slot) = self.slots.get(at as usize) {
            slot.conn.store(conn, Ordering::SeqCst);
            slot.index.store(index, Ordering::SeqCst);
        }
        self.count.store(at.saturating_add(1), Ordering::SeqCst);
    }
}
