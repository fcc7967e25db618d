//! What was learned from passes that failed.

use crate::guesses::Guesses;
use crate::settling::{Piece, Settled};
use std::alloc::Global;
use zy_base::NoMemory;
use zy_refute::Observed;
use zy_sources::{NONE, at, changes, small};

// What was learned of a call.
#[derive(Clone, Copy)]
struct Lesson {
    /// The change that comes before it at its key, or `NONE`.
    after: u32,
    /// The change that comes after it if it changes nothing, or `NONE`.
    until: u32,
    /// How often it failed.
    failed: u32,
}

const NO_LESSON: Lesson = Lesson {
    after: NONE,
    until: NONE,
    failed: 0,
};

/// What was learned from passes that failed: which calls come before which, how often a call failed, and of
/// which keys the guess is left of what they had at first.
#[derive(Drop)]
pub(crate) struct Learned {
    lessons: Vec<Lesson>,
    pub(crate) guesses: Guesses,
}

impl Learned {
    // Begins with guesses.
    pub(crate) fn new(alloc: Global, count: usize, guesses: Guesses) -> Result<Learned, NoMemory> {
        match Vec::from_elem(alloc, NO_LESSON, count) {
            Ok(lessons) => Ok(Learned { lessons, guesses }),
            Err(_) => {
                drop(guesses);
                Err(NoMemory)
            }
        }
    }

    fn of(&self, call: u32) -> Lesson {
        match self.lessons.get(call as usize) {
            Some(lesson) => *lesson,
            None => NO_LESSON,
        }
    }

    // Returns the change that comes before a call, or `NONE`.
    pub(crate) fn before(&self, call: u32) -> u32 {
        self.of(call).after
    }

    // Checks whether a call that changes nothing comes before a change.
    pub(crate) fn comes_before(&self, call: u32, change: u32) -> bool {
        self.of(call).until == change
    }

    // Returns how often a call failed.
    pub(crate) fn failures(&self, call: u32) -> u32 {
        self.of(call).failed
    }

    // Learns what was settled.
    pub(crate) fn learn_all(&mut self, observed: &[Observed], settled: &Settled) {
        for call in &settled.tried {
            self.fail(small(*call));
        }
        for piece in &settled.pieces {
            self.learn(observed, piece);
            if piece.unguessed {
                self.guesses.forget(piece.key);
            }
        }
    }

    // Notes that a call failed.
    fn fail(&mut self, call: u32) {
        if let Some(own) = self.lessons.get_mut(call as usize) {
            own.failed = own.failed.saturating_add(1);
        }
    }

    // Learns a piece of the order at a key.
    fn learn(&mut self, observed: &[Observed], piece: &Piece) {
        let mut last = piece.last;
        for call in &piece.calls {
            if let Some(own) = self.lessons.get_mut(*call as usize) {
                own.after = last;
                own.until = NONE;
            }
            if let Some(one) = observed.get(*call as usize)
                && changes(one)
            {
                last = *call;
            }
        }
        let mut next = NONE;
        let mut place = piece.calls.len();
        for _ in 0..piece.calls.len() {
            place = place.saturating_sub(1);
            let call = at(piece.calls.as_slice(), small(place));
            if let Some(one) = observed.get(call as usize)
                && changes(one)
            {
                next = call;
            } else if let Some(own) = self.lessons.get_mut(call as usize) {
                own.until = next;
            }
        }
    }
}
