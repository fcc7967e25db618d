//! The calls of a list that are not made, as a chain.

use crate::numbers::small;
use std::alloc::Global;
use zy_base::NoMemory;

// A call of the list, or the two ends of the chain.
#[derive(Clone, Copy)]
struct Link {
    next: u32,
    back: u32,
    made: bool,
}

const ALONE: Link = Link {
    next: 0,
    back: 0,
    made: false,
};

/// The calls of a list that are not made, in the order of the list. The chain begins and ends at the length
/// of the list.
#[derive(Drop)]
pub struct Chain {
    links: Vec<Link>,
}

impl Chain {
    /// Chains all calls of a list of this length. May answer `NoMemory`.
    pub fn new(alloc: Global, count: usize) -> Result<Chain, NoMemory> {
        let links = Vec::from_elem(alloc, ALONE, count.saturating_add(1))?;
        let mut chain = Chain { links };
        let mut last = small(count);
        for offset in 0..count {
            chain.join(last, small(offset));
            last = small(offset);
        }
        chain.join(last, small(count));
        Ok(chain)
    }

    // One call comes right after another one.
    fn join(&mut self, before: u32, after: u32) {
        if let Some(own) = self.links.get_mut(before as usize) {
            own.next = after;
        }
        if let Some(own) = self.links.get_mut(after as usize) {
            own.back = before;
        }
    }

    fn link(&self, offset: u32) -> Link {
        match self.links.get(offset as usize) {
            Some(link) => *link,
            None => ALONE,
        }
    }

    fn set(&mut self, offset: u32, made: bool) {
        if let Some(own) = self.links.get_mut(offset as usize) {
            own.made = made;
        }
    }

    /// Returns the call after a call; the length of the list is before the first, and after the last.
    pub fn after(&self, offset: u32) -> u32 {
        self.link(offset).next
    }

    /// Checks whether a call is made; what is no call does not count.
    pub fn is_open(&self, offset: u32) -> bool {
        match self.links.get(offset as usize) {
            Some(link) => !link.made,
            None => false,
        }
    }

    /// Takes a call out.
    pub fn take(&mut self, offset: u32) {
        let Link { next, back, .. } = self.link(offset);
        self.join(back, next);
        self.set(offset, true);
    }

    /// Puts the call back that was taken out last.
    pub fn put_back(&mut self, offset: u32) {
        let Link { next, back, .. } = self.link(offset);
        self.join(back, offset);
        self.join(offset, next);
        self.set(offset, false);
    }
}
