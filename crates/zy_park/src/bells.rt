//! The bells of all cores.
ghost use Rattle.std.specs.Prelude.{◌≡◌, ◌≢◌, ◌<◌, ◌≤◌, ℕ, length, true, Some, None, slice_set, IfOk, OnOk, OnErr};
ghost use Rattle.zy_park.specs.Pass.{new_root, rooted, IsFree, GaveNone, new_pass, ringing, ringing_from, ringing_each};
ghost use Rattle.zy_park.specs.Pass.{ringing_each_from, resting};

mod making;
mod ringing;

use crate::bell::{Bell, Lent};
use crate::bells::making::{add_all, enter_each, take_sleeper};
use crate::bells::ringing::{rest_at, ring_at, ring_each_at};
use crate::pass::{BellPass, BellRoot};
use std::alloc::Global;
use std::marker::{Brand, Model};
use std::sync::Wait;
use zy_base::NoMemory;
use zy_control::ControlPass;

/// The bells of all cores, one for each. Contracts see for each core the table that its token is in.
#[derive(Drop)]
pub struct Bells {
    items: Vec<Bell>,
}

impl Model for Bells {
    ghost use Rattle.std.specs.Prelude.{List};
    ghost use Rattle.atomic_table.specs.Seated.{TableId};

    ghost Value = { List TableId };

    ghost view = { λ b. b.items.items };
}

impl Bells {
    /// Makes the bells of `cores` cores, none of whose tokens is there, and their root.
    pub fn new(alloc: Global, cores: u32) -> Result<(Bells, BellRoot), NoMemory>
        requires cores { (1 ≤ cores) × (cores ≤ 64) }
        ensures cores { IfOk result (λ made. length made.0 ≡ cores) }
        ensures root { IfOk result (λ made. made.1 ≡ new_root made.0) }
        ensures free { IfOk result (λ made. GaveNone made.1) }
    {
        let mut items = Vec::new(alloc);
        let mut root = BellRoot {
            sleepers: Vec::new(alloc),
            seats: Vec::new(alloc),
        };
        match add_all(alloc, cores, &mut items, &mut root) {
            Ok(()) => Ok((Bells { items }, root)),
            Err(NoMemory) => {
                drop(items);
                drop(root);
                Err(NoMemory)
            }
        }
    }

    /// Makes the pass of a core, with the core's own parker. If allocation fails, the root is as it
    /// was.
    pub fn seat(&self, root: &mut BellRoot, core: u32) -> Result<BellPass, NoMemory>
        requires bells { root.old.bells ≡ self.now }
        requires free { IsFree root.old core }
        ensures value { IfOk result (λ pass. pass ≡ new_pass self.now core) }
        ensures ok { OnOk result (root.new ≡ rooted self.now (slice_set root.old.given core true) root.old.views) }
        ensures others { OnOk result ((other : ℕ) → other ≢ core → IsFree root.old other → IsFree root.new other) }
        ensures err { OnErr result (root.new ≡ root.old) }
    {
        let seats = enter_each(&self.items)?;
        let sleeper = take_sleeper(&mut root.sleepers, core);
        Ok(BellPass {
            core,
            sleeper,
            seats,
        })
    }

    /// Puts the token of a core, in one step, and wakes that core if it rests. It does not wait,
    /// and takes no memory.
    pub fn ring(&self, pass: &mut BellPass, core: u32)
        requires bells { pass.old.bells ≡ self.now }
        requires core { core < length self.now }
        ensures value { pass.new ≡ ringing core pass.old }
    {
        ring_at(&self.items, &mut pass.seats, core);
    }

    /// Rings as `ring`, with the root instead of a pass.
    pub fn ring_from(&self, root: &mut BellRoot, core: u32)
        requires bells { root.old.bells ≡ self.now }
        requires core { core < length self.now }
        ensures value { root.new ≡ ringing_from core root.old }
    {
        ring_at(&self.items, &mut root.seats, core);
    }

    /// Rings as `ring`, each core whose bit is 1 in the word, by rising core.
    pub fn ring_each(&self, pass: &mut BellPass, word: u64)
        requires bells { pass.old.bells ≡ self.now }
        requires few { length self.now ≤ 64 }
        ensures value { pass.new ≡ ringing_each word pass.old }
    {
        ring_each_at(&self.items, &mut pass.seats, word);
    }

    /// Rings as `ring_each`, with the root instead of a pass.
    pub fn ring_each_from(&self, root: &mut BellRoot, word: u64)
        requires bells { root.old.bells ≡ self.now }
        requires few { length self.now ≤ 64 }
        ensures value { root.new ≡ ringing_each_from word root.old }
    {
        ring_each_at(&self.items, &mut root.seats, word);
    }

    /// Waits until the token of the pass's core is there, and takes it. It returns only with the
    /// token taken.
    pub fn rest<R: Wait>(&self, rt: &R, pass: &mut BellPass)
        requires bells { pass.old.bells ≡ self.now }
        ensures value { pass.new ≡ resting None pass.old }
    {
        self.rest_as::<Brand, R>(rt, pass, None);
    }

    /// Rests as `rest`, by a core that has this pass on the control words, which is left as it is.
    /// Contracts see it kept in the bell pass, so that they can say whose pass it was, what the
    /// core had announced by it when it rested, and which of its steps on the control words came
    /// before that.
    pub fn rest_by<R: Wait>(&self, rt: &R, pass: &mut BellPass, control: &ControlPass)
        requires bells { pass.old.bells ≡ self.now }
        ensures value { pass.new ≡ resting (Some control.now) pass.old }
    {
        self.rest_as::<Brand, R>(rt, pass, Some(control));
    }

    // Rests as `rest`. `J` names the pass on the control words, which is lent for contracts only.
    fn rest_as<J: Lent, R: Wait>(&self, rt: &R, pass: &mut BellPass, _control: Option<&ControlPass>)
        requires bells { pass.old.bells ≡ self.now }
        ensures value { pass.new ≡ resting J.lent pass.old }
    {
        rest_at::<J, R>(rt, &pass.sleeper, &mut pass.seats, pass.core);
    }

    /// Returns the number of cores.
    pub fn count(&self) -> usize
        ensures value { result ≡ length self.now }
    {
        self.items.len()
    }
}
