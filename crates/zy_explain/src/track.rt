//! How far the calls of a session were made.
ghost use Rattle.std.specs.Prelude.{◌≡◌, ◌⊎◌, ◌≤◌, true, length, IfOk, IfSome, OnOk};
ghost use Rattle.zy_confirm.specs.Store.{store_shards};
ghost use Rattle.zy_explain.specs.Making.{may_lose_in, IsOnShards, CarriesOut, FailsLawfully};
ghost use Rattle.zy_explain.specs.Making.{IsMoment, NotesText, NotesSaid, MakesNext};
ghost use Rattle.zy_explain.specs.Following.{IsFreshTrack, Settles, FollowsTo};

use crate::calling::said_call_at;
use crate::carrying::{carry_out, is_lawful};
use crate::rules::Rules;
use mc_allows::{CallName, Said};
use mc_parse::{Command, ShardCall};
use std::alloc::Global;
use std::collections::BTreeSet;
use zy_base::{Blob, NoMemory};
use zy_confirm::{Store, is_unended, text_length};
use zy_sessions::Session;
use zy_verdict::Placement;

/// The commands of a session that are done, and what was said to the first calls of the next one.
#[derive(Drop)]
pub(crate) struct Track {
    /// Where in the output the answer of the next command begins.
    pub(crate) at: usize,
    /// Which of the commands that are done are answered.
    pub(crate) answered: Vec<bool>,
    /// How many of them are.
    pub(crate) count: usize,
    /// What was said to the first calls of the next command.
    pub(crate) saids: Vec<Said>,
}

impl Track {
    /// Begins before the first command.
    pub(crate) fn new(alloc: Global) -> Track
        ensures none { IsFreshTrack result }
    {
        Track {
            at: 0,
            answered: Vec::new(alloc),
            count: 0,
            saids: Vec::new(alloc),
        }
    }

    /// Makes the next call of the session, if it is the one that the order has placed and its server
    /// had this choice, at the first moment that is not before the latest one. Returns the moment.
    pub(crate) fn follow(
        &mut self,
        alloc: Global,
        rules: Rules,
        lasting: &BTreeSet<Blob>,
        session: &Session,
        output: &[u8],
        store: &mut Store,
        placement: &Placement,
        latest: u32,
    ) -> Result<Option<u32>, NoMemory>
        requires some { 1 ≤ rules.shards }
        requires limit { rules.shards ≤ 256 }
        requires shards { store_shards store.old ≡ rules.shards }
        ensures followed { IfOk result (λ found. IfSome found (FollowsTo rules lasting.now session.now output.now
            store.old store.new self.old self.new placement.now.name latest)) }
    {
        let index = placement.name.index as usize;
        self.settle(alloc, rules, session, output, index)?;
        self.make_next(alloc, rules, lasting, session, store, placement, latest)
    }

    /// Ends commands whose calls are all made, up to this one. Stops at the first whose calls are not
    /// all made, or whose answer does not fit.
    pub(crate) fn settle(
        &mut self,
        alloc: Global,
        rules: Rules,
        session: &Session,
        output: &[u8],
        until: usize,
    ) -> Result<(), NoMemory>
        requires some { 1 ≤ rules.shards }
        requires limit { rules.shards ≤ 256 }
        ensures settled { OnOk result (Settles rules.shards rules.forget session.now output.now self.old self.new) }
    {
        for _ in self.answered.len()..until {
            if !self.end_next(alloc, rules, session, output)? {
                return Ok(());
            }
        }
        Ok(())
    }

    // Ends the next command, if its calls are all made and its answer fits. Returns whether it did.
    fn end_next(
        &mut self,
        alloc: Global,
        rules: Rules,
        session: &Session,
        output: &[u8],
    ) -> Result<bool, NoMemory>
        requires some { 1 ≤ rules.shards }
        requires limit { rules.shards ≤ 256 }
        ensures settled { OnOk result (Settles rules.shards rules.forget session.now output.now self.old self.new) }
    {
        let index = self.answered.len();
        if index >= session.commands.len() {
            return Ok(false);
        }
        let command = &session.commands[index];
        if let Some(call) = said_call_at(command, self.saids.len(), rules.shards)? {
            drop(call);
            return Ok(false);
        }
        let Some(length) = text_length(alloc, command, &self.saids, output, self.at)? else {
            return Ok(false);
        };
        self.note_text(length)?;
        Ok(true)
    }

    // Notes that the next command is done, and that its text has this length.
    fn note_text(&mut self, length: usize) -> Result<(), NoMemory>
        ensures noted { OnOk result (NotesText self.old self.new length) }
    {
        let Some(at) = self.at.checked_add(length) else {
            return Err(NoMemory);
        };
        if 0 < length {
            let Some(count) = self.count.checked_add(1) else {
                return Err(NoMemory);
            };
            self.count = count;
        }
        self.answered.push(0 < length)?;
        self.at = at;
        self.saids.clear();
        Ok(())
    }

    // Makes the next call of the session, if it has this name.
    fn make_next(
        &mut self,
        alloc: Global,
        rules: Rules,
        lasting: &BTreeSet<Blob>,
        session: &Session,
        store: &mut Store,
        placement: &Placement,
        latest: u32,
    ) -> Result<Option<u32>, NoMemory>
        requires some { 1 ≤ rules.shards }
        requires limit { rules.shards ≤ 256 }
        requires shards { store_shards store.old ≡ rules.shards }
        ensures made { IfOk result (λ found. IfSome found (MakesNext rules.shards rules.forget
            (may_lose_in rules.forget lasting.now) session.now store.old store.new self.old self.new
            placement.now.name latest)) }
    {
        let index = self.answered.len();
        let part = self.saids.len();
        if !is_at(&placement.name, index, part) || index >= session.commands.len() {
            return Ok(None);
        }
        let Some(moment) = self.moment(session, latest) else {
            return Ok(None);
        };
        let command = &session.commands[index];
        let Some(call) = said_call_at(command, part, rules.shards)? else {
            return Ok(None);
        };
        let said = say(alloc, rules, lasting, store, command, &call, placement);
        drop(call);
        match said? {
            Some(said) => {
                self.note_said(said)?;
                Ok(Some(moment))
            }
            None => Ok(None),
        }
    }

    // Returns the first moment, not before the latest one, at which the next command is sent, if it
    // is not ended then.
    fn moment(&self, session: &Session, latest: u32) -> Option<u32>
        ensures value { IfSome result (IsMoment session.now (length self.now.answered.items) self.now.count latest) }
    {
        let index = self.answered.len();
        if index >= session.sent.len() {
            return None;
        }
        let moment = later(latest, session.sent[index]);
        if is_unended(&session.marks, self.count, moment) {
            Some(moment)
        } else {
            None
        }
    }

    // Notes what was said to the next call.
    fn note_said(&mut self, said: Said) -> Result<(), NoMemory>
        ensures noted { OnOk result (NotesSaid self.old self.new said) }
    {
        match self.saids.push(said) {
            Ok(()) => Ok(()),
            Err(refused) => {
                drop(refused);
                Err(NoMemory)
            }
        }
    }
}

// Makes a call, and returns what is said to it if it may be.
fn say(
    alloc: Global,
    rules: Rules,
    lasting: &BTreeSet<Blob>,
    store: &mut Store,
    command: &Command,
    call: &ShardCall,
    placement: &Placement,
) -> Result<Option<Said>, NoMemory>
    requires shard { IsOnShards (store_shards store.old) call.now }
    ensures carried { IfOk result (λ found. IfSome found
        (CarriesOut (may_lose_in rules.forget lasting.now) store.old store.new call.now)) }
    ensures lawful { IfOk result (λ found. IfSome found (FailsLawfully rules.forget command.now call.now)) }
{
    let Some(said) = carry_out(alloc, rules.forget, lasting, store, call, placement)? else {
        return Ok(None);
    };
    if is_lawful(rules.forget, command, call, &said) {
        Ok(Some(said))
    } else {
        drop(said);
        Ok(None)
    }
}

// Checks whether a name is that of the command with this index and of its call with this number.
fn is_at(name: &CallName, index: usize, part: usize) -> bool
    ensures at { result ≡ true → (name.now.index ≡ index) × (name.now.part ≡ part) }
{
    name.index == index as u64 && name.part as usize == part
}

// Returns the later of two moments.
fn later(one: u32, other: u32) -> u32
    ensures later { (one ≤ result) × (other ≤ result) × ((result ≡ one) ⊎ (result ≡ other)) }
{
    if one < other { other } else { one }
}
