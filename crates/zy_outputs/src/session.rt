//! The calls of a session.
ghost use Rattle.std.specs.Prelude.{◌≡◌, ◌≤◌, true, IfOk};
ghost use Rattle.mc_kind.specs.Cutting.{AreTexts};
ghost use Rattle.zy_outputs.specs.Sessions.{SessionAdds, SessionIsDone, IsEarlyAt, seen_by};

use crate::adding::add_calls;
use crate::finding::Finding;
use crate::others::cut_followed;
use crate::rules::Rules;
use crate::seen::Seen;
use crate::texts::{known_bytes, may_be_answered, sure_below};
use crate::timing::{is_early, moment_at, number_if};
use mc_allows::CallName;
use mc_kind::{Cutting, Text};
use std::alloc::Global;
use zy_base::{Items, NoMemory};
use zy_refute::Observed;
use zy_sessions::Session;

/// Adds the calls of a session, or says what is found of its output instead. The name is that of its first call.
#[tactic(auto, using(crate::proofs::LineLemmas::kind_done, crate::proofs::LineLemmas::surplus_output_done))]
pub(crate) fn observe_session(
    alloc: Global,
    rules: Rules,
    name: CallName,
    session: &Session,
    output: &[u8],
    calls: &mut Items<Observed>,
) -> Result<Option<Finding>, NoMemory>
    requires some { 1 ≤ rules.shards }
    requires limit { rules.shards ≤ 256 }
    ensures done { IfOk result (SessionIsDone rules name session.now output.now calls.old calls.new) }
{
    match cut_followed(alloc, session.commands.as_slice(), output)? {
        Cutting::Kind { index } => Ok(Some(Finding::Kind {
            conn: name.conn,
            session: name.session,
            index: index as u64,
        })),
        Cutting::Surplus => Ok(Some(Finding::Surplus {
            conn: name.conn,
            session: name.session,
        })),
        Cutting::Other { index } => Ok(Some(Finding::Other {
            conn: name.conn,
            session: name.session,
            index: index as u64,
        })),
        Cutting::All { texts } => {
            add_commands(
                alloc,
                rules,
                name,
                session,
                output,
                texts.items(),
                true,
                calls,
            )
        }
        Cutting::Front { texts } => {
            add_commands(
                alloc,
                rules,
                name,
                session,
                output,
                texts.items(),
                false,
                calls,
            )
        }
    }
}

// Adds the calls of a session with these texts, or says which mark comes too early; `all` says that the other commands
// have no answer.
#[tactic(auto, using(crate::proofs::SessionLemmas::knows_start))]
fn add_commands(
    alloc: Global,
    rules: Rules,
    name: CallName,
    session: &Session,
    output: &[u8],
    texts: &[Text],
    all: bool,
    calls: &mut Items<Observed>,
) -> Result<Option<Finding>, NoMemory>
    requires some { 1 ≤ rules.shards }
    requires limit { rules.shards ≤ 256 }
    requires texts { AreTexts session.now.commands.items output.now texts.now }
    ensures added { IfOk result (SessionAdds rules name session.now output.now texts.now all calls.old calls.new) }
{
    let sure = sure_below(texts);
    let mut before = 0;
    for index in 0..session.commands.len() {
        let Some(sent) = moment_at(&session.sent, index) else {
            return Err(NoMemory);
        };
        let mark = moment_at(&session.marks, before);
        if is_early(sent, mark) {
            return Ok(early_end(mark));
        }
        let own = CallName {
            index: index as u64,
            ..name
        };
        add_calls(
            alloc,
            rules,
            own,
            &session.commands[index],
            known_bytes(output, texts, index),
            seen_by(index < sure, sent, mark),
            calls,
        )?;
        before += number_if(may_be_answered(texts, all, index));
    }
    Ok(early_end(moment_at(&session.marks, before)))
}

// Says that the mark that had come first at a moment, if there is one, comes too early.
fn early_end(mark: Option<u32>) -> Option<Finding>
    ensures value { IsEarlyAt mark result }
{
    match mark {
        // The last record that had come at a moment has a number one lower.
        Some(moment) => Some(Finding::EarlyEnd {
            record: moment.saturating_sub(1) as u64,
        }),
        None => None,
    }
}

// Returns what is seen of a command that was sent at one moment, and had ended at that of a mark, if there is one.
fn seen_by(answered: bool, sent: u32, mark: Option<u32>) -> Seen
    ensures value { result ≡ seen_by answered sent mark }
{
    match mark {
        Some(mark) => Seen {
            sure: true,
            sent: sent as u64,
            ended: Some(mark as u64),
        },
        None => Seen {
            sure: answered,
            sent: sent as u64,
            ended: None,
        },
    }
}
