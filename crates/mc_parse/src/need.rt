//! What must come with a line.
ghost use Rattle.std.specs.Prelude.{◌≡◌, ◌≤◌, length, codes, if◌then◌else◌, MatchOption};
ghost use Rattle.mc_parse.specs.Words.{words, line_limit};
ghost use Rattle.mc_parse.specs.Need.{need, need_for, ask_need, meta_need};
ghost use Rattle.std.specs.Str.{bytes_eq};
ghost use Rattle.mc_meta.specs.Meta.{meta_line};
ghost use Rattle.mc_parse.specs.MetaAsk.{meta_ask_seen};
ghost use Rattle.mc_parse.specs.Form.{ask_seen, form_after, meta_form, line_form};
ghost use Rattle.mc_parse.specs.Line.{form_seen};
ghost use Rattle.mc_parse.specs.Parsed.{IsParsed, IsParsedBy, IsUnnamed, IsNamed, IsStoring};
ghost use Rattle.mc_parse.specs.Storing.{Parts, storing_form};

use crate::asking::Ask;
use crate::line::Line;
use crate::meta_ask::{MetaAsk, read_meta_ask};
use crate::name::{Name, name_of};
use crate::parsed::Parsed;
use crate::reading::read_after;
use crate::storing::{Storing, read_cas, read_store};
use crate::word::{Split, next_word};

/// What must come with a line before it is a request.
#[derive(Clone, Copy, PartialEq, Eq)]
pub enum Need {
    /// Nothing: the line is a request.
    Nothing,
    /// A value of `bytes` bytes, and two bytes that end it.
    Block { bytes: u32 },
    /// Nothing: the line ends the connection.
    Quit,
}

/// Returns what a line needs. The line is given without the bytes that end it. Takes no memory.
pub fn need_of(line: &[u8]) -> Need
    requires within { length line.now ≤ line_limit }
    ensures value { result ≡ need line.now }
{
    let mut parsed = Parsed::nothing();
    read_need(line, &mut parsed)
}

/// Reads what a line needs. What was read of it is kept, so that it isn't read again. Takes no
/// memory.
#[tactic(auto, unfolding(crate::specs::Need::need, crate::specs::Parsed::IsParsed), using(crate::proofs::MetaLemmas::named_form, crate::proofs::MetaLemmas::wordless_form))]
pub fn read_need(line: &[u8], parsed: &mut Parsed) -> Need
    requires within { length line.now ≤ line_limit }
    ensures value { result ≡ need line.now }
    ensures parsed { IsParsed line.now parsed.new }
{
    let Some(first) = next_word(line) else {
        parsed.name = None;
        return Need::Nothing;
    };
    match name_of(first.word) {
        Some(name) => named_need(line, name, first, parsed),
        None => {
            parsed.name = None;
            unnamed_need(line, first.word)
        }
    }
}

// Returns what a line with this name needs. If nothing can be needed, the line isn't read beyond
// the name.
fn named_need(line: &[u8], name: Name, first: Split<'_>, parsed: &mut Parsed) -> Need
    requires within { length line.now ≤ line_limit }
    requires says { line_form line.now ≡ form_after name (words first.rest.now) }
    requires parts { Parts line.now first.word.now first.rest.now }
    ensures value { result ≡ need_for (line_form line.now) }
    ensures parsed { IsParsedBy result line.now parsed.new }
{
    let said = match name {
        Name::Store { verb } => read_store(verb, first.rest),
        Name::Cas => read_cas(first.rest),
        Name::Quit => {
            keep_name(line, name, first, parsed);
            return need_for(read_after(name, first.rest));
        }
        _ => {
            keep_name(line, name, first, parsed);
            return Need::Nothing;
        }
    };
    match said {
        Ok(said) => {
            keep_storing(line, name, said, parsed);
            Need::Block { bytes: said.bytes }
        }
        Err(_) => {
            keep_name(line, name, first, parsed);
            Need::Nothing
        }
    }
}

// Keeps the name of a line, and the place of the text after it.
fn keep_name(line: &[u8], name: Name, first: Split<'_>, parsed: &mut Parsed)
    requires within { length line.now ≤ line_limit }
    requires says { line_form line.now ≡ form_after name (words first.rest.now) }
    requires parts { Parts line.now first.word.now first.rest.now }
    ensures parsed { MatchOption parsed.new.name (IsUnnamed line.now) (IsNamed line.now parsed.new) }
{
    parsed.name = Some(name);
    parsed.from = (line.len() - first.rest.len()) as u32;
}

// Keeps what a storage line with this name says.
fn keep_storing(line: &[u8], name: Name, said: Storing<'_>, parsed: &mut Parsed)
    requires within { length line.now ≤ line_limit }
    requires says { line_form line.now ≡ storing_form name said }
    requires parts { Parts line.now said.key.now said.after.now }
    ensures parsed { MatchOption parsed.new.name (IsUnnamed line.now) (IsStoring line.now parsed.new) }
{
    let to = line.len() - said.after.len();
    parsed.unique = said.unique;
    parsed.flags = said.flags;
    parsed.from = (to - said.key.len()) as u32;
    parsed.to = to as u32;
    parsed.name = Some(name);
    parsed.quiet = said.quiet;
}

// Returns what a line without a name needs: a block if it is a meta command that stores.
fn unnamed_need(line: &[u8], word: &[u8]) -> Need
    requires within { length line.now ≤ line_limit }
    ensures value { result ≡ (if bytes_eq word.now (codes "ms")
        then need_for (meta_form line.now (meta_line line.now)) else Need.Nothing) }
{
    if word != b"ms".as_slice() {
        return Need::Nothing;
    }
    match read_meta_ask(line) {
        Ok(ask) => meta_need(ask),
        Err(_) => Need::Nothing,
    }
}

// Returns what a line with this meaning needs.
fn need_for(line: Line<'_>) -> Need
    ensures value { result ≡ need_for (form_seen line.entry) }
{
    match line {
        Line::Fault(_) => Need::Nothing,
        Line::Asks { ask, .. } => ask_need(ask),
    }
}

// Returns what must come with a request.
fn ask_need(ask: Ask<'_>) -> Need
    ensures value { result ≡ ask_need (ask_seen ask.entry) }
{
    match ask {
        Ask::Store { bytes, .. } => Need::Block { bytes },
        Ask::Cas { bytes, .. } => Need::Block { bytes },
        Ask::Quit => Need::Quit,
        _ => Need::Nothing,
    }
}

// Returns what must come with a meta request.
fn meta_need(ask: MetaAsk<'_>) -> Need
    ensures value { result ≡ meta_need (meta_ask_seen ask.entry) }
{
    match ask {
        MetaAsk::Store { bytes, .. } => Need::Block { bytes },
        MetaAsk::Cas { bytes, .. } => Need::Block { bytes },
        MetaAsk::Noop | MetaAsk::Get { .. } | MetaAsk::Delete { .. } => Need::Nothing,
    }
}
