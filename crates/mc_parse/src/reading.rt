//! What a line says, read from its words in one pass.
ghost use Rattle.std.specs.Prelude.{◌≡◌, not, IfSome, IfNone};
ghost use Rattle.std.specs.List.{list_all};
ghost use Rattle.mc_meta.specs.Meta.{meta_line};
ghost use Rattle.mc_parse.specs.Words.{words};
ghost use Rattle.mc_parse.specs.Form.{is_key, keys_among, form_with, form_after, meta_form, line_form};
ghost use Rattle.mc_parse.specs.Line.{texts, form_seen, IsLimited, HasFew};
ghost use Rattle.mc_parse.specs.Storing.{storing_seen};

use crate::args::Args;
use crate::asking::{number_fault, read_ask, stored_ask};
use crate::error_line::ErrorLine;
use crate::line::Line;
use crate::name::{Name, arity_of, has_one_key, name_of};
use crate::storing::{Storing, read_cas, read_store};
use crate::word::next_word;
use mc_meta::is_key;

/// The name that a line begins with, and the text after it.
#[derive(Clone, Copy)]
pub(crate) struct Named<'a> {
    pub(crate) name: Name,
    pub(crate) rest: &'a [u8],
}

/// Returns the name that a line begins with; `None` if it begins with none: it is read as a meta
/// command.
#[tactic(auto, using(crate::proofs::MetaLemmas::named_form, crate::proofs::MetaLemmas::wordless_form))]
pub(crate) fn name_in(line: &[u8]) -> Option<Named<'_>>
    ensures some { IfSome result (λ found. line_form line.now
        ≡ form_after found.name (words found.rest.now)) }
    ensures none { IfNone result (line_form line.now ≡ meta_form line.now (meta_line line.now)) }
{
    let Some(first) = next_word(line) else {
        return None;
    };
    match name_of(first.word) {
        Some(name) => Some(Named {
            name,
            rest: first.rest,
        }),
        None => None,
    }
}

/// Reads what the text after a name says; the name is not that of a retrieval.
pub(crate) fn read_after(name: Name, text: &[u8]) -> Line<'_>
    requires limited { IsLimited name }
    ensures value { form_seen result ≡ form_after name (words text.now) }
{
    match name {
        Name::Store { verb } => storing_line(name, read_store(verb, text)),
        Name::Cas => storing_line(name, read_cas(text)),
        _ => read_few(name, text),
    }
}

// Returns what a storage line says.
fn storing_line(name: Name, said: Result<Storing<'_>, ErrorLine>) -> Line<'_>
    ensures value { form_seen result ≡ storing_seen name said.entry }
{
    match said {
        Ok(said) => Line::Asks {
            ask: stored_ask(name, said.key, said.flags, said.bytes, said.unique),
            quiet: said.quiet,
        },
        Err(fault) => Line::Fault(fault),
    }
}

// Reads what the text after a name says; at most three words may follow the name.
fn read_few(name: Name, text: &[u8]) -> Line<'_>
    requires few { HasFew name }
    ensures value { form_seen result ≡ form_after name (words text.now) }
{
    let Some(args) = Args::of(text) else {
        return Line::Fault(ErrorLine::Unknown);
    };
    let words = args.words();
    let arity = arity_of(name);
    if !arity.has_count(words.len()) || arity.lacks_noreply(words) {
        return Line::Fault(ErrorLine::Unknown);
    }
    if arity.asks_silence(words) {
        read_with(name, &words[..words.len() - 1], true)
    } else {
        read_with(name, words, false)
    }
}

// Reads the words after a name, without noreply; their number is allowed.
fn read_with<'a>(name: Name, words: &[&'a [u8]], quiet: bool) -> Line<'a>
    requires few { HasFew name }
    ensures value { form_seen result
        ≡ form_with name (record { words = texts words.now; quiet = quiet }) }
{
    if has_long_key(name, words) {
        return Line::Fault(ErrorLine::BadLine);
    }
    match read_ask(name, words) {
        Some(ask) => Line::Asks { ask, quiet },
        None => Line::Fault(number_fault(name)),
    }
}

// Checks whether a key among the words is too long.
fn has_long_key(name: Name, words: &[&[u8]]) -> bool
    requires few { HasFew name }
    ensures value { result ≡ not (list_all is_key (keys_among name (texts words.now))) }
{
    match words {
        [key, ..] => has_one_key(name) && !is_key(key),
        [] => false,
    }
}
