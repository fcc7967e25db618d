//! What words ask for.
ghost use Rattle.std.specs.Prelude.{◌≡◌, true, false, map, IfOk, MatchOption};
ghost use Rattle.std.specs.List.{list_all};
ghost use Rattle.zy_command_line.specs.Grammar.{Options, is_plain};
ghost use Rattle.zy_command_line.specs.Splitting.{HasOptions};
ghost use Rattle.zy_command_line.specs.Request.{request_of, shards_asked, asked_with, asked_by, run_by, self_by};

use crate::given::{out, port, run, shards, traffic};
use crate::plain::plain_text;
use crate::request::Request;
use crate::splitting::split;
use crate::verb::{Verb, names_of, verb_named};
use clap::ArgMatches;
use std::alloc::Global;
use zy_base::{Blob, NoMemory};

/// Returns what the words after the program's name ask for; `None` if they are not valid.
pub fn request_of(alloc: Global, words: &[Blob]) -> Result<Option<Request>, NoMemory>
    ensures value { IfOk result (λ request. request ≡ request_of words.now) }
{
    let Some((word, options)) = words.split_first() else {
        return Ok(None);
    };
    match verb_named(word.bytes()) {
        Some(verb) => asked_with(alloc, options, verb),
        None => Ok(None),
    }
}

/// Returns the number of shards that the words ask for, if they are the options of a check; `None`
/// if they are not.
pub fn shards_asked(alloc: Global, words: &[Blob]) -> Result<Option<u32>, NoMemory>
    ensures value { IfOk result (λ shards. shards ≡ shards_asked words.now) }
{
    match asked_with(alloc, words, Verb::Check)? {
        Some(Request::Check { shards }) => Ok(Some(shards)),
        _ => Ok(None),
    }
}

// Returns what a command asks for with the options in the words.
fn asked_with(alloc: Global, words: &[Blob], verb: Verb) -> Result<Option<Request>, NoMemory>
    ensures value { IfOk result (λ request. request ≡ asked_with words.now verb) }
{
    let Some(texts) = texts(alloc, words)? else {
        return Ok(None);
    };
    match split(alloc, "zygos", names_of(verb), &texts)? {
        Some(given) => Ok(asked_by(verb, &given)),
        None => Ok(None),
    }
}

// Returns what a command with its options asks for.
fn asked_by(verb: Verb, given: &ArgMatches<'_>) -> Option<Request>
    ensures value { (options : Options) → HasOptions options given.now → result ≡ asked_by verb options }
{
    match verb {
        Verb::Run => run_by(given),
        Verb::Check => match shards(given) {
            Some(shards) => Some(Request::Check { shards }),
            None => None,
        },
        Verb::Gen => match traffic(given) {
            Some(traffic) => Some(Request::Gen { traffic }),
            None => None,
        },
        Verb::SelfTest => self_by(given),
        Verb::Pcap => match port(given) {
            Some(port) => Some(Request::Pcap { port }),
            None => None,
        },
        Verb::Report => Some(Request::Report),
    }
}

fn run_by(given: &ArgMatches<'_>) -> Option<Request>
    ensures value { (options : Options) → HasOptions options given.now → result ≡ run_by options }
{
    let run = run(given)?;
    let out = out(given)?;
    Some(Request::Run { run, out })
}

fn self_by(given: &ArgMatches<'_>) -> Option<Request>
    ensures value { (options : Options) → HasOptions options given.now → result ≡ self_by options }
{
    let traffic = traffic(given)?;
    let run = run(given)?;
    Some(Request::SelfTest { traffic, run })
}

// Returns the words as texts; `None` if one of them is not plain.
#[tactic(auto, using(crate::proofs::Taken::words_taken))]
fn texts<'a>(alloc: Global, words: &'a [Blob]) -> Result<Option<Vec<&'a str>>, NoMemory>
    ensures some { IfOk result (λ o. MatchOption o (list_all is_plain words.now ≡ false)
        (λ t. (map (λ w. w.now) t.items ≡ words.now) × (list_all is_plain words.now ≡ true))) }
{
    let mut texts = Vec::new(alloc);
    for word in words {
        let Some(text) = plain_text(word.bytes()) else {
            return Ok(None);
        };
        if texts.push(text).is_err() {
            return Err(NoMemory);
        }
    }
    Ok(Some(texts))
}
