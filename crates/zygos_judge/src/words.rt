//! What the arguments request.
ghost use Rattle.std.specs.Prelude.{◌≡◌, IfSome};
ghost use Rattle.zygos_judge.specs.Words.{IsShardCount, IsToldWithin, task_asked, task_told, shards_in};
ghost use Rattle.zygos_judge.specs.Words.{with_option, with_shards, with_window, with_word};

use zy_base::{Blob, SHARD_LIMIT, read_number};
use zy_explain::Rules;

/// What was read of the arguments.
#[derive(Clone, Copy)]
pub(crate) struct Told {
    /// The number of shards, if it was given.
    pub(crate) shards: Option<u32>,
    /// `--warm` was given.
    pub(crate) warm: bool,
    /// `--may-forget` was given.
    pub(crate) forget: bool,
    /// `--from` was given.
    pub(crate) from: bool,
    /// `--to` was given.
    pub(crate) to: bool,
    /// The next word is the number of shards.
    pub(crate) waits: bool,
}

/// What the words request.
#[derive(Clone, Copy)]
pub(crate) struct Task {
    /// What the server may have been.
    pub(crate) rules: Rules,
    /// What it had at first is a part of the input.
    pub(crate) from: bool,
    /// What it has at last is written after a yes.
    pub(crate) to: bool,
}

/// Returns what the words request; `None` if they are not valid.
pub(crate) fn task_asked(words: &[Blob]) -> Option<Task>
    ensures value { result ≡ task_asked words.now }
    ensures shards { IfSome result (λ task. IsShardCount task.rules.shards) }
{
    let mut told = Told {
        shards: None,
        warm: false,
        forget: false,
        from: false,
        to: false,
        waits: false,
    };
    for word in words {
        match with_word(told, word.bytes()) {
            Some(next) => told = next,
            None => return None,
        }
    }
    task_told(told)
}

// Returns what was requested, unless a number is still awaited. A server whose items are told, at first
// or at last, did not begin with unknown ones.
fn task_told(told: Told) -> Option<Task>
    requires shards { IsToldWithin told }
    ensures value { result ≡ task_told told }
    ensures shards { IfSome result (λ task. IsShardCount task.rules.shards) }
{
    if told.waits || (told.warm && (told.from || told.to)) {
        return None;
    }
    Some(Task {
        rules: Rules {
            shards: told.shards.unwrap_or(16),
            warm: told.warm || told.from,
            forget: told.forget,
        },
        from: told.from,
        to: told.to,
    })
}

// Reads one more word.
fn with_word(told: Told, word: &[u8]) -> Option<Told>
    requires shards { IsToldWithin told }
    ensures value { result ≡ with_word told word.now }
    ensures shards { IfSome result (λ next. IsToldWithin next) }
{
    if told.waits {
        with_shards(told, word)
    } else {
        with_option(told, word)
    }
}

// Reads the number of shards.
fn with_shards(told: Told, word: &[u8]) -> Option<Told>
    requires shards { IsToldWithin told }
    ensures value { result ≡ with_shards told word.now }
    ensures shards { IfSome result (λ next. IsToldWithin next) }
{
    if told.shards.is_some() {
        return None;
    }
    match shards_in(word) {
        Some(number) => Some(Told {
            shards: Some(number),
            waits: false,
            ..told
        }),
        None => None,
    }
}

// Reads an option.
fn with_option(told: Told, word: &[u8]) -> Option<Told>
    requires shards { IsToldWithin told }
    ensures value { result ≡ with_option told word.now }
    ensures shards { IfSome result (λ next. IsToldWithin next) }
{
    let mut next = told;
    if word == b"--warm".as_slice() {
        if told.warm {
            return None;
        }
        next.warm = true;
        return Some(next);
    }
    if word == b"--may-forget".as_slice() {
        if told.forget {
            return None;
        }
        next.forget = true;
        return Some(next);
    }
    if word == b"--shards".as_slice() {
        next.waits = true;
        return Some(next);
    }
    with_window(told, word)
}

// Reads an option of a window.
fn with_window(told: Told, word: &[u8]) -> Option<Told>
    requires shards { IsToldWithin told }
    ensures value { result ≡ with_window told word.now }
    ensures shards { IfSome result (λ next. IsToldWithin next) }
{
    let mut next = told;
    if word == b"--from".as_slice() {
        if told.from {
            return None;
        }
        next.from = true;
        return Some(next);
    }
    if word == b"--to".as_slice() {
        if told.to {
            return None;
        }
        next.to = true;
        return Some(next);
    }
    None
}

// Returns the number of shards that a word of at most ten digits gives.
fn shards_in(word: &[u8]) -> Option<u32>
    ensures value { result ≡ shards_in word.now }
    ensures within { IfSome result (λ number. IsShardCount number) }
{
    if word.len() > 10 {
        return None;
    }
    match read_number(word) {
        Some(number) if 1 <= number && number <= SHARD_LIMIT as u64 => Some(number as u32),
        _ => None,
    }
}
