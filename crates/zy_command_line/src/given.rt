//! What the options of a command ask for.
ghost use Rattle.std.specs.Prelude.{◌≡◌, ◌≤◌, option_map};
ghost use Rattle.zy_command_line.specs.Grammar.{Options};
ghost use Rattle.zy_command_line.specs.Splitting.{HasOptions};
ghost use Rattle.zy_command_line.specs.Request.{cores_of, threads_of, order_of, order_from, shards_of, idle_turns_of};
ghost use Rattle.zy_command_line.specs.Request.{port_of, out_of, out_from, run_of, traffic_of, seed_of, conns_of};
ghost use Rattle.zy_command_line.specs.Request.{commands_of};

use crate::number::{number_in, number_or};
use crate::request::{Out, Run, Traffic};
use crate::splitting::value;
use clap::ArgMatches;
use zy_base::{CONNECTION_LIMIT, CORE_LIMIT, SHARD_LIMIT};

/// Returns the number of shards.
pub(crate) fn shards(given: &ArgMatches<'_>) -> Option<u32>
    ensures value { (options : Options) → HasOptions options given.now → result ≡ shards_of options }
{
    number_or(1, SHARD_LIMIT, 16, value(given, "shards"))
}

/// Returns the port.
pub(crate) fn port(given: &ArgMatches<'_>) -> Option<u16>
    ensures value { (options : Options) → HasOptions options given.now → result ≡ port_of options }
{
    match number_or(1, 65_535, 11_211, value(given, "port")) {
        Some(port) => Some(port as u16),
        None => None,
    }
}

/// Returns what is written.
pub(crate) fn out(given: &ArgMatches<'_>) -> Option<Out>
    ensures value { (options : Options) → HasOptions options given.now → result ≡ out_of options }
{
    out_from(value(given, "out"))
}

fn out_from(word: Option<&str>) -> Option<Out>
    ensures value { result ≡ out_from (option_map (λ s. s.now) word.entry) }
{
    match word {
        None => Some(Out::Replies),
        Some("replies") => Some(Out::Replies),
        Some("both") => Some(Out::Both),
        Some(_) => None,
    }
}

/// Returns how a capture is served.
pub(crate) fn run(given: &ArgMatches<'_>) -> Option<Run>
    ensures value { (options : Options) → HasOptions options given.now → result ≡ run_of options }
{
    let cores = cores(given)?;
    let threads = threads(given, cores)?;
    let order = order(given, threads)?;
    let shards = shards(given)?;
    let rest = rest(given)?;
    Some(Run {
        cores,
        threads,
        order,
        shards,
        rest,
    })
}

fn cores(given: &ArgMatches<'_>) -> Option<u32>
    ensures value { (options : Options) → HasOptions options given.now → result ≡ cores_of options }
{
    number_or(1, CORE_LIMIT, 4, value(given, "cores"))
}

fn threads(given: &ArgMatches<'_>, cores: u32) -> Option<u32>
    ensures value { (options : Options) → HasOptions options given.now → result ≡ threads_of cores options }
{
    match number_or(1, CORE_LIMIT, cores, value(given, "threads")) {
        Some(threads) => Some(cores.min(threads)),
        None => None,
    }
}

fn order(given: &ArgMatches<'_>, threads: u32) -> Option<Option<u32>>
    ensures value { (options : Options) → HasOptions options given.now → result ≡ order_of threads options }
{
    order_from(threads, value(given, "order"))
}

// Returns the number of an order of turns, which only one thread can follow.
fn order_from(threads: u32, word: Option<&str>) -> Option<Option<u32>>
    ensures value { result ≡ order_from threads (option_map (λ s. s.now) word.entry) }
{
    let Some(word) = word else {
        return Some(None);
    };
    match number_in(0, u32::MAX, word) {
        Some(number) if threads == 1 => Some(Some(number)),
        _ => None,
    }
}

fn rest(given: &ArgMatches<'_>) -> Option<u32>
    ensures value { (options : Options) → HasOptions options given.now → result ≡ idle_turns_of options }
{
    number_or(0, 1_000_000, 0, value(given, "rest"))
}

/// Returns the traffic to make.
pub(crate) fn traffic(given: &ArgMatches<'_>) -> Option<Traffic>
    ensures value { (options : Options) → HasOptions options given.now → result ≡ traffic_of options }
{
    let number = seed(given)?;
    let conns = conns(given)?;
    let commands = commands(given)?;
    if conns as u64 * commands as u64 > 1_000_000 {
        return None;
    }
    Some(Traffic {
        number,
        conns,
        commands,
    })
}

fn seed(given: &ArgMatches<'_>) -> Option<u32>
    ensures value { (options : Options) → HasOptions options given.now → result ≡ seed_of options }
{
    number_or(0, u32::MAX, 1, value(given, "number"))
}

fn conns(given: &ArgMatches<'_>) -> Option<u32>
    ensures value { (options : Options) → HasOptions options given.now → result ≡ conns_of options }
{
    number_or(1, CONNECTION_LIMIT, 200, value(given, "conns"))
}

fn commands(given: &ArgMatches<'_>) -> Option<u32>
    ensures value { (options : Options) → HasOptions options given.now → result ≡ commands_of options }
{
    number_or(1, 1_000_000, 100, value(given, "commands"))
}
