//! The numbers from which a command is made.
ghost use Rattle.std.specs.Prelude.{◌≡◌, ◌<◌};
ghost use Rattle.zy_gen.specs.Draw.{draw, draw_command, draw_request, draw_set};
ghost use Rattle.zy_gen.specs.Traffic.{IsSmall};

use crate::request::{Command, Request};
use rand_core::utils::NextWord;
use rand_pcg::Lcg64Xsh32;

// Returns the generator's next number, modulo `below`.
#[tactic(auto, unfolding(crate::specs::Draw::draw))]
pub(crate) fn draw(words: &mut Lcg64Xsh32, below: u32) -> u32
    requires some { 0 < below }
    ensures value { result ≡ (draw below words.old).value }
    ensures left { words.new ≡ (draw below words.old).left }
    ensures fits { result < below }
{
    words.next_word() % below
}

// Generates the next command.
pub(crate) fn draw_command(words: &mut Lcg64Xsh32) -> Command
    ensures value { result ≡ (draw_command words.old).command }
    ensures left { words.new ≡ (draw_command words.old).left }
    ensures item { result.item < 64 }
    ensures small { IsSmall result.request }
{
    let kind = draw(words, 16);
    let item = draw(words, 64);
    let request = draw_request(words, kind);
    Command { item, request }
}

// Generates the request of a kind, from the numbers that it needs.
fn draw_request(words: &mut Lcg64Xsh32, kind: u32) -> Request
    ensures value { result ≡ (draw_request kind words.old).request }
    ensures left { words.new ≡ (draw_request kind words.old).left }
    ensures small { IsSmall result }
{
    if kind < 8 {
        return Request::Get;
    }
    match kind {
        8 => Request::GetMany,
        9 => draw_set(words, false),
        10 => draw_set(words, false),
        11 => draw_set(words, true),
        12 => Request::SetTen,
        13 => Request::Incr,
        14 => Request::Append,
        _ => Request::Delete,
    }
}

// Generates a `set`: its flags and the size of its block.
fn draw_set(words: &mut Lcg64Xsh32, quiet: bool) -> Request
    ensures value { result ≡ (draw_set quiet words.old).request }
    ensures left { words.new ≡ (draw_set quiet words.old).left }
    ensures small { IsSmall result }
{
    let flags = draw(words, 65_536);
    let size = draw(words, 256);
    Request::Set { flags, size, quiet }
}
