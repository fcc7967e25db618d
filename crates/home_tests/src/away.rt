//! What a home receives while another core has a block.
ghost use Rattle.std.specs.Prelude.{◌≡◌, ◌+◌, ◌<◌, ◌≤◌, ◌^◌, false};
ghost use Rattle.zy_conn.specs.Block.{label_of};

use crate::home_parts::{Setup, first_end, set_up};
use crate::receiving::{Item, receive, settle};
use crate::sure::sure;
use std::alloc::Global;
use std::process::Abort;
use zy_base::Ungated;
use zy_calls::Output;
use zy_shuffle::Claim;

// Received first: a command and a part of one, and a command of a connection of the other core.
const BEFORE: [Item; 2] = [
    Item::Text(0, 1, b"set a 0 0 1\r\nx\r\nget"),
    Item::Text(1, 1, b"get a\r\n"),
];

// Received while the block is away: more frames than its ring has room for, the end of the session,
// a command of the next one, the end of all, and a command after it.
const AWAY: [Item; 6] = [
    Item::Text(0, 1, b" a\r\n"),
    Item::Text(0, 200, b"version\r\n"),
    Item::Close(0),
    Item::Text(0, 1, b"get a\r\n"),
    Item::End,
    Item::Text(0, 1, b"get a\r\n"),
];

// The texts of the first commands, that of each of the others, and that of the last one.
const FIRST: &[u8] = b"STORED\r\nVALUE a 0 1\r\nx\r\nEND\r\n";

const EACH: &[u8] = b"VERSION zygos-1.0\r\n";

const LAST: &[u8] = b"VALUE a 0 1\r\nx\r\nEND\r\n";

// Claims a block for the other core, has the home receive items while the block is away, and gives it
// back when it was held.
fn steal_while(rt: &impl Abort, alloc: Global, setup: &mut Setup, items: &[Item])
    requires home { setup.old.home.pass.table ≡ setup.old.ring.id }
    requires few { setup.old.home.pass.count < 2 ^ 62 }
    requires live { setup.old.home.refused ≡ false }
    requires label { setup.old.thief.label ≡ label_of setup.old.store.id 2 }
    requires thief { setup.old.thief.table ≡ setup.old.ring.id }
    ensures table { setup.new.home.pass.table ≡ setup.old.home.pass.table }
    ensures label { setup.new.home.pass.label ≡ setup.old.home.pass.label }
    ensures cores { setup.new.home.cores ≡ setup.old.home.cores }
    ensures count { setup.new.home.pass.count ≤ setup.old.home.pass.count + 64 }
    ensures live { setup.new.home.refused ≡ false }
    ensures same { (setup.new.ring ≡ setup.old.ring) × (setup.new.store ≡ setup.old.store) }
{
    let Claim::Took { place, mut block } = setup.ring.claim(&mut setup.thief) else {
        panic!(rt; "no block");
    };
    receive(rt, alloc, &setup.ring, &mut setup.home, items);
    sure(rt, block.hold(&setup.store, &Ungated, 1));
    setup.ring.give_back(&mut setup.thief, place, block);
}

// Checks whether the first connection was sent the expected texts, in two sessions.
fn is_served(output: &Output, ends: &[u64]) -> bool {
    let bytes = output.bytes();
    output.count() == 203
        && output.finished() == 203
        && matches!(ends, [202])
        && bytes.len() == FIRST.len() + 200 * EACH.len() + LAST.len()
        && bytes.starts_with(FIRST)
        && bytes.ends_with(LAST)
}

#[test]
fn what_comes_is_served_while_a_block_is_away(rt: HostRuntime) {
    let alloc = rt.alloc();
    let mut setup = set_up(&rt, alloc);
    receive(&rt, alloc, &setup.ring, &mut setup.home, &BEFORE);
    steal_while(&rt, alloc, &mut setup, &AWAY);
    settle(&rt, &mut setup);
    let (output, ends) = first_end(&rt, setup);
    let served = is_served(&output, &ends);
    drop(output);
    drop(ends);
    assert!(rt; served);
}
