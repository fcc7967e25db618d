//! What a home receives, and what it does until it is settled.
ghost use Rattle.std.specs.Prelude.{◌≡◌, ◌<◌, ◌^◌, false};
ghost use Rattle.zy_conn.specs.Block.{label_of};
ghost use Rattle.zy_home.specs.Home.{SameFor};

use crate::home_parts::Setup;
use crate::sure::sure;
use std::alloc::Global;
use std::process::Abort;
use zy_base::{Blob, Ungated};
use zy_conn::Block;
use zy_home::Home;
use zy_rx::Rx;
use zy_shuffle::Ring;

// The most items that a call receives.
const SLOTS: usize = 64;

/// What a home receives.
#[derive(Clone, Copy)]
pub(crate) enum Item {
    /// This text, repeated this number of times, as one segment of this connection.
    Text(u32, usize, &'static [u8]),
    Close(u32),
    End,
}

// Makes the item, as it is received.
fn item_of(rt: &impl Abort, alloc: Global, item: Item) -> Rx {
    match item {
        Item::Text(conn, times, text) => {
            let mut bytes = Blob::new(alloc);
            for _ in 0..times {
                sure(rt, bytes.append(text));
            }
            Rx::Segment { conn, bytes }
        }
        Item::Close(conn) => Rx::Close { conn },
        Item::End => Rx::End,
    }
}

/// Has the home receive these items, at most 64, in one call.
pub(crate) fn receive(
    rt: &impl Abort,
    alloc: Global,
    ring: &Ring<Block>,
    home: &mut Home,
    items: &[Item],
)
    requires table { home.old.pass.table ≡ ring.now.id }
    requires few { home.old.pass.count < 2 ^ 62 }
    requires live { home.old.refused ≡ false }
    ensures same { SameFor 64 home.old home.new }
    ensures live { home.new.refused ≡ false }
{
    let (mut inlet, mut outlet) = sure(rt, zy_rx::ring(alloc, SLOTS));
    for item in items {
        let refused = inlet.offer(item_of(rt, alloc, *item));
        let is_offered = refused.is_none();
        drop(refused);
        assert!(rt; is_offered);
    }
    sure(rt, home.receive_all(ring, &mut outlet));
    drop(inlet);
    drop(outlet);
}

/// Has the home collect and claim until it is settled.
pub(crate) fn settle(rt: &impl Abort, setup: &mut Setup)
    requires home { setup.old.home.pass.table ≡ setup.old.ring.id }
    requires few { setup.old.home.pass.count < 2 ^ 62 }
    requires live { setup.old.home.refused ≡ false }
    requires label { setup.old.home.pass.label ≡ label_of setup.old.store.id 2 }
    requires cores { setup.old.home.cores ≡ 2 }
{
    for _round in 0..100u32 {
        if setup.home.is_settled() {
            return;
        }
        sure(rt, setup.home.collect(&setup.ring));
        sure(rt, setup.home.own(&setup.ring, &setup.store, &Ungated));
    }
    panic!(rt; "not settled");
}
