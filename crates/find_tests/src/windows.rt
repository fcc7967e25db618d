//! Windows of a longer recording: the server began with these items.
use crate::recording::{Did, Recorded, found_by};
use mc_calls::Item;
use std::alloc::Global;
use std::collections::BTreeSet;
use zy_base::{Blob, NoMemory};
use zy_find::Rules;
use zy_items::{KeptItem, Standing};

// The key has this value, with the unique 7, and no unique so far is above 9.
fn standing(alloc: Global, value: u8) -> Result<Standing, NoMemory> {
    let key = Blob::copy_of(alloc, b"k")?;
    let value = Blob::copy_of(alloc, &[value])?;
    let mut items = Vec::new(alloc);
    let item = Item {
        flags: 0,
        unique: 7,
        value,
    };
    items.push(KeptItem { key, item })?;
    Ok(Standing {
        items,
        lasting: BTreeSet::new(alloc),
        bound: 9,
    })
}

// Returns the uniques of the calls in the order that is found, if the key has this value at first.
fn uniques_from(
    alloc: Global,
    value: u8,
    recorded: &[Recorded],
) -> Result<Option<Vec<u64>>, NoMemory> {
    let standing = standing(alloc, value)?;
    let rules = Rules {
        warm: true,
        forget: false,
        begun: Some(&standing),
    };
    let found = found_by(alloc, rules, recorded);
    drop(standing);
    let Some(order) = found? else {
        return Ok(None);
    };
    let mut uniques = Vec::new(alloc);
    for placement in order.items() {
        uniques.push(placement.unique)?;
    }
    drop(order);
    Ok(Some(uniques))
}

fn recorded(conn: u32, did: Did, sent: u64, ended: u64) -> Recorded {
    Recorded {
        conn,
        did,
        sent,
        ended,
    }
}

#[test]
fn a_window_begins_with_its_items_and_gives_uniques_above_its_bound(rt: HostRuntime) {
    let calls = [
        recorded(0, Did::Got(b'a'), 1, 3),
        recorded(1, Did::Set(b'b'), 4, 6),
        recorded(2, Did::Set(b'c'), 7, 9),
        recorded(3, Did::Got(b'c'), 10, 12),
    ];
    let same = match uniques_from(rt.alloc(), b'a', &calls) {
        Ok(Some(uniques)) => {
            let same = uniques.as_slice() == [0, 10, 11, 0].as_slice();
            drop(uniques);
            same
        }
        _ => false,
    };
    assert!(rt; same);
}

#[test]
fn an_item_that_the_server_did_not_have_is_not_found(rt: HostRuntime) {
    let calls = [recorded(0, Did::Got(b'a'), 1, 3)];
    assert!(rt; matches!(uniques_from(rt.alloc(), b'b', &calls), Ok(None)));
}
