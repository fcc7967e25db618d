//! Orders that are found, and one that is not there.
use crate::recording::{Did, Recorded, found_in};
use std::alloc::Global;

fn recorded(conn: u32, did: Did, sent: u64, ended: u64) -> Recorded {
    Recorded {
        conn,
        did,
        sent,
        ended,
    }
}

// Checks whether this order of connections is found, from an empty store.
fn is_found(alloc: Global, calls: &[Recorded], wanted: &[u32]) -> bool {
    is_found_from(alloc, false, calls, wanted)
}

// Checks whether this order of connections is found; if `warm`, the key may have an item at first.
fn is_found_from(alloc: Global, warm: bool, calls: &[Recorded], wanted: &[u32]) -> bool {
    match found_in(alloc, warm, calls) {
        Ok(Some(conns)) => {
            let same = conns.as_slice() == wanted;
            drop(conns);
            same
        }
        _ => false,
    }
}

#[test]
fn calls_that_do_not_overlap_are_in_the_order_of_their_times(rt: HostRuntime) {
    let calls = [
        recorded(0, Did::Set(b'a'), 1, 3),
        recorded(1, Did::Got(b'a'), 4, 6),
        recorded(2, Did::Deleted, 7, 9),
        recorded(3, Did::Missed, 10, 12),
    ];
    assert!(rt; is_found(rt.alloc(), &calls, &[0, 1, 2, 3]));
}

#[test]
fn a_set_that_ends_after_its_reader_comes_before_it(rt: HostRuntime) {
    let calls = [
        recorded(0, Did::Got(b'a'), 2, 4),
        recorded(1, Did::Set(b'a'), 1, 6),
    ];
    assert!(rt; is_found(rt.alloc(), &calls, &[1, 0]));
}

#[test]
fn a_search_goes_back_if_a_later_answer_does_not_fit(rt: HostRuntime) {
    let calls = [
        recorded(0, Did::Set(b'a'), 1, 9),
        recorded(1, Did::Set(b'b'), 2, 10),
        recorded(2, Did::Got(b'b'), 3, 5),
        recorded(3, Did::Got(b'a'), 11, 13),
    ];
    assert!(rt; is_found(rt.alloc(), &calls, &[1, 2, 0, 3]));
}

#[test]
fn a_late_reader_comes_before_the_next_change(rt: HostRuntime) {
    let calls = [
        recorded(0, Did::Set(b'a'), 1, 3),
        recorded(1, Did::Set(b'b'), 4, 6),
        recorded(2, Did::Got(b'a'), 2, 9),
    ];
    assert!(rt; is_found(rt.alloc(), &calls, &[0, 2, 1]));
}

#[test]
fn a_change_that_nobody_saw_is_hidden_behind_an_earlier_one(rt: HostRuntime) {
    let calls = [
        recorded(0, Did::Set(b'a'), 1, 20),
        recorded(0, Did::Got(b'b'), 15, 21),
        recorded(1, Did::Set(b'b'), 2, 4),
    ];
    assert!(rt; is_found(rt.alloc(), &calls, &[0, 1, 0]));
}

#[test]
fn an_add_that_was_refused_comes_where_there_is_an_item(rt: HostRuntime) {
    let calls = [
        recorded(0, Did::Set(b'a'), 1, 3),
        recorded(1, Did::Deleted, 4, 6),
        recorded(2, Did::NotAdded(b'b'), 2, 9),
        recorded(3, Did::Missed, 10, 12),
    ];
    assert!(rt; is_found(rt.alloc(), &calls, &[0, 2, 1, 3]));
}

#[test]
fn a_stale_read_has_no_order(rt: HostRuntime) {
    let calls = [
        recorded(0, Did::Set(b'a'), 1, 3),
        recorded(1, Did::Set(b'b'), 4, 6),
        recorded(2, Did::Got(b'a'), 7, 9),
    ];
    assert!(rt; matches!(found_in(rt.alloc(), false, &calls), Ok(None)));
}

#[test]
fn an_append_that_failed_leaves_the_item_or_takes_it_away(rt: HostRuntime) {
    let calls = [
        recorded(0, Did::Set(b'a'), 1, 3),
        recorded(1, Did::Failed(b'b'), 4, 6),
        recorded(2, Did::Missed, 7, 9),
    ];
    assert!(rt; is_found(rt.alloc(), &calls, &[0, 1, 2]));
}

#[test]
fn a_first_item_is_what_remains_of_a_joined_value(rt: HostRuntime) {
    let calls = [
        recorded(0, Did::Appended(b'a'), 1, 3),
        recorded(1, Did::Got(b'a'), 4, 6),
        recorded(2, Did::Got(b'b'), 7, 9),
        recorded(3, Did::Set(b'b'), 5, 8),
    ];
    assert!(rt; is_found_from(rt.alloc(), true, &calls, &[0, 1, 3, 2]));
    assert!(rt; matches!(found_in(rt.alloc(), false, &calls), Ok(None)));
}

// Checks whether the call of connection 0 comes first, if the key may have an item at first.
fn begins(alloc: Global, did: Did, then: Did) -> bool {
    let calls = [recorded(0, did, 1, 3), recorded(1, then, 4, 6)];
    is_found_from(alloc, true, &calls, &[0, 1])
}

#[test]
fn a_count_without_an_answer_changed_the_item_that_is_shown(rt: HostRuntime) {
    assert!(rt; begins(rt.alloc(), Did::SilentlyCounted(2), Did::Got(b'5')));
}

#[test]
fn a_count_without_an_answer_found_no_number_in_the_item_that_is_shown(rt: HostRuntime) {
    assert!(rt; begins(rt.alloc(), Did::SilentlyCounted(2), Did::Got(b'a')));
}

#[test]
fn a_replace_without_an_answer_found_no_item_if_none_is_there_then(rt: HostRuntime) {
    assert!(rt; begins(rt.alloc(), Did::SilentlyReplaced(b'a'), Did::Missed));
    assert!(rt; begins(rt.alloc(), Did::SilentlyReplaced(b'a'), Did::Got(b'a')));
}

#[test]
fn an_add_without_an_answer_found_the_item_that_is_shown(rt: HostRuntime) {
    assert!(rt; begins(rt.alloc(), Did::SilentlyAdded(b'a'), Did::Got(b'b')));
    assert!(rt; begins(rt.alloc(), Did::SilentlyAdded(b'a'), Did::Got(b'a')));
}

#[test]
fn an_append_without_an_answer_was_made_to_what_remains(rt: HostRuntime) {
    assert!(rt; begins(rt.alloc(), Did::SilentlyAppended(b'a'), Did::Got(b'a')));
}

#[test]
fn an_item_that_is_only_named_was_there_before_calls_without_an_answer(rt: HostRuntime) {
    let calls = [
        recorded(0, Did::SilentlyCounted(2), 1, 3),
        recorded(1, Did::NotAdded(b'a'), 4, 6),
        recorded(2, Did::Set(b'c'), 7, 9),
        recorded(3, Did::Got(b'c'), 10, 12),
    ];
    assert!(rt; is_found_from(rt.alloc(), true, &calls, &[0, 1, 2, 3]));
}
