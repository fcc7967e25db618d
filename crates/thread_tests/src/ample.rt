//! Calls that allocate and that no run of the program makes: each succeeds when memory is ample.
use crate::judging::{judge, no_memory};
use crate::places::{new_ring, publish_below};
use mc_store::StoreTable;
use zy_base::Blob;
use zy_calls::Batch;

#[test]
fn a_text_is_sent(rt: HostRuntime) {
    let alloc = rt.alloc();
    let Ok(text) = Blob::copy_of(alloc, b"NOT_FOUND\r\n") else {
        no_memory(&rt)
    };
    let mut batch = Batch::new(alloc, 3);
    let sent = batch.send(text);
    let is_sent = sent.is_ok() && batch.count() == 1;
    drop(sent);
    drop(batch);
    judge(&rt, is_sent, "the text is not sent");
}

#[test]
fn a_store_without_passes_is_closed(rt: HostRuntime) {
    let Ok((store, root)) = StoreTable::new(rt.alloc(), 2) else {
        no_memory(&rt)
    };
    let closed = store.close(root);
    let is_closed = closed.is_ok();
    drop(closed);
    judge(&rt, is_closed, "it is not closed");
}

#[test]
fn a_ring_with_two_places_in_its_queue_is_closed(rt: HostRuntime) {
    let (ring, mut home) = new_ring(&rt, rt.alloc(), 3);
    publish_below(&ring, &mut home, 2);
    let closed = ring.close(home);
    let is_closed = closed.is_ok();
    drop(closed);
    judge(&rt, is_closed, "it is not closed");
}
