//! Calls with their replies.
use mc_calls::{Call, CallReply, Entry};

/// A call with its reply.
#[derive(Drop)]
pub struct Exchange {
    pub call: Call,
    pub reply: CallReply,
}

const _: () = prove!(size_of::<Exchange>() == 128);

const _: () = prove!(size_of::<Entry>() == 160);
