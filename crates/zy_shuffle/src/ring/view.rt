//! What a seat at the table of a ring knows. No value of these types is made.
use std::collections::LinkedList;
use zy_table::Name;

/// The number that a step found, and the number of that step.
pub struct Sight {
    pub value: u64,
    pub step: u64,
}

/// An event of the ownership machine: requests of a connection arrive; a core takes the first
/// connection of the queue, finishes a request of a connection, or gives a connection back; or the
/// home collects a connection or settles it. The fields are the connection and the number of its
/// requests, the core, the core and the connection, or the connection.
pub enum Event {
    Arrive(u64, u64),
    Claim(u64),
    Handle(u64, u64),
    GiveBack(u64, u64),
    Collect(u64),
    Settle(u64),
}

/// The number of steps that a seat has made, and what it found: at its last loads of the head and
/// of the tail, at its last compare and exchange of the head, and at its loads of doorbell words,
/// the newest first. `run` is the run of the ownership machine as it was at this seat's last event,
/// the newest event first. `seats` are the seats all of whose events are in `run`: this seat, once
/// it has made an event, and those that it joined.
pub struct Trace {
    pub steps: u64,
    pub head: Sight,
    pub tail: Sight,
    /// The head at the moment of the last load of the tail.
    pub under: u64,
    pub tried: Sight,
    pub bells: LinkedList<(u64, Sight)>,
    pub run: LinkedList<Event>,
    pub seats: LinkedList<u64>,
}

/// The role of a seat. The home knows the tail, the cell that it stored and has not published yet,
/// the doorbell word that it loaded last with the bits that it found, and the number of passes that
/// are out. Once it is closed it knows the places that were in its hand.
pub enum Role {
    Spent,
    Start,
    Core,
    Home(u64, Option<u64>, Option<(u64, u64)>, u64),
    Closed(LinkedList<u64>),
}

/// What a seat knows. `kept` has blocks, the newest first; the marks that it keeps for places are
/// theirs. `note` is the number of the cell that was loaded last, and the value found there.
pub struct View<T> {
    pub role: Role,
    pub label: Name,
    pub hand: LinkedList<u64>,
    pub kept: LinkedList<(u64, T)>,
    pub note: Option<(u64, u64)>,
    pub trace: Trace,
}
