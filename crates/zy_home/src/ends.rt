//! The ends of connections.
ghost use Rattle.std.specs.Prelude.{◌≡◌, [], ◌∷◌, map, IfSome, IfNone};
ghost use Rattle.zy_home.specs.End.{ended_of, ended_output};

use crate::link::Link;
use std::collections::VecDeque;
use std::marker::Model;
use zy_calls::Output;

/// The ends of a home's connections. Contracts see the list of their outputs with the ends of their
/// closed sessions, by rising number of connection.
#[derive(Drop)]
pub struct Ends {
    links: VecDeque<Link>,
}

impl Model for Ends {
    ghost use Rattle.std.specs.Prelude.{List, map};
    ghost use Rattle.zy_home.specs.End.{EndedOutput, ended_of};

    ghost Value = { List EndedOutput };

    ghost view = { λ ends. map ended_of ends.links.items };
}

impl Ends {
    // Makes the ends of these connections. Takes no memory.
    pub(crate) fn of(links: Vec<Link>) -> Ends
        ensures value { result ≡ map ended_of links.items }
    {
        Ends {
            links: VecDeque::from_vec(links),
        }
    }

    /// Takes the first output, with the ends of the closed sessions. An end is the number of
    /// commands up to it. It is `None` if and only if none is left. Takes no memory.
    pub fn next(&mut self) -> Option<(Output, Vec<u64>)>
        ensures value { IfSome result (λ end. self.old
            ≡ ended_output end.0 end.1.items ∷ self.new) }
        ensures none { IfNone result (self.old ≡ []) }
    {
        match self.links.pop_front() {
            Some(link) => Some(link.into_end()),
            None => None,
        }
    }
}
