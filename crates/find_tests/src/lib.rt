//! Tests of the search for an order, by its public call.
#![tactic(auto)]

#[cfg(test)]
mod orders;
#[cfg(test)]
mod recording;
#[cfg(test)]
mod windows;
