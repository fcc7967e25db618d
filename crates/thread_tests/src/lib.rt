//! Tests of what threads share: the store, rings, thieves, bells and control words, on real threads.
#![tactic(auto)]

#[cfg(test)]
mod ample;
#[cfg(test)]
mod calls;
#[cfg(test)]
mod claims;
#[cfg(test)]
mod items;
#[cfg(test)]
mod judging;
#[cfg(test)]
mod places;
#[cfg(test)]
mod resting;
#[cfg(test)]
mod thieves;
#[cfg(test)]
mod waiting;
