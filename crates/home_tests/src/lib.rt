//! Tests of blocks and homes: what a home receives while a block is away or held by another thread.
#![tactic(auto)]

#[cfg(test)]
mod away;
#[cfg(test)]
mod beside;
#[cfg(test)]
mod block_parts;
#[cfg(test)]
mod home_parts;
#[cfg(test)]
mod offered;
#[cfg(test)]
mod receiving;
#[cfg(test)]
mod sure;
