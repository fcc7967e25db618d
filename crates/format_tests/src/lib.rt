//! Tests of the formats and of their readers and writers, by public calls.
#![tactic(auto)]

#[cfg(test)]
mod ample;
#[cfg(test)]
mod failing;
#[cfg(test)]
mod inputs;
#[cfg(test)]
mod items;
#[cfg(test)]
mod sinks;
