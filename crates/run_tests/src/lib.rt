//! Tests of whole runs: reads and writes that fail, gates, cores that the caller drives, and the real
//! streams.
#![tactic(auto)]

#[cfg(test)]
mod callers_cores;
#[cfg(test)]
mod failing;
#[cfg(test)]
mod gated;
#[cfg(test)]
mod serving;
#[cfg(test)]
mod streams;
#[cfg(test)]
mod sure;
#[cfg(test)]
mod watch;
