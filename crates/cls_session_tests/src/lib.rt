//! Tests of whole runs over sources and sinks in memory: where reads and writes fail, how the input may be cut into pieces,
//! how the output is, and that several workers take part. There is nothing here but tests. What a run writes for its input is tested by the rows under
//! `tests/`.
#![tactic(auto)]

#[cfg(test)]
mod faults;
#[cfg(test)]
mod list_library;
#[cfg(test)]
mod outside;
#[cfg(test)]
mod pieces;
#[cfg(test)]
mod streaming;
#[cfg(test)]
mod workers;
