//! Tests of the calls that the program doesn't make: each is made once. There is nothing here but tests.
#![tactic(auto)]

#[cfg(test)]
mod filters;
#[cfg(test)]
mod goals;
#[cfg(test)]
mod grammars;
#[cfg(test)]
mod libraries;
#[cfg(test)]
mod outside;
#[cfg(test)]
mod terms;
#[cfg(test)]
mod types;
#[cfg(test)]
mod walks;
