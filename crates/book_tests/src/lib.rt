//! Tests of the bookkeeping crates, each alone and garbage with its cleanups.
#![tactic(auto)]

#[cfg(test)]
mod indexes;
#[cfg(test)]
mod retiring;
#[cfg(test)]
mod stores;
#[cfg(test)]
mod tests;
#[cfg(test)]
mod uses;
