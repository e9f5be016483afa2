//! Tests of the device's side: its types, when nodes conflict, and what nodes do to small objects.
#![tactic(auto)]

#[cfg(test)]
mod conflicts;
#[cfg(test)]
mod objects;
#[cfg(test)]
mod pair;
#[cfg(test)]
mod tests;
#[cfg(test)]
mod types;
