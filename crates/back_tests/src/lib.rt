//! Tests of a share group's back over devices in memory, and of these devices.
#![tactic(auto)]

#[cfg(test)]
mod copying;
#[cfg(test)]
mod devices;
#[cfg(test)]
mod queueing;
#[cfg(test)]
mod runs;
#[cfg(test)]
mod tests;
