// Tests of calls and of the state of a share group: their copies, its opening, its refusals, and what calls do to it, each alone
// and one after another.
#![tactic(auto)]

#[cfg(test)]
mod copies;
#[cfg(test)]
mod lone_calls;
#[cfg(test)]
mod opening;
#[cfg(test)]
mod refusals;
#[cfg(test)]
mod tests;
