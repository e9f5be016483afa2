// Tests of the tables of the caller's side: of names, contexts, framebuffers and syncs.
#![tactic(auto)]

#[cfg(test)]
mod contexts;
#[cfg(test)]
mod entries;
#[cfg(test)]
mod framebuffers;
#[cfg(test)]
mod names;
#[cfg(test)]
mod syncs;
