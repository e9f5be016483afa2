//! Tests of the nodes of calls on images and of the rows of reads: values worked out by hand from the tables of the standard.
#![tactic(auto)]

#[cfg(test)]
mod blits;
#[cfg(test)]
mod reads;
#[cfg(test)]
mod rows;
