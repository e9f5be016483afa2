// Tests of the command line: worked lines, and a second reader, the crate `clap`.
#![tactic(auto)]

#[cfg(test)]
mod lines;
#[cfg(test)]
mod tests;
