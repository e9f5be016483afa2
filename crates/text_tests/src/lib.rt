// Tests of the texts: what `trace_text` makes of whole traces, how replies are written, and the traces that are generated.
#![tactic(auto)]

#[cfg(test)]
mod generated;
#[cfg(test)]
mod tests;
