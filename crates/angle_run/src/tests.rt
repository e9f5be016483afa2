// Worked traces on devices of many orders, texts that are refused, and sources, sinks and devices that fail; worlds that are stepped by
// hand; the words of the command line.
mod command_words;
mod failures;
mod groups;
mod polls;
mod rows;
mod running;
mod stepping;
mod texts;
mod worked;
