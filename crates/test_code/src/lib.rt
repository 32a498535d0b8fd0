//! Tests of what a row of text cannot say: sources and sinks that fail, those of std that are adapted, and lines for which memory was refused.
#![tactic(auto)]

#[cfg(test)]
mod lines;
#[cfg(test)]
mod streams;
