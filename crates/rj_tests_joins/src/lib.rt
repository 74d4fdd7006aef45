//! The tests of joins and of whole runs: the join by workers, joins in shards, their rows divided
//! and merged, and from the bytes of two files to those of the result, or the lines that explain an
//! error. They are worked examples, and what no contract says. The crate holds nothing but tests,
//! so that none of the libraries is proved a second time.
#![tactic(auto)]

#[cfg(test)]
mod command;
#[cfg(test)]
mod divide;
#[cfg(test)]
mod engine;
#[cfg(test)]
mod explain;
#[cfg(test)]
mod merge;
#[cfg(test)]
mod shards;
#[cfg(test)]
mod tables;
