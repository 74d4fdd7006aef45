//! The tests of tables, of what they are read from and written to, of join clauses, and of what
//! threads share: columns, CSV, hashes of keys, conditions, the join of one partition, ledgers, the
//! exchange and the workers over it. They are worked examples, and what no contract says. The crate
//! holds nothing but tests, so that none of the libraries is proved a second time.
#![tactic(auto)]

#[cfg(test)]
mod columns;
#[cfg(test)]
mod condition;
#[cfg(test)]
mod csv_io;
#[cfg(test)]
mod exchange;
#[cfg(test)]
mod hashjoin;
#[cfg(test)]
mod header;
#[cfg(test)]
mod ledger;
#[cfg(test)]
mod radix;
#[cfg(test)]
mod samples;
#[cfg(test)]
mod waiting;
#[cfg(test)]
mod workers;
