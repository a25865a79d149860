//! Tests of what a run keeps: the ledger over disks in memory, its calls and a stop at each of them, and the board of claims.
#![tactic(auto)]

#[cfg(test)]
mod boards;
#[cfg(test)]
mod ledgers;
