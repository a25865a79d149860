//! Tests of commands over scans, disks and sinks in memory that fail at chosen calls, files that change behind the plan, a reel
//! of twenty minutes, tables of other probes than the program's, and values that no command shows.
#![tactic(auto)]

#[cfg(test)]
mod changes;
#[cfg(test)]
mod commands;
#[cfg(test)]
mod counts;
#[cfg(test)]
mod long_reel;
#[cfg(test)]
mod values;
