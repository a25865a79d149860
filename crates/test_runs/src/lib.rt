//! Tests of runs over the desk job in memory: the device calls of a frame, a stop at each call, crews whose scans wait for one
//! another, adoptions that are stopped, and contact sheets that a disk fails.
#![tactic(auto)]

#[cfg(test)]
mod adoptions;
#[cfg(test)]
mod crews;
#[cfg(test)]
mod runs;
#[cfg(test)]
mod shared;
#[cfg(test)]
mod sheets;
#[cfg(test)]
mod stops;
