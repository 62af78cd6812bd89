//! Tests of whole runs: graphs, links, keys, annotations, reports and stops.
#![tactic(auto)]

#[cfg(test)]
mod cut_files;
#[cfg(test)]
mod device_cases;
#[cfg(test)]
mod devices;
#[cfg(test)]
mod failing_readers;
#[cfg(test)]
mod failing_writers;
#[cfg(test)]
mod graphs;
#[cfg(test)]
mod groups;
#[cfg(test)]
mod hostile;
#[cfg(test)]
mod keys;
#[cfg(test)]
mod links;
#[cfg(test)]
mod long_runs;
#[cfg(test)]
mod notes;
#[cfg(test)]
mod refusals;
#[cfg(test)]
mod reports;
mod running;
#[cfg(test)]
mod runs;
#[cfg(test)]
mod standard;
#[cfg(test)]
mod wide;
#[cfg(test)]
mod worked;

pub use running::{Ran, run_in_profile, run_over, run_tables_in_profile};
