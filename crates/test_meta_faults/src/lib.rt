//! Tests of the lists of faults of parts of a metadata document: which faults are listed, and in which order.
#![tactic(auto)]

#[cfg(test)]
mod documents;
#[cfg(test)]
mod listing;
#[cfg(test)]
mod parts;
