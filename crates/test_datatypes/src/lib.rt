//! Tests by whole runs: the datatypes of documents, the cells in the graph and in the report, and the examples of the
//! Recommendations in both modes.
#![tactic(auto)]

#[cfg(test)]
mod cells;
#[cfg(test)]
mod countries;
#[cfg(test)]
mod country_slices;
#[cfg(test)]
mod documents;
#[cfg(test)]
mod double_bounds;
#[cfg(test)]
mod double_formats;
#[cfg(test)]
mod durations;
#[cfg(test)]
mod events;
#[cfg(test)]
mod examples;
#[cfg(test)]
mod expressions;
#[cfg(test)]
mod facets;
#[cfg(test)]
mod keys;
#[cfg(test)]
mod moments;
#[cfg(test)]
mod nulls;
#[cfg(test)]
mod part_bounds;
#[cfg(test)]
mod profiles;
#[cfg(test)]
mod ranges;
#[cfg(test)]
mod refusals;
#[cfg(test)]
mod roles;
#[cfg(test)]
mod row_titles;
#[cfg(test)]
mod schema_references;
#[cfg(test)]
mod spaced_moments;
#[cfg(test)]
mod stamps;
#[cfg(test)]
mod temporal_bounds;
#[cfg(test)]
mod tree_ops;
#[cfg(test)]
mod zones;
