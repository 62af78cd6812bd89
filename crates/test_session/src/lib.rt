//! Tests of sessions and of the layers below them: documents, plans, tables with their rows, and generated orders of events.
#![tactic(auto)]

#[cfg(test)]
mod annotated_rows;
#[cfg(test)]
mod answers;
#[cfg(test)]
mod clones;
#[cfg(test)]
mod copies;
#[cfg(test)]
mod cuts;
#[cfg(test)]
mod documents;
#[cfg(test)]
mod examples;
#[cfg(test)]
mod failing_sinks;
#[cfg(test)]
mod left;
#[cfg(test)]
mod opening;
#[cfg(test)]
mod parsed_cells;
#[cfg(test)]
mod plans;
#[cfg(test)]
mod rows;
#[cfg(test)]
mod sessions;
#[cfg(test)]
mod tables;
