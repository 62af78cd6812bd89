//! Tests of metadata documents, property by property: which are read, and with which fault the others are refused.
#![tactic(auto)]

#[cfg(test)]
mod annotations;
#[cfg(test)]
mod bundles;
#[cfg(test)]
mod columns;
#[cfg(test)]
mod contexts;
#[cfg(test)]
mod defaults;
#[cfg(test)]
mod dialects;
#[cfg(test)]
mod groups;
#[cfg(test)]
mod inherited;
#[cfg(test)]
mod limits;
#[cfg(test)]
mod named;
#[cfg(test)]
mod reading;
#[cfg(test)]
mod row_titles;
#[cfg(test)]
mod schema_references;
#[cfg(test)]
mod schemas;
#[cfg(test)]
mod tables;
