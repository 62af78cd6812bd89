//! Tests of texts, IRIs, templates, datatypes and doubles: worked values, links, expansions, and writers that fail.
#![tactic(auto)]

#[cfg(test)]
mod bases;
#[cfg(test)]
mod claims;
#[cfg(test)]
mod copies;
#[cfg(test)]
mod datatypes;
#[cfg(test)]
mod date_times;
#[cfg(test)]
mod doubles;
#[cfg(test)]
mod durations;
#[cfg(test)]
mod durations_order;
#[cfg(test)]
mod encoded;
#[cfg(test)]
mod expressions;
#[cfg(test)]
mod iri_limits;
#[cfg(test)]
mod iris;
#[cfg(test)]
mod kept_texts;
#[cfg(test)]
mod limited;
#[cfg(test)]
mod limits;
#[cfg(test)]
mod links;
#[cfg(test)]
mod octets;
#[cfg(test)]
mod own;
#[cfg(test)]
mod patterns;
#[cfg(test)]
mod readings;
#[cfg(test)]
mod spaced_moments;
#[cfg(test)]
mod stamps;
#[cfg(test)]
mod tables;
#[cfg(test)]
mod telling;
#[cfg(test)]
mod templates;
#[cfg(test)]
mod temporal_order;
#[cfg(test)]
mod texts;
#[cfg(test)]
mod writing;
#[cfg(test)]
mod zones;
