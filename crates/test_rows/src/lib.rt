//! Tests of csvw_rows by its public calls: worked rows at every cut, and generated texts. The rows of generated texts
//! are compared with those of the crate `csv` and with those of a plain reader of whole texts.
#![tactic(auto)]

#[cfg(test)]
mod compared;
#[cfg(test)]
mod generated;
#[cfg(test)]
mod kind;
#[cfg(test)]
mod numbers;
#[cfg(test)]
mod plain_reader;
#[cfg(test)]
mod reading;
#[cfg(test)]
mod worked;
