//! Tests of the program's command by its public calls, over files in memory: the bytes of its streams and its
//! status.
#![tactic(auto)]

#[cfg(test)]
mod bounds;
#[cfg(test)]
mod checks;
#[cfg(test)]
mod documents;
#[cfg(test)]
mod examples;
#[cfg(test)]
mod explanations;
#[cfg(test)]
mod failures;
#[cfg(test)]
mod forms;
#[cfg(test)]
mod groups;
#[cfg(test)]
mod joins;
#[cfg(test)]
mod limits;
#[cfg(test)]
mod other_formats;
#[cfg(test)]
mod parts;
#[cfg(test)]
mod plain_runs;
#[cfg(test)]
mod profiles;
#[cfg(test)]
mod reports;
#[cfg(test)]
mod resources;
#[cfg(test)]
mod runs;
#[cfg(test)]
mod splits;
#[cfg(test)]
mod turns;
#[cfg(test)]
mod words;
#[cfg(test)]
mod writers;
