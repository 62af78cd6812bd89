//! Tests of the completions and the manual page, of what a document says, and of drafts, by their public calls.
#![tactic(auto)]

#[cfg(test)]
mod draft;
#[cfg(test)]
mod help;
#[cfg(test)]
mod inspect;
#[cfg(test)]
mod inspected;
