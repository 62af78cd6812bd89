//! Which groups of annotated tables are valid (Model for Tabular Data, section 6.6).
//!
//! # Promises
//!
//! - A group of annotated tables is valid exactly if none of its violations is an error: the law
//!   `valid_groups_have_no_errors` (`IsValid`). Its plan must be ready, and the plan's warnings must be warnings.
//! - What is ignored in a document is reported only as warnings: the law `documents_warn`.
//! - So both hold of the group that a document describes: the law `valid_documents_have_no_errors`.
#![tactic(auto)]

pub mod laws;
