//! A group of annotated tables: its graph, its violations, and the laws that a session ends with them.
//!
//! The definitions of rows, cells and tables are relations. Each text has at most one table
//! (`texts_have_one_annotation`). So the texts alone say what a session leaves, whatever its events were. That law
//! is proved from laws of the lower crates: a text is at most one list of rows, and has at most one value or one
//! code.
//!
//! # Promises
//!
//! - No stop is in the texts of the events that a session took, and no table refuses a row of its text
//!   (`taken_events_are_tables`).
//! - If each table was ended, the texts are annotated tables. The sink took exactly their graph by the mode. The
//!   faults listed are their violations, and the book of keys keeps their rows (`sessions_annotate`).
//! - The outcome of a finished session lists exactly what those tables violate (`finished_sessions_annotate`).
//! - After each call that returned Ok, and after `Rows` and `Table`, the sink took exactly the graph of the group
//!   with all complete rows (`sessions_give_all`, `stopped_sessions_give_parts`).
//! - After `Memory` and `Write` it took that graph, but of the table of the event only some rows, at least those that
//!   it had before. It also took some triples of the next row, each of them whole. After `Write` the device of a
//!   sink that was open failed within the next triple (`stopped_sessions_give_parts`).
//! - Texts are at most one list of annotated tables (`texts_have_one_annotation`).
//! - Two finished sessions of one plan and mode whose tables have the same texts have the same faults in the same
//!   order. Their sinks took the same graph (`any_order`).
//! - A text that goes on to that of an annotated table neither stops nor is refused (`good_texts_are_accepted`).
//! - If each table is ended once, after its pieces, and the texts are annotated tables, no event is refused. Each is
//!   taken, or memory ran out, or the sink's device failed (`good_events_are_taken`).
//! - If all these events were taken, each table was ended, and `finish` returns Ok or `Memory`
//!   (`good_sessions_finish`).
#![tactic(auto)]

pub mod laws;
