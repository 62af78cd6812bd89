//! Laws alone: the parts of a group, joined, are the whole group.
//!
//! A part reads pieces of tables. Pieces that go on from each other, table by table, have all rows of the tables
//! (`AreCutInto`).
//!
//! # Promises
//!
//! - The triples of the rows of all parts, part by part, are those of the tables, one table after the other: the law
//!   `parts_join` (`JoinedParts`).
//! - The faults of the cells of all parts, with the warnings of the metadata, the faults of the headers and those of the
//!   keys, are the violations of the group: the law `parts_join`.
//! - The faults of the keys are those that the joined records of the rows of all parts show, in any order: the law
//!   `keys_join` (`AreFoundByParts`). It asks nothing of source numbers, since the rows of annotated tables are those of files.
//! - The pieces of every plan that `split` of csvw_split returns are pieces of the annotated tables of its files: the law
//!   `cuts_are_pieces` (`ArePiecesOfTables`). A piece has the rows of its table from its count of data rows on, up to the count of the
//!   next piece. The bytes before it are the rows before them.
//! - Before each piece of a part that ran over such a plan come the bytes of its file before it, and the first rows of its table, so
//!   what `run_part` of csvw_parts promises holds: the law `parts_give` (`PartGives`).
//! - The rows that a part finds up to a later piece are the first rows of the annotated table, and those up to the end of the file are
//!   all: the law `find_rows` (`FindRows`).
//! - The runs of all parts over such a plan are, together, the whole group: the law `runs_join` (`RunsJoin`). Their triples, part by
//!   part, are those of the group in order, and its graph. Their records are those of all rows. Their faults, with those that these
//!   records show, are the violations of the group.
#![tactic(auto)]

pub mod laws;
