//! Records of the rows of a part and their keys. Together the records of all parts show which rows break a key
//! (Metadata Vocabulary for Tabular Data, sections 5.5.1 and 5.5.2).
//!
//! ```text
//! 1,n1000000000000000000;,referenced,2,2,1
//! 1,n9000000000000000000;,refers,1,2,1
//! 2,n1000000000000000000;,unique,2,2,1
//! ```
//!
//! By key 1 row 2 of table 1 refers to a row whose number is 9. Row 2 of table 2, whose number is 1, may be referred
//! to. Key 2 is the primary key of table 2.
//!
//! # Promises
//!
//! - `write_records` writes exactly the lines of the records of the rows that a book has recorded (`records_of`). After
//!   a stop a front of them was written. The writer failed exactly if the stop is `Write` (`StopsAt`).
//! - A primary key has a record for each row of its table. A foreign key has one for each row of the referenced table,
//!   and one for each row of its own table whose key cells are not all null: `write_records` (`rule_records`).
//! - `push_spelling` adds the spelling of a key (`spelling`). Two keys have one spelling exactly if they are equal: the
//!   law `keys_are_spelled_apart`.
//! - No spelling has a control character, a quote or a comma: the law `keys_are_spelled_plainly`.
//! - The records of parts, joined, are those of all rows, in another order: the law `parts_have_all_records`.
//! - The records of all parts, in any order, have the faults of the keys of whole tables: the law
//!   `records_find_faults_of_parts`. The law `records_find_key_faults` says it of whole tables. Both ask that source
//!   numbers ascend. Those of the rows of a file do: the law `sources_ascend`.
//!
//! # The spelling of a key
//!
//! | Cell | Spelling |
//! |---|---|
//! | null | `-` |
//! | a text | `s`, the text, `;`. Control characters, spaces, `"`, `%`, `,` and `;` are `%` and two hexadecimal digits. |
//! | a truth | `b1;` or `b0;` |
//! | a number | `n`, the number in units of 10^-18, `;`. 0 has no digits. |
//! | a day | `d`, the days since 1 January 1970, `;` |
//! | a moment | `m`, the seconds since then, `;` |
//! | a list | `[`, its values, `]` |
#![tactic(auto)]

pub mod laws;
mod listing;
mod row_lines;
mod spelling;
mod writing;

pub use spelling::push_spelling;
pub use writing::write_records;
