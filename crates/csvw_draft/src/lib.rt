//! A first metadata document of tables: their dialects, columns, datatypes and keys, as far as their rows show them.
//!
//! ```text
//! let asked = Draft { base: None, files: &["stations.csv", "readings.csv"], profile: Profile::Core };
//! draft(alloc, &asked, &mut opener, &mut out, &mut err)?;
//! ```
//!
//! # Promises
//!
//! - `draft` sends a metadata document that has no fault at its URL in its profile (`IsDocument`), or a front of it before the stream
//!   fails. If it stops for another reason than `Write`, it sends nothing.
//! - A column begins with the datatypes that there are for its file (`kinds_of`). Each text leaves those of which it is a value
//!   (`Narrowed::take`, `readers`, `reads`). The datatype of the column is the first that is left, or `string` (`column_kind`).
//! - Only tests check the rest: that the document fits its tables, its dialect, names and keys, and the lines on `err`.
//!
//! # What a draft finds
//!
//! - The delimiter is the one by which each of the first 50 rows has the same number of fields, and more than one. The quote is `"` or
//!   `'`. Lines without the delimiter above the header are skipped, and so are blank rows that don't fit the table.
//! - A column has its header cell as `titles`, and a `name` made from it. A column whose header cell is empty has neither.
//! - Its datatype is the narrowest one that reads each of its texts but markers of missing values, as `NA` or `-`: `boolean`, `integer`,
//!   `decimal`, `date`, `dateTime` or `string`. In the profile w3c it may also be `double`, `time`, `date` with a zone, or `dateTime`
//!   with a zone, parts of a second or a space, as databases write it. A decimal may have a comma if the delimiter is `;`. A number may have a space or `'` before each three digits of
//!   its whole part.
//! - The markers among its texts are its `null`. In a column of `string` they are texts as others.
//! - It is `required` if no cell is null by that datatype.
//! - The primary key is the first column in which each cell has a value and no two have the same.
//! - A column refers to the key of another table if its name says so, it has the same datatype, and each of its values is one of the key.
//! - It keeps at most 100,000 values and 4 MiB of each column to look for keys, and 256 MiB in all. A line on `err` names each column of
//!   which more would be needed.
//! - In the profile core a line on `err` names each column that is a `string` and has another datatype in the profile w3c.
#![tactic(auto)]

mod aim;
mod asked;
mod column;
mod document;
mod drafting;
mod form;
mod grouping;
mod halt;
mod kept;
mod keys;
mod kind;
mod marker;
mod names;
mod narrowed;
mod note;
mod reading;
mod table;
mod urls;
mod value;
mod words;

pub use asked::Draft;
pub use drafting::draft;
