//! All faults of the datatypes, the inherited properties, the keys and the row titles of a metadata document: a lower part
//! of csvw_meta_faults (Metadata Vocabulary for Tabular Data, sections 5.5, 5.7 and 5.11).
//!
//! # Promises
//!
//! - The faults of a datatype are listed, also of one whose `base` can't be read: `find_datatype` (`given_datatype`).
//! - The faults of inherited properties are listed: `find_inherited` (`inherited`).
//! - The faults of the keys and row titles of a schema are listed: `find_keys` (`keys`). `keys_seen` returns what they say,
//!   whatever faults they have (`bare_keys`).
//!
//! Each function adds the faults of its part at the end of a list, in the order of the definition.
#![tactic(auto)]

mod based;
mod bounds;
mod column_names;
mod count;
mod datatype;
mod facets;
mod foreign_key;
mod form;
mod format;
mod inherited;
mod items;
mod keys;
mod leaf;
mod lengths;
mod number;
mod reference;
mod refused;
mod seen_key_names;
mod seen_keys;
mod seen_reference;
mod simples;
mod truth;
mod whichever;

pub use count::find_count;
pub use datatype::find_datatype;
pub use inherited::find_inherited;
pub use items::array_items;
pub use keys::find_keys;
pub use leaf::{Leaf, OneFault, Replaced};
pub use seen_keys::keys_seen;
