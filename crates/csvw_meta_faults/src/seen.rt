//! What the checks over several values need of tables and groups.
use csvw_description::Schema;
use csvw_iri::Base;
use csvw_meta_keys::KeysFound;
use csvw_text::Seq;

/// What is seen of a table.
#[derive(Drop)]
pub(crate) struct TableSeen {
    /// Its URL, or `None` if it can't be read.
    pub(crate) url: Option<Base>,
    /// The columns of its own schema, or `None` if it has none.
    pub(crate) schema: Option<Schema>,
    /// The keys of its own schema.
    pub(crate) keys: Option<KeysFound>,
}

/// What is seen of a group.
#[derive(Drop)]
pub(crate) struct GroupSeen {
    /// Its tables.
    pub(crate) tables: Seq<TableSeen>,
    /// The columns of its own schema, or `None` if it has none.
    pub(crate) schema: Option<Schema>,
    /// The keys of its own schema.
    pub(crate) keys: Option<KeysFound>,
}
