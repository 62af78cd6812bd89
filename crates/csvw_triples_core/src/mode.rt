//! The mode of a run: which triples it writes.

/// Which triples a run makes of a group of tables (csv2rdf, section 4).
#[derive(Clone, Copy, Debug, PartialEq, Eq)]
pub enum Mode {
    /// No triples. The run only validates.
    Validate,
    /// The triples of the cells only.
    Minimal,
    /// The triples of the cells, the group, its tables and their rows.
    Standard,
}
