//! `RowRoom`: the memory in which rows are annotated, row after row.

use crate::link_room::LinkRoom;
use csvw_datatype::Expressions;
use std::alloc::Global;

/// The memory in which rows are annotated, row after row.
#[derive(Drop)]
pub struct RowRoom {
    /// Where links are made.
    pub(crate) links: LinkRoom,
    /// The automata of the regular expressions that cells were read by.
    pub(crate) expressions: Expressions,
}

impl RowRoom {
    /// Returns memory for rows. It takes none yet.
    pub fn new(alloc: Global) -> RowRoom {
        RowRoom {
            links: LinkRoom::new(alloc),
            expressions: Expressions::new(alloc),
        }
    }
}
