//! Copies of annotated rows.
ghost use Rattle.std.specs.Prelude.{◌≡◌, IfOk};

use crate::row::{AnnCell, Row};
use csvw_cell::copied_codes;
use csvw_text::{Copied, both, copied_option};
use std::alloc::{AllocError, Global};

impl AnnCell {
    /// Returns an equal cell, which shares its links, or `AllocError` if memory runs out.
    pub fn clone(&self, alloc: Global) -> Result<AnnCell, AllocError>
        ensures { IfOk result (λ c. c ≡ self.now) }
    {
        let says = both(self.value.clone(alloc), copied_codes(alloc, &self.faults));
        let about = copied_option(alloc, &self.about);
        let property = copied_option(alloc, &self.property);
        let links = both(both(about, property), copied_option(alloc, &self.link));
        let (says, links) = both(says, links)?;
        let (value, faults) = says;
        let ((about, property), link) = links;
        Ok(AnnCell {
            value,
            about,
            property,
            link,
            faults,
        })
    }
}

impl Copied for AnnCell {
    fn copied(&self, alloc: Global) -> Result<AnnCell, AllocError> {
        self.clone(alloc)
    }
}

impl Row {
    /// Returns an equal row, which shares its links, or `AllocError` if memory runs out.
    pub fn clone(&self, alloc: Global) -> Result<Row, AllocError>
        ensures { IfOk result (λ r. r ≡ self.now) }
    {
        Ok(Row {
            number: self.number,
            source: self.source,
            cells: self.cells.clone(alloc)?,
        })
    }
}
