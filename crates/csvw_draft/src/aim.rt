//! What the columns of a table are read for.

use crate::kept::Purpose;
use csvw_meta::Profile;

/// What the columns of a table are read for.
#[derive(Clone, Copy)]
pub(crate) struct Aim {
    /// What their texts are kept for.
    pub(crate) purpose: Purpose,
    /// The profile of the document. It has the datatypes that are looked for.
    pub(crate) profile: Profile,
}
