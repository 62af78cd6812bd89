//! The listed name that is nearest to a misspelled one.

use std::alloc::{AllocError, Global};
use strsim::levenshtein;

/// How many letters a misspelled name differs from the name that is meant, at most.
const NEAR: usize = 2;

/// The listed name that is nearest to a name so far.
#[derive(Clone, Copy)]
struct Nearest {
    /// The name, if one is near.
    name: Option<&'static str>,
    /// By how many letters it differs. It is more than is near if there is none.
    distance: usize,
}

impl Nearest {
    /// Looks at more listed names.
    fn among(
        self,
        alloc: Global,
        name: &str,
        listed: &[&'static str],
    ) -> Result<Nearest, AllocError> {
        let mut nearest = self;
        for other in listed {
            let distance = levenshtein(alloc, name, other)?;
            if distance < nearest.distance {
                nearest = Nearest {
                    name: Some(*other),
                    distance,
                };
            }
        }
        Ok(nearest)
    }
}

/// Returns the name of some lists that is nearest to a name, if one is near.
pub(crate) fn near_name(
    alloc: Global,
    name: &str,
    lists: &[&[&'static str]],
) -> Result<Option<&'static str>, AllocError> {
    let mut nearest = Nearest {
        name: None,
        distance: NEAR + 1,
    };
    for list in lists {
        nearest = nearest.among(alloc, name, list)?;
    }
    Ok(nearest.name)
}
