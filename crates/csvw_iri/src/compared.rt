//! Equality and order of IRIs: those of their texts.
ghost use Rattle.std.specs.Prelude.{◌≡◌, Some, refl, nat_eq};
ghost use Rattle.std.specs.Ordering.{nat_cmp};
ghost use Rattle.std.specs.Cmp;
ghost use Rattle.std.specs.Cmp.Lexicographic.{pointwise, slice_cmp, nat_list_eq_equiv, nat_list_cmp_total, texts_ties, texts_po};

use crate::iri::Iri;
use std::cmp::Ordering;
use std::fmt;
use std::fmt::{Debug, Formatter, Write};

impl PartialEq for Iri {
    ghost eq = { pointwise nat_eq };

    ghost laws = { Cmp.partial_equiv_from_equiv nat_list_eq_equiv };

    fn eq(&self, other: &Iri) -> bool {
        self.as_str() == other.as_str()
    }
}

impl Eq for Iri {
    ghost laws = { nat_list_eq_equiv };
}

impl PartialOrd for Iri {
    ghost partial_cmp = { λ x y. Some (slice_cmp nat_cmp x y) };

    ghost laws = { texts_po };

    fn partial_cmp(&self, other: &Iri) -> Option<Ordering> {
        Some(self.cmp(other))
    }
}

impl Ord for Iri {
    ghost cmp = { slice_cmp nat_cmp };

    ghost total = { nat_list_cmp_total };

    ghost matches_partial_cmp = { λ x y. refl };

    ghost matches_eq = { texts_ties };

    fn cmp(&self, other: &Iri) -> Ordering {
        self.as_str().cmp(other.as_str())
    }
}

impl Debug for Iri {
    fn fmt<W: Write>(&self, f: &mut Formatter<W>) -> fmt::Result {
        Debug::fmt(self.as_str(), f)
    }
}
