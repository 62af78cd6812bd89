//! A law of the facets that are read.
ghost use Rattle.std.specs.Prelude.{List, ℕ};
ghost use Rattle.serde_json.specs.Data.{Data};
ghost use Rattle.csvw_datatype.specs.declared.simple.Simple.{Simple};
ghost use Rattle.csvw_meta_datatype.specs.Facets.{facets};
ghost use Rattle.csvw_meta_datatype.specs.Fit.{FacetsFit};

use csvw_datatype::bounds_read;

/// A law: the facets that are read fit their type and each other, even if there is a fault in them.
pub fn facets_fit()
    ensures { (s : Simple) (at : List ℕ) (d : Data) → FacetsFit s (facets s at d).value }
{
    bounds_read();
}
