//! A law of the datatypes that are read.
ghost use Rattle.std.specs.Prelude.{List, ℕ};
ghost use Rattle.serde_json.specs.Data.{Data};
ghost use Rattle.url.specs.Parts.{Parts};
ghost use Rattle.csvw_fault.specs.declared.fault.Place.{Place};
ghost use Rattle.csvw_datatype.specs.Sound.{IsSound};
ghost use Rattle.csvw_meta_core.specs.declared.profile.Profile.{Profile};
ghost use Rattle.csvw_meta_datatype.specs.Datatypes.{datatype};

use crate::facet_laws::facets_fit;
use crate::format_laws::formats_fit;

/// A law: the format and the facets of the datatype that is read fit its type and each other, even if there is a fault
/// in it. So the datatype passes `Datatype::check`.
pub fn datatypes_fit()
    ensures { (profile : Profile) (against : Parts) (place : Place) (at : List ℕ) (d : Data)
        → IsSound (datatype profile against place at d).value.datatype }
{
    formats_fit();
    facets_fit();
}
