//! A law of the formats that are read.
ghost use Rattle.std.specs.Prelude.{List, ℕ};
ghost use Rattle.serde_json.specs.Data.{Data};
ghost use Rattle.csvw_fault.specs.declared.fault.Place.{Place};
ghost use Rattle.csvw_meta_core.specs.declared.profile.Profile.{Profile};
ghost use Rattle.csvw_datatype.specs.declared.simple.Simple.{Simple};
ghost use Rattle.csvw_datatype.specs.Formats.{IsFormatOf};
ghost use Rattle.csvw_meta_datatype.specs.Formats.{format};

/// A law: the format that is read is one of its type, even if there is a fault in it.
pub fn formats_fit()
    ensures { (profile : Profile) (s : Simple) (place : Place) (at : List ℕ) (d : Data) → IsFormatOf s (format profile s place at d).value.format }
{}
