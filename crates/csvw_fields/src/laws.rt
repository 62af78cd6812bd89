//! A law that connects the definitions of drafts and bounds. The call does nothing.
ghost use Rattle.csvw_fields.specs.FieldLaws.{FieldsAreLawful};

/// The laws of drafts and bounds by which a reader of rows is proved.
pub fn field_laws()
    ensures { FieldsAreLawful }
{}
