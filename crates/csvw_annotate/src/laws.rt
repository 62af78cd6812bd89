//! A law about annotated rows. The call does nothing.
ghost use Rattle.csvw_records.specs.RowValue.{Given};
ghost use Rattle.csvw_columns_core.specs.declared.columns.Columns.{Columns as TheColumns};
ghost use Rattle.csvw_annotate.specs.Annotated.{IsRow};
ghost use Rattle.csvw_annotate.specs.HasForms.{HasForms};
ghost use Rattle.csvw_annotate.specs.declared.row.Row.{Row as TheRow};

use csvw_datatype::values_of_texts;

/// A law: the values of an annotated row have lexical forms.
pub fn annotated_rows_have_forms()
    ensures { (columns : TheColumns) (raw : Given) (row : TheRow) → IsRow columns raw row → HasForms row }
{
    values_of_texts();
}
