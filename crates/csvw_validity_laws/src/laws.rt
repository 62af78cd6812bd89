//! Laws that relate the definitions in the contracts. The calls do nothing.
ghost use Rattle.csvw_validity_laws.specs.ValidityLaws.{DocumentsWarn, ValidDocumentsHaveNoErrors, ValidHasNoErrors};

use csvw_records::laws::have_one_list;

/// A law: a group of annotated tables is valid exactly if none of the constraints that it violates is an error. What is
/// ignored of its document must be reported as warnings.
pub fn valid_groups_have_no_errors()
    ensures { ValidHasNoErrors }
{
    have_one_list();
}

/// A law: what is ignored in a document is reported only as warnings. If a document describes a group, none of what
/// the plan of the group reports of the document is an error.
pub fn documents_warn()
    ensures { DocumentsWarn }
{}

/// A law: the group that a document describes is valid exactly if none of the constraints that its annotated tables
/// violate is an error.
pub fn valid_documents_have_no_errors()
    ensures { ValidDocumentsHaveNoErrors }
{
    valid_groups_have_no_errors();
    documents_warn();
}
