//! Laws that connect the definitions of rows, files and stops. The calls do nothing.
ghost use Rattle.csvw_records.specs.ListLaws.{HaveOneList, FrontsGrow, StopsPart, FirstBegin, FirstStay, FilesHaveNoStop};
ghost use Rattle.csvw_records.specs.RecordLaws.{RecordsAreLawful};

/// A law: bytes are a file of at most one list of rows.
pub fn have_one_list()
    ensures { HaveOneList }
{}

/// A law: the front of bytes that haven't ended begins the front of all bytes that begin with them.
pub fn fronts_grow()
    ensures { FrontsGrow }
{}

/// A law: the place of a stop separates the fronts of a text that begin a file from those that don't. It is the
/// shortest front that doesn't.
pub fn stops_part()
    ensures { StopsPart }
{}

/// A law: rows that come first in a text begin its front.
pub fn first_begin()
    ensures { FirstBegin }
{}

/// A law: rows that come first in bytes that haven't ended come first in all bytes that begin with them.
pub fn first_stay()
    ensures { FirstStay }
{}

/// A law: bytes that begin a file, or are one, have no stop.
pub fn files_have_no_stop()
    ensures { FilesHaveNoStop }
{}

/// The laws of texts, terminators, passes, rows and stops by which a reader of rows is proved.
pub fn record_laws()
    ensures { RecordsAreLawful }
{}
