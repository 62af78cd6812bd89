//! Laws that relate the definitions in the contracts. The calls do nothing.
ghost use Rattle.csvw_row_keys.specs.RecordLaws.{FindsFaultsOfParts, FindsKeyFaults, JoinsRecords, SourcesAscend};
ghost use Rattle.csvw_row_keys.specs.SpellingLaws.{SpelledApart, SpelledPlainly};

use csvw_key_records::laws::permutes_faults;

/// A law: two keys have one spelling exactly if they are equal.
pub fn keys_are_spelled_apart()
    ensures { SpelledApart }
{}

/// A law: no spelling has a control character, a quote or a comma.
pub fn keys_are_spelled_plainly()
    ensures { SpelledPlainly }
{}

/// A law: the records of rows in parts, joined, are those of all rows, in another order.
pub fn parts_have_all_records()
    ensures { JoinsRecords }
{}

/// A law: the faults of the records of whole tables are the faults of their keys, if source numbers ascend.
pub fn records_find_key_faults()
    ensures { FindsKeyFaults }
{}

/// A law: the records of all parts, in any order, have the faults of the keys of whole tables, if source numbers ascend.
pub fn records_find_faults_of_parts()
    ensures { FindsFaultsOfParts }
{
    parts_have_all_records();
    records_find_key_faults();
    permutes_faults();
}

/// A law: the source numbers of the rows of a file ascend.
pub fn sources_ascend()
    ensures { SourcesAscend }
{}
