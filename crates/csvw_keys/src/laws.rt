//! Laws that relate the definitions in the contracts. The calls do nothing.
ghost use Rattle.csvw_keys.specs.KeyLaws.{AnyOrder, EqualFaults};

use csvw_report::laws::sorts_to_one;

/// A law: equal tables have equal key faults, as one list in the order of reports.
pub fn equal_tables_have_equal_faults()
    ensures { EqualFaults }
{
    sorts_to_one();
}

/// A law: the order in which rows of different tables are added does not matter.
pub fn tables_are_apart()
    ensures { AnyOrder }
{}
