//! `KeyJudge`: the faults of sorted records, found with memory for one line.
ghost use Rattle.std.specs.Prelude.{◌≡◌, [], ◌∷◌, ◌++◌, List, IfErr, IfOk, MatchOption, false};
ghost use Rattle.std.specs.Cmp.Lexicographic.{slice_cmp};
ghost use Rattle.std.specs.Option.{option_to_list};
ghost use Rattle.std.specs.Ordering.{nat_cmp};
ghost use Rattle.std.specs.declared.cmp.Ordering.TheVariants.{Less};
ghost use Rattle.csvw_fault.specs.declared.fault.Fault.{Fault as TheFault};
ghost use Rattle.csvw_key_records.specs.Groups.{IsGroup, repeats};
ghost use Rattle.csvw_key_records.specs.Judging.{BreaksOrder, Holds, IsDisorder, IsLineOf};
ghost use Rattle.csvw_key_records.specs.Records.{Fits, front_of, line_of};
ghost use Rattle.csvw_key_records.specs.declared.record.KeyRecord.{KeyRecord as TheRecord};

use crate::group::Group;
use crate::reading::KeyLine;
use csvw_text::Fault;
use std::alloc::Global;
use std::cmp::Ordering;

/// Why a line can't follow those before it.
#[derive(Clone, Copy, Debug, PartialEq, Eq)]
pub(crate) enum Disorder {
    /// Memory ran out.
    Memory,
    /// The line is below the line before it.
    Order,
    /// The line is the line before it.
    Twice,
    /// The line is of the first row with its primary key, which has another record.
    Row,
}

/// The faults of sorted records.
#[derive(Drop)]
pub(crate) struct KeyJudge {
    /// The last line. It is empty before the first line.
    last: Vec<u8>,
    /// What is known of the key of the last line.
    group: Group,
}

impl KeyJudge {
    /// Returns a judge of no records.
    pub(crate) fn new(alloc: Global) -> KeyJudge
        ensures { Holds result [] [] }
    {
        KeyJudge {
            last: Vec::new(alloc),
            group: Group::empty(),
        }
    }

    /// Returns what is known of the key with this front, whose line is above the last one.
    fn group_at(&self, front: &[u8]) -> Group
        ensures { (r : TheRecord) (records : List TheRecord) (faults : List TheFault) → Fits r → front.now ≡ front_of r
            → slice_cmp nat_cmp self.now.last.items (line_of r) ≡ Less → Holds self.now records faults → IsGroup result r.rule r.key records }
    {
        if self.last.as_slice().starts_with(front) {
            self.group
        } else {
            Group::empty()
        }
    }

    /// Returns why a line can't follow the last one.
    fn disorder(&self, text: &[u8]) -> Option<Disorder>
        ensures { MatchOption result (slice_cmp nat_cmp self.now.last.items text.now ≡ Less) (BreaksOrder self.now.last.items text.now) }
    {
        match self.last.as_slice().cmp(&text) {
            Ordering::Less => None,
            Ordering::Equal => Some(Disorder::Twice),
            Ordering::Greater => Some(Disorder::Order),
        }
    }

    /// Takes the line of a record. Returns the fault that is certain by it.
    pub(crate) fn take(&mut self, line: KeyLine<'_>) -> Result<Option<Fault>, Disorder>
        ensures ok { IfOk result (λ fault. (r : TheRecord) (records : List TheRecord) (faults : List TheFault) → Fits r → IsLineOf line.entry r
            → Holds self.old records faults → Holds self.new (records ++ r ∷ []) (faults ++ option_to_list fault)) }
        ensures disorder { IfErr result (λ why. (r : TheRecord) (records : List TheRecord) (faults : List TheFault) → Fits r → IsLineOf line.entry r
            → Holds self.old records faults → IsDisorder records r why) }
    {
        if let Some(disorder) = self.disorder(line.text) {
            return Err(disorder);
        }
        let group = self.group_at(line.front);
        if group.repeats(line.role, line.place) {
            return Err(Disorder::Row);
        }
        self.last.clear();
        if let Err(_) = self.last.extend_from_slice(line.text) {
            return Err(Disorder::Memory);
        }
        self.group = group.after(line.role, line.place);
        Ok(group.certain(line.role, line.place))
    }
}
