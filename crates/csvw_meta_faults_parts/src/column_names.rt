//! The faults of names of columns in keys and row titles (Metadata Vocabulary for Tabular Data, sections 5.1.4 and 5.5).
ghost use Rattle.csvw_meta_keys.specs.ColumnNames.{column_names, key_name, row_titles};

use csvw_meta_core::{
    MetaCode, MetaFault, NumberedReader, Part, Profile, Reader, Refusal, Several,
};
use csvw_meta_faults_core::{Finder, NumberedFinder, add_fault, add_wrong};
use csvw_meta_keys::KeyName;
use csvw_meta_keys::column_names::{ColumnNames, KeyNameReader, MAX_COLUMNS, RowTitles};
use csvw_text::Seq;
use serde_json::Value;
use std::alloc::AllocError;

/// The name of a column in a key.
#[derive(Drop)]
struct NameFinder;

impl NumberedReader for NameFinder {
    type Output = KeyName;

    ghost reads = { λ _ n. key_name };

    fn read(&self, number: u32, part: &Part) -> Result<KeyName, Refusal> {
        KeyNameReader.read(number, part)
    }
}

impl NumberedFinder for NameFinder {
    fn find(&self, part: &Part, faults: &mut Vec<MetaFault>) -> Result<(), AllocError> {
        match part.value {
            Value::String(_) => Ok(()),
            _ => add_wrong(part, faults),
        }
    }
}

/// The names of the columns of a key: a name, or an array of 1 to 16 names.
#[derive(Drop)]
pub struct NamesFinder;

impl Reader for NamesFinder {
    type Output = Seq<KeyName>;

    ghost reads = { λ _. column_names };

    fn read(&self, part: &Part) -> Result<Seq<KeyName>, Refusal> {
        ColumnNames.read(part)
    }
}

impl Finder for NamesFinder {
    fn find(&self, part: &Part, faults: &mut Vec<MetaFault>) -> Result<(), AllocError> {
        match part.value {
            Value::String(_) => Ok(()),
            _ => {
                let names = Several {
                    reader: NameFinder,
                    least: 1,
                    most: MAX_COLUMNS,
                };
                names.find(part, faults)
            }
        }
    }
}

/// The names of the columns whose values are titles of their rows (section 5.5). In the profile `Core` they are
/// `NotSupported`.
#[derive(Drop)]
pub struct RowTitlesFinder {
    /// The profile.
    pub profile: Profile,
}

impl Reader for RowTitlesFinder {
    type Output = Seq<KeyName>;

    ghost reads = { λ r. row_titles r.profile };

    fn read(&self, part: &Part) -> Result<Seq<KeyName>, Refusal> {
        let titles = RowTitles {
            profile: self.profile,
        };
        titles.read(part)
    }
}

impl Finder for RowTitlesFinder {
    fn find(&self, part: &Part, faults: &mut Vec<MetaFault>) -> Result<(), AllocError> {
        match self.profile {
            Profile::Core => add_fault(part, MetaCode::NotSupported, faults),
            Profile::W3c => NamesFinder.find(part, faults),
        }
    }
}
