//! The faults of the kinds of value that a property has (Metadata Vocabulary for Tabular Data, section 5.1).
ghost use Rattle.csvw_meta_faults_core.specs.Sole.{truth_has_one, text_has_one, some_text_has_one, fixed_has_one, whole_has_one, any_whole_has_one};
ghost use Rattle.csvw_meta_faults_core.specs.Sole.{character_has_one, language_has_one, not_yet_has_one};

use crate::each::find_each;
use crate::finder::{Finder, add_wrong};
use crate::sole::{Sole, find_sole};
use csvw_meta_core::{
    AnyText, AnyWhole, Character, Fixed, Language, MetaFault, NotYet, Part, SomeText, Texts, Truth,
    WholeU8, WholeU32,
};
use serde_json::Value;
use std::alloc::AllocError;

impl Sole for Truth {
    ghost has_one = { λ _. truth_has_one };
}

impl Finder for Truth {
    fn find(&self, part: &Part, faults: &mut Vec<MetaFault>) -> Result<(), AllocError> {
        find_sole(part, self, faults)
    }
}

impl Sole for AnyText {
    ghost has_one = { λ _. text_has_one };
}

impl Finder for AnyText {
    fn find(&self, part: &Part, faults: &mut Vec<MetaFault>) -> Result<(), AllocError> {
        find_sole(part, self, faults)
    }
}

impl Sole for SomeText {
    ghost has_one = { λ _. some_text_has_one };
}

impl Finder for SomeText {
    fn find(&self, part: &Part, faults: &mut Vec<MetaFault>) -> Result<(), AllocError> {
        find_sole(part, self, faults)
    }
}

impl<'a> Sole for Fixed<'a> {
    ghost has_one = { λ r. fixed_has_one r.text.now };
}

impl<'a> Finder for Fixed<'a> {
    fn find(&self, part: &Part, faults: &mut Vec<MetaFault>) -> Result<(), AllocError> {
        find_sole(part, self, faults)
    }
}

impl Sole for WholeU8 {
    ghost has_one = { λ r. whole_has_one r.most };
}

impl Finder for WholeU8 {
    fn find(&self, part: &Part, faults: &mut Vec<MetaFault>) -> Result<(), AllocError> {
        find_sole(part, self, faults)
    }
}

impl Sole for WholeU32 {
    ghost has_one = { λ r. whole_has_one r.most };
}

impl Finder for WholeU32 {
    fn find(&self, part: &Part, faults: &mut Vec<MetaFault>) -> Result<(), AllocError> {
        find_sole(part, self, faults)
    }
}

impl Sole for AnyWhole {
    ghost has_one = { λ _. any_whole_has_one };
}

impl Finder for AnyWhole {
    fn find(&self, part: &Part, faults: &mut Vec<MetaFault>) -> Result<(), AllocError> {
        find_sole(part, self, faults)
    }
}

impl Sole for Character {
    ghost has_one = { λ r. character_has_one r.several };
}

impl Finder for Character {
    fn find(&self, part: &Part, faults: &mut Vec<MetaFault>) -> Result<(), AllocError> {
        find_sole(part, self, faults)
    }
}

impl Sole for Language {
    ghost has_one = { λ r. language_has_one r.wrong };
}

impl Finder for Language {
    fn find(&self, part: &Part, faults: &mut Vec<MetaFault>) -> Result<(), AllocError> {
        find_sole(part, self, faults)
    }
}

impl Sole for NotYet {
    ghost has_one = { λ _. not_yet_has_one };
}

impl Finder for NotYet {
    fn find(&self, part: &Part, faults: &mut Vec<MetaFault>) -> Result<(), AllocError> {
        find_sole(part, self, faults)
    }
}

impl Finder for Texts {
    fn find(&self, part: &Part, faults: &mut Vec<MetaFault>) -> Result<(), AllocError> {
        match part.value {
            Value::String(_) => Ok(()),
            Value::Array(items) => find_each(part, &AnyText, items.as_slice(), faults),
            _ => add_wrong(part, faults),
        }
    }
}
