//! The faults of the format of a number (Model for Tabular Data and Metadata on the Web, section 6.4.2).
ghost use Rattle.std.specs.Prelude.{◌≡◌, ◌++◌, None, IfOk, OnOk};
ghost use Rattle.serde_json.specs.View.{view};
ghost use Rattle.csvw_fault.specs.declared.fault.Place.{Place as ThePlace};
ghost use Rattle.csvw_meta_core.specs.Pointer.{text_of};
ghost use Rattle.csvw_meta_datatype.specs.Numbers.{could_read_characters, lawful_number, number_form, number_parts, of_known, pattern_faults};
ghost use Rattle.csvw_meta_faults_parts.specs.Leaves.{character_has_one, character_stands_in, pattern_text_has_one, pattern_text_stands_in};

use crate::leaf::{Leaf, OneFault, Replaced};
use crate::refused::find_refused;
use csvw_datatype::NumberFormat;
use csvw_meta_core::{MetaCode, MetaFault, Part, Profile};
use csvw_meta_datatype::number::{
    CharReader, FORMAT, NumberParts, PatternReader, clashes, pattern_code, pattern_in,
};
use csvw_meta_faults_core::{
    Hiding, add_fault, find_optional, find_property, optional_value, property_value,
};
use csvw_text::Text;
use std::alloc::AllocError;

impl OneFault for CharReader {
    ghost at_most_one = { λ _. character_has_one };
}

impl Replaced for CharReader {
    ghost dummy = { λ _. 46 };

    fn replacement(&self) -> char {
        '.'
    }

    ghost is_replaced = { λ _. character_stands_in };
}

impl OneFault for PatternReader {
    ghost at_most_one = { λ r. pattern_text_has_one r.profile };
}

impl Replaced for PatternReader {
    ghost dummy = { λ _. None };

    fn replacement(&self) -> Option<Text> {
        None
    }

    ghost is_replaced = { λ r. pattern_text_stands_in r.profile };
}

/// Adds the faults of each property of the format.
#[tactic(auto, unfolding(csvw_meta_datatype::specs::Numbers::number_parts))]
fn find_number_parts(
    profile: Profile,
    part: &Part,
    faults: &mut Vec<MetaFault>,
) -> Result<(), AllocError>
    ensures { OnOk result (faults.new.items ≡ faults.old.items
        ++ (number_parts profile (text_of part.now.at) (view part.now.value.now)).faults) }
{
    let pattern = Leaf {
        reader: PatternReader { profile },
    };
    let character = Leaf { reader: CharReader };
    find_property(part, &pattern, "pattern", faults)?;
    find_property(part, &character, "decimalChar", faults)?;
    find_optional(part, &character, "groupChar", faults)
}

/// Returns the pattern and the characters that can be read.
#[tactic(auto, unfolding(csvw_meta_datatype::specs::Numbers::number_parts))]
fn parts_seen(profile: Profile, part: &Part) -> Result<NumberParts, AllocError>
    ensures { IfOk result (λ parts. parts ≡ (number_parts profile (text_of part.now.at) (view part.now.value.now)).value) }
{
    let pattern = Leaf {
        reader: PatternReader { profile },
    };
    let character = Leaf { reader: CharReader };
    let decimal_char = property_value(part, &character, "decimalChar")?;
    let group_char = optional_value(part, &character, "groupChar")?;
    let pattern = property_value(part, &pattern, "pattern")?;
    let format = NumberFormat {
        decimal_char,
        group_char,
        pattern: None,
    };
    Ok(NumberParts { pattern, format })
}

/// Returns whether both characters could be read, by the faults of the format.
fn are_characters_known(part: &Part, own: &[MetaFault]) -> Result<bool, AllocError>
    ensures { IfOk result (λ b. b ≡ could_read_characters (text_of part.now.at) own.now) }
{
    let hiding = Hiding { faults: own };
    let decimal_char = part.member("decimalChar", part.value).at.text(part.alloc)?;
    let group_char = part.member("groupChar", part.value).at.text(part.alloc)?;
    let is_decimal_known = hiding.could_read(part.alloc, decimal_char.as_str())?;
    let is_group_known = hiding.could_read(part.alloc, group_char.as_str())?;
    Ok(is_decimal_known && is_group_known)
}

/// Adds the fault of a text that is no pattern with these characters.
fn find_pattern(
    parts: &NumberParts,
    part: &Part,
    faults: &mut Vec<MetaFault>,
) -> Result<(), AllocError>
    ensures { OnOk result (faults.new.items ≡ faults.old.items
        ++ pattern_faults (text_of part.now.at) parts.now.format parts.now.pattern) }
{
    let Some(text) = &parts.pattern else {
        return Ok(());
    };
    match pattern_in(parts.format, text.as_str()) {
        Ok(_) => Ok(()),
        Err(fault) => add_fault(
            &part.member("pattern", part.value),
            pattern_code(fault),
            faults,
        ),
    }
}

/// Adds the fault of characters that could be read and are equal, and else that of the pattern.
fn find_clash(profile: Profile, part: &Part, faults: &mut Vec<MetaFault>) -> Result<(), AllocError>
    ensures { OnOk result (faults.new.items ≡ faults.old.items
        ++ of_known (text_of part.now.at) (number_parts profile (text_of part.now.at) (view part.now.value.now)).value) }
{
    let parts = parts_seen(profile, part)?;
    if clashes(parts.format) {
        return add_fault(part, MetaCode::BadDatatype, faults);
    }
    find_pattern(&parts, part, faults)
}

/// Adds the faults of the characters and the pattern. If both characters can be read and are equal, the fault is
/// `BadDatatype` at the format.
fn find_lawful_number(
    profile: Profile,
    part: &Part,
    faults: &mut Vec<MetaFault>,
) -> Result<(), AllocError>
    ensures { OnOk result (faults.new.items ≡ faults.old.items
        ++ (lawful_number profile (text_of part.now.at) (view part.now.value.now)).faults) }
{
    let mut own = Vec::new(part.alloc);
    find_number_parts(profile, part, &mut own)?;
    let are_known = are_characters_known(part, own.as_slice())?;
    faults.append(&mut own)?;
    if are_known {
        find_clash(profile, part, faults)
    } else {
        Ok(())
    }
}

/// Adds the faults of the characters and the pattern that an object describes.
#[tactic(auto, unfolding(csvw_meta_datatype::specs::Numbers::number_form))]
pub fn find_number_form(
    profile: Profile,
    part: &Part,
    faults: &mut Vec<MetaFault>,
) -> Result<(), AllocError>
    ensures { (place : ThePlace) → OnOk result (faults.new.items ≡ faults.old.items
        ++ (number_form profile place (text_of part.now.at) (view part.now.value.now)).faults) }
{
    find_lawful_number(profile, part, faults)?;
    find_refused(&FORMAT, part, faults)
}
