//! The faults of formats (Metadata Vocabulary for Tabular Data, section 5.11.2).
ghost use Rattle.std.specs.Prelude.{◌≡◌, ◌++◌, OnOk, codes};
ghost use Rattle.serde_json.specs.View.{view};
ghost use Rattle.csvw_fault.specs.declared.fault.Place.{Place as ThePlace};
ghost use Rattle.csvw_meta_core.specs.Pointer.{text_of};
ghost use Rattle.csvw_meta_core.specs.Read.{property};
ghost use Rattle.csvw_meta_datatype.specs.Formats.{expression_format, format, format_of_texts, no_format, number_format, text_format};
ghost use Rattle.csvw_meta_faults_parts.specs.Leaves.{clock_has_one, date_has_one, expression_has_one, moment_has_one, stamp_has_one, truth_format_has_one, zoned_date_has_one};

use crate::leaf::{Leaf, OneFault};
use crate::number::find_number_form;
use csvw_datatype::{Simple, TextType};
use csvw_meta_core::{MetaCode, MetaFault, Part, Profile};
use csvw_meta_datatype::expression::ExpressionReader;
use csvw_meta_datatype::number::{PLAIN, pattern_code, pattern_in};
use csvw_meta_datatype::pattern::{
    ClockPattern, DatePattern, MomentPattern, StampPattern, ZonedDatePattern,
};
use csvw_meta_datatype::truth::TruthPattern;
use csvw_meta_faults_core::{add_fault, add_wrong, find_sole};
use serde_json::Value;
use std::alloc::AllocError;

impl OneFault for DatePattern {
    ghost at_most_one = { λ _. date_has_one };
}

impl OneFault for ZonedDatePattern {
    ghost at_most_one = { λ _. zoned_date_has_one };
}

impl OneFault for MomentPattern {
    ghost at_most_one = { λ _. moment_has_one };
}

impl OneFault for StampPattern {
    ghost at_most_one = { λ _. stamp_has_one };
}

impl OneFault for ClockPattern {
    ghost at_most_one = { λ _. clock_has_one };
}

impl OneFault for ExpressionReader {
    ghost at_most_one = { λ r. expression_has_one r.profile };
}

impl OneFault for TruthPattern {
    ghost at_most_one = { λ _. truth_format_has_one };
}

/// Adds the fault of a text as the pattern of numbers.
fn find_number_text(text: &str, part: &Part, faults: &mut Vec<MetaFault>) -> Result<(), AllocError>
    ensures { OnOk result (faults.new.items ≡ faults.old.items ++ (text_format (text_of part.now.at) text.now).faults) }
{
    match pattern_in(PLAIN, text) {
        Ok(_) => Ok(()),
        Err(fault) => add_fault(part, pattern_code(fault), faults),
    }
}

/// Adds the faults of the format of a number.
fn find_number_format(
    profile: Profile,
    part: &Part,
    faults: &mut Vec<MetaFault>,
) -> Result<(), AllocError>
    ensures { (place : ThePlace) → OnOk result (faults.new.items ≡ faults.old.items
        ++ (number_format profile place (text_of part.now.at) (view part.now.value.now)).faults) }
{
    match (profile, part.value) {
        (_, Value::Object(_)) => find_number_form(profile, part, faults),
        (Profile::W3c, Value::String(text)) => find_number_text(text.as_str(), part, faults),
        (Profile::Core, Value::String(_)) => add_fault(part, MetaCode::NotSupported, faults),
        _ => add_wrong(part, faults),
    }
}

/// Adds the fault of a regular expression that is a format.
fn find_expression(
    profile: Profile,
    part: &Part,
    faults: &mut Vec<MetaFault>,
) -> Result<(), AllocError>
    ensures { OnOk result (faults.new.items ≡ faults.old.items ++ (expression_format profile (text_of part.now.at) (view part.now.value.now)).faults) }
{
    let expression = Leaf {
        reader: ExpressionReader { profile },
    };
    find_sole(part, &expression, faults)
}

/// Adds the faults of the format of a type that keeps texts.
fn find_format_of_texts(
    profile: Profile,
    text_type: TextType,
    part: &Part,
    faults: &mut Vec<MetaFault>,
) -> Result<(), AllocError>
    ensures { OnOk result (faults.new.items ≡ faults.old.items ++ (format_of_texts profile text_type (text_of part.now.at) (view part.now.value.now)).faults) }
{
    let clock = Leaf {
        reader: ClockPattern,
    };
    let date = Leaf {
        reader: ZonedDatePattern,
    };
    let stamp = Leaf {
        reader: StampPattern,
    };
    match text_type {
        TextType::Time => find_sole(part, &clock, faults),
        TextType::Date => find_sole(part, &date, faults),
        TextType::DateTime(_) => find_sole(part, &stamp, faults),
        TextType::Any
        | TextType::Normalized
        | TextType::Token
        | TextType::Language
        | TextType::Name
        | TextType::NameToken
        | TextType::QualifiedName
        | TextType::Xml
        | TextType::Html
        | TextType::Json
        | TextType::Binary(_)
        | TextType::Duration(_) => find_expression(profile, part, faults),
        TextType::Part(_) => add_fault(part, MetaCode::NotSupported, faults),
    }
}

/// Adds the faults of the format of a datatype of this type.
#[tactic(auto, unfolding(csvw_meta_datatype::specs::Formats::format))]
fn find_format_here(
    profile: Profile,
    simple: Simple,
    part: &Part,
    faults: &mut Vec<MetaFault>,
) -> Result<(), AllocError>
    ensures { (place : ThePlace) → OnOk result (faults.new.items ≡ faults.old.items
        ++ (format profile simple place (text_of part.now.at) (view part.now.value.now)).faults) }
{
    let truth = Leaf {
        reader: TruthPattern,
    };
    let day = Leaf {
        reader: DatePattern,
    };
    let moment = Leaf {
        reader: MomentPattern,
    };
    match simple {
        Simple::Text | Simple::Uri => find_expression(profile, part, faults),
        Simple::Other(text_type) => find_format_of_texts(profile, text_type, part, faults),
        Simple::Whole | Simple::Derived(_) | Simple::Decimal | Simple::Floating(_) => {
            find_number_format(profile, part, faults)
        }
        Simple::Truth => find_sole(part, &truth, faults),
        Simple::Day => find_sole(part, &day, faults),
        Simple::Moment => find_sole(part, &moment, faults),
    }
}

/// Adds the faults of the property `format` for a datatype of this type.
pub fn find_format(
    profile: Profile,
    simple: Simple,
    part: &Part,
    faults: &mut Vec<MetaFault>,
) -> Result<(), AllocError>
    ensures { (place : ThePlace) → OnOk result (faults.new.items ≡ faults.old.items
        ++ (property (format profile simple place) no_format (text_of part.now.at) (view part.now.value.now) (codes "format")).faults) }
{
    match part.value.get("format") {
        None => Ok(()),
        Some(value) => find_format_here(profile, simple, &part.member("format", value), faults),
    }
}
