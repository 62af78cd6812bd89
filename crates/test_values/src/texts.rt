//! Language tags, collapsed white space and the order of faults.
use csvw_text::{Code, Copied, Fault, Kind, LanguageTag, Place, Text, collapse};
use std::alloc::{AllocError, Global};
use std::process::Abort;

/// Texts that are tags, one on each line.
const TAGS: &str = "en\nen-GB\nx-1a\nde-Latn-DE-1996";

/// Texts that are not tags, one on each line.
const NO_TAGS: &str = "\n-\nen-\n-en\nen--GB\ne1\nen GB\nen-\u{e9}";

fn is_a_tag(alloc: Global, text: &str) -> Result<bool, AllocError> {
    Ok(LanguageTag::of(alloc, Text::copied(alloc, text)?)?.is_some())
}

fn are_tags(rt: &impl Abort, alloc: Global, texts: &str, want: bool) {
    for text in texts.lines() {
        assert!(rt; is_a_tag(alloc, text) == Ok(want), "{text:?}");
    }
}

#[test]
fn tags_are_words_parted_by_dashes(rt: HostRuntime) {
    are_tags(&rt, rt.alloc(), TAGS, true);
    are_tags(&rt, rt.alloc(), NO_TAGS, false);
}

/// Returns whether the white space of a text collapses to the expected text.
fn collapses_to(alloc: Global, text: &str, want: &str) -> bool {
    match collapse(alloc, text) {
        Ok(collapsed) => collapsed.as_str() == want,
        Err(_) => false,
    }
}

#[test]
fn runs_of_white_space_are_one_space(rt: HostRuntime) {
    let alloc = rt.alloc();
    assert!(rt; collapses_to(alloc, " a\t\tb\r\nc  ", "a b c"));
    assert!(rt; collapses_to(alloc, "\n \t", ""));
    assert!(rt; collapses_to(alloc, "a\u{a0} b", "a\u{a0} b"));
}

#[test]
fn faults_are_in_the_order_of_reports(rt: HostRuntime) {
    let place = Place {
        table: 1,
        row: 2,
        column: 3,
    };
    let required = Fault {
        place,
        code: Code::Required,
        kind: Kind::Error,
    };
    let later = Fault {
        place: Place {
            table: 1,
            row: 10,
            column: 0,
        },
        code: Code::HeaderMissing,
        kind: Kind::Error,
    };
    let unknown = Fault {
        place,
        code: Code::UnknownProperty,
        kind: Kind::Warning,
    };
    assert!(rt; required < later);
    assert!(rt; unknown < required);
    assert!(rt;
        Code::NumberTooLong < Code::OutOfRange
            && Code::OutOfRange < Code::BadDate
            && Code::BadDate < Code::BadDateTime
    );
    assert!(rt; Code::ManyReferencedRows.name() == "ManyReferencedRows");
}
