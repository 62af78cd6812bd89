//! Copies of values and templates. A copy succeeds if there is memory.
use csvw_datatype::Value;
use csvw_template::Template;
use csvw_text::Text;
use std::alloc::{AllocError, Global};

/// Whether a value equals its copy.
fn copies(alloc: Global, value: &Value) -> bool {
    match value.clone(alloc) {
        Ok(copy) => copy == *value,
        Err(_) => false,
    }
}

/// Whether a text equals its copy, as a value.
fn copies_text(alloc: Global, text: &str) -> Result<bool, AllocError> {
    let value = Value::Text(Text::copied(alloc, text)?);
    Ok(copies(alloc, &value))
}

#[test]
fn values_equal_their_copies(rt: HostRuntime) {
    let alloc = rt.alloc();
    assert!(rt; copies_text(alloc, "b c") == Ok(true));
    assert!(rt; copies(alloc, &Value::Truth(true)));
    assert!(rt; copies(alloc, &Value::Number(-1)));
    assert!(rt; copies(alloc, &Value::Day(19_000)));
    assert!(rt; copies(alloc, &Value::Moment(-1)));
}

/// Whether a template is the same as its copy.
fn copies_template(alloc: Global, text: &str) -> bool {
    match Template::read(alloc, text) {
        Ok(template) => { matches!(template.clone(alloc), Ok(copy) if copy.is_same(&template)) }
        Err(_) => false,
    }
}

#[test]
fn templates_are_the_same_as_their_copies(rt: HostRuntime) {
    let alloc = rt.alloc();
    assert!(rt; copies_template(alloc, "a{#x,y}b"));
    assert!(rt; copies_template(alloc, ""));
}
