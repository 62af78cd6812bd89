//! A column.

use crate::link::LinkAt;
use crate::property::{Property, default, given, optional, text, truth};
use crate::value::Shown;
use csvw_columns::TablePlan;
use csvw_columns_core::Column;
use csvw_template::{Template, Vars};
use csvw_text::{Shared, Text};

/// Returns the template of a link, or null.
fn template<'a>(name: &'static str, template: &'a Option<Shared<Template>>) -> Property<'a> {
    match template {
        Some(template) => given(name, Shown::Template(template.get())),
        None => default(name, Shown::Null),
    }
}

/// Returns the template of the predicate. If there is none, it is made of the table's URL and the name.
fn predicate(column: &Column) -> Property<'_> {
    match &column.properties.property_url {
        Some(template) => given("propertyUrl", Shown::Template(template.get())),
        None => default("propertyUrl", Shown::Text(column.predicate.as_str())),
    }
}

/// Returns the name. Without one of its own, a column has that of a title or of its number.
fn name(column: &Column) -> Property<'_> {
    let name = Shown::Text(column.name.as_str());
    if column.is_named {
        given("name", name)
    } else {
        default("name", name)
    }
}

/// Returns the texts that are null. The default is the empty text alone.
fn nulls(nulls: &[Text]) -> Property<'_> {
    match nulls {
        [null] if null.is_empty() => default("null", Shown::Texts(nulls)),
        _ => given("null", Shown::Texts(nulls)),
    }
}

/// Returns the properties of a column, but its datatype.
pub(crate) fn column_properties(column: &Column) -> [Property<'_>; 14] {
    let properties = &column.properties;
    let separator = match &properties.separator {
        Some(separator) => Some(separator.get().as_str()),
        None => None,
    };
    [
        given("number", Shown::Number(u64::from(column.number))),
        name(column),
        given("titles", Shown::Texts(column.titles.as_slice())),
        nulls(properties.null.get().texts()),
        text("default", properties.default.get().as_str(), ""),
        truth("required", properties.required),
        optional("separator", separator),
        truth("ordered", properties.ordered),
        text("lang", properties.lang.get().as_str(), "und"),
        truth("virtual", column.is_virtual),
        truth("suppressOutput", column.suppressed),
        template("aboutUrl", &properties.about_url),
        predicate(column),
        template("valueUrl", &properties.value_url),
    ]
}

/// Returns what the template of a link expands to in the example row, if there is a template.
fn link<'a>(
    name: &'static str,
    template: &'a Option<Shared<Template>>,
    table: &'a TablePlan,
    vars: &'a Vars,
) -> Property<'a> {
    let Some(template) = template else {
        return given(name, Shown::Nothing);
    };
    let template = template.get();
    given(
        name,
        Shown::Link(LinkAt {
            table,
            vars,
            template,
        }),
    )
}

/// Returns the links of a column in the example row.
pub(crate) fn link_properties<'a>(
    table: &'a TablePlan,
    column: &'a Column,
    vars: &'a Vars,
) -> [Property<'a>; 3] {
    let properties = &column.properties;
    [
        link("aboutUrl", &properties.about_url, table, vars),
        link("propertyUrl", &properties.property_url, table, vars),
        link("valueUrl", &properties.value_url, table, vars),
    ]
}
