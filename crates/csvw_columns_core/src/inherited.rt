//! The properties of a column, with what it inherits.
ghost use Rattle.std.specs.Prelude.{◌≡◌, Option, Ok, None, IfOk, [], ◌∷◌, codes, unwrap_or, false};
ghost use Rattle.csvw_columns_core.specs.Inherited.{first_of, inherited, inherited_or_none, properties_of};

use crate::properties::{Defaults, Properties};
use csvw_description::{Inherited, Nulls};
use csvw_template::Template;
use csvw_text::{Copied, LanguageTag, Shared, Text, both, copied_option};
use std::alloc::{AllocError, Global};

fn first_of<'a, T>(inner: &'a Option<T>, outer: &'a Option<T>) -> &'a Option<T>
    ensures { result.now ≡ first_of inner.now outer.now }
{
    match inner {
        Some(_) => inner,
        None => outer,
    }
}

/// Returns the first value that is present, if there is one.
#[tactic(auto, using(crate::proofs::InheritedLemmas::first_of_four))]
fn found<T: Copied + Drop>(
    alloc: Global,
    column: &Option<T>,
    schema: &Option<T>,
    table: &Option<T>,
    group: &Option<T>,
) -> Result<Option<T>, AllocError>
    ensures { IfOk result (λ x. x ≡ inherited_or_none column.now schema.now table.now group.now) }
{
    copied_option(
        alloc,
        first_of(column, first_of(schema, first_of(table, group))),
    )
}

/// Returns the first boolean that is present, else false.
fn is_set(
    column: Option<bool>,
    schema: Option<bool>,
    table: Option<bool>,
    group: Option<bool>,
) -> bool
    ensures { result ≡ inherited false column schema table group }
{
    column.or(schema).or(table).or(group).unwrap_or(false)
}

/// Returns the value that was found, or a copy of the default if there is none.
fn found_or<T: Copied + Drop>(
    alloc: Global,
    found: Result<Option<T>, AllocError>,
    default: &T,
) -> Result<T, AllocError>
    ensures { IfOk result (λ x. (value : Option T) × (found ≡ Ok value) × (x ≡ unwrap_or value default.now)) }
{
    match found? {
        Some(x) => Ok(x),
        None => default.copied(alloc),
    }
}

/// The templates of the links of a column's cells.
#[derive(Drop)]
struct Links {
    about_url: Option<Shared<Template>>,
    property_url: Option<Shared<Template>>,
    value_url: Option<Shared<Template>>,
}

/// Returns the templates that are found first in the column, its schema, its table and the group.
fn found_links(
    alloc: Global,
    column: &Inherited,
    schema: &Inherited,
    table: &Inherited,
    group: &Inherited,
) -> Result<Links, AllocError>
    ensures about { IfOk result (λ l. l.about_url ≡ inherited_or_none column.now.about_url schema.now.about_url table.now.about_url group.now.about_url) }
    ensures property { IfOk result (λ l. l.property_url
        ≡ inherited_or_none column.now.property_url schema.now.property_url table.now.property_url group.now.property_url) }
    ensures value { IfOk result (λ l. l.value_url ≡ inherited_or_none column.now.value_url schema.now.value_url table.now.value_url group.now.value_url) }
{
    let about_url = found(
        alloc,
        &column.about_url,
        &schema.about_url,
        &table.about_url,
        &group.about_url,
    );
    let property_url = found(
        alloc,
        &column.property_url,
        &schema.property_url,
        &table.property_url,
        &group.property_url,
    );
    let value_url = found(
        alloc,
        &column.value_url,
        &schema.value_url,
        &table.value_url,
        &group.value_url,
    );
    let (about_url, (property_url, value_url)) = both(about_url, both(property_url, value_url))?;
    Ok(Links {
        about_url,
        property_url,
        value_url,
    })
}

/// The texts by which a column's cells are read.
#[derive(Drop)]
struct Texts {
    default: Shared<Text>,
    lang: Shared<LanguageTag>,
    null: Shared<Nulls>,
    separator: Option<Shared<Text>>,
}

impl Defaults {
    /// Returns the texts that are found first in the column, its schema, its table and the group, else their
    /// defaults.
    fn found_texts(
        &self,
        alloc: Global,
        column: &Inherited,
        schema: &Inherited,
        table: &Inherited,
        group: &Inherited,
    ) -> Result<Texts, AllocError>
        ensures default { IfOk result (λ t. t.default ≡ inherited [] column.now.default schema.now.default table.now.default group.now.default) }
        ensures lang { IfOk result (λ t. t.lang ≡ inherited (codes "und") column.now.lang schema.now.lang table.now.lang group.now.lang) }
        ensures null { IfOk result (λ t. t.null ≡ inherited ([] ∷ []) column.now.null schema.now.null table.now.null group.now.null) }
        ensures separator { IfOk result (λ t. t.separator
            ≡ inherited None column.now.separator schema.now.separator table.now.separator group.now.separator) }
    {
        let default = found(
            alloc,
            &column.default,
            &schema.default,
            &table.default,
            &group.default,
        );
        let lang = found(alloc, &column.lang, &schema.lang, &table.lang, &group.lang);
        let null = found(alloc, &column.null, &schema.null, &table.null, &group.null);
        let separator = found(
            alloc,
            &column.separator,
            &schema.separator,
            &table.separator,
            &group.separator,
        );
        let default = found_or(alloc, default, &self.default);
        let lang = found_or(alloc, lang, &self.lang);
        let null = found_or(alloc, null, &self.null);
        let ((default, lang), (null, separator)) = both(
            both(default, lang),
            both(null, separator),
        )?;
        Ok(Texts {
            default,
            lang,
            null,
            separator: separator.unwrap_or(None),
        })
    }

    /// Returns the inherited properties of a column (Metadata Vocabulary for Tabular Data, section 5.7).
    ///
    /// Each is the first that is present in the column, its schema, its table and the group, in this order, else its
    /// default. Returns `AllocError` if memory runs out.
    pub fn inherited(
        &self,
        alloc: Global,
        column: &Inherited,
        schema: &Inherited,
        table: &Inherited,
        group: &Inherited,
    ) -> Result<Properties, AllocError>
        ensures { IfOk result (λ p. p ≡ properties_of column.now schema.now table.now group.now) }
    {
        let links = found_links(alloc, column, schema, table, group);
        let texts = self.found_texts(alloc, column, schema, table, group);
        let datatype = found(
            alloc,
            &column.datatype,
            &schema.datatype,
            &table.datatype,
            &group.datatype,
        );
        let datatype = found_or(alloc, datatype, &self.datatype);
        let (links, (texts, datatype)) = both(links, both(texts, datatype))?;
        Ok(Properties {
            about_url: links.about_url,
            property_url: links.property_url,
            value_url: links.value_url,
            datatype,
            default: texts.default,
            lang: texts.lang,
            null: texts.null,
            ordered: is_set(column.ordered, schema.ordered, table.ordered, group.ordered),
            required: is_set(
                column.required,
                schema.required,
                table.required,
                group.required,
            ),
            separator: texts.separator,
        })
    }
}
