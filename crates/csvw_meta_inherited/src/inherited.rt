//! The inherited properties of an object (Metadata Vocabulary for Tabular Data, section 5.7).
ghost use Rattle.std.specs.Prelude.{◌≡◌};
ghost use Rattle.serde_json.specs.View.{view};
ghost use Rattle.csvw_meta_core.specs.Pointer.{text_of};
ghost use Rattle.csvw_meta_core.specs.Reads.{Reads};
ghost use Rattle.csvw_meta_inherited.specs.Inherited.{uri_templates, cell_texts, inherited};

use crate::datatype::read_datatype;
use crate::template::TemplateReader;
use csvw_description::{Inherited, Nulls};
use csvw_meta_core::{
    AnyText, Context, Language, MetaCode, OrNull, Part, Reader, Refusal, SomeText, Texts, Truth,
};
use csvw_template::Template;
use csvw_text::{Fault, LanguageTag, Seq, Shared, Text};

/// Reads a value of a kind, which the columns that inherit it share.
#[derive(Drop)]
struct SharedOf<R> {
    reader: R,
}

impl<R: Reader> Reader for SharedOf<R> {
    type Output = Shared<R::Output>;

    ghost reads = { λ r. R.reads r.reader };

    fn read(&self, part: &Part) -> Result<Shared<R::Output>, Refusal> {
        let value = self.reader.read(part)?;
        Ok(Shared::new(part.alloc, value)?)
    }
}

/// Reads the texts that are null: a text, or an array of texts.
#[derive(Drop)]
struct NullTexts;

impl Reader for NullTexts {
    ghost use Rattle.csvw_meta_core.specs.Kinds.{texts};

    type Output = Nulls;

    ghost reads = { λ _. texts };

    fn read(&self, part: &Part) -> Result<Nulls, Refusal> {
        let texts = Texts.read(part)?;
        Ok(Nulls::of(part.alloc, texts)?)
    }
}

/// The inherited properties of an object, and the warnings on its datatype.
#[derive(Drop)]
pub struct InheritedFound {
    /// The properties that the object itself has.
    pub inherited: Inherited,
    /// A warning for each property of the datatype that is ignored.
    pub warnings: Seq<Fault>,
}

/// The URI template properties of an object. `None`: the object does not have the property.
#[derive(Drop)]
pub struct UriTemplates {
    /// `aboutUrl`: the subject of the cells' triples.
    pub about_url: Option<Shared<Template>>,
    /// `propertyUrl`: their predicate.
    pub property_url: Option<Shared<Template>>,
    /// `valueUrl`: their object.
    pub value_url: Option<Shared<Template>>,
}

#[tactic(auto, using(crate::proofs::ReadLemmas::fails_first), unfolding(crate::specs::Inherited::uri_templates))]
fn uri_templates(part: &Part) -> Result<UriTemplates, Refusal>
    ensures { Reads result (uri_templates (text_of part.now.at) (view part.now.value.now)) }
{
    let about_url = part.optional(
        &SharedOf {
            reader: TemplateReader,
        },
        "aboutUrl",
    )?;
    let property_url = part.optional(
        &SharedOf {
            reader: TemplateReader,
        },
        "propertyUrl",
    )?;
    let value_url = part.optional(
        &SharedOf {
            reader: TemplateReader,
        },
        "valueUrl",
    )?;
    Ok(UriTemplates {
        about_url,
        property_url,
        value_url,
    })
}

/// What an object says of the texts of cells. `None`: the object does not have the property.
#[derive(Drop)]
pub struct CellTexts {
    /// `default`: the text that replaces an empty text.
    pub default: Option<Shared<Text>>,
    /// `lang`: the language of texts.
    pub lang: Option<Shared<LanguageTag>>,
    /// `null`: the texts that are null.
    pub null: Option<Shared<Nulls>>,
}

#[tactic(auto, using(crate::proofs::ReadLemmas::fails_first), unfolding(crate::specs::Inherited::cell_texts))]
fn cell_texts(part: &Part) -> Result<CellTexts, Refusal>
    ensures { Reads result (cell_texts (text_of part.now.at) (view part.now.value.now)) }
{
    let default = part.optional(&SharedOf { reader: AnyText }, "default")?;
    let language = Language {
        wrong: MetaCode::BadProperty,
    };
    let lang = part.optional(&SharedOf { reader: language }, "lang")?;
    let null = part.optional(&SharedOf { reader: NullTexts }, "null")?;
    Ok(CellTexts {
        default,
        lang,
        null,
    })
}

/// Reads the inherited properties of the object that the part is. `table` and `column` are the numbers of the table
/// and the column of the object. `column` is 0 if the object is not a column, and `table` is 0 for the group. It
/// returns the properties, a fault in them, or `Memory`.
#[tactic(auto, using(crate::proofs::ReadLemmas::fails_first), unfolding(crate::specs::Inherited::inherited))]
pub fn read_inherited(
    context: &Context,
    table: u32,
    column: u32,
    part: &Part,
) -> Result<InheritedFound, Refusal>
    ensures { Reads result (inherited context.now table column (text_of part.now.at) (view part.now.value.now)) }
{
    let templates = uri_templates(part)?;
    let given = read_datatype(context, table, column, part)?;
    let texts = cell_texts(part)?;
    let ordered = part.optional(&Truth, "ordered")?;
    let required = part.optional(&Truth, "required")?;
    let separator = OrNull {
        reader: SharedOf { reader: SomeText },
    };
    let separator = part.optional(&separator, "separator")?;
    let inherited = Inherited {
        about_url: templates.about_url,
        property_url: templates.property_url,
        value_url: templates.value_url,
        datatype: given.datatype,
        default: texts.default,
        lang: texts.lang,
        null: texts.null,
        ordered,
        required,
        separator,
    };
    Ok(InheritedFound {
        inherited,
        warnings: given.warnings,
    })
}
