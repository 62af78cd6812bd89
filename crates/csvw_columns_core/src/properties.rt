//! The inherited properties of a column, with their defaults.
ghost use Rattle.std.specs.Prelude.{◌≡◌, [], ◌∷◌, IfOk, codes};
ghost use Rattle.csvw_columns_core.specs.Inherited.{AreDefaults, string_type};

use csvw_datatype::{Datatype, Facets, Simple};
use csvw_description::Nulls;
use csvw_template::Template;
use csvw_text::{LanguageTag, Seq, Shared, Text, both};
use std::alloc::{AllocError, Global};

/// The inherited properties of a column (Metadata Vocabulary for Tabular Data, section 5.7). A property that no
/// object has is its default.
#[derive(Debug, Drop)]
pub struct Properties {
    /// `aboutUrl`: the subject of the cells' triples.
    pub about_url: Option<Shared<Template>>,
    /// `propertyUrl`: the predicate of the cells' triples.
    pub property_url: Option<Shared<Template>>,
    /// `valueUrl`: the object of the cells' triples.
    pub value_url: Option<Shared<Template>>,
    /// `datatype`: the datatype of the values of cells. The default is string.
    pub datatype: Shared<Datatype>,
    /// `default`: the text that replaces an empty text. The default is the empty text.
    pub default: Shared<Text>,
    /// `lang`: the language of texts. The default is `und`.
    pub lang: Shared<LanguageTag>,
    /// `null`: the texts that are null. The default is the empty text alone.
    pub null: Shared<Nulls>,
    /// `ordered`: whether the items of a list keep their order in the graph. The default is false.
    pub ordered: bool,
    /// `required`: whether a null cell is a fault. The default is false.
    pub required: bool,
    /// `separator`: the text between the items of a list. By default there is none, and a cell is not a list.
    pub separator: Option<Shared<Text>>,
}

/// The defaults of the inherited properties that have a text or a datatype (Metadata Vocabulary for Tabular Data,
/// section 5.7). Columns share them.
#[derive(Debug, Drop)]
pub struct Defaults {
    /// String, without a format or facets.
    pub(crate) datatype: Shared<Datatype>,
    /// The empty text.
    pub(crate) default: Shared<Text>,
    /// `und`.
    pub(crate) lang: Shared<LanguageTag>,
    /// The empty text alone.
    pub(crate) null: Shared<Nulls>,
    /// The fields are the defaults of section 5.7.
    ghost are_defaults: { AreDefaults datatype default lang null },
}

impl Defaults {
    /// Returns the defaults, or `AllocError` if memory runs out.
    pub fn new(alloc: Global) -> Result<Defaults, AllocError>
        ensures { IfOk result (λ d. AreDefaults d.datatype d.default d.lang d.null) }
    {
        let values = both(string_type(alloc), Shared::new(alloc, Text::new(alloc)));
        let texts = both(undetermined(alloc), empty_text_alone(alloc));
        let ((datatype, default), (lang, null)) = both(values, texts)?;
        Ok(Defaults {
            datatype,
            default,
            lang,
            null,
        })
    }
}

/// String, without a format or facets.
fn string_type(alloc: Global) -> Result<Shared<Datatype>, AllocError>
    ensures { IfOk result (λ datatype. datatype ≡ string_type) }
{
    Shared::new(
        alloc,
        Datatype {
            simple: Simple::Text,
            id: None,
            format: None,
            facets: Facets::new(),
        },
    )
}

/// `und`, the tag of a language that isn't known.
fn undetermined(alloc: Global) -> Result<Shared<LanguageTag>, AllocError>
    ensures { IfOk result (λ tag. tag ≡ codes "und") }
{
    match LanguageTag::of(alloc, Text::copied(alloc, "und")?)? {
        Some(tag) => Shared::new(alloc, tag),
        None => unreachable!(),
    }
}

/// The list of the empty text alone.
fn empty_text_alone(alloc: Global) -> Result<Shared<Nulls>, AllocError>
    ensures { IfOk result (λ texts. texts ≡ [] ∷ []) }
{
    let mut texts = Seq::new(alloc);
    texts.push(Text::new(alloc))?;
    Shared::new(alloc, Nulls::of(alloc, texts)?)
}
