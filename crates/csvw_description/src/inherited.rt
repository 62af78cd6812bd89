//! Properties that columns inherit from their schema, table and group.
ghost use Rattle.std.specs.Prelude.{◌≡◌};
ghost use Rattle.csvw_description.specs.Inherited.{no_inherited};

use crate::nulls::Nulls;
use csvw_datatype::Datatype;
use csvw_template::Template;
use csvw_text::{LanguageTag, Shared, Text};

/// The inherited properties of an object (Metadata Vocabulary for Tabular Data, section 5.7). `None`: the object
/// doesn't have the property.
#[derive(Debug, Drop)]
pub struct Inherited {
    /// `aboutUrl`: the subject of the cells' triples.
    pub about_url: Option<Shared<Template>>,
    /// `propertyUrl`: the predicate of the cells' triples.
    pub property_url: Option<Shared<Template>>,
    /// `valueUrl`: the object of the cells' triples.
    pub value_url: Option<Shared<Template>>,
    /// `datatype`: the datatype of the values of cells.
    pub datatype: Option<Shared<Datatype>>,
    /// `default`: the text that replaces an empty text.
    pub default: Option<Shared<Text>>,
    /// `lang`: the language of texts.
    pub lang: Option<Shared<LanguageTag>>,
    /// `null`: the texts that are null. If the list is empty, no text is null.
    pub null: Option<Shared<Nulls>>,
    /// `ordered`: whether the items of a list keep their order in the graph.
    pub ordered: Option<bool>,
    /// `required`: whether a null cell is a fault.
    pub required: Option<bool>,
    /// `separator`: the text between the items of a list. `Some(None)`: the property is null, so a cell is not a
    /// list.
    pub separator: Option<Option<Shared<Text>>>,
}

/// Returns the inherited properties of an object that has none of them.
pub fn no_inherited() -> Inherited
    ensures { result ≡ no_inherited }
{
    Inherited {
        about_url: None,
        property_url: None,
        value_url: None,
        datatype: None,
        default: None,
        lang: None,
        null: None,
        ordered: None,
        required: None,
        separator: None,
    }
}
