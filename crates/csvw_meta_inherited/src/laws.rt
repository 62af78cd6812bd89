//! A law of the URI templates that are read. A call does nothing.
ghost use Rattle.std.specs.Prelude.{◌≡◌, List, ℕ};
ghost use Rattle.serde_json.specs.Data.{string};
ghost use Rattle.csvw_template.specs.Grammar.{IsTheReading};
ghost use Rattle.csvw_template.specs.Reading.{Parts};
ghost use Rattle.csvw_meta_inherited.specs.TemplateText.{template_text, told_template};

use csvw_template::texts_have_one_reading;

/// A law: each text has a reading by the grammar of URI templates, and as the value of a property it is that reading: the
/// template's parts, or the code of its fault.
pub fn templates_are_read()
    ensures has_reading { (text : List ℕ) → (answer : Parts) × IsTheReading text answer }
    ensures exact { (at text : List ℕ) (answer : Parts) → IsTheReading text answer
        → template_text at (string text) ≡ told_template at answer }
{
    texts_have_one_reading();
}
