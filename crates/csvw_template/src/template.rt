//! `Template`: a URI template.
ghost use Rattle.std.specs.Prelude.{◌≡◌, ◌++◌, ◌↔◌, IfOk, IsTrue, List, OnOk, ℕ, string_bytes};
ghost use Rattle.csvw_text.specs.Gives.{Gives};
ghost use Rattle.csvw_template.specs.Fault.{told};
ghost use Rattle.csvw_template.specs.Expand.{expand};
ghost use Rattle.csvw_template.specs.Grammar.{IsTheReading};
ghost use Rattle.csvw_template.specs.Plain.{are_plain, is_plain_part};
ghost use Rattle.csvw_template.specs.Reading.{Parts, template, is_past};

use crate::encode::is_plain_text;
use crate::expand::push_parts;
use crate::fault::TemplateFault;
use crate::part::Part;
use crate::read::{count_open, of_pieces, pieces};
use crate::scope::Scope;
use crate::vars::Vars;
use csvw_text::{Copied, Seq, Text};
use std::alloc::{AllocError, Global};
use std::marker::Model;

/// The greatest number of bytes of a template.
const MAX_LEN: usize = 4096;

/// The greatest number of `{` of a template.
const MAX_OPEN: usize = 32;

/// A URI template. Contracts see it as its parts.
#[derive(Debug, Drop)]
pub struct Template {
    /// The text that the template was read from.
    text: Text,
    /// Its parts, in order.
    parts: Seq<Part>,
    /// Whether its literals expand to themselves. Most do.
    is_plain: bool,
}

impl Model for Template {
    ghost use Rattle.std.specs.Prelude.{◌≡◌, List, Ok};
    ghost use Rattle.csvw_template.specs.declared.part.Part.{Part};
    ghost use Rattle.csvw_template.specs.Plain.{are_plain};
    ghost use Rattle.csvw_template.specs.Reading.{template};

    ghost Value = { List Part };

    ghost view = { λ t. t.parts };

    ghost invariant = { λ t. (template t.text ≡ Ok t.parts) × (t.is_plain ≡ are_plain t.parts) };
}

impl Template {
    /// Returns the template that the text is (RFC 6570, section 2).
    ///
    /// Returns `TooLong` if the text has more than 4,096 bytes or more than 32 `{`. Otherwise returns the first fault
    /// from the left:
    ///
    /// - `BadTemplate` for a `{` without its `}` before the next `{` or the end, or for a `}` that closes no `{`.
    /// - `BadTemplate` for a text between braces that is not an expression.
    /// - `TemplateLevel` for an expression that begins with one of `./;?&=,!@|`, or has `:` or `*` after a name.
    ///
    /// Returns `Memory` if memory runs out.
    #[tactic(auto, using(crate::proofs::ReadingLemmas::reading), unfolding(crate::specs::Reading::template))]
    pub fn read(alloc: Global, text: &str) -> Result<Template, TemplateFault>
        ensures value { Gives (λ t. t) told result (template text.now) }

        // and that is the parts that spell the text, or the first fault, by the grammar
        ensures grammar { IsTheReading text.now (template text.now) }
    {
        if is_past(text) {
            return Err(TemplateFault::TooLong);
        }
        let pieces = pieces(alloc, text)?;
        let parts = of_pieces(alloc, pieces.as_slice())?;
        Ok(Template {
            text: Text::copied(alloc, text)?,
            is_plain: are_plain(parts.as_slice()),
            parts: Seq::of(parts),
        })
    }

    /// Returns the expansion (RFC 6570, section 3), or `AllocError` if memory runs out. A name that the map doesn't
    /// have is undefined, and so is a list without items.
    pub fn expand(&self, alloc: Global, vars: &Vars) -> Result<String, AllocError>
        ensures { IfOk result (λ s. string_bytes s ≡ expand vars.now self.now) }
    {
        let mut out = String::new(alloc);
        self.expand_into(alloc, &mut out, vars)?;
        Ok(out)
    }

    /// Adds the expansion under the variables of a scope. Returns `AllocError` if memory runs out.
    pub fn expand_into<S: Scope>(
        &self,
        alloc: Global,
        out: &mut String,
        scope: &S,
    ) -> Result<(), AllocError>
        requires { S.can_look_up scope.now }
        ensures { OnOk result (string_bytes out.new ≡ string_bytes out.old ++ expand (S.variables scope.now) self.now) }
    {
        push_parts(alloc, out, self.parts.as_slice(), self.is_plain, scope)
    }

    /// Returns the parts, in order.
    pub fn parts(&self) -> &[Part]
        ensures { result.now ≡ self.now }
    {
        self.parts.as_slice()
    }

    /// Returns whether the template is equal to another one, which holds exactly if both are read from one text.
    pub fn is_same(&self, other: &Template) -> bool
        ensures { IsTrue result ↔ self.now ≡ other.now }
    {
        self.text.as_str() == other.text.as_str()
    }

    /// Returns an equal template, or `AllocError` if memory runs out.
    pub fn clone(&self, alloc: Global) -> Result<Template, AllocError>
        ensures { IfOk result (λ t. t ≡ self.now) }
    {
        Ok(Template {
            text: self.text.clone(alloc)?,
            parts: self.parts.clone(alloc)?,
            is_plain: self.is_plain,
        })
    }
}

/// A law: each text has one reading by the grammar, its parts or its fault. `Template::read` returns it.
pub fn texts_have_one_reading()
    ensures reading { (text : List ℕ) → IsTheReading text (template text) }
    ensures only { (text : List ℕ) (answer : Parts) → IsTheReading text answer → answer ≡ template text }
{}

impl Copied for Template {
    fn copied(&self, alloc: Global) -> Result<Template, AllocError> {
        self.clone(alloc)
    }
}

fn are_plain(parts: &[Part]) -> bool
    ensures { result ≡ are_plain parts.now }
{
    parts.iter().all(|part| is_plain_part(part))
}

fn is_plain_part(part: &Part) -> bool
    ensures { result ≡ is_plain_part part.now }
{
    match part {
        Part::Literal(text) => is_plain_text(text.as_str()),
        Part::Expression(_, _) => true,
    }
}

fn is_past(text: &str) -> bool
    ensures { result ≡ is_past text.now }
{
    text.len() > MAX_LEN || count_open(text.as_bytes()) > MAX_OPEN
}
