//! `Part` and `Operator`: the parts of a template.
ghost use Rattle.std.specs.Prelude.{◌≡◌, IfOk};

use csvw_text::{Copied, Seq, Text};
use std::alloc::{AllocError, Global};

/// The operator before the names of an expression (RFC 6570, section 2.2).
#[derive(Clone, Copy, Debug, PartialEq, Eq)]
pub enum Operator {
    /// No operator. All but unreserved characters are encoded.
    Simple,
    /// `+`. Reserved characters and triplets stay too.
    Reserved,
    /// `#`. The same as `+`, after a `#`.
    Fragment,
}

/// A part of a template.
#[derive(Debug, Drop)]
pub enum Part {
    /// A text that stands for itself.
    Literal(Text),
    /// An expression: its operator and the names of its variables.
    Expression(Operator, Seq<Text>),
}

impl Part {
    /// Returns an equal part, or `AllocError` if memory runs out.
    pub fn clone(&self, alloc: Global) -> Result<Part, AllocError>
        ensures { IfOk result (λ p. p ≡ self.now) }
    {
        match self {
            Part::Literal(text) => Ok(Part::Literal(text.clone(alloc)?)),
            Part::Expression(operator, names) => {
                Ok(Part::Expression(*operator, names.clone(alloc)?))
            }
        }
    }
}

impl Copied for Part {
    fn copied(&self, alloc: Global) -> Result<Part, AllocError> {
        self.clone(alloc)
    }
}
