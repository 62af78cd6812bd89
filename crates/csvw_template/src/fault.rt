//! `TemplateFault`: why a text is not a template.
ghost use Rattle.std.specs.Prelude.{◌≡◌};

use std::alloc::{AllocError, AllocFailed};
use std::error::Error;
use std::fmt;

/// Why a text is not a template. `TooLong` is tested first, then the text from the left. `Memory` may come before any
/// of them.
#[derive(Clone, Copy, Debug, PartialEq, Eq)]
pub enum TemplateFault {
    /// Memory ran out.
    Memory,
    /// The text has more than 4,096 bytes or more than 32 `{`.
    TooLong,
    /// A brace has no partner, or the text between braces is not an expression.
    BadTemplate,
    /// An expression is of a higher level. It has an operator other than `+` and `#`, or a modifier.
    TemplateLevel,
}

impl TemplateFault {
    /// Returns what is wrong and what to do, as a sentence without its full stop.
    fn sentence(&self) -> &'static str {
        match self {
            TemplateFault::Memory => "there is no memory: free some, and try again",
            TemplateFault::TooLong => {
                "the template has more than 4,096 bytes or more than 32 braces that open: shorten it"
            }
            TemplateFault::BadTemplate => {
                "the template has a brace without its partner, or no expression between two: write names between braces, as `{name}`"
            }
            TemplateFault::TemplateLevel => {
                "the template has an operator or a modifier of a higher level: use `{name}`, `{+name}` or `{#name}`"
            }
        }
    }
}

impl fmt::Display for TemplateFault {
    fn fmt<W: fmt::Write>(&self, f: &mut fmt::Formatter<W>) -> fmt::Result {
        f.write_str(self.sentence())
    }
}

impl Error for TemplateFault {}

impl From<AllocError> for TemplateFault {
    ghost use Rattle.csvw_template.specs.declared.fault.TemplateFault.TheVariants.{Memory};

    ghost from_gives = { λ _ e. e ≡ Memory };

    fn from(_: AllocError) -> TemplateFault {
        TemplateFault::Memory
    }
}

impl<T: Drop> From<AllocFailed<T>> for TemplateFault {
    ghost use Rattle.csvw_template.specs.declared.fault.TemplateFault.TheVariants.{Memory};

    ghost from_gives = { λ _ e. e ≡ Memory };

    fn from(_: AllocFailed<T>) -> TemplateFault {
        TemplateFault::Memory
    }
}
