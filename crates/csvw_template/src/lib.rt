//! URI templates (RFC 6570): levels 1 and 2, and lists of variables under the operators none, `+` and `#`.
//!
//! A literal may have more characters than section 2.1 of the RFC allows: all except braces. Controls, space, `"`,
//! `<`, `>`, `\`, `^`, `` ` ``, `|` and a `%` that begins no triplet are read too. The expansion percent-encodes
//! them, as section 3.1 says of each character that may not be in a URI. `'`, which section 2.1 excludes as well, is
//! reserved and stays.
//!
//! # Promises
//!
//! - `Template::read` returns a template exactly if the text is one within the limits, with the parts that spell it.
//!   Otherwise it returns the fault that comes first (`IsTheReading`).
//! - Each text has one such reading: the law `texts_have_one_reading`.
//! - `expand` and `expand_into` expand a template as RFC 6570 says, by a map or by any other scope of variables
//!   (`Scope`, `Vars::get` and `set`).
//! - `bind` binds names to what they stand for. `push_bound_within` then writes the same text as the expansion: the law
//!   `bound_gives_the_same`. It returns `TooLong` exactly if the text is longer than a limit, and then stops early.
//! - `Template::is_same` returns true exactly if two templates have the same parts.
#![tactic(auto)]

mod bound;
mod encode;
mod expand;
mod fault;
mod names;
mod part;
mod read;
mod scope;
mod template;
mod vars;

pub use bound::{
    Binding, BoundPart, Fit, Names, Values, bound_gives_the_same, push_bound_within, varies,
};
pub use fault::TemplateFault;
pub use part::{Operator, Part};
pub use scope::Scope;
pub use template::{Template, texts_have_one_reading};
pub use vars::{Var, Vars};
