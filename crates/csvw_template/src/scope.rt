//! `Scope`: what names stand for, wherever it is kept.
ghost use Rattle.std.specs.Prelude.{◌≡◌, IfOk, IfSome};
ghost use Rattle.csvw_template.specs.Variables.{Variables, lookup};
ghost use Rattle.csvw_template.specs.declared.vars.Var.TheVariants.{One};

use crate::vars::{Var, Vars};
use std::alloc::{AllocError, Global};

/// A type that knows the variables of a template.
pub trait Scope {
    /// The variables that the scope has.
    ghost variables: { Self → Variables };

    /// The condition on which the scope can be asked.
    ghost can_look_up: { Self → Type 0 };

    /// Returns what a name stands for, or `AllocError` if memory runs out.
    fn var(&self, alloc: Global, name: &str) -> Result<Var, AllocError>
        requires { can_look_up self.now }
        ensures { IfOk result (λ v. v ≡ lookup (variables self.now) name.now) };

    /// Returns the text that a name stands for, if it can be lent. `None` says nothing of the name.
    fn text(&self, name: &str) -> Option<&str>
        requires { can_look_up self.now }
        ensures { IfSome result (λ text. lookup (variables self.now) name.now ≡ One text.now) }
    {
        None
    }
}

impl Scope for Vars {
    ghost variables = { λ vars. vars };

    ghost can_look_up = { λ _. Unit {0} };

    fn var(&self, alloc: Global, name: &str) -> Result<Var, AllocError> {
        self.get(name).clone(alloc)
    }

    fn text(&self, name: &str) -> Option<&str> {
        match self.get(name) {
            Var::One(text) => Some(text.as_str()),
            Var::Undefined | Var::Many(_) => None,
        }
    }
}
