//! `Var` and `Vars`: what variables stand for.
ghost use Rattle.std.specs.Prelude.{◌≡◌, ℕ, List, [], bytes_eq, position, if◌then◌else◌, IfOk, OnOk, OnErr};
ghost use Rattle.csvw_template.specs.Variables.{lookup, put};

use csvw_text::{Copied, Seq, Text};
use std::alloc::{AllocError, Global};
use std::marker::Model;

/// What a variable stands for.
#[derive(Debug, Drop)]
pub enum Var {
    /// Nothing.
    Undefined,
    /// A text.
    One(Text),
    /// A list of texts. The expansion treats a list without items as undefined.
    Many(Seq<Text>),
}

impl Var {
    /// Returns an equal value, or `AllocError` if memory runs out.
    pub fn clone(&self, alloc: Global) -> Result<Var, AllocError>
        ensures { IfOk result (λ v. v ≡ self.now) }
    {
        match self {
            Var::Undefined => Ok(Var::Undefined),
            Var::One(text) => Ok(Var::One(text.clone(alloc)?)),
            Var::Many(items) => Ok(Var::Many(items.clone(alloc)?)),
        }
    }
}

impl Copied for Var {
    fn copied(&self, alloc: Global) -> Result<Var, AllocError> {
        self.clone(alloc)
    }
}

/// A finite map from names to what they stand for.
#[derive(Debug, Drop)]
pub struct Vars {
    pairs: Vec<(Text, Var)>,
    undefined: Var,
    alloc: Global,
}

impl Model for Vars {
    ghost use Rattle.std.specs.Prelude.{◌≡◌};
    ghost use Rattle.csvw_template.specs.Variables.{Variables};
    ghost use Rattle.csvw_template.specs.declared.vars.Var.TheVariants.{Undefined};

    ghost Value = { Variables };

    ghost view = { λ v. v.pairs.items };

    ghost invariant = { λ v. v.undefined ≡ Undefined };
}

impl Vars {
    /// Returns the map in which each name is undefined. It takes no memory. `alloc` is kept for `set`.
    pub fn new(alloc: Global) -> Vars
        ensures { result ≡ [] }
    {
        Vars {
            pairs: Vec::new(alloc),
            undefined: Var::Undefined,
            alloc,
        }
    }

    /// Returns what a name stands for, or `Undefined` if the name was never set. Names are compared as texts. It
    /// takes no memory.
    pub fn get(&self, name: &str) -> &Var
        ensures { result.now ≡ lookup self.now name.now }
    {
        for (key, var) in &self.pairs {
            if key.as_str() == name {
                return var;
            }
        }
        &self.undefined
    }

    /// Lets a name stand for a value. If memory runs out, it returns `AllocError` and the map is unchanged.
    pub fn set(&mut self, name: &str, value: Var) -> Result<(), AllocError>
        ensures ok { OnOk result (self.new ≡ put self.old name.now value) }
        ensures found { OnOk result ((other : List ℕ) → lookup self.new other
            ≡ (if bytes_eq name.now other then value else lookup self.old other)) }
        ensures err { OnErr result (self.new ≡ self.old) }
    {
        match self.position(name) {
            Some(i) => {
                self.pairs[i].1 = value;
                Ok(())
            }
            None => {
                let name = Text::copied(self.alloc, name)?;
                self.pairs.push((name, value))?;
                Ok(())
            }
        }
    }

    /// Returns an equal map, or `AllocError` if memory runs out.
    pub fn clone(&self) -> Result<Vars, AllocError>
        ensures { IfOk result (λ v. v ≡ self.now) }
    {
        Ok(Vars {
            pairs: copies(self.alloc, &self.pairs)?,
            undefined: self.undefined.clone(self.alloc)?,
            alloc: self.alloc,
        })
    }

    /// Returns the place of the pair of a name.
    fn position(&self, name: &str) -> Option<usize>
        ensures { result ≡ position (λ p. bytes_eq p.0 name.now) self.now }
    {
        self.pairs.iter().position(|p| p.0.as_str() == name)
    }
}

fn copies(alloc: Global, pairs: &[(Text, Var)]) -> Result<Vec<(Text, Var)>, AllocError>
    ensures { IfOk result (λ v. v.items ≡ pairs.now) }
{
    let mut copies = Vec::new(alloc);
    for (key, var) in pairs {
        let name = key.clone(alloc)?;
        let value = var.clone(alloc)?;
        copies.push((name, value))?;
    }
    Ok(copies)
}
