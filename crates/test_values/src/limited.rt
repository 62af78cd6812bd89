//! Expansions that stop at the limit of a link.
use csvw_template::{
    Binding, BoundPart, Fit, Names, Template, TemplateFault, Values, Var, push_bound_within,
};
use csvw_text::{Seq, Text};
use std::alloc::{AllocError, Global};
use std::test::Fail;

/// The limit of a link.
const LIMIT: usize = 65_536;

/// A template and its number of repetitions, a text and its number of repetitions, whether the expansion is whole, and
/// the number of bytes that are written.
type Case = (&'static str, usize, &'static str, usize, Fit, usize);

static CASES: [Case; 11] = [
    ("{+a}", 1, "x", 65_536, Fit::Whole, 65_536),
    ("{+a}", 1, "x", 65_537, Fit::TooLong, 0),
    ("{+a}", 31, "x", 1_048_576, Fit::TooLong, 0),
    ("{+a}", 32, "x", 2_048, Fit::Whole, 65_536),
    ("-{#a}", 1, "x", 65_534, Fit::Whole, 65_536),
    ("-{#a}", 1, "x", 65_535, Fit::TooLong, 65_537),
    ("{+a}-", 1, "x", 65_536, Fit::TooLong, 65_537),
    ("{+a,a,a}", 1, "x", 30_000, Fit::TooLong, 60_001),
    ("{a}", 1, "/", 21_845, Fit::Whole, 65_535),
    ("{a}", 1, "/", 65_536, Fit::TooLong, 196_608),
    ("{a}", 1, "/", 65_537, Fit::TooLong, 0),
];

/// A scope in which each name stands for one text.
#[derive(Clone, Copy)]
struct Alone<'a> {
    /// The allocator.
    alloc: Global,
    /// The text.
    text: &'a str,
}

impl<'a> Names for Alone<'a> {
    ghost use Rattle.csvw_template.specs.declared.bound.Binding.TheVariants.{At};

    ghost binding_of = { λ _ _. At 0 };

    fn binding(&self, _alloc: Global, _name: &str) -> Result<Binding, AllocError> {
        Ok(Binding::At(0))
    }
}

impl<'a> Values for Alone<'a> {
    ghost use Rattle.std.specs.Prelude.{[], ◌∷◌};
    ghost use Rattle.csvw_template.specs.declared.vars.Var.TheVariants.{One};

    ghost values = { λ alone. One alone.text.now ∷ [] };

    ghost can_look_up = { λ _. Unit {0} };

    fn var(&self, place: usize) -> Result<Var, AllocError> {
        match place {
            0 => Ok(Var::One(Text::copied(self.alloc, self.text)?)),
            _ => Ok(Var::Undefined),
        }
    }

    fn text(&self, place: usize) -> Option<&str> {
        match place {
            0 => Some(self.text),
            _ => None,
        }
    }

    fn is_longer(&self, place: usize, most: usize) -> bool {
        place == 0 && self.text.len() > most
    }
}

/// Returns the parts of a template, whose names are bound to the text. A text that is no template has no parts.
fn bound(alloc: Global, text: &str, alone: &Alone) -> Result<Seq<BoundPart>, AllocError> {
    match Template::read(alloc, text) {
        Ok(template) => template.bind(alloc, alone),
        Err(TemplateFault::Memory) => Err(AllocError),
        Err(_) => Ok(Seq::new(alloc)),
    }
}

/// Returns whether the expansion within the limit has its expected result, and writes so many bytes.
fn fits(alloc: Global, case: &Case) -> Result<bool, AllocError> {
    let (template, templates, text, texts, fit, written) = case;
    let template = template.repeat(alloc, *templates)?;
    let text = text.repeat(alloc, *texts)?;
    let alone = Alone {
        alloc,
        text: text.as_str(),
    };
    let parts = bound(alloc, template.as_str(), &alone)?;
    let mut out = String::new(alloc);
    let found = push_bound_within(&mut out, parts.as_slice(), &alone, LIMIT)?;
    Ok(found == *fit && out.len() == *written)
}

#[test]
fn expansions_stop_at_the_limit(rt: HostRuntime) -> Result<(), Fail> {
    for case in &CASES {
        assert!(rt; matches!(fits(rt.alloc(), case), Ok(true)), "{case:?}");
    }
    Ok(())
}
