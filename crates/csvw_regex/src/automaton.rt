//! The automaton of an expression.
ghost use Rattle.std.specs.Prelude.{◌≡◌, false, true, MatchOption, IfOk, vec_len};
ghost use Rattle.csvw_regex.specs.Expressions.{is_expression, fits_expression};
ghost use Rattle.csvw_regex.specs.Automata.{StandsFor, Decides, IsAutomatonOf, has_room};

use csvw_text::Text;
use regex_compile::compile;
use regex_hir::{Hir, Look};
use regex_nfa::Nfa;
use regex_syntax::{Config, ErrorKind, Parsed, parse};
use regex_vm::{Backtracker, PikeVm};
use std::alloc::{AllocError, Global};

/// The greatest size of the tables of an automaton, in bytes. A greater one counts as memory that runs out.
const SIZE_LIMIT: usize = 10 << 20;

/// An expression, and the automaton that decides which texts it describes.
#[derive(Drop)]
pub(crate) struct Automaton {
    /// The text of the expression.
    pub(crate) expression: Text,
    nfa: Nfa,
    /// What a search of a long text needs, once there was one.
    machine: Option<PikeVm>,
    ghost decides: { Decides nfa expression },
    ghost fits: { has_room machine (vec_len nfa.states) ≡ true },
}

impl Automaton {
    /// Returns the automaton of a text, or `None` if the text is no expression. Returns `AllocError` if memory runs out or
    /// the automaton is too large.
    pub(crate) fn of(alloc: Global, expression: &str) -> Result<Option<Automaton>, AllocError>
        ensures { IfOk result (λ o. MatchOption o (is_expression expression.now ≡ false)
            (λ a. (a.expression ≡ expression.now) × (is_expression expression.now ≡ true))) }
    {
        let Some(parsed) = parsed(alloc, expression)? else {
            return Ok(None);
        };
        let nfa = compiled(alloc, parsed)?;
        Ok(Some(Automaton {
            expression: Text::copied(alloc, expression)?,
            nfa,
            machine: None,
        }))
    }

    /// Returns whether the expression describes a text. Returns `AllocError` if memory runs out.
    pub(crate) fn accepts(
        &mut self,
        alloc: Global,
        backtracker: &mut Backtracker,
        text: &str,
    ) -> Result<bool, AllocError>
        ensures { IfOk result (λ b. b ≡ fits_expression self.old.expression text.now) }
    {
        match backtracker.find(&self.nfa, text.as_bytes(), 0, 0, text.len(), &mut []) {
            Ok(found) => Ok(found.is_some()),
            Err(_) => self.accepts_long(alloc, text),
        }
    }

    /// Returns whether the expression describes a text that is too long for the backtracker.
    fn accepts_long(&mut self, alloc: Global, text: &str) -> Result<bool, AllocError>
        ensures { IfOk result (λ b. b ≡ fits_expression self.old.expression text.now) }
    {
        let mut machine = made_for(alloc, self.machine.take(), &self.nfa)?;
        let found = machine.is_match(&self.nfa, text.as_bytes(), 0, 0, text.len());
        self.machine = Some(machine);
        Ok(found)
    }
}

/// Returns a machine for an automaton: the one that there is, or a new one.
fn made_for(alloc: Global, machine: Option<PikeVm>, nfa: &Nfa) -> Result<PikeVm, AllocError>
    requires { has_room machine (vec_len nfa.now.states) ≡ true }
    ensures { IfOk result (λ m. m.states ≡ vec_len nfa.now.states) }
{
    match machine {
        Some(machine) => Ok(machine),
        None => PikeVm::new(alloc, nfa),
    }
}

/// Returns the tree of an expression, or `None` if the text is none. Returns `AllocError` if memory runs out.
fn parsed(alloc: Global, expression: &str) -> Result<Option<Parsed>, AllocError>
    ensures { IfOk result (λ o. MatchOption o (is_expression expression.now ≡ false) (λ p. StandsFor expression.now p.hir)) }
{
    match parse(alloc, expression, &Config::default()) {
        Ok(parsed) => Ok(Some(parsed)),
        Err(error) => {
            if error.kind == ErrorKind::OutOfMemory {
                Err(AllocError)
            } else {
                Ok(None)
            }
        }
    }
}

/// Returns the automaton of the texts that a tree matches from their start to their end.
fn compiled(alloc: Global, parsed: Parsed) -> Result<Nfa, AllocError>
    ensures { IfOk result (λ nfa. IsAutomatonOf nfa parsed.hir) }
{
    let Ok(groups) = u32::try_from(parsed.names.len()) else {
        return Err(AllocError);
    };
    let whole = Hir::Concat(vec![in alloc; parsed.hir, Hir::Look(Look::End)]?);
    match compile(alloc, &whole, groups, SIZE_LIMIT) {
        Ok(nfa) => Ok(nfa),
        Err(_) => Err(AllocError),
    }
}
