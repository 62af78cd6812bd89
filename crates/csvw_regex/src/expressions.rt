//! `Expressions`: the automata of the expressions that were used.
ghost use Rattle.std.specs.Prelude.{◌≡◌, ◌<◌, IfOk, OnOk, vec_len};
ghost use Rattle.csvw_regex.specs.Expressions.{is_expression, fits_expression};

use crate::RegularExpression;
use crate::automaton::Automaton;
use regex_vm::Backtracker;
use std::alloc::{AllocError, Global};

/// Where automata of expressions are kept, so that each is made once.
#[derive(Drop)]
pub struct Expressions {
    alloc: Global,
    automata: Vec<Automaton>,
    backtracker: Backtracker,
}

impl Expressions {
    /// Returns a room with no automata. It takes no memory.
    pub fn new(alloc: Global) -> Expressions {
        Expressions {
            alloc,
            automata: Vec::new(alloc),
            backtracker: Backtracker::new(alloc),
        }
    }

    /// Returns the allocator that the room was made with.
    #[inline(always)]
    pub fn alloc(&self) -> Global {
        self.alloc
    }

    /// Returns whether an expression describes the whole of a text. It makes the automaton of the expression if it is
    /// new. Returns `AllocError` if memory runs out.
    pub fn fit(&mut self, expression: &RegularExpression, text: &str) -> Result<bool, AllocError>
        ensures { IfOk result (λ b. b ≡ fits_expression expression.now text.now) }
    {
        for automaton in &mut self.automata {
            if automaton.expression.as_str() == expression.as_str() {
                return automaton.accepts(self.alloc, &mut self.backtracker, text);
            }
        }
        self.fit_new(expression, text)
    }

    /// Makes the automaton of an expression and keeps it, and returns whether the expression describes a text.
    fn fit_new(&mut self, expression: &RegularExpression, text: &str) -> Result<bool, AllocError>
        ensures { IfOk result (λ b. b ≡ fits_expression expression.now text.now) }
    {
        let Some(mut automaton) = Automaton::of(self.alloc, expression.as_str())? else {
            return Ok(false);
        };
        let answer = automaton.accepts(self.alloc, &mut self.backtracker, text)?;
        self.automata.push(automaton)?;
        Ok(answer)
    }
}
