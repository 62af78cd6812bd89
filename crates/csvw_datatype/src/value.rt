//! The values of cells.
ghost use Rattle.std.specs.Prelude.{◌≡◌, IfOk};

use csvw_text::{Copied, Text};
use std::alloc::{AllocError, Global};

/// The value of a cell, or of an item of one. Two values are equal if they are equal texts, booleans, numbers, days
/// or moments. An integer equals a decimal of the same number.
#[derive(Debug, Drop, PartialEq, Eq, PartialOrd, Ord)]
pub enum Value {
    /// A string or a URI, or the one text of a value that is kept as a text, as of a double.
    Text(Text),
    /// A boolean.
    Truth(bool),
    /// A number, counted in units of 10^-18.
    Number(i128),
    /// A day, counted in days since 1 January 1970.
    Day(i32),
    /// A day and a second of it, counted in seconds since 1 January 1970 of days that all have 86,400.
    Moment(i64),
}

impl Value {
    /// Returns an equal value, or `AllocError` if memory runs out.
    pub fn clone(&self, alloc: Global) -> Result<Value, AllocError>
        ensures { IfOk result (λ v. v ≡ self.now) }
    {
        match self {
            Value::Text(text) => Ok(Value::Text(text.clone(alloc)?)),
            Value::Truth(truth) => Ok(Value::Truth(*truth)),
            Value::Number(number) => Ok(Value::Number(*number)),
            Value::Day(day) => Ok(Value::Day(*day)),
            Value::Moment(moment) => Ok(Value::Moment(*moment)),
        }
    }
}

impl Copied for Value {
    fn copied(&self, alloc: Global) -> Result<Value, AllocError> {
        self.clone(alloc)
    }
}
