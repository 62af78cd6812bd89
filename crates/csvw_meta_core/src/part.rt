//! A part of a document, and the faults that are reported of it.
ghost use Rattle.std.specs.Prelude.{◌≡◌, ◌∷◌, []};
ghost use Rattle.serde_json.specs.View.{view};
ghost use Rattle.csvw_meta_core.specs.Pointer.{text_of, below, item_at};
ghost use Rattle.csvw_meta_core.specs.Read.{property, optional, needed, code_for};
ghost use Rattle.csvw_meta_core.specs.Reads.{Fails, Reads};

use crate::fault::{MetaCode, MetaFault, Refusal};
use crate::pointer::Pointer;
use crate::reader::Reader;
use serde_json::Value;
use std::alloc::Global;

/// A value of a document, and its place.
#[derive(Clone, Copy)]
pub struct Part<'a> {
    /// The allocator for what is read.
    pub alloc: Global,
    /// The place of the value.
    pub at: Pointer<'a>,
    /// The value.
    pub value: &'a Value,
}

impl<'a> Part<'a> {
    /// Returns the fault of that code at this place, or `Memory` if there is no memory for the fault.
    pub fn refused(&self, code: MetaCode) -> Refusal
        ensures { Fails result (record { code = code; pointer = text_of self.now.at } ∷ []) }
    {
        match self.at.text(self.alloc) {
            Ok(pointer) => Refusal::Fault(MetaFault { code, pointer }),
            Err(_) => Refusal::Memory,
        }
    }

    /// Returns the fault of a value of a wrong kind: `NotSupported` for a number that is not whole, else
    /// `BadProperty`. It returns `Memory` if there is no memory for the fault.
    pub fn wrong(&self) -> Refusal
        ensures { Fails result (record { code = code_for MetaCode.BadProperty (view self.now.value.now); pointer = text_of self.now.at } ∷ []) }
    {
        self.wrong_as(MetaCode::BadProperty)
    }

    /// Returns the fault of a value of a wrong kind: `NotSupported` for a number that is not whole, else this code. It
    /// returns `Memory` if there is no memory for the fault.
    pub fn wrong_as(&self, code: MetaCode) -> Refusal
        ensures { Fails result (record { code = code_for code (view self.now.value.now); pointer = text_of self.now.at } ∷ []) }
    {
        match self.value {
            Value::Number(number) if number.is_f64() => self.refused(MetaCode::NotSupported),
            _ => self.refused(code),
        }
    }

    /// Reads a property of this object, or returns the default if the property is missing. Each fault is the reader's.
    pub fn property<R: Reader>(
        &self,
        reader: &R,
        default: R::Output,
        name: &str,
    ) -> Result<R::Output, Refusal>
        ensures { Reads result (property (R.reads reader.now) default (text_of self.now.at) (view self.now.value.now) name.now) }
    {
        match self.value.get(name) {
            None => Ok(default),
            Some(value) => reader.read(&self.member(name, value)),
        }
    }

    /// Reads a property of this object, or returns `None` if the property is missing. Each fault is the reader's.
    pub fn optional<R: Reader>(&self, reader: &R, name: &str) -> Result<Option<R::Output>, Refusal>
        ensures { Reads result (optional (R.reads reader.now) (text_of self.now.at) (view self.now.value.now) name.now) }
    {
        match self.value.get(name) {
            None => Ok(None),
            Some(value) => Ok(Some(reader.read(&self.member(name, value))?)),
        }
    }

    /// Reads a property of this object. If the property is missing, the fault is `BadProperty` at the object. Any other
    /// fault is the reader's.
    pub fn needed<R: Reader>(&self, reader: &R, name: &str) -> Result<R::Output, Refusal>
        ensures { (dummy : R.Output) → Reads result (needed (R.reads reader.now) dummy (text_of self.now.at) (view self.now.value.now) name.now) }
    {
        match self.value.get(name) {
            None => Err(self.refused(MetaCode::BadProperty)),
            Some(value) => reader.read(&self.member(name, value)),
        }
    }

    /// Returns the part for the member of that name of this object.
    pub fn member<'b>(&'b self, name: &'b str, value: &'b Value) -> Part<'b>
        ensures at { text_of result.at ≡ below (text_of self.now.at) name.now }
        ensures value { result.value.now ≡ value.now }
    {
        Part {
            alloc: self.alloc,
            at: Pointer::Member(&self.at, name),
            value,
        }
    }

    /// Returns the part for the item of that index, from 0, of this array.
    pub fn item<'b>(&'b self, index: usize, value: &'b Value) -> Part<'b>
        ensures at { text_of result.at ≡ item_at (text_of self.now.at) index }
        ensures value { result.value.now ≡ value.now }
    {
        Part {
            alloc: self.alloc,
            at: Pointer::Item(&self.at, index),
            value,
        }
    }
}
