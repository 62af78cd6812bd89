//! How the faults of a part of a document are found.
ghost use Rattle.std.specs.Prelude.{◌≡◌, ◌++◌, ◌∷◌, [], OnOk};
ghost use Rattle.serde_json.specs.View.{view};
ghost use Rattle.csvw_meta_core.specs.Pointer.{text_of};
ghost use Rattle.csvw_meta_core.specs.Read.{code_for};

use csvw_meta_core::{MetaCode, MetaFault, OrNull, Part, Reader};
use serde_json::Value;
use std::alloc::AllocError;

/// A kind of value in a document, all of whose faults can be found.
pub trait Finder: Reader {
    /// Adds the faults of the part at the end of the list, in the order of the definition `reads`. It returns
    /// `AllocError` if there is no memory for them. Then the list may have gained some of them.
    fn find(&self, part: &Part, faults: &mut Vec<MetaFault>) -> Result<(), AllocError>
        ensures { OnOk result (faults.new.items ≡ faults.old.items ++ (Self.reads self.now (text_of part.now.at) (view part.now.value.now)).faults) };
}

impl<R: Finder> Finder for OrNull<R> {
    fn find(&self, part: &Part, faults: &mut Vec<MetaFault>) -> Result<(), AllocError> {
        match part.value {
            Value::Null => Ok(()),
            _ => self.reader.find(part, faults),
        }
    }
}

/// Adds the fault of that code at the place of the part. It returns `AllocError` if there is no memory for it.
pub fn add_fault(part: &Part, code: MetaCode, faults: &mut Vec<MetaFault>) -> Result<(), AllocError>
    ensures { OnOk result (faults.new.items ≡ faults.old.items ++ record { code = code; pointer = text_of part.now.at } ∷ []) }
{
    let pointer = part.at.text(part.alloc)?;
    faults.push(MetaFault { code, pointer })?;
    Ok(())
}

/// Adds the fault of a value of a wrong kind: `NotSupported` for a number that is not whole, else `BadProperty`. It
/// returns `AllocError` if there is no memory for it.
pub fn add_wrong(part: &Part, faults: &mut Vec<MetaFault>) -> Result<(), AllocError>
    ensures { OnOk result (faults.new.items ≡ faults.old.items
        ++ record { code = code_for MetaCode.BadProperty (view part.now.value.now); pointer = text_of part.now.at } ∷ []) }
{
    add_wrong_as(part, MetaCode::BadProperty, faults)
}

/// Adds the fault of a value of a wrong kind: `NotSupported` for a number that is not whole, else this code. It returns
/// `AllocError` if there is no memory for it.
pub fn add_wrong_as(
    part: &Part,
    code: MetaCode,
    faults: &mut Vec<MetaFault>,
) -> Result<(), AllocError>
    ensures { OnOk result (faults.new.items ≡ faults.old.items
        ++ record { code = code_for code (view part.now.value.now); pointer = text_of part.now.at } ∷ []) }
{
    match part.value {
        Value::Number(number) if number.is_f64() => {
            add_fault(part, MetaCode::NotSupported, faults)
        }
        _ => add_fault(part, code, faults),
    }
}
