//! `inspect`: from the path of a document to the text.
ghost use Rattle.std.specs.Prelude.{◌≡◌, IfErr, OnOk};
ghost use Rattle.csvw_inspect.specs.Inspects.{Inspects};
ghost use Rattle.csvw_streams.specs.Streams.{IsCut, Sends, stream_of};

use crate::asked::{Inspect, InspectForm};
use crate::json::json_of;
use crate::text::lines_of;
use csvw_columns::Plan;
use csvw_defaults::with_defaults;
use csvw_engine_core::Stop;
use csvw_files::{Opener, bundle_files, read_file};
use csvw_meta::{Description, MetaCode, MetaFault, Profile, ReadDescription};
use csvw_streams::{Counted, write_out};
use std::alloc::{AllocError, Global};
use std::io::Write;

/// Writes what a metadata document says to `out`.
///
/// Returns `Read` if the document or a resource can't be read, `Meta` if one has a fault, `Write` if `out` failed, and `Memory` if memory
/// ran out. Nothing is written then, unless `out` failed.
pub fn inspect<O: Opener, W: Write>(
    alloc: Global,
    asked: &Inspect<'_>,
    opener: &mut O,
    out: &mut Counted<W>,
) -> Result<(), Stop>
    ensures { Inspects (stream_of W.contents out.old out.new) result }
{
    let text = text_of(alloc, asked, opener)?;
    send(out, text.as_bytes())
}

/// Sends a text and flushes.
fn send<W: Write>(out: &mut Counted<W>, bytes: &[u8]) -> Result<(), Stop>
    ensures ok { OnOk result (Sends (stream_of W.contents out.old out.new) bytes.now) }
    ensures cut { IfErr result (λ reason. (reason ≡ Stop.Write) × IsCut (stream_of W.contents out.old out.new) bytes.now) }
{
    let Ok(()) = write_out(out, bytes) else {
        return Err(Stop::Write);
    };
    match out.flush() {
        Ok(()) => Ok(()),
        Err(_) => Err(Stop::Write),
    }
}

/// Returns the text of a document.
fn text_of<O: Opener>(alloc: Global, asked: &Inspect<'_>, opener: &mut O) -> Result<String, Stop> {
    let own = read_file(alloc, asked.meta, opener)?;
    let whole = bundle_files(alloc, own, asked.base, asked.resources, opener)?;
    let bytes = with_defaults(alloc, whole, asked.profile)?.bytes;
    match plan_of(alloc, bytes.as_slice(), asked.base, asked.profile) {
        Ok(plan) => Ok(shown(alloc, asked, bytes.as_slice(), &plan)?),
        Err(fault) => Err(match fault.code {
            MetaCode::Memory => Stop::Memory,
            _ => Stop::Meta(fault),
        }),
    }
}

/// Returns what is shown of a document with these bytes, in the form that is asked.
fn shown(
    alloc: Global,
    asked: &Inspect<'_>,
    bytes: &[u8],
    plan: &Plan,
) -> Result<String, AllocError> {
    match asked.form {
        InspectForm::Text => lines_of(alloc, asked, bytes, plan),
        InspectForm::Json => json_of(alloc, asked, bytes, plan),
    }
}

/// Reads a document in a profile, and plans its tables.
fn plan_of(alloc: Global, bytes: &[u8], base: &str, profile: Profile) -> Result<Plan, MetaFault> {
    let description = Description::read_by(alloc, bytes, base, profile)?;
    Plan::build(alloc, description)
}
