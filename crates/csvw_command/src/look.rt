//! A look at a metadata document.
ghost use Rattle.std.specs.Prelude.{◌≤◌};
ghost use Rattle.csvw_command.specs.Commands.{RunsInspect};
ghost use Rattle.csvw_streams.specs.Streams.{stream_of};

use crate::explained::{StoppedLook, explain_look};
use csvw_command_core::Inspected;
use csvw_command_runs::{SUCCESS, profile_of, resource_files, tell_stop};
use csvw_engine::Stop;
use csvw_files::Opener;
use csvw_inspect::{Inspect, InspectForm, inspect};
use csvw_text::Counted;
use std::alloc::Global;
use std::io::Write;

/// The base URL of a document whose own URL isn't known.
const UNKNOWN_URL: &str = "file:///";

/// Returns the URL of a document: this one, if it is given, or the one of its path.
pub(crate) fn base_of<'a>(given: Option<&'a str>, own: &'a Option<String>) -> &'a str {
    match (given, own) {
        (Some(base), _) => base,
        (None, Some(url)) => url.as_str(),
        (None, None) => UNKNOWN_URL,
    }
}

/// Reports why a document isn't shown, and explains it if that is asked for. Returns the exit status.
fn tell_look<O: Opener, V: Write>(
    alloc: Global,
    look: StoppedLook<'_>,
    asked: &Inspected<'_>,
    opener: &mut O,
    err: &mut Counted<V>,
) -> u8
    ensures runs { RunsInspect asked.now.explain (stream_of V.contents err.old err.new) result }
    ensures bound { result ≤ 4 }
{
    let status = tell_stop(look.stop, err);
    if asked.explain {
        explain_look(alloc, look, opener, err);
    }
    status
}

/// Shows what a metadata document says. A stop is explained on `err`, if that is asked for. Returns the exit status.
pub(crate) fn run_inspect<O: Opener, W: Write, V: Write>(
    alloc: Global,
    asked: &Inspected<'_>,
    opener: &mut O,
    out: &mut Counted<W>,
    err: &mut Counted<V>,
) -> u8
    ensures runs { RunsInspect asked.now.explain (stream_of V.contents err.old err.new) result }
    ensures bound { result ≤ 4 }
{
    let Ok(resources) = resource_files(alloc, asked.resources.as_slice()) else {
        return tell_stop(&Stop::Memory, err);
    };
    let own = opener.url(asked.meta);
    let look = Inspect {
        base: base_of(asked.base, &own),
        meta: asked.meta,
        profile: profile_of(asked.profile),
        resources: resources.as_slice(),
        form: match asked.json {
            true => InspectForm::Json,
            false => InspectForm::Text,
        },
    };
    match inspect(alloc, &look, opener, out) {
        Ok(()) => SUCCESS,
        Err(stop) => {
            let look = StoppedLook {
                asked: &look,
                stop: &stop,
            };
            tell_look(alloc, look, asked, opener, err)
        }
    }
}
