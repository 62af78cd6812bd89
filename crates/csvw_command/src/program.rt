//! What one run of the program does, over any files and writers.
ghost use Rattle.std.specs.Prelude.{◌≡◌, ◌≤◌, map, string_bytes};
ghost use Rattle.clap.specs.Words.{kind_of};
ghost use Rattle.csvw_command_runs.specs.Answers.{Answers};
ghost use Rattle.csvw_command.specs.Commands.{Commands, RunsRequest};
ghost use Rattle.csvw_command_runs.specs.Groups.{conversion};
ghost use Rattle.csvw_streams.specs.Streams.{stream_of};

use crate::look::{base_of, run_inspect};
use crate::shown::{color_of, form_of, run_report, shown_of};
use crate::table::run_table;
use clap::Error;
use clap::error::ErrorKind;
use csvw_check::{Check, Strict, check};
use csvw_command_core::{CheckedGroup, DraftedFiles, Request, mistake_in, requested};
use csvw_command_runs::{
    GroupRun, PlainTable, SUCCESS, give_text, profile_of, resource_files, run_completions,
    run_explain, run_join, run_keys, run_manual, run_split, tell_mistake, tell_stop,
};
use csvw_draft::{Draft, draft};
use csvw_engine::Stop;
use csvw_files::Opener;
use csvw_text::Counted;
use csvw_triples_core::Mode;
use std::alloc::Global;
use std::io::Write;

/// Tells what `clap` answers in place of a request: help on `out`, a mistake on `err`.
fn tell_words<W: Write, V: Write>(
    alloc: Global,
    answer: &Error,
    out: &mut Counted<W>,
    err: &mut Counted<V>,
) -> u8
    ensures answers { Answers (kind_of answer.now) (stream_of W.contents out.old out.new) (stream_of V.contents err.old err.new) result }
    ensures bound { result ≤ 4 }
{
    let Ok(text) = answer.to_string(alloc) else {
        return tell_stop(&Stop::Memory, err);
    };
    match answer.kind() {
        ErrorKind::OutOfMemory => tell_stop(&Stop::Memory, err),
        ErrorKind::DisplayHelp | ErrorKind::DisplayVersion => give_text(text.as_str(), out, err),
        _ => tell_mistake(text.as_str(), err),
    }
}

/// Shows what is wrong with a group.
fn run_check<O: Opener, W: Write, V: Write>(
    alloc: Global,
    asked: &CheckedGroup<'_>,
    opener: &mut O,
    out: &mut Counted<W>,
    err: &mut Counted<V>,
) -> u8
    ensures { result ≤ 4 }
{
    let Ok(resources) = resource_files(alloc, asked.resources.as_slice()) else {
        return tell_stop(&Stop::Memory, err);
    };
    let own = opener.url(asked.meta);
    let asked = Check {
        base: base_of(asked.base, &own),
        meta: asked.meta,
        files: asked.files.as_slice(),
        profile: profile_of(asked.profile),
        resources: resources.as_slice(),
        shown: shown_of(&asked.reporting),
        form: form_of(asked.reporting.form),
        color: color_of(asked.reporting.color, opener.colors().out),
        strict: match asked.reporting.strict {
            true => Strict::Warnings,
            false => Strict::Errors,
        },
    };
    check(alloc, &asked, opener, out, err)
}

/// Drafts a metadata document.
fn run_draft<O: Opener, W: Write, V: Write>(
    alloc: Global,
    asked: &DraftedFiles<'_>,
    opener: &mut O,
    out: &mut Counted<W>,
    err: &mut Counted<V>,
) -> u8
    ensures { result ≤ 4 }
{
    let asked = Draft {
        base: asked.base,
        files: asked.files.as_slice(),
        profile: profile_of(asked.profile),
    };
    match draft(alloc, &asked, opener, out, err) {
        Ok(()) => SUCCESS,
        Err(stop) => tell_stop(&stop, err),
    }
}

/// Returns the mode of a conversion.
fn conversion(minimal: bool) -> Mode
    ensures { result ≡ conversion minimal }
{
    match minimal {
        true => Mode::Minimal,
        false => Mode::Standard,
    }
}

/// Does what the words ask for.
fn run_request<O: Opener, W: Write, V: Write>(
    alloc: Global,
    request: &Request<'_>,
    opener: &mut O,
    out: &mut Counted<W>,
    err: &mut Counted<V>,
) -> u8
    ensures runs { RunsRequest O.opens O.closes O.Reader.remaining request.now opener.old opener.new
        (stream_of W.contents out.old out.new) (stream_of V.contents err.old err.new) result }
    ensures bound { result ≤ 4 }
{
    match request {
        Request::Plain {
            url,
            file,
            explain,
            ..
        } => {
            let table = PlainTable {
                url,
                file,
                explain: *explain,
            };
            run_table(alloc, table, opener, out, err)
        }
        Request::Validate(group) => {
            let mode = Mode::Validate;
            run_report(alloc, GroupRun { group, mode }, opener, out, err)
        }
        Request::Convert { group, minimal, .. } => {
            let mode = conversion(*minimal);
            run_report(alloc, GroupRun { group, mode }, opener, out, err)
        }
        Request::Check(asked) => run_check(alloc, asked, opener, out, err),
        Request::Explain(code) => run_explain(alloc, *code, out, err),
        Request::Inspect(asked) => run_inspect(alloc, asked, opener, out, err),
        Request::Draft(asked) => run_draft(alloc, asked, opener, out, err),
        Request::Split(asked) => run_split(alloc, asked, opener, out, err),
        Request::Keys(asked) => run_keys(alloc, asked, opener, out, err),
        Request::Report(files) => run_join(alloc, files.as_slice(), opener, out, err),
        Request::Completions(shell) => run_completions(alloc, shell, out, err),
        Request::Manual => run_manual(alloc, out, err),
    }
}

/// Runs the program on its words, the first of which is its name. Returns its exit status.
///
/// The status is 0 if no fault is an error, or if a text was asked for. It is 1 if there are faults, and 2 if the command
/// line isn't accepted. It is 3 if metadata or a table isn't. It is 4 if a file or a stream failed or memory ran out.
/// Texts, graphs, the report of `validate` and the page of `check` go to `out`. Everything else goes to `err`, other
/// reports among it. On 3 and 4 a line reports the stop, but for `check`. It is the last one, unless the stop is explained.
pub fn command<O: Opener, W: Write, V: Write>(
    alloc: Global,
    words: &[String],
    opener: &mut O,
    out: &mut Counted<W>,
    err: &mut Counted<V>,
) -> u8
    ensures commands { Commands O.opens O.closes O.Reader.remaining (map string_bytes words.now) opener.old opener.new
        (stream_of W.contents out.old out.new) (stream_of V.contents err.old err.new) result }
    ensures bound { result ≤ 4 }
{
    let request = match requested(alloc, words) {
        Ok(request) => request,
        Err(answer) => return tell_words(alloc, &answer, out, err),
    };
    match mistake_in(&request) {
        Some(mistake) => tell_mistake(mistake, err),
        None => run_request(alloc, &request, opener, out, err),
    }
}
