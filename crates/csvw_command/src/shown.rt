//! Runs whose report is shown in another form than CSV, whose warnings count, or whose stop is explained.
ghost use Rattle.std.specs.Prelude.{◌≡◌, ◌≤◌, false, true};
ghost use Rattle.csvw_command_runs.specs.Groups.{RunsGroup};
ghost use Rattle.csvw_command.specs.Shown.{IsShownStatus, ShowsRun};
ghost use Rattle.csvw_command_runs.specs.Defaults.{is_default, is_whole};
ghost use Rattle.csvw_streams.specs.Streams.{stream_of};
ghost use Rattle.csvw_triples_core.specs.declared.mode.Mode.TheVariants as mode;

use csvw_check::{Color, Form, Halt, Show, Shown, explain_stop, show};
use csvw_command_core::{Group, Reporting};
use csvw_command_runs::{
    Ended, GroupRun, is_csv, is_default, is_whole, profile_of, resource_files, run_group,
    run_one_part, tell_stop,
};
use csvw_engine::Stop;
use csvw_files::{Colors, Opener, ResourceFile};
use csvw_text::Counted;
use csvw_triples_core::Mode;
use std::alloc::Global;
use std::io::{self, Write};

/// The status if a warning counts as an error.
const WARNED: u8 = 1;

/// The status if the page can't be made or sent.
const UNSENT: u8 = 4;

/// Returns the form of a page that has a name. The name of no other form is text.
pub fn form_of(name: Option<&str>) -> Form {
    match name {
        Some("html") => Form::Html,
        Some("json") => Form::Json,
        _ => Form::Text,
    }
}

/// Returns whether a text at a stream has colours, which it has by default if `is_colored`.
pub fn color_of(name: Option<&str>, is_colored: bool) -> Color {
    match name {
        Some("always") => Color::Always,
        Some("never") => Color::Never,
        _ if is_colored => Color::Always,
        _ => Color::Never,
    }
}

/// Returns how many faults are shown.
pub fn shown_of(reporting: &Reporting<'_>) -> Shown {
    match reporting.all {
        true => Shown::All,
        false => Shown::First,
    }
}

/// A run that ended, whose faults or stop are shown.
#[derive(Clone, Copy)]
struct Page<'a> {
    /// The group.
    group: &'a Group<'a>,
    /// How the run ended.
    ended: &'a Ended,
    /// Whether the page has colours by default.
    is_colored: bool,
}

impl<'a> Page<'a> {
    /// Returns what is asked of the showing, with the files of the document's resources.
    fn asked(self, resources: &'a [ResourceFile<'a>]) -> Show<'a> {
        let reporting = &self.group.reporting;
        Show {
            base: self.group.base,
            meta: self.group.meta,
            files: self.group.files.as_slice(),
            profile: profile_of(self.group.profile),
            resources,
            shown: shown_of(reporting),
            form: form_of(reporting.form),
            color: color_of(reporting.color, self.is_colored),
            faults: self.ended.faults.as_slice(),
            stop: self.ended.stop.as_ref(),
        }
    }

    /// Returns the status of the run.
    fn status(self) -> u8
        ensures { IsShownStatus self.entry.group.now.reporting.strict self.entry.ended.now.status result }
    {
        if self.group.reporting.strict && self.ended.status == 0 && !self.ended.faults.is_empty() {
            WARNED
        } else {
            self.ended.status
        }
    }
}

/// Shows the report of a run on a stream. Returns why it could not be shown, if it could not.
fn show_page<O: Opener, W: Write>(
    alloc: Global,
    page: Page<'_>,
    opener: &mut O,
    out: &mut Counted<W>,
) -> Option<Stop> {
    let Ok(resources) = resource_files(alloc, page.group.resources.as_slice()) else {
        return Some(Stop::Memory);
    };
    match show(alloc, &page.asked(resources.as_slice()), opener, out) {
        Err(Halt::Memory) => Some(Stop::Memory),
        Err(Halt::Write) => Some(Stop::Write),
        Ok(()) => match out.flush() {
            Ok(()) => None,
            Err(_) => Some(Stop::Write),
        },
    }
}

/// Reports whether the tables are valid. The report is shown on `out`, in place of the one that the run writes.
fn validate_shown<O: Opener, W: Write, V: Write>(
    alloc: Global,
    group: &Group<'_>,
    opener: &mut O,
    out: &mut Counted<W>,
    err: &mut Counted<V>,
) -> u8
    ensures runs { ShowsRun O.opens O.closes O.Reader.remaining mode.Validate group.now opener.old
        (stream_of W.contents out.old out.new) result }
    ensures bound { result ≤ 4 }
{
    let mut report = Counted::new(io::sink());
    let asked = GroupRun {
        group,
        mode: Mode::Validate,
    };
    let ended = run_group(alloc, asked, opener, &mut report, err);
    let page = Page {
        group,
        ended: &ended,
        is_colored: opener.colors().out,
    };
    match show_page(alloc, page, opener, out) {
        Some(stop) => {
            tell_stop(&stop, err);
            UNSENT
        }
        None => page.status(),
    }
}

/// Converts the tables. The graph goes to `out`, and the report is shown on `err`, in place of the one that the run writes,
/// with the line of a stop at its end.
fn convert_shown<O: Opener, W: Write, V: Write>(
    alloc: Global,
    asked: GroupRun<'_>,
    opener: &mut O,
    out: &mut Counted<W>,
    err: &mut Counted<V>,
) -> u8
    ensures runs { ShowsRun O.opens O.closes O.Reader.remaining asked.entry.mode asked.entry.group.now opener.old
        (stream_of W.contents out.old out.new) result }
    ensures bound { result ≤ 4 }
{
    let mut report = Counted::new(io::sink());
    let ended = run_group(alloc, asked, opener, out, &mut report);
    let page = Page {
        group: asked.group,
        ended: &ended,
        is_colored: opener.colors().err,
    };
    if let Some(stop) = show_page(alloc, page, opener, err) {
        tell_stop(&stop, err);
        return UNSENT;
    }
    if let Some(stop) = &ended.stop {
        tell_stop(stop, err);
    }
    page.status()
}

/// Explains the stop of a run that ended, as far as the stream takes it. The stop was reported before.
fn explain_end<O: Opener, V: Write>(
    alloc: Global,
    page: Page<'_>,
    opener: &mut O,
    err: &mut Counted<V>,
) {
    if let Ok(resources) = resource_files(alloc, page.group.resources.as_slice()) {
        let _ = explain_stop(alloc, &page.asked(resources.as_slice()), opener, err);
        let _ = err.flush();
    }
}

/// Runs with the CSV report. A stop is explained on `err`, if that is asked for.
fn run_explained<O: Opener, W: Write, V: Write>(
    alloc: Global,
    asked: GroupRun<'_>,
    opener: &mut O,
    out: &mut Counted<W>,
    err: &mut Counted<V>,
) -> u8
    ensures runs { ShowsRun O.opens O.closes O.Reader.remaining asked.entry.mode asked.entry.group.now opener.old
        (stream_of W.contents out.old out.new) result }
    ensures bound { result ≤ 4 }
{
    let ended = run_group(alloc, asked, opener, out, err);
    let page = Page {
        group: asked.group,
        ended: &ended,
        is_colored: opener.colors().err,
    };
    if asked.group.explain && ended.stop.is_some() {
        explain_end(alloc, page, opener, err);
    }
    page.status()
}

/// Runs over a group, and shows the report as it is asked for. Returns the exit status.
pub fn run_report<O: Opener, W: Write, V: Write>(
    alloc: Global,
    asked: GroupRun<'_>,
    opener: &mut O,
    out: &mut Counted<W>,
    err: &mut Counted<V>,
) -> u8
    ensures default { is_whole asked.entry.group.now ≡ true → is_default asked.entry.group.now ≡ true → RunsGroup O.opens O.closes O.Reader.remaining asked.entry.mode asked.entry.group.now
        opener.old opener.new (stream_of W.contents out.old out.new) (stream_of V.contents err.old err.new) result }
    ensures shown { is_whole asked.entry.group.now ≡ true → is_default asked.entry.group.now ≡ false → ShowsRun O.opens O.closes O.Reader.remaining asked.entry.mode asked.entry.group.now
        opener.old (stream_of W.contents out.old out.new) result }
    ensures bound { result ≤ 4 }
{
    let GroupRun { group, mode } = asked;
    if !is_whole(group) {
        return run_one_part(alloc, asked, opener, out, err);
    }
    if is_default(group) {
        return run_group(alloc, asked, opener, out, err).status;
    }
    if is_csv(group.reporting.form) {
        return run_explained(alloc, asked, opener, out, err);
    }
    match mode {
        Mode::Validate => validate_shown(alloc, group, opener, out, err),
        Mode::Minimal | Mode::Standard => convert_shown(alloc, asked, opener, out, err),
    }
}
