//! Reads the matches of a subcommand into a request.
ghost use Rattle.clap.specs.Words.{all_of, found_of, rows_of};
ghost use Rattle.csvw_command_core.specs.Asked.{IsCount, IsGroup, IsReporting, Reads, flag_of, texts_of};
ghost use Rattle.std.specs.Prelude.{◌≡◌, IfOk, IfSome, codes, map};

use crate::arguments::{
    ALL, BASE, CODE, COLOR, EXPLAINED, FILE, JSON, KEYS, LINE_BUFFERED, META, MINIMAL, PART, PARTS,
    PLAN, PROFILE, PROGRESS, REPORT, RESOURCE, SHELL, STRICT, TURNS, URL,
};
use crate::request::{
    CheckedGroup, DraftedFiles, Group, Inspected, JudgedKeys, Reporting, Request, SplitFiles,
};
use crate::subcommands::{
    CHECK, COMPLETIONS, CONVERT, DRAFT, EXPLAIN, INSPECT, MANUAL, PLAIN, SPLIT, VALIDATE,
};
use clap::ArgMatches;
use clap::parser::ValueSource;
use std::alloc::{AllocError, Global};

fn has_flag(matches: &ArgMatches<'_>, id: &str) -> bool
    ensures { result ≡ flag_of id.now (rows_of (found_of matches.now)) }
{
    match matches.value_source(id) {
        Some(ValueSource::CommandLine) => true,
        Some(ValueSource::DefaultValue) => false,
        None => false,
    }
}

fn reporting_in<'a>(matches: &ArgMatches<'a>) -> Reporting<'a>
    ensures { IsReporting (rows_of (found_of matches.now)) result }
{
    Reporting {
        form: matches.get_str(REPORT),
        color: matches.get_str(COLOR),
        all: has_flag(matches, ALL),
        strict: has_flag(matches, STRICT),
    }
}

/// Returns the texts of an argument, of which there may be none. Fails with `AllocError` if memory runs out.
fn texts_in<'a>(
    alloc: Global,
    matches: &ArgMatches<'a>,
    id: &str,
) -> Result<Vec<&'a str>, AllocError>
    ensures { IfOk result (λ texts. texts_of (all_of id.now (rows_of (found_of matches.now))) ≡ map (λ text. text.now) texts.items) }
{
    match matches.get_strs(id) {
        Some(given) => Vec::from_slice(alloc, given),
        None => Ok(Vec::new(alloc)),
    }
}

fn group_in<'a>(alloc: Global, matches: &ArgMatches<'a>) -> Result<Option<Group<'a>>, AllocError>
    ensures { IfOk result (λ found. IfSome found (λ group. IsGroup (rows_of (found_of matches.now)) group)) }
{
    if let Some(base) = matches.get_str(BASE) {
        if let Some(meta) = matches.get_str(META) {
            if let Some(given) = matches.get_strs(FILE) {
                let files = Vec::from_slice(alloc, given)?;
                let resources = texts_in(alloc, matches, RESOURCE)?;
                return Ok(Some(Group {
                    base,
                    meta,
                    files,
                    profile: matches.get_str(PROFILE),
                    resources,
                    turns: has_flag(matches, TURNS),
                    reporting: reporting_in(matches),
                    explain: has_flag(matches, EXPLAINED),
                    progress: has_flag(matches, PROGRESS),
                    part: matches.get_str(PART),
                    plan: matches.get_str(PLAN),
                    keys: matches.get_str(KEYS),
                }));
            }
        }
    }
    Ok(None)
}

fn plain_in<'a>(matches: &ArgMatches<'a>) -> Option<Request<'a>>
    ensures { IfSome result (λ request. Reads (codes "plain") (rows_of (found_of matches.now)) request) }
{
    let url = matches.get_str(URL)?;
    let file = matches.get_str(FILE)?;
    Some(Request::Plain {
        url,
        file,
        line_buffered: has_flag(matches, LINE_BUFFERED),
        explain: has_flag(matches, EXPLAINED),
        progress: has_flag(matches, PROGRESS),
    })
}

fn check_in<'a>(alloc: Global, matches: &ArgMatches<'a>) -> Result<Option<Request<'a>>, AllocError>
    ensures { IfOk result (λ found. IfSome found (λ request. Reads (codes "check") (rows_of (found_of matches.now)) request)) }
{
    let Some(meta) = matches.get_str(META) else {
        return Ok(None);
    };
    let files = texts_in(alloc, matches, FILE)?;
    let resources = texts_in(alloc, matches, RESOURCE)?;
    Ok(Some(Request::Check(CheckedGroup {
        base: matches.get_str(BASE),
        meta,
        files,
        profile: matches.get_str(PROFILE),
        resources,
        reporting: reporting_in(matches),
        progress: has_flag(matches, PROGRESS),
    })))
}

fn explain_in<'a>(matches: &ArgMatches<'a>) -> Request<'a>
    ensures { Reads (codes "explain") (rows_of (found_of matches.now)) result }
{
    Request::Explain(matches.get_str(CODE))
}

fn inspect_in<'a>(
    alloc: Global,
    matches: &ArgMatches<'a>,
) -> Result<Option<Request<'a>>, AllocError>
    ensures { IfOk result (λ found. IfSome found (λ request. Reads (codes "inspect") (rows_of (found_of matches.now)) request)) }
{
    let Some(meta) = matches.get_str(META) else {
        return Ok(None);
    };
    let resources = texts_in(alloc, matches, RESOURCE)?;
    Ok(Some(Request::Inspect(Inspected {
        base: matches.get_str(BASE),
        meta,
        profile: matches.get_str(PROFILE),
        resources,
        json: has_flag(matches, JSON),
        explain: has_flag(matches, EXPLAINED),
    })))
}

fn draft_in<'a>(alloc: Global, matches: &ArgMatches<'a>) -> Result<Request<'a>, AllocError>
    ensures { IfOk result (λ request. Reads (codes "draft") (rows_of (found_of matches.now)) request) }
{
    Ok(Request::Draft(DraftedFiles {
        base: matches.get_str(BASE),
        files: texts_in(alloc, matches, FILE)?,
        profile: matches.get_str(PROFILE),
    }))
}

/// Returns the number that a word writes, or 0 if it is none or greater than the greatest `u32`.
fn count_of(word: &str) -> u32
    ensures { IsCount word.now result }
{
    match word.parse::<u32>() {
        Ok(count) => count,
        Err(_) => 0,
    }
}

fn split_in<'a>(alloc: Global, matches: &ArgMatches<'a>) -> Result<Option<Request<'a>>, AllocError>
    ensures { IfOk result (λ found. IfSome found (λ request. Reads (codes "split") (rows_of (found_of matches.now)) request)) }
{
    let Some(base) = matches.get_str(BASE) else {
        return Ok(None);
    };
    let Some(meta) = matches.get_str(META) else {
        return Ok(None);
    };
    let Some(parts) = matches.get_str(PARTS) else {
        return Ok(None);
    };
    let files = texts_in(alloc, matches, FILE)?;
    let resources = texts_in(alloc, matches, RESOURCE)?;
    Ok(Some(Request::Split(SplitFiles {
        base,
        meta,
        files,
        profile: matches.get_str(PROFILE),
        resources,
        parts: count_of(parts),
    })))
}

fn keys_in<'a>(alloc: Global, matches: &ArgMatches<'a>) -> Result<Option<Request<'a>>, AllocError>
    ensures { IfOk result (λ found. IfSome found (λ request. Reads (codes "keys") (rows_of (found_of matches.now)) request)) }
{
    let Some(base) = matches.get_str(BASE) else {
        return Ok(None);
    };
    let Some(meta) = matches.get_str(META) else {
        return Ok(None);
    };
    let resources = texts_in(alloc, matches, RESOURCE)?;
    Ok(Some(Request::Keys(JudgedKeys {
        base,
        meta,
        profile: matches.get_str(PROFILE),
        resources,
    })))
}

fn report_in<'a>(alloc: Global, matches: &ArgMatches<'a>) -> Result<Request<'a>, AllocError>
    ensures { IfOk result (λ request. Reads (codes "report") (rows_of (found_of matches.now)) request) }
{
    Ok(Request::Report(texts_in(alloc, matches, FILE)?))
}

fn completions_in<'a>(matches: &ArgMatches<'a>) -> Option<Request<'a>>
    ensures { IfSome result (λ request. Reads (codes "completions") (rows_of (found_of matches.now)) request) }
{
    Some(Request::Completions(matches.get_str(SHELL)?))
}

/// Returns the request that a subcommand on a group makes, or `None` if it isn't one on a group.
fn grouped<'a>(
    alloc: Global,
    name: &str,
    matches: &ArgMatches<'a>,
) -> Result<Option<Request<'a>>, AllocError>
    ensures { IfOk result (λ found. IfSome found (λ request. Reads name.now (rows_of (found_of matches.now)) request)) }
{
    let Some(group) = group_in(alloc, matches)? else {
        return Ok(None);
    };
    if name == VALIDATE {
        return Ok(Some(Request::Validate(group)));
    }
    if name == CONVERT {
        return Ok(Some(Request::Convert {
            group,
            minimal: has_flag(matches, MINIMAL),
            line_buffered: has_flag(matches, LINE_BUFFERED),
        }));
    }
    Ok(None)
}

/// Returns the request that the subcommand of this name makes by its matches, or `None` if they make none. Fails
/// with `AllocError` if memory runs out.
pub(crate) fn request_of<'a>(
    alloc: Global,
    name: &str,
    matches: &ArgMatches<'a>,
) -> Result<Option<Request<'a>>, AllocError>
    ensures { IfOk result (λ found. IfSome found (λ request. Reads name.now (rows_of (found_of matches.now)) request)) }
{
    if name == PLAIN {
        return Ok(plain_in(matches));
    }
    if name == EXPLAIN {
        return Ok(Some(explain_in(matches)));
    }
    if name == CHECK {
        return check_in(alloc, matches);
    }
    if name == INSPECT {
        return inspect_in(alloc, matches);
    }
    if name == DRAFT {
        return Ok(Some(draft_in(alloc, matches)?));
    }
    if name == SPLIT {
        return split_in(alloc, matches);
    }
    if name == KEYS {
        return keys_in(alloc, matches);
    }
    if name == REPORT {
        return Ok(Some(report_in(alloc, matches)?));
    }
    if name == COMPLETIONS {
        return Ok(completions_in(matches));
    }
    if name == MANUAL {
        return Ok(Some(Request::Manual));
    }
    grouped(alloc, name, matches)
}
