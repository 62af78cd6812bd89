//! Dialects (Metadata Vocabulary for Tabular Data, section 5.9).
ghost use Rattle.std.specs.Prelude.{◌≡◌, ◌++◌, [], chars};
ghost use Rattle.std.specs.List.{list_any};
ghost use Rattle.serde_json.specs.View.{view};
ghost use Rattle.csvw_records.specs.Lawful.{has_break};
ghost use Rattle.csvw_meta_core.specs.Pointer.{text_of};
ghost use Rattle.csvw_meta_core.specs.Reads.{Reads};
ghost use Rattle.csvw_meta_notes.specs.Places.{place_of};
ghost use Rattle.csvw_meta_notes.specs.Unlisted.{unlisted};
ghost use Rattle.csvw_meta_dialect.specs.Dialect.{mark, comment_prefix, trim, trim_named, encoding, is_utf8_name, terminator, terminators, joined};
ghost use Rattle.csvw_meta_dialect.specs.Dialect.{header_rows, trim_of, skips_spaces, all_symbols, clashes, is_break_char};
ghost use Rattle.csvw_meta_dialect.specs.Dialect.{cell_symbols, dialect_names, header_and_skips, dialect_parts, lawful_dialect, dialect_of};

use csvw_meta_core::{
    AnyWhole, Character, Context, Fixed, IdReader, MetaCode, OrNull, Part, Reader, Refusal, Truth,
    WholeU8, WholeU32, each,
};
use csvw_meta_notes::warnings_at;
use csvw_records::{Dialect, LineTerminators, Trim};
use csvw_text::{Fault, Place, Seq, Text};
use serde_json::Value;

/// The greatest number of bytes of a prefix of comment rows.
pub const MAX_PREFIX: usize = 16;

/// The greatest number of header rows.
pub const MAX_HEADER_ROWS: u8 = 8;

/// The greatest number of columns that are skipped.
pub const MAX_SKIPPED_COLUMNS: u32 = 1024;

/// The properties of a dialect.
const DIALECT: [&str; 15] = [
    "@id",
    "@type",
    "commentPrefix",
    "delimiter",
    "doubleQuote",
    "encoding",
    "header",
    "headerRowCount",
    "lineTerminators",
    "quoteChar",
    "skipBlankRows",
    "skipColumns",
    "skipInitialSpace",
    "skipRows",
    "trim",
];

/// A dialect, and the warnings on it.
#[derive(Drop)]
pub struct DialectFound {
    /// The dialect, which is lawful.
    pub dialect: Dialect,
    /// A warning for each property of the dialect that is ignored.
    pub warnings: Seq<Fault>,
}

fn is_break(c: char) -> bool
    ensures { result ≡ is_break_char c }
{
    c == '\r' || c == '\n'
}

fn has_break(text: &str) -> bool
    ensures { result ≡ has_break (chars text.now) }
{
    text.chars().any(|c| is_break(c))
}

/// Reads a delimiter or a quote: one character, neither CR nor LF. CR and LF are `BadDialect`. An empty text is
/// `BadProperty`.
#[derive(Drop)]
pub struct Mark {
    /// The code for a text of several characters.
    pub several: MetaCode,
}

impl Reader for Mark {
    type Output = char;

    ghost reads = { λ r. mark r.several };

    #[tactic(auto, using(crate::proofs::ReadLemmas::fails_over))]
    fn read(&self, part: &Part) -> Result<char, Refusal> {
        let c = Character {
            several: self.several,
        }
        .read(part)?;
        if is_break(c) {
            return Err(part.refused(MetaCode::BadDialect));
        }
        Ok(c)
    }
}

/// Reads the prefix of comment rows: 1 to 16 bytes, without CR and LF. Another length is `BadProperty`. A text with CR
/// or LF is `BadDialect`.
#[derive(Drop)]
pub struct CommentPrefix;

impl Reader for CommentPrefix {
    type Output = Text;

    ghost reads = { λ _. comment_prefix };

    fn read(&self, part: &Part) -> Result<Text, Refusal> {
        let Some(text) = part.value.as_str() else {
            return Err(part.wrong());
        };
        if text.is_empty() || text.len() > MAX_PREFIX {
            return Err(part.refused(MetaCode::BadProperty));
        }
        if has_break(text) {
            return Err(part.refused(MetaCode::BadDialect));
        }
        Ok(Text::copied(part.alloc, text)?)
    }
}

fn trim_named(text: &str) -> Option<Trim>
    ensures { result ≡ trim_named text.now }
{
    match text {
        "true" => Some(Trim::Both),
        "false" => Some(Trim::No),
        "start" => Some(Trim::Start),
        "end" => Some(Trim::End),
        _ => None,
    }
}

/// Reads what is stripped from fields: a boolean, or one of the texts `true`, `false`, `start` and `end`. Another text
/// is `BadProperty`.
#[derive(Drop)]
pub struct TrimReader;

impl Reader for TrimReader {
    type Output = Trim;

    ghost reads = { λ _. trim };

    fn read(&self, part: &Part) -> Result<Trim, Refusal> {
        match part.value {
            Value::Bool(true) => Ok(Trim::Both),
            Value::Bool(false) => Ok(Trim::No),
            Value::String(text) => match trim_named(text.as_str()) {
                Some(trim) => Ok(trim),
                None => Err(part.refused(MetaCode::BadProperty)),
            },
            _ => Err(part.wrong()),
        }
    }
}

fn is_utf8_name(text: &str) -> bool
    ensures { result ≡ is_utf8_name text.now }
{
    text.eq_ignore_ascii_case("utf-8")
}

/// Reads the name of the one supported encoding, UTF-8, in any case. Another text is `NotSupported`.
#[derive(Drop)]
pub struct Encoding;

impl Reader for Encoding {
    type Output = ();

    ghost reads = { λ _. encoding };

    fn read(&self, part: &Part) -> Result<(), Refusal> {
        match part.value.as_str() {
            Some(text) if is_utf8_name(text) => Ok(()),
            Some(_) => Err(part.refused(MetaCode::NotSupported)),
            None => Err(part.wrong()),
        }
    }
}

/// Reads a line terminator: CR LF or LF. Another text is `NotSupported`.
#[derive(Drop)]
pub struct Terminator;

impl Reader for Terminator {
    type Output = LineTerminators;

    ghost reads = { λ _. terminator };

    fn read(&self, part: &Part) -> Result<LineTerminators, Refusal> {
        match part.value.as_str() {
            Some("\r\n") => Ok(LineTerminators {
                crlf: true,
                lf: false,
            }),
            Some("\n") => Ok(LineTerminators {
                crlf: false,
                lf: true,
            }),
            Some(_) => Err(part.refused(MetaCode::NotSupported)),
            None => Err(part.wrong()),
        }
    }
}

fn has_crlf(terminators: &[LineTerminators]) -> bool
    ensures { result ≡ list_any (λ t. t.crlf) terminators.now }
{
    terminators.iter().any(|t| t.crlf)
}

fn has_lf(terminators: &[LineTerminators]) -> bool
    ensures { result ≡ list_any (λ t. t.lf) terminators.now }
{
    terminators.iter().any(|t| t.lf)
}

fn joined(terminators: &[LineTerminators]) -> LineTerminators
    ensures { result ≡ joined terminators.now }
{
    LineTerminators {
        crlf: has_crlf(terminators),
        lf: has_lf(terminators),
    }
}

/// Reads one line terminator, or an array of at least one. An empty array is `BadDialect`.
#[derive(Drop)]
pub struct Terminators;

impl Reader for Terminators {
    type Output = LineTerminators;

    ghost reads = { λ _. terminators };

    #[tactic(auto, using(crate::proofs::ReadLemmas::fails_over))]
    fn read(&self, part: &Part) -> Result<LineTerminators, Refusal> {
        match part.value {
            Value::Array(items) => {
                let found = each(part, &Terminator, items.as_slice())?;
                if found.is_empty() {
                    return Err(part.refused(MetaCode::BadDialect));
                }
                Ok(joined(found.as_slice()))
            }
            Value::String(_) => Terminator.read(part),
            _ => Err(part.wrong()),
        }
    }
}

/// Returns the number of header rows. If `headerRowCount` is given, it decides alone.
fn header_rows(header: bool, count: Option<u8>) -> u8
    ensures { result ≡ header_rows header count }
{
    match count {
        Some(count) => count,
        None if header => 1,
        None => 0,
    }
}

/// Returns what is stripped. If `trim` is missing, `skipInitialSpace` strips the start.
fn trim_of(trim: Option<Trim>, skip_initial_space: bool) -> Trim
    ensures { result ≡ trim_of trim skip_initial_space }
{
    match trim {
        Some(trim) => trim,
        None if skip_initial_space => Trim::Start,
        None => Trim::No,
    }
}

fn skips_spaces(trim: Option<Trim>, skip_initial_space: bool) -> bool
    ensures { result ≡ skips_spaces trim skip_initial_space }
{
    trim.is_none() && skip_initial_space
}

/// Whether the delimiter equals the quote, or one of them is a backslash that is used as escape.
fn clashes(dialect: &Dialect) -> bool
    ensures { result ≡ clashes all_symbols dialect.now.delimiter dialect.now.quote_char dialect.now.double_quote }
{
    match dialect.quote_char {
        Some(quote) => quote == dialect.delimiter
            || !dialect.double_quote && (quote == '\\' || dialect.delimiter == '\\'),
        None => !dialect.double_quote && dialect.delimiter == '\\',
    }
}

/// What separates cells, and what encloses quoted cells.
#[derive(Drop)]
struct CellSymbols {
    /// `delimiter`: the character between two cells.
    delimiter: char,
    /// `quoteChar`: the character around quoted cells. If there is none, no cell is quoted.
    quote_char: Option<char>,
    /// `doubleQuote`: whether a quote in a quoted cell is doubled.
    double_quote: bool,
}

#[tactic(auto, using(crate::proofs::ReadLemmas::fails_first), unfolding(crate::specs::Dialect::cell_symbols))]
fn cell_symbols(part: &Part) -> Result<CellSymbols, Refusal>
    ensures { Reads result (cell_symbols (text_of part.now.at) (view part.now.value.now)) }
{
    let delimiter = part.property(
        &Mark {
            several: MetaCode::NotSupported,
        },
        ',',
        "delimiter",
    )?;
    let quote = OrNull {
        reader: Mark {
            several: MetaCode::BadProperty,
        },
    };
    let quote_char = part.property(&quote, Some('"'), "quoteChar")?;
    let double_quote = part.property(&Truth, true, "doubleQuote")?;
    Ok(CellSymbols {
        delimiter,
        quote_char,
        double_quote,
    })
}

/// The number of header rows, and the rows and columns that are skipped.
#[derive(Drop)]
struct HeaderAndSkips {
    /// `header` and `headerRowCount`: the number of header rows.
    header_row_count: u8,
    /// `skipRows`: the number of rows that are skipped at the start.
    skip_rows: u64,
    /// `skipColumns`: the number of columns that are skipped at the start.
    skip_columns: u32,
    /// `skipBlankRows`: whether rows with only empty cells are skipped.
    skip_blank_rows: bool,
}

#[tactic(auto, using(crate::proofs::ReadLemmas::fails_first), unfolding(crate::specs::Dialect::header_and_skips))]
fn header_and_skips(part: &Part) -> Result<HeaderAndSkips, Refusal>
    ensures { Reads result (header_and_skips (text_of part.now.at) (view part.now.value.now)) }
{
    let header = part.property(&Truth, true, "header")?;
    let count = part.optional(
        &WholeU8 {
            most: MAX_HEADER_ROWS,
        },
        "headerRowCount",
    )?;
    let skip_rows = part.property(&AnyWhole, 0, "skipRows")?;
    let skip_columns = part.property(
        &WholeU32 {
            most: MAX_SKIPPED_COLUMNS,
        },
        0,
        "skipColumns",
    )?;
    let skip_blank_rows = part.property(&Truth, false, "skipBlankRows")?;
    Ok(HeaderAndSkips {
        header_row_count: header_rows(header, count),
        skip_rows,
        skip_columns,
        skip_blank_rows,
    })
}

#[tactic(auto, using(crate::proofs::ReadLemmas::fails_first), unfolding(crate::specs::Dialect::dialect_parts))]
fn dialect_parts(part: &Part) -> Result<Dialect, Refusal>
    ensures { Reads result (dialect_parts (text_of part.now.at) (view part.now.value.now)) }
{
    let symbols = cell_symbols(part)?;
    let prefix = Text::copied(part.alloc, "#")?;
    let comment_prefix = part.property(
        &OrNull {
            reader: CommentPrefix,
        },
        Some(prefix),
        "commentPrefix",
    )?;
    let skips = header_and_skips(part)?;
    let skip_initial_space = part.property(&Truth, false, "skipInitialSpace")?;
    let trim = part.optional(&TrimReader, "trim")?;
    let both = LineTerminators {
        crlf: true,
        lf: true,
    };
    let line_terminators = part.property(&Terminators, both, "lineTerminators")?;
    part.property(&Encoding, (), "encoding")?;
    let delimiter = symbols.delimiter;
    Ok(Dialect {
        delimiter,
        quote_char: symbols.quote_char,
        double_quote: symbols.double_quote,
        comment_prefix,
        header_row_count: skips.header_row_count,
        skip_rows: skips.skip_rows,
        skip_columns: skips.skip_columns,
        skip_blank_rows: skips.skip_blank_rows,
        skip_initial_space: skips_spaces(trim, skip_initial_space),
        trim: trim_of(trim, skip_initial_space),
        line_terminators,
    })
}

#[tactic(auto, using(crate::proofs::ReadLemmas::fails_first), unfolding(crate::specs::Dialect::dialect_parts))]
fn lawful_dialect(part: &Part) -> Result<Dialect, Refusal>
    ensures { Reads result (lawful_dialect (text_of part.now.at) (view part.now.value.now)) }
{
    let dialect = dialect_parts(part)?;
    if clashes(&dialect) {
        return Err(part.refused(MetaCode::BadDialect));
    }
    Ok(dialect)
}

/// The warnings on a dialect of the table of this number, 0 for the group's; its annotations give nothing. A fault that stands in
/// them, or `Memory`.
fn dialect_warnings(context: &Context, table: u32, part: &Part) -> Result<Seq<Fault>, Refusal>
    ensures { Reads result (unlisted context.now.base context.now.language (dialect_names ++ []) (place_of table 0)
        (text_of part.now.at) (view part.now.value.now)) }
{
    let place = Place {
        table,
        row: 0,
        column: 0,
    };
    warnings_at(context, &DIALECT, &[], place, part)
}

#[tactic(auto, using(crate::proofs::ReadLemmas::fails_first), unfolding(crate::specs::Dialect::dialect_of))]
fn dialect_of(context: &Context, table: u32, part: &Part) -> Result<DialectFound, Refusal>
    ensures { Reads result (dialect_of context.now table (text_of part.now.at) (view part.now.value.now)) }
{
    part.optional(
        &IdReader {
            base: &context.base,
        },
        "@id",
    )?;
    part.optional(&Fixed { text: "Dialect" }, "@type")?;
    let dialect = lawful_dialect(part)?;
    let warnings = dialect_warnings(context, table, part)?;
    Ok(DialectFound { dialect, warnings })
}

/// Reads a dialect. The URL of a dialect is `NotSupported`. A dialect in which symbols clash is `BadDialect` at the
/// object. Each wrong property is a fault of its own.
#[derive(Drop)]
pub struct DialectReader<'a> {
    /// The document's context.
    pub context: &'a Context,
    /// The number of its table, or 0 for the dialect of the group.
    pub table: u32,
}

impl<'a> Reader for DialectReader<'a> {
    ghost use Rattle.csvw_meta_dialect.specs.Dialect.{dialect};

    type Output = DialectFound;

    ghost reads = { λ r. dialect r.context.now r.table };

    fn read(&self, part: &Part) -> Result<DialectFound, Refusal> {
        match part.value {
            Value::Object(_) => dialect_of(self.context, self.table, part),
            Value::String(_) => Err(part.refused(MetaCode::NotSupported)),
            _ => Err(part.wrong()),
        }
    }
}
