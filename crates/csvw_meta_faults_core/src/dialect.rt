//! The faults of dialects (Metadata Vocabulary for Tabular Data, section 5.9).
ghost use Rattle.std.specs.Prelude.{◌≡◌, ◌++◌, ℕ, OnOk, IfOk, Option, Some, codes, length, ◌==◌, if◌then◌else◌};
ghost use Rattle.serde_json.specs.View.{view, items_view};
ghost use Rattle.csvw_meta_core.specs.Pointer.{text_of, below};
ghost use Rattle.csvw_meta_core.specs.Read.{property, or_null, over, each, fine, faulty};
ghost use Rattle.csvw_meta_core.specs.Rules.{could_read};
ghost use Rattle.csvw_meta_dialect.specs.Dialect.{mark, terminator, neither, joined, is_quote, clashes, symbols};
ghost use Rattle.csvw_meta_dialect.specs.Dialect.{cell_symbols, header_and_skips, dialect_parts, lawful_dialect, dialect_of, dialect};
ghost use Rattle.csvw_meta_faults_core.specs.Marks.{mark_has_one, mark_stands_in, comment_prefix_has_one, trim_has_one, encoding_has_one, terminator_has_one};

use crate::annotations::find_unlisted;
use crate::each::find_each;
use crate::finder::{Finder, add_fault, add_wrong};
use crate::hiding::Hiding;
use crate::property::{find_optional, find_property};
use crate::sole::{Sole, find_sole};
use crate::stand_in::{StandIn, value_or};
use csvw_meta_core::{
    AnyWhole, Context, Fixed, IdReader, MetaCode, MetaFault, OrNull, Part, Truth, WholeU8, WholeU32,
};
use csvw_meta_dialect::{
    CommentPrefix, DialectReader, Encoding, MAX_HEADER_ROWS, MAX_SKIPPED_COLUMNS, Mark, Terminator,
    Terminators, TrimReader,
};
use serde_json::Value;
use std::alloc::AllocError;

impl Sole for Mark {
    ghost has_one = { λ r. mark_has_one r.several };
}

impl Finder for Mark {
    fn find(&self, part: &Part, faults: &mut Vec<MetaFault>) -> Result<(), AllocError> {
        find_sole(part, self, faults)
    }
}

impl StandIn for Mark {
    ghost dummy = { λ _. 0 };

    fn stand_in(&self) -> char {
        '\0'
    }

    ghost stands_in = { λ r. mark_stands_in r.several };
}

impl Sole for CommentPrefix {
    ghost has_one = { λ _. comment_prefix_has_one };
}

impl Finder for CommentPrefix {
    fn find(&self, part: &Part, faults: &mut Vec<MetaFault>) -> Result<(), AllocError> {
        find_sole(part, self, faults)
    }
}

impl Sole for TrimReader {
    ghost has_one = { λ _. trim_has_one };
}

impl Finder for TrimReader {
    fn find(&self, part: &Part, faults: &mut Vec<MetaFault>) -> Result<(), AllocError> {
        find_sole(part, self, faults)
    }
}

impl Sole for Encoding {
    ghost has_one = { λ _. encoding_has_one };
}

impl Finder for Encoding {
    fn find(&self, part: &Part, faults: &mut Vec<MetaFault>) -> Result<(), AllocError> {
        find_sole(part, self, faults)
    }
}

impl Sole for Terminator {
    ghost has_one = { λ _. terminator_has_one };
}

impl Finder for Terminator {
    fn find(&self, part: &Part, faults: &mut Vec<MetaFault>) -> Result<(), AllocError> {
        find_sole(part, self, faults)
    }
}

impl Finder for Terminators {
    fn find(&self, part: &Part, faults: &mut Vec<MetaFault>) -> Result<(), AllocError> {
        match part.value {
            Value::Array(items) => find_terminators(part, items.as_slice(), faults),
            Value::String(_) => find_sole(part, &Terminator, faults),
            _ => add_wrong(part, faults),
        }
    }
}

fn find_terminators(
    part: &Part,
    items: &[Value],
    faults: &mut Vec<MetaFault>,
) -> Result<(), AllocError>
    ensures { OnOk result (faults.new.items ≡ faults.old.items
        ++ (over neither (each terminator (text_of part.now.at) 0 (items_view items.now))
        (λ ts. if length ts == 0 then faulty MetaCode.BadDialect (text_of part.now.at) neither else fine (joined ts))).faults) }
{
    if items.is_empty() {
        return add_fault(part, MetaCode::BadDialect, faults);
    }
    find_each(part, &Terminator, items, faults)
}

// ---- the symbols of a dialect

fn delimiter(part: &Part) -> Result<char, AllocError>
    ensures { IfOk result (λ c. c
        ≡ (property (mark MetaCode.NotSupported) 44 (text_of part.now.at) (view part.now.value.now) (codes "delimiter")).value) }
{
    let mark = Mark {
        several: MetaCode::NotSupported,
    };
    value_or(part, &mark, ',', "delimiter")
}

fn quote_char(part: &Part) -> Result<Option<char>, AllocError>
    ensures { IfOk result (λ c. c
        ≡ (property (or_null (mark MetaCode.BadProperty)) (Some 34) (text_of part.now.at) (view part.now.value.now) (codes "quoteChar")).value) }
{
    let quote = OrNull {
        reader: Mark {
            several: MetaCode::BadProperty,
        },
    };
    value_or(part, &quote, Some('"'), "quoteChar")
}

/// The symbols of a dialect that could be read.
#[derive(Clone, Copy)]
struct KnownSymbols {
    /// `delimiter` could be read.
    delimiter: bool,
    /// `quoteChar` could be read.
    quote: bool,
    /// `doubleQuote` could be read.
    double: bool,
}

fn could_read_member(part: &Part, hiding: &Hiding, name: &str) -> Result<bool, AllocError>
    ensures { IfOk result (λ b. b ≡ could_read hiding.now.faults.now (below (text_of part.now.at) name.now)) }
{
    let pointer = part.member(name, part.value).at.text(part.alloc)?;
    hiding.could_read(part.alloc, pointer.as_str())
}

fn known_symbols(part: &Part, faults: &[MetaFault]) -> Result<KnownSymbols, AllocError>
    ensures { IfOk result (λ k. symbols faults.now (text_of part.now.at)
        ≡ record { delimiter = k.delimiter; quote = k.quote; double = k.double }) }
{
    let hiding = Hiding { faults };
    Ok(KnownSymbols {
        delimiter: could_read_member(part, &hiding, "delimiter")?,
        quote: could_read_member(part, &hiding, "quoteChar")?,
        double: could_read_member(part, &hiding, "doubleQuote")?,
    })
}

fn is_quote(quote: Option<char>, c: char) -> bool
    ensures { result ≡ is_quote quote c }
{
    match quote {
        None => false,
        Some(quote) => quote == c,
    }
}

/// Whether symbols that could be read clash: the delimiter equals the quote, or one of them is a backslash that escapes.
fn clashes(known: KnownSymbols, delimiter: char, quote: Option<char>, double: bool) -> bool
    ensures { result ≡ clashes (record { delimiter = known.delimiter; quote = known.quote; double = known.double }) delimiter quote double }
{
    let equal = known.delimiter && known.quote && is_quote(quote, delimiter);
    let escaping = known.quote && is_quote(quote, '\\') || known.delimiter && delimiter == '\\';
    equal || known.double && !double && escaping
}

/// Whether symbols of the dialect that the part is clash. These are the faults of its parts.
#[tactic(auto, unfolding(csvw_meta_dialect::specs::Dialect::dialect_parts, csvw_meta_dialect::specs::Dialect::cell_symbols))]
fn has_clash(part: &Part, faults: &[MetaFault]) -> Result<bool, AllocError>
    ensures { IfOk result (λ b.
        let read = (dialect_parts (text_of part.now.at) (view part.now.value.now)).value in
        b ≡ clashes (symbols faults.now (text_of part.now.at)) read.delimiter read.quote_char read.double_quote) }
{
    let known = known_symbols(part, faults)?;
    let delimiter = delimiter(part)?;
    let quote = quote_char(part)?;
    let double = value_or(part, &Truth, true, "doubleQuote")?;
    Ok(clashes(known, delimiter, quote, double))
}

// ---- the parts of a dialect

#[tactic(auto, unfolding(csvw_meta_dialect::specs::Dialect::cell_symbols))]
fn find_symbols(part: &Part, faults: &mut Vec<MetaFault>) -> Result<(), AllocError>
    ensures { OnOk result (faults.new.items ≡ faults.old.items
        ++ (cell_symbols (text_of part.now.at) (view part.now.value.now)).faults) }
{
    let delimiter = Mark {
        several: MetaCode::NotSupported,
    };
    find_property(part, &delimiter, "delimiter", faults)?;
    let quote = OrNull {
        reader: Mark {
            several: MetaCode::BadProperty,
        },
    };
    find_property(part, &quote, "quoteChar", faults)?;
    find_property(part, &Truth, "doubleQuote", faults)
}

#[tactic(auto, unfolding(csvw_meta_dialect::specs::Dialect::header_and_skips))]
fn find_header_and_skips(part: &Part, faults: &mut Vec<MetaFault>) -> Result<(), AllocError>
    ensures { OnOk result (faults.new.items ≡ faults.old.items
        ++ (header_and_skips (text_of part.now.at) (view part.now.value.now)).faults) }
{
    find_property(part, &Truth, "header", faults)?;
    let rows = WholeU8 {
        most: MAX_HEADER_ROWS,
    };
    find_optional(part, &rows, "headerRowCount", faults)?;
    find_property(part, &AnyWhole, "skipRows", faults)?;
    let columns = WholeU32 {
        most: MAX_SKIPPED_COLUMNS,
    };
    find_property(part, &columns, "skipColumns", faults)?;
    find_property(part, &Truth, "skipBlankRows", faults)
}

#[tactic(auto, unfolding(csvw_meta_dialect::specs::Dialect::dialect_parts))]
fn find_parts(part: &Part, faults: &mut Vec<MetaFault>) -> Result<(), AllocError>
    ensures { OnOk result (faults.new.items ≡ faults.old.items
        ++ (dialect_parts (text_of part.now.at) (view part.now.value.now)).faults) }
{
    find_symbols(part, faults)?;
    let prefix = OrNull {
        reader: CommentPrefix,
    };
    find_property(part, &prefix, "commentPrefix", faults)?;
    find_header_and_skips(part, faults)?;
    find_property(part, &Truth, "skipInitialSpace", faults)?;
    find_optional(part, &TrimReader, "trim", faults)?;
    find_property(part, &Terminators, "lineTerminators", faults)?;
    find_property(part, &Encoding, "encoding", faults)
}

fn find_lawful(part: &Part, faults: &mut Vec<MetaFault>) -> Result<(), AllocError>
    ensures { OnOk result (faults.new.items ≡ faults.old.items
        ++ (lawful_dialect (text_of part.now.at) (view part.now.value.now)).faults) }
{
    let mut own = Vec::new(part.alloc);
    find_parts(part, &mut own)?;
    let clash = has_clash(part, own.as_slice())?;
    faults.append(&mut own)?;
    if clash {
        return add_fault(part, MetaCode::BadDialect, faults);
    }
    Ok(())
}

#[tactic(auto, unfolding(csvw_meta_dialect::specs::Dialect::dialect_of))]
fn find_dialect_of(
    part: &Part,
    context: &Context,
    faults: &mut Vec<MetaFault>,
) -> Result<(), AllocError>
    ensures { (table : ℕ) → OnOk result (faults.new.items ≡ faults.old.items
        ++ (dialect_of context.now table (text_of part.now.at) (view part.now.value.now)).faults) }
{
    let id = IdReader {
        base: &context.base,
    };
    find_optional(part, &id, "@id", faults)?;
    find_optional(part, &Fixed { text: "Dialect" }, "@type", faults)?;
    find_lawful(part, faults)?;
    find_unlisted(part, &context.base, faults)
}

/// Adds the faults of a dialect, in the order of its properties in the definition. The table that has the dialect has no
/// effect on them. It returns `AllocError` if there is no memory for them.
pub fn find_dialect(
    part: &Part,
    context: &Context,
    faults: &mut Vec<MetaFault>,
) -> Result<(), AllocError>
    ensures { (table : ℕ) → OnOk result (faults.new.items ≡ faults.old.items
        ++ (dialect context.now table (text_of part.now.at) (view part.now.value.now)).faults) }
{
    match part.value {
        Value::Object(_) => find_dialect_of(part, context, faults),
        Value::String(_) => add_fault(part, MetaCode::NotSupported, faults),
        _ => add_wrong(part, faults),
    }
}

impl<'a> Finder for DialectReader<'a> {
    fn find(&self, part: &Part, faults: &mut Vec<MetaFault>) -> Result<(), AllocError> {
        find_dialect(part, self.context, faults)
    }
}
