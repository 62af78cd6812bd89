//! The built-in datatypes and their names.
ghost use Rattle.std.specs.Prelude.{◌≡◌, MatchOption};
ghost use Rattle.csvw_datatype_core.specs.declared.date_part.DatePart.{DatePart as Part};
ghost use Rattle.csvw_binary.specs.declared.binary.BinaryForm.{BinaryForm as Form};
ghost use Rattle.csvw_duration.specs.declared.value.DurationKind.{DurationKind as Kind};
ghost use Rattle.csvw_datatype.specs.Names.{date_time_name, date_time_iri, part_name, part_iri, binary_name, binary_iri, IsBinaryNamed, duration_name, duration_iri, IsOfNoFamily, name_of, IsNamed, width_name, floating_name, IsFloatingNamed, text_type_name, IsTextTypeNamed, text_type_iri, IsNoneNamed};
ghost use Rattle.csvw_datatype.specs.Strings.{has_length, is_ordered, takes_expression};

use csvw_binary::BinaryForm;
use csvw_datatype_core::{DatePart, Zone};
use csvw_duration::DurationKind;

/// A derived integer type (XML Schema 1.1 part 2, sections 3.4.14 to 3.4.25).
#[derive(Clone, Copy, Debug, PartialEq, Eq)]
pub enum Width {
    /// `long`: from -2^63 to 2^63 - 1.
    Long,
    /// `int`: from -2^31 to 2^31 - 1.
    Int,
    /// `short`: from -2^15 to 2^15 - 1.
    Short,
    /// `byte`: from -2^7 to 2^7 - 1.
    Byte,
    /// `unsignedLong`: from 0 to 2^64 - 1.
    UnsignedLong,
    /// `unsignedInt`: from 0 to 2^32 - 1.
    UnsignedInt,
    /// `unsignedShort`: from 0 to 2^16 - 1.
    UnsignedShort,
    /// `unsignedByte`: from 0 to 2^8 - 1.
    UnsignedByte,
    /// `nonNegativeInteger`: from 0.
    NonNegativeInteger,
    /// `positiveInteger`: from 1.
    PositiveInteger,
    /// `nonPositiveInteger`: up to 0.
    NonPositiveInteger,
    /// `negativeInteger`: up to -1.
    NegativeInteger,
}

/// A type of numbers with an exponent (XML Schema 1.1 part 2, sections 3.3.4 and 3.3.5).
#[derive(Clone, Copy, Debug, PartialEq, Eq)]
pub enum Floating {
    /// `double`, which is `number`, too.
    Double,
    /// `float`.
    Float,
}

/// A type besides `string` and `anyURI` whose values are kept as texts (Metadata Vocabulary for Tabular Data, section
/// 5.11.1), but for days and whole seconds without a zone. Two of its values are the same if their texts are.
#[derive(Clone, Copy, Debug, PartialEq, Eq)]
pub enum TextType {
    /// `anyAtomicType`: the type above all others.
    Any,
    /// `normalizedString`: a string without line breaks and tabs.
    Normalized,
    /// `token`: a string without line breaks, tabs and spaces that repeat.
    Token,
    /// `language`: the tag of a language, as `en-GB`.
    Language,
    /// `Name`: a name of XML, as `iso:code`.
    Name,
    /// `NMTOKEN`: characters of names of XML, as `2-a`.
    NameToken,
    /// `QName`: a name of XML that may have a prefix, as `iso:code`.
    QualifiedName,
    /// `xml`: a part of an XML document.
    Xml,
    /// `html`: a part of an HTML document.
    Html,
    /// `json`: a JSON text.
    Json,
    /// `time`: a time of day.
    Time,
    /// `date` with zones.
    Date,
    /// `dateTime` with zones and parts of seconds, or `dateTimeStamp`, which has to have a zone.
    DateTime(Zone),
    /// `gYear` and the like: a part of a date.
    Part(DatePart),
    /// `hexBinary` or `base64Binary`: octets.
    Binary(BinaryForm),
    /// `duration`, `yearMonthDuration` or `dayTimeDuration`.
    Duration(DurationKind),
}

/// A built-in datatype (Metadata Vocabulary for Tabular Data, section 5.11.1).
#[derive(Clone, Copy, Debug, PartialEq, Eq)]
pub enum Simple {
    /// `string`.
    Text,
    /// `boolean`.
    Truth,
    /// `integer`.
    Whole,
    /// `decimal`.
    Decimal,
    /// `date`.
    Day,
    /// `anyURI`.
    Uri,
    /// A type derived from `integer`.
    Derived(Width),
    /// `dateTime`.
    Moment,
    /// A type of texts besides `string` and `anyURI`.
    Other(TextType),
    /// A type of numbers with an exponent.
    Floating(Floating),
}

impl Width {
    fn name(self) -> &'static str
        ensures { result.now ≡ width_name self }
    {
        match self {
            Width::Long => "long",
            Width::Int => "int",
            Width::Short => "short",
            Width::Byte => "byte",
            Width::UnsignedLong => "unsignedLong",
            Width::UnsignedInt => "unsignedInt",
            Width::UnsignedShort => "unsignedShort",
            Width::UnsignedByte => "unsignedByte",
            Width::NonNegativeInteger => "nonNegativeInteger",
            Width::PositiveInteger => "positiveInteger",
            Width::NonPositiveInteger => "nonPositiveInteger",
            Width::NegativeInteger => "negativeInteger",
        }
    }

    fn of(name: &str) -> Option<Width>
        ensures { MatchOption result ((w : Width) → ¬ (name.now ≡ width_name w)) (λ w. name.now ≡ width_name w) }
    {
        match name {
            "long" => Some(Width::Long),
            "int" => Some(Width::Int),
            "short" => Some(Width::Short),
            "byte" => Some(Width::Byte),
            "unsignedLong" => Some(Width::UnsignedLong),
            "unsignedInt" => Some(Width::UnsignedInt),
            "unsignedShort" => Some(Width::UnsignedShort),
            "unsignedByte" => Some(Width::UnsignedByte),
            "nonNegativeInteger" => Some(Width::NonNegativeInteger),
            "positiveInteger" => Some(Width::PositiveInteger),
            "nonPositiveInteger" => Some(Width::NonPositiveInteger),
            "negativeInteger" => Some(Width::NegativeInteger),
            _ => None,
        }
    }
}

impl Floating {
    fn name(self) -> &'static str
        ensures { result.now ≡ floating_name self }
    {
        match self {
            Floating::Double => "double",
            Floating::Float => "float",
        }
    }

    fn of(name: &str) -> Option<Floating>
        ensures { MatchOption result ((t : Floating) → ¬ IsFloatingNamed name.now t) (IsFloatingNamed name.now) }
    {
        match name {
            "double" | "number" => Some(Floating::Double),
            "float" => Some(Floating::Float),
            _ => None,
        }
    }
}

/// Returns the name of the type of a part of a date.
fn part_name(part: DatePart) -> &'static str
    ensures { result.now ≡ part_name part }
{
    match part {
        DatePart::Year => "gYear",
        DatePart::YearMonth => "gYearMonth",
        DatePart::Month => "gMonth",
        DatePart::MonthDay => "gMonthDay",
        DatePart::Day => "gDay",
    }
}

/// Returns the part of a date whose type has a name.
fn part_named(name: &str) -> Option<DatePart>
    ensures { MatchOption result ((p : Part) → ¬ (name.now ≡ part_name p)) (λ p. name.now ≡ part_name p) }
{
    match name {
        "gYear" => Some(DatePart::Year),
        "gYearMonth" => Some(DatePart::YearMonth),
        "gMonth" => Some(DatePart::Month),
        "gMonthDay" => Some(DatePart::MonthDay),
        "gDay" => Some(DatePart::Day),
        _ => None,
    }
}

/// Returns the IRI of the type of a part of a date.
fn part_iri(part: DatePart) -> &'static str
    ensures { result.now ≡ part_iri part }
{
    match part {
        DatePart::Year => "http://www.w3.org/2001/XMLSchema#gYear",
        DatePart::YearMonth => "http://www.w3.org/2001/XMLSchema#gYearMonth",
        DatePart::Month => "http://www.w3.org/2001/XMLSchema#gMonth",
        DatePart::MonthDay => "http://www.w3.org/2001/XMLSchema#gMonthDay",
        DatePart::Day => "http://www.w3.org/2001/XMLSchema#gDay",
    }
}

/// Returns the name of the type of moments whose texts may, or have to, have a zone.
fn date_time_name(zone: Zone) -> &'static str
    ensures { result.now ≡ date_time_name zone }
{
    match zone {
        Zone::Optional => "dateTime",
        Zone::Required => "dateTimeStamp",
    }
}

/// Returns the IRI of the type of moments whose texts may, or have to, have a zone.
fn date_time_iri(zone: Zone) -> &'static str
    ensures { result.now ≡ date_time_iri zone }
{
    match zone {
        Zone::Optional => "http://www.w3.org/2001/XMLSchema#dateTime",
        Zone::Required => "http://www.w3.org/2001/XMLSchema#dateTimeStamp",
    }
}

/// Returns the name of the type of octets in a form.
fn binary_name(form: BinaryForm) -> &'static str
    ensures { result.now ≡ binary_name form }
{
    match form {
        BinaryForm::Hex => "hexBinary",
        BinaryForm::Base64 => "base64Binary",
    }
}

/// Returns the form of the type of octets that has a name. `binary` is another name of `base64Binary`.
fn binary_named(name: &str) -> Option<BinaryForm>
    ensures { MatchOption result ((f : Form) → ¬ IsBinaryNamed name.now f) (IsBinaryNamed name.now) }
{
    match name {
        "hexBinary" => Some(BinaryForm::Hex),
        "base64Binary" | "binary" => Some(BinaryForm::Base64),
        _ => None,
    }
}

/// Returns the IRI of the type of octets in a form.
fn binary_iri(form: BinaryForm) -> &'static str
    ensures { result.now ≡ binary_iri form }
{
    match form {
        BinaryForm::Hex => "http://www.w3.org/2001/XMLSchema#hexBinary",
        BinaryForm::Base64 => "http://www.w3.org/2001/XMLSchema#base64Binary",
    }
}

/// Returns the name of the type of durations of a kind.
fn duration_name(kind: DurationKind) -> &'static str
    ensures { result.now ≡ duration_name kind }
{
    match kind {
        DurationKind::Any => "duration",
        DurationKind::YearMonth => "yearMonthDuration",
        DurationKind::DayTime => "dayTimeDuration",
    }
}

/// Returns the kind of the type of durations that has a name.
fn duration_named(name: &str) -> Option<DurationKind>
    ensures { MatchOption result ((k : Kind) → ¬ (name.now ≡ duration_name k)) (λ k. name.now ≡ duration_name k) }
{
    match name {
        "duration" => Some(DurationKind::Any),
        "yearMonthDuration" => Some(DurationKind::YearMonth),
        "dayTimeDuration" => Some(DurationKind::DayTime),
        _ => None,
    }
}

/// Returns the IRI of the type of durations of a kind.
fn duration_iri(kind: DurationKind) -> &'static str
    ensures { result.now ≡ duration_iri kind }
{
    match kind {
        DurationKind::Any => "http://www.w3.org/2001/XMLSchema#duration",
        DurationKind::YearMonth => "http://www.w3.org/2001/XMLSchema#yearMonthDuration",
        DurationKind::DayTime => "http://www.w3.org/2001/XMLSchema#dayTimeDuration",
    }
}

/// Returns the type of octets, of durations or of parts of dates that has a name.
fn of_family(name: &str) -> Option<TextType>
    ensures { MatchOption result (IsOfNoFamily name.now) (IsTextTypeNamed name.now) }
{
    if let Some(form) = binary_named(name) {
        return Some(TextType::Binary(form));
    }
    match duration_named(name) {
        Some(kind) => Some(TextType::Duration(kind)),
        None => part_named(name).map(TextType::Part),
    }
}

impl TextType {
    fn name(self) -> &'static str
        ensures { result.now ≡ text_type_name self }
    {
        match self {
            TextType::Any => "anyAtomicType",
            TextType::Normalized => "normalizedString",
            TextType::Token => "token",
            TextType::Language => "language",
            TextType::Name => "Name",
            TextType::NameToken => "NMTOKEN",
            TextType::QualifiedName => "QName",
            TextType::Time => "time",
            TextType::Date => "date",
            TextType::DateTime(zone) => date_time_name(zone),
            TextType::Part(part) => part_name(part),
            TextType::Binary(form) => binary_name(form),
            TextType::Duration(kind) => duration_name(kind),
            TextType::Xml => "xml",
            TextType::Html => "html",
            TextType::Json => "json",
        }
    }

    fn of(name: &str) -> Option<TextType>
        ensures { MatchOption result ((t : TextType) → ¬ IsTextTypeNamed name.now t) (IsTextTypeNamed name.now) }
    {
        match name {
            "any" | "anyAtomicType" => Some(TextType::Any),
            "normalizedString" => Some(TextType::Normalized),
            "token" => Some(TextType::Token),
            "language" => Some(TextType::Language),
            "Name" => Some(TextType::Name),
            "NMTOKEN" => Some(TextType::NameToken),
            "QName" => Some(TextType::QualifiedName),
            "xml" => Some(TextType::Xml),
            "html" => Some(TextType::Html),
            "json" => Some(TextType::Json),
            "time" => Some(TextType::Time),
            "dateTimeStamp" => Some(TextType::DateTime(Zone::Required)),
            _ => of_family(name),
        }
    }

    /// Returns whether the values of the type have an order, and so may be bounds: times, dates, moments, parts of dates and durations
    /// (Metadata Vocabulary for Tabular Data, section 5.11.2).
    pub fn is_ordered(self) -> bool
        ensures { result ≡ is_ordered self }
    {
        matches!(
            self,
            TextType::Time
                | TextType::Date
                | TextType::DateTime(_)
                | TextType::Part(_)
                | TextType::Duration(_)
        )
    }

    /// Returns the IRI of the type (Metadata Vocabulary for Tabular Data, section 5.11.1).
    pub fn iri(self) -> &'static str
        ensures { result.now ≡ text_type_iri self }
    {
        match self {
            TextType::Any => "http://www.w3.org/2001/XMLSchema#anyAtomicType",
            TextType::Normalized => "http://www.w3.org/2001/XMLSchema#normalizedString",
            TextType::Token => "http://www.w3.org/2001/XMLSchema#token",
            TextType::Language => "http://www.w3.org/2001/XMLSchema#language",
            TextType::Name => "http://www.w3.org/2001/XMLSchema#Name",
            TextType::NameToken => "http://www.w3.org/2001/XMLSchema#NMTOKEN",
            TextType::QualifiedName => "http://www.w3.org/2001/XMLSchema#QName",
            TextType::Time => "http://www.w3.org/2001/XMLSchema#time",
            TextType::Date => "http://www.w3.org/2001/XMLSchema#date",
            TextType::DateTime(zone) => date_time_iri(zone),
            TextType::Part(part) => part_iri(part),
            TextType::Binary(form) => binary_iri(form),
            TextType::Duration(kind) => duration_iri(kind),
            TextType::Xml => "http://www.w3.org/1999/02/22-rdf-syntax-ns#XMLLiteral",
            TextType::Html => "http://www.w3.org/1999/02/22-rdf-syntax-ns#HTML",
            TextType::Json => "http://www.w3.org/ns/csvw#JSON",
        }
    }
}

/// Returns the type of a name, if it is one of those that are derived from others, or have exponents, or are texts.
fn derived_or_other(name: &str) -> Option<Simple>
    ensures { MatchOption result (IsNoneNamed name.now) (IsNamed name.now) }
{
    if let Some(width) = Width::of(name) {
        return Some(Simple::Derived(width));
    }
    match Floating::of(name) {
        Some(floating) => Some(Simple::Floating(floating)),
        None => TextType::of(name).map(Simple::Other),
    }
}

impl Simple {
    /// Returns the name of the type in a metadata document.
    pub fn name(self) -> &'static str
        ensures { result.now ≡ name_of self }
    {
        match self {
            Simple::Text => "string",
            Simple::Truth => "boolean",
            Simple::Whole => "integer",
            Simple::Decimal => "decimal",
            Simple::Day => "date",
            Simple::Uri => "anyURI",
            Simple::Derived(width) => width.name(),
            Simple::Moment => "dateTime",
            Simple::Other(text_type) => text_type.name(),
            Simple::Floating(floating) => floating.name(),
        }
    }

    /// Returns whether the type is string, or derived from it, or of octets, so that lengths apply to its values (Metadata
    /// Vocabulary for Tabular Data, section 5.11.2).
    pub fn has_length(self) -> bool
        ensures { result ≡ has_length self }
    {
        match self {
            Simple::Text => true,
            Simple::Other(text_type) => {
                !matches!(
                    text_type,
                    TextType::Any
                        | TextType::QualifiedName
                        | TextType::Time
                        | TextType::Date
                        | TextType::DateTime(_)
                        | TextType::Part(_)
                        | TextType::Duration(_)
                )
            }
            _ => false,
        }
    }

    /// Returns whether the format may be a regular expression: the values are texts, and neither dates nor times (Model for
    /// Tabular Data, section 6.4.6).
    pub fn takes_expression(self) -> bool
        ensures { result ≡ takes_expression self }
    {
        match self {
            Simple::Text | Simple::Uri => true,
            Simple::Other(text_type) => {
                !matches!(
                    text_type,
                    TextType::Time | TextType::Date | TextType::DateTime(_) | TextType::Part(_)
                )
            }
            Simple::Truth
            | Simple::Whole
            | Simple::Decimal
            | Simple::Day
            | Simple::Derived(_)
            | Simple::Moment
            | Simple::Floating(_) => false,
        }
    }

    /// Returns the type of a name, or `None` if no type has it. `date` and `dateTime` are the types without zones. `datetime` is another name of
    /// `dateTime`, `any` of `anyAtomicType`, and `number` of `double` (Metadata Vocabulary for Tabular Data, section 5.11.1).
    pub fn of(name: &str) -> Option<Simple>
        ensures { MatchOption result ((s : Simple) → ¬ IsNamed name.now s) (IsNamed name.now) }
    {
        match name {
            "string" => Some(Simple::Text),
            "boolean" => Some(Simple::Truth),
            "integer" => Some(Simple::Whole),
            "decimal" => Some(Simple::Decimal),
            "date" => Some(Simple::Day),
            "anyURI" => Some(Simple::Uri),
            "dateTime" | "datetime" => Some(Simple::Moment),
            _ => derived_or_other(name),
        }
    }
}
