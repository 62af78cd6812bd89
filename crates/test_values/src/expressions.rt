//! Texts under regular expressions (Model for Tabular Data and Metadata on the Web, section 6.4.6). The cases follow the
//! syntax of the Rust crate regex.
use crate::datatypes::{PLAIN, Pattern, Row, row_holds};
use csvw_datatype::{RegularExpression, Simple, TextType};
use csvw_text::Text;
use std::alloc::{AllocError, Global};
use std::test::Fail;

/// A base, an expression, and texts with their lexical forms or codes.
type Case = (Simple, &'static str, &'static str);

static DESCRIBED: [Case; 41] = [
    // the whole text
    (
        Simple::Text,
        "[0-9]{3}",
        "123;000;1234=>BadText;12=>BadText;=>BadText;a123=>BadText;１２３=>BadText",
    ),
    (Simple::Text, "", ";a=>BadText; =>BadText"),
    (
        Simple::Text,
        "a|ab",
        "a;ab;b=>BadText;aab=>BadText;abb=>BadText",
    ),
    (Simple::Text, "ab|", "ab;;a=>BadText;b=>BadText"),
    (Simple::Text, "^a$", "a;aa=>BadText;a\n=>BadText"),
    (Simple::Text, "(?m)^a$", "a;a\nb=>BadText;b\na=>BadText"),
    (
        Simple::Text,
        "(?x) a b # of letters",
        "ab;a b=>BadText;abc=>BadText",
    ),
    // repetitions and groups
    (
        Simple::Text,
        "(ab)*c?",
        ";ab;ababc;c;abcab=>BadText;aba=>BadText",
    ),
    (Simple::Text, "a{2,}?b", "aab;aaaab;ab=>BadText"),
    (
        Simple::Text,
        "(?:a+b){2,3}",
        "abab;aababab;ab=>BadText;abababab=>BadText",
    ),
    (
        Simple::Text,
        "(?P<year>[0-9]{4})-(?:0[1-9]|1[0-2])",
        "2024-02;2024-12;2024-13=>BadText;2024-2=>BadText",
    ),
    (
        Simple::Text,
        "(a*)*b",
        "b;aaaaaaaaaaaaaaaaaaaaaaaab;aaaaaaaaaaaaaaaaaaaaaaaa=>BadText",
    ),
    // classes
    (
        Simple::Text,
        "[^a-c]{2,3}",
        "dé;xyz;𝄞\n;ab=>BadText;x=>BadText;wxyz=>BadText",
    ),
    (Simple::Text, "[a-z&&[^aeiou]]+", "xyz;abc=>BadText"),
    (Simple::Text, "[a-z--[aeiou]]+", "xyz;abc=>BadText"),
    (Simple::Text, "[a-z-[aeiou]]", "b;a;-;[=>BadText;A=>BadText"),
    (Simple::Text, r"a\/b", "a/b"),
    (Simple::Text, r"[\]\-\\]+", r"]-\;a=>BadText"),
    (
        Simple::Text,
        r"\d+",
        "7;١٢;１２;=>BadText;1a=>BadText;²=>BadText",
    ),
    (Simple::Text, r"\w+", "aé_9;中;a-b=>BadText;a b=>BadText"),
    (
        Simple::Text,
        r"\s\S",
        " a;\u{A0}b;\u{3000}é;  =>BadText;ab=>BadText",
    ),
    (
        Simple::Text,
        r"\p{Lu}\P{Lu}?",
        "É;Éa;a=>BadText;ÉÉ=>BadText",
    ),
    (Simple::Text, r"\p{Greek}+", "αΩ;a=>BadText"),
    (Simple::Text, "[[:alpha:]]+", "aZ;é=>BadText;1=>BadText"),
    (
        Simple::Text,
        ".",
        "x;é;𝄞;\r;\n=>BadText;xy=>BadText;=>BadText",
    ),
    (Simple::Text, "(?s).", "\n;x;xy=>BadText"),
    // case, escapes and edges of words
    (Simple::Text, "(?i)ék", "ék;ÉK;É\u{212A};ex=>BadText"),
    (Simple::Text, r"\x41\u{42}\.\t", "AB.\t;ABx\t=>BadText"),
    (Simple::Text, r"a\b.\bb", "a b;a-b;axb=>BadText"),
    // the other types
    (
        Simple::Uri,
        "https?://[^/]+/.*",
        "http://a/;https://a.b/c d;ftp://a/=>BadText;http:///=>BadText",
    ),
    (Simple::Other(TextType::Any), "a +b", "a b;a  b;ab=>BadText"),
    (Simple::Other(TextType::Token), "a b", "a b;ab=>BadText"),
    (
        Simple::Other(TextType::Xml),
        "<b>.*</b>",
        "<b>a</b>;<b>a=>BadText",
    ),
    (Simple::Other(TextType::Html), "<br>", "<br>;<b>=>BadText"),
    (
        Simple::Other(TextType::Json),
        r"\[.*\]",
        "[1, 2];{}=>BadText",
    ),
    (
        Simple::Other(TextType::Language),
        "[a-z]{2}",
        "en;en-GB=>BadText;e1=>BadText;EN=>BadText",
    ),
    (
        Simple::Other(TextType::Language),
        ".*",
        "en-GB;en_GB=>BadText",
    ),
    (
        Simple::Other(TextType::Name),
        "[^:]+",
        "a-1;a:b=>BadText;1a=>BadText",
    ),
    (
        Simple::Other(TextType::NameToken),
        "[0-9].*",
        "1a;a1=>BadText;1 a=>BadText",
    ),
    // types without regular expressions
    (Simple::Day, "[0-9]+", "2024=>BadDatatype"),
    (Simple::Other(TextType::Time), ".*", "15:02:00=>BadDatatype"),
];

#[test]
fn expressions_describe_texts(rt: HostRuntime) -> Result<(), Fail> {
    for (simple, expression, texts) in &DESCRIBED {
        let row = Row {
            simple: *simple,
            pattern: Pattern::Expression(expression),
            texts,
            ..PLAIN
        };
        row_holds(&rt, rt.alloc(), &row)?;
    }
    Ok(())
}

/// Texts that are no expression.
static NO_EXPRESSIONS: [&str; 28] = [
    "(",
    ")",
    "(?:a",
    "[",
    "[]",
    "[a",
    "[z-a]",
    "*",
    "+a",
    "a|?",
    "a{2",
    "a{2,1}",
    "a{x}",
    "a{,2}",
    r"\",
    r"\y",
    r"\i",
    r"\c",
    r"(a)\1",
    "(?=a)",
    "(?!a)",
    "(?<=a)",
    "(?z)",
    "(?P<n>a)(?P<n>b)",
    r"\p{Nothing}",
    r"\p{IsBasicLatin}",
    r"\u{110000}",
    r"\xZ",
];

/// Returns whether a text is an expression.
fn is_one(alloc: Global, text: &str) -> Result<bool, AllocError> {
    Ok(RegularExpression::of(alloc, Text::copied(alloc, text)?)?.is_some())
}

#[test]
fn texts_that_are_no_expression(rt: HostRuntime) -> Result<(), Fail> {
    for text in &NO_EXPRESSIONS {
        assert!(rt; !is_one(rt.alloc(), text)?, "{text}");
    }
    Ok(())
}

/// Returns an expression whose groups are nested this deep.
fn nested(alloc: Global, depth: u32) -> Result<String, AllocError> {
    let mut text = String::new(alloc);
    for _ in 0..depth {
        text.push('(')?;
    }
    for _ in 0..depth {
        text.push(')')?;
    }
    Ok(text)
}

#[test]
fn expressions_have_limits(rt: HostRuntime) -> Result<(), Fail> {
    let alloc = rt.alloc();
    assert!(rt; is_one(alloc, nested(alloc, 250)?.as_str())?);
    assert!(rt; !is_one(alloc, nested(alloc, 251)?.as_str())?);
    assert!(rt; is_one(alloc, r"\w{1000}{1000}").is_err());
    Ok(())
}
