//! `expand_prefix`: a text with its prefix of the CSVW context replaced.
ghost use Rattle.std.specs.Prelude.{◌≡◌, IfOk, string_bytes};
ghost use Rattle.csvw_iri.specs.Prefix.{expanded, iri_of_prefix, is_colon};
ghost use Rattle.std.specs.Prelude.{MatchOption, nat_lt, nat_eq, length, true, false, codes};
ghost use Rattle.std.specs.List.{position_or_len, before_first, after_first, starts_with};
ghost use Rattle.std.specs.Option.{option_copied};

use std::alloc::{AllocError, Global};

#[tactic(auto, unfolding(crate::specs::Prefix::iri_of_prefix))]
fn iri_of_prefix(name: &str) -> Option<&'static str>
    ensures { option_copied result ≡ iri_of_prefix name.now }
{
    match name {
        "dc" => Some("http://purl.org/dc/terms/"),
        "dcterms" => Some("http://purl.org/dc/terms/"),
        "dc11" => Some("http://purl.org/dc/elements/1.1/"),
        "foaf" => Some("http://xmlns.com/foaf/0.1/"),
        "schema" => Some("http://schema.org/"),
        "skos" => Some("http://www.w3.org/2004/02/skos/core#"),
        "rdf" => Some("http://www.w3.org/1999/02/22-rdf-syntax-ns#"),
        "rdfs" => Some("http://www.w3.org/2000/01/rdf-schema#"),
        "owl" => Some("http://www.w3.org/2002/07/owl#"),
        "xsd" => Some("http://www.w3.org/2001/XMLSchema#"),
        "dcat" => Some("http://www.w3.org/ns/dcat#"),
        "csvw" => Some("http://www.w3.org/ns/csvw#"),
        "prov" => Some("http://www.w3.org/ns/prov#"),
        "org" => Some("http://www.w3.org/ns/org#"),
        "oa" => Some("http://www.w3.org/ns/oa#"),
        "qb" => Some("http://purl.org/linked-data/cube#"),
        "void" => Some("http://rdfs.org/ns/void#"),
        _ => None,
    }
}

fn split_at_colon(text: &str) -> Option<(&str, &str)>
    ensures { MatchOption result (nat_lt (position_or_len is_colon text.now) (length text.now) ≡ false)
        (λ x. (nat_lt (position_or_len is_colon text.now) (length text.now) ≡ true)
        × (x.0.now ≡ before_first is_colon text.now) × (x.1.now ≡ after_first is_colon text.now)) }
{
    text.split_once(':')
}

fn begins_with_slashes(text: &str) -> bool
    ensures { result ≡ starts_with nat_eq text.now (codes "//") }
{
    text.starts_with("//")
}

/// Returns the text with its prefix replaced, or `AllocError` if memory runs out.
///
/// If the text before the first colon is one of the prefixes and `//` doesn't follow, that text and the colon are
/// replaced by the IRI of the prefix. Otherwise the text stays as it is. Metadata Vocabulary for Tabular Data,
/// section 5.8, says so of the names of common properties, and section 5.1.3 asks it of links too.
#[tactic(auto, unfolding(crate::specs::Prefix::expanded))]
pub fn expand_prefix(alloc: Global, text: &str) -> Result<String, AllocError>
    ensures { IfOk result (λ s. string_bytes s ≡ expanded text.now) }
{
    let Some((name, rest)) = split_at_colon(text) else {
        return String::from_str(alloc, text);
    };
    let Some(iri) = iri_of_prefix(name) else {
        return String::from_str(alloc, text);
    };
    if begins_with_slashes(rest) {
        return String::from_str(alloc, text);
    }
    let mut out = String::from_str(alloc, iri)?;
    out.push_str(rest)?;
    Ok(out)
}
