//! IRIs: bases, prefixes, and the link of a text against a base, safe for N-Triples.
//!
//! A link is the IRI that a text means against a base by the URL Standard. It is made safe: what N-Triples doesn't
//! allow in an IRI is percent-encoded.
//!
//! # Promises
//!
//! - `Base::new` and `join` return a URL without its fragment.
//! - `expand_prefix` replaces the prefix of a text.
//! - `resolve` joins a text by the URL Standard and makes it safe. `link` first replaces its prefix. Each returns
//!   that IRI or the refusal of the text.
//! - `link_over` returns the same as `link`, also if a front is given with which texts begin (`OwnFront::of`).
//! - A text that is longer than `MAX_TEXT` has no link: the law `long_texts_have_no_link`.
//! - `OwnFront::encoded_link` and `Base::encoded_fragment` return the link of a front, or of `#`, and a percent-encoded
//!   text.
//! - `push_percent_encoded` percent-encodes a text. `made_safe` percent-encodes what N-Triples doesn't allow in an
//!   IRI.
//! - `with_fragment` and `Iri::refill_with_fragment` join an IRI, `#` and a text.
//! - An `Iri` has only characters that may be raw in N-Triples: the invariant of `Iri`.
//! - An `OwnFront` is a text with which absolute URLs begin, and the place of the pass after it: the invariant of
//!   `OwnFront` (`IsOwnFront`).
#![tactic(auto)]

mod base;
mod compared;
mod encoded;
mod fault;
mod front;
mod iri;
mod links;
mod own;
mod prefix;
mod safe;

pub use base::{Base, MAX_TEXT};
pub use encoded::push_percent_encoded;
pub use fault::IriFault;
pub use front::OwnFront;
pub use iri::{Iri, with_fragment};
pub use links::{link, link_over, long_texts_have_no_link, resolve};
pub use prefix::expand_prefix;
pub use safe::{is_raw, is_raw_text, made_safe, named};
