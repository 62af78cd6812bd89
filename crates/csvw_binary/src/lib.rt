//! Texts of binary data: the types `hexBinary` and `base64Binary` (XML Schema 1.1 part 2, sections 3.3.15 and 3.3.16).
//!
//! A text is one of a type if it writes a list of bytes. Each list of bytes has one canonical text. The white space of
//! a cell must be normalized before: here only spaces are dropped, from base64 alone.
//!
//! ```text
//! let hex = binary_text(alloc, BinaryForm::Hex, "0fB7")?; // Some("0FB7")
//! let base64 = binary_text(alloc, BinaryForm::Base64, "TW Fu TQ==")?; // Some("TWFuTQ==")
//! let octets = octet_count(BinaryForm::Base64, "TWFuTQ=="); // 4
//! ```
//!
//! # Promises
//!
//! - `binary_text` returns the canonical text exactly if the text is of the type (`binary_form`). The canonical text is the
//!   encoding of bytes (`IsEncoded`).
//! - The law `one_binary_text`: a canonical text is of the type, and its own canonical text.
//! - `octet_count` returns the number of octets that a canonical text writes (`octet_count`). It takes no memory.
//! - The law `decoded_octets`: a canonical text decodes to bytes (`decoded`), and `octet_count` is how many they are.
//! - The law `encoded_texts`: the encoding of any bytes is a canonical text, and `octet_count` is how many bytes they are.
#![tactic(auto)]

mod base64_binary;
mod binary;
mod hex_binary;
mod octets;

pub use binary::{
    BinaryForm, binary_text, decoded_octets, encoded_texts, octet_count, one_binary_text,
};
