//! One column of a table while its cells are read.

use crate::aim::Aim;
use crate::kept::{Kept, Room};
use crate::kind::Kind;
use crate::marker::marker_of;
use crate::narrowed::Narrowed;
use csvw_datatype::Value;
use csvw_meta::Profile;
use csvw_text::collapse;
use std::alloc::{AllocError, Global};

/// What is known of a column after some of its cells.
#[derive(Drop)]
pub(crate) struct Column {
    alloc: Global,
    /// The profile of the document.
    profile: Profile,
    /// The text of its header cell.
    pub(crate) title: String,
    /// The datatypes that its texts have, except for the markers of missing values.
    narrowed: Narrowed,
    /// The different markers of missing values among its texts.
    markers: Vec<&'static str>,
    /// Whether a cell is empty.
    has_empty: bool,
    /// Whether a cell that isn't empty has only white space.
    has_blank: bool,
    /// Its different texts.
    pub(crate) kept: Kept,
}

/// Returns whether a text has white space that a datatype other than `string` collapses.
fn has_white(text: &str) -> bool {
    text.as_bytes()
        .iter()
        .any(|b| matches!(b, b' ' | b'\t' | b'\r' | b'\n'))
}

impl Column {
    /// Makes a column with no cell yet, of a file with this delimiter. Returns `AllocError` if memory runs out.
    pub(crate) fn new(
        alloc: Global,
        title: &str,
        aim: Aim,
        delimiter: char,
    ) -> Result<Column, AllocError> {
        Ok(Column {
            alloc,
            profile: aim.profile,
            title: String::from_str(alloc, title)?,
            narrowed: Narrowed::new(alloc, delimiter)?,
            markers: Vec::new(alloc),
            has_empty: false,
            has_blank: false,
            kept: Kept::new(alloc, aim.purpose),
        })
    }

    /// Takes the text of one more cell. Returns `AllocError` if memory runs out.
    pub(crate) fn take(&mut self, text: &str, room: &mut Room) -> Result<(), AllocError> {
        if text.is_empty() {
            self.has_empty = true;
            return Ok(());
        }
        self.kept.add(text, room)?;
        if self.narrowed.is_string() {
            return Ok(());
        }
        if !has_white(text) {
            return self.narrow(text);
        }
        let collapsed = collapse(self.alloc, text)?;
        if collapsed.is_empty() {
            self.has_blank = true;
            return Ok(());
        }
        self.narrow(collapsed.as_str())
    }

    /// Takes a text whose white space is collapsed. Returns `AllocError` if memory runs out.
    fn narrow(&mut self, text: &str) -> Result<(), AllocError> {
        match marker_of(text) {
            Some(marker) if self.markers.contains(&marker) => Ok(()),
            Some(marker) => Ok(self.markers.push(marker)?),
            None => self.narrowed.take(self.alloc, text),
        }
    }

    /// Takes a cell that is empty.
    pub(crate) fn take_empty(&mut self) {
        self.has_empty = true;
    }

    /// Returns its datatype.
    pub(crate) fn kind(&self) -> Kind {
        self.narrowed.kind(self.profile)
    }

    /// Returns its datatype in the profile w3c, if the document isn't of that profile and has another one.
    pub(crate) fn kind_of_w3c(&self) -> Option<Kind> {
        let kind = self.narrowed.kind(Profile::W3c);
        match self.profile {
            Profile::Core if !kind.is_core() => Some(kind),
            Profile::Core | Profile::W3c => None,
        }
    }

    /// Returns the markers of missing values among its texts. In a column of texts a marker is a text as others.
    pub(crate) fn markers(&self) -> &[&'static str] {
        if self.kind() == Kind::Text {
            &[]
        } else {
            self.markers.as_slice()
        }
    }

    /// Returns whether no cell is null by its datatype. Only texts keep white space.
    pub(crate) fn is_full(&self) -> bool {
        !self.has_empty
            && (!self.has_blank || self.kind() == Kind::Text)
            && self.markers().is_empty()
    }

    /// Returns its different values in order if each cell has one and no two have the same. Returns `None` if that isn't so,
    /// or not known.
    pub(crate) fn key_values(&self) -> Result<Option<Vec<Value>>, AllocError> {
        if !self.is_full() || !self.kept.is_unique() {
            return Ok(None);
        }
        let mut values = Vec::new(self.alloc);
        self.push_values(&mut values)?;
        values.sort()?;
        Ok(if has_equal_neighbours(values.as_slice()) {
            None
        } else {
            Some(values)
        })
    }

    /// Adds the values of its texts. Returns `AllocError` if memory runs out.
    fn push_values(&self, values: &mut Vec<Value>) -> Result<(), AllocError> {
        let Some(texts) = self.kept.texts() else {
            return Ok(());
        };
        let kind = self.kind();
        for text in texts {
            if let Some(value) = kind.value(self.alloc, text.as_str())? {
                values.push(value)?;
            }
        }
        Ok(())
    }

    /// Returns whether it has a value, all its texts are kept, and each value is one of these, which are in order.
    pub(crate) fn is_within(&self, keys: &[Value]) -> Result<bool, AllocError> {
        let Some(texts) = self.kept.texts() else {
            return Ok(false);
        };
        let kind = self.kind();
        let mut has_value = false;
        for text in texts {
            match is_value_of(keys, kind.value(self.alloc, text.as_str())?) {
                Some(true) => has_value = true,
                Some(false) => return Ok(false),
                None => {}
            }
        }
        Ok(has_value)
    }
}

/// Returns whether a value is one of these, which are in order. Returns `None` if there is no value.
fn is_value_of(keys: &[Value], value: Option<Value>) -> Option<bool> {
    match value {
        Some(value) => Some(keys.binary_search(&value).is_ok()),
        None => None,
    }
}

/// Returns whether two neighbours are equal.
fn has_equal_neighbours(values: &[Value]) -> bool {
    for pair in values.windows(2) {
        if let [a, b] = pair {
            if a == b {
                return true;
            }
        }
    }
    false
}
