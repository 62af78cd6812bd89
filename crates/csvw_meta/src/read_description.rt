//! The calls that read descriptions, as functions of `Description`.
ghost use Rattle.std.specs.Prelude.{◌≡◌, ◌≢◌, Some, IfOk, IfErr};
ghost use Rattle.csvw_description.specs.Plannable.{IsPlannable};
ghost use Rattle.csvw_meta.specs.Document.{IsFault, document, document_by, group_in, plain_description};
ghost use Rattle.csvw_meta.specs.UrlAlone.{IsOfUrl};

use csvw_description::Description;
use csvw_meta_core::{MetaCode, MetaFault, Profile};
use std::alloc::Global;

/// Adds `Description::read`, `Description::read_by` and `Description::plain`, if this trait is in scope.
///
/// ```text
/// use csvw_meta::{Description, ReadDescription};
///
/// let described = Description::read(alloc, bytes, "http://example.org/m.json")?;
/// ```
pub trait ReadDescription: Sized {
    /// Reads the group that a document describes, at its own URL. It has the result of the function
    /// [`read`](crate::read).
    fn read(alloc: Global, bytes: &[u8], base: &str) -> Result<Self, MetaFault>;

    /// Reads the group that a document in a profile describes, at its own URL. It has the result of the function
    /// [`read_by`](crate::read_by).
    fn read_by(
        alloc: Global,
        bytes: &[u8],
        base: &str,
        profile: Profile,
    ) -> Result<Self, MetaFault>;

    /// Returns the group of the one table of a URL. It has the result of the function [`plain`](crate::plain).
    fn plain(alloc: Global, url: &str) -> Result<Self, MetaFault>;
}

impl ReadDescription for Description {
    fn read(alloc: Global, bytes: &[u8], base: &str) -> Result<Description, MetaFault>
        ensures found { IfOk result (λ d. group_in (document base.now bytes.now) ≡ Some d) }
        ensures plannable { IfOk result IsPlannable }
        ensures fault { IfErr result (λ e. e.code ≢ MetaCode.Memory → IsFault (document base.now bytes.now) e) }
    {
        crate::document::read(alloc, bytes, base)
    }

    fn read_by(
        alloc: Global,
        bytes: &[u8],
        base: &str,
        profile: Profile,
    ) -> Result<Description, MetaFault>
        ensures found { IfOk result (λ d. group_in (document_by profile base.now bytes.now) ≡ Some d) }
        ensures plannable { IfOk result IsPlannable }
        ensures fault { IfErr result (λ e. e.code ≢ MetaCode.Memory → IsFault (document_by profile base.now bytes.now) e) }
    {
        crate::document::read_by(alloc, bytes, base, profile)
    }

    fn plain(alloc: Global, url: &str) -> Result<Description, MetaFault>
        ensures found { IfOk result (λ d. group_in (plain_description url.now) ≡ Some d) }
        ensures plannable { IfOk result IsPlannable }
        ensures fault { IfErr result (λ e. e.code ≢ MetaCode.Memory → IsFault (plain_description url.now) e) }
        ensures url { IfErr result (λ e. e.code ≢ MetaCode.Memory → IsOfUrl e) }
    {
        crate::url_alone::plain(alloc, url)
    }
}
