//! Links whose templates are bound to the columns of a table.
ghost use Rattle.std.specs.Prelude.{◌≡◌, ◌<◌, IfOk, length};
ghost use Rattle.csvw_annotate.specs.BoundLinks.{bound_links, by_parts, link_of_column, template_of, told_abouts};
ghost use Rattle.csvw_annotate.specs.MadeAt.{IsAboutLink};
ghost use Rattle.csvw_annotate.specs.Links.{no_link};
ghost use Rattle.csvw_annotate.specs.declared.bound_link.BoundLink.TheVariants.{Same};
ghost use Rattle.csvw_annotate.specs.declared.bound_link.Which.TheVariants.{About};

use crate::bound_parts::BoundParts;
use crate::cell_names::CellNames;
use crate::links::{Made, linked, no_link, too_long};
use crate::sharing::share_about;
use csvw_columns_core::{Column, Columns};
use csvw_iri::{Base, MAX_TEXT};
use csvw_template::{BoundPart, Fit, Template, Values, Var, push_bound_within, varies};
use csvw_text::{Seq, Shared};
use std::alloc::{AllocError, Global};

/// A link of the cells of a column.
#[derive(Drop)]
pub enum BoundLink {
    /// A link that is the same in each row.
    Same(Made),
    /// A link that depends on the row.
    Varying(BoundParts),
}

/// The about link of the cells of a column.
#[derive(Drop)]
pub enum AboutLink {
    /// The about link of the column before it.
    AsBefore,
    /// An about link of its own.
    Own(BoundLink),
}

/// The kinds of links.
#[derive(Clone, Copy)]
pub enum Which {
    /// The about link.
    About,
    /// The property link.
    Property,
    /// The value link.
    Value,
}

/// The values if there is no row.
#[derive(Clone, Copy)]
struct NoValues {}

impl Values for NoValues {
    ghost use Rattle.std.specs.Prelude.{[]};

    ghost values = { λ _. [] };

    ghost can_look_up = { λ _. Unit {0} };

    fn var(&self, _place: usize) -> Result<Var, AllocError> {
        Ok(Var::Undefined)
    }

    fn text(&self, _place: usize) -> Option<&str> {
        None
    }

    fn is_longer(&self, _place: usize, _most: usize) -> bool {
        false
    }
}

fn template_of(column: &Column, which: Which) -> &Option<Shared<Template>>
    ensures { result.now ≡ template_of which column.now.properties }
{
    match which {
        Which::About => &column.properties.about_url,
        Which::Property => &column.properties.property_url,
        Which::Value => &column.properties.value_url,
    }
}

/// Returns the link by bound parts in a table of this URL. It is made at once if it is the same in all rows.
fn by_parts(alloc: Global, base: &Base, parts: Seq<BoundPart>) -> Result<BoundLink, AllocError>
    ensures { IfOk result (λ l. l ≡ by_parts base.now parts) }
{
    if varies(parts.as_slice()) {
        return Ok(BoundLink::Varying(BoundParts::new(alloc, parts)?));
    }
    let mut text = String::new(alloc);
    match push_bound_within(&mut text, parts.as_slice(), &NoValues {}, MAX_TEXT)? {
        Fit::Whole => Ok(BoundLink::Same(linked(alloc, base, text.as_str())?)),
        Fit::TooLong => Ok(BoundLink::Same(too_long())),
    }
}

/// Returns a link of a column.
fn bind_link(
    alloc: Global,
    columns: &Columns,
    column: &Column,
    which: Which,
) -> Result<BoundLink, AllocError>
    ensures { IfOk result (λ l. l ≡ link_of_column which columns.now column.now) }
{
    let Some(template) = template_of(column, which) else {
        return Ok(BoundLink::Same(no_link()));
    };
    let names = CellNames {
        column,
        columns: columns.columns.as_slice(),
    };
    let parts = template.get().bind(alloc, &names)?;
    by_parts(alloc, &columns.url, parts)
}

/// Returns a link of each column.
pub(crate) fn bind_links(
    alloc: Global,
    columns: &Columns,
    which: Which,
) -> Result<Seq<BoundLink>, AllocError>
    ensures { IfOk result (λ links. links ≡ bound_links which columns.now) }
{
    let mut links = Seq::new(alloc);
    for column in columns.columns.as_slice() {
        links.push(bind_link(alloc, columns, column, which)?)?;
    }
    Ok(links)
}

/// Returns the about link of the column at this place.
fn bind_about(alloc: Global, columns: &Columns, place: usize) -> Result<AboutLink, AllocError>
    requires { place < length columns.now.columns }
    ensures { IfOk result (λ l. IsAboutLink columns.now l place) }
{
    let all = columns.columns.as_slice();
    let column = &all[place];
    if place > 0 && share_about(&all[place - 1], column) {
        return Ok(AboutLink::AsBefore);
    }
    Ok(AboutLink::Own(bind_link(alloc, columns, column, Which::About)?))
}

/// Returns the about link of each column.
pub(crate) fn bind_abouts(alloc: Global, columns: &Columns) -> Result<Seq<AboutLink>, AllocError>
    ensures { IfOk result (λ links. told_abouts (Same no_link) links ≡ bound_links About columns.now) }
{
    let mut links = Seq::new(alloc);
    for i in 0..columns.columns.len() {
        links.push(bind_about(alloc, columns, i)?)?;
    }
    Ok(links)
}
