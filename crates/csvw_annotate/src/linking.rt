//! The links of a row's cells.
ghost use Rattle.std.specs.Prelude.{◌≡◌, ◌<◌, IfOk, OnOk, length};
ghost use Rattle.csvw_annotate.specs.Links.{joined, no_link};
ghost use Rattle.csvw_annotate.specs.LinksAt.{AreLinksAt, IsAboutAt, IsAboutBefore};
ghost use Rattle.csvw_annotate.specs.HasForms.{CellsHaveForms};
ghost use Rattle.csvw_annotate.specs.Linked.{ArePlain, linked_cells, with_links};

use crate::link_room::LinkRoom;
use crate::linked_columns::{LinkedColumns, bound_links_are_links};
use crate::links::{Links, Made, about_alone, has_own_template, has_template, joined, no_link};
use crate::numbers::RowNumbers;
use crate::row::AnnCell;
use crate::scope::RowScope;
use csvw_text::copied_option;
use std::alloc::{AllocError, Global};

/// Sets the links of a cell, and adds the codes of what is wrong with them.
fn put_links(cell: &mut AnnCell, links: Links) -> Result<(), AllocError>
    ensures { OnOk result (cell.new ≡ with_links cell.old links) }
{
    links.tell(&mut cell.faults)?;
    let Links {
        about,
        property,
        value,
        is_bad: _,
        is_too_long: _,
    } = links;
    cell.about = about;
    cell.property = property;
    cell.link = value;
    Ok(())
}

/// Sets the about link of a cell that has no other link, and adds the code of what is wrong with it.
#[inline(always)]
fn put_about(alloc: Global, cell: &mut AnnCell, about: &Made) -> Result<(), AllocError>
    ensures { OnOk result (cell.new ≡ with_links cell.old (joined about.now no_link no_link)) }
{
    if about.is_bad || about.is_too_long {
        return put_links(cell, about_alone(about.clone(alloc)?));
    }
    cell.about = copied_option(alloc, &about.iri)?;
    cell.property = None;
    cell.link = None;
    Ok(())
}

/// Returns the about link of the column at this place. `before` is that of the column before it, which is often the
/// same.
fn about_at(
    columns: &LinkedColumns,
    room: &mut LinkRoom,
    before: Made,
    place: usize,
    scope: &RowScope,
) -> Result<Made, AllocError>
    requires places { length scope.now.cells.now ≡ length columns.now.columns }
    requires forms { CellsHaveForms scope.now.cells.now }
    requires place { place < length columns.now.columns }
    requires before { IsAboutBefore columns.now scope.now.row scope.now.cells.now place before }
    ensures { IfOk result (λ l. IsAboutAt columns.now scope.now.row scope.now.cells.now place l) }
{
    bound_links_are_links();
    let made = columns.about_at(room, before, place, scope)?;
    Ok(made)
}

/// Returns the links of a cell of this value in the column at this place, whose about link is made.
fn links_at(
    columns: &LinkedColumns,
    room: &mut LinkRoom,
    about: Made,
    place: usize,
    scope: &RowScope,
) -> Result<Links, AllocError>
    requires places { length scope.now.cells.now ≡ length columns.now.columns }
    requires forms { CellsHaveForms scope.now.cells.now }
    requires place { place < length columns.now.columns }
    requires about { IsAboutAt columns.now scope.now.row scope.now.cells.now place about }
    ensures { IfOk result (λ l. AreLinksAt columns.now scope.now.row scope.now.cells.now place l) }
{
    bound_links_are_links();
    let property = columns.property_at(room, place, scope)?;
    let cell = &scope.cells[place];
    let value = columns.value_at(room, place, &cell.value, scope)?;
    Ok(joined(about, property, value))
}

/// Sets the links of the cells of a row, whose columns have templates.
fn link_cells(
    alloc: Global,
    columns: &LinkedColumns,
    room: &mut LinkRoom,
    row: RowNumbers,
    cells: &mut [AnnCell],
) -> Result<(), AllocError>
    requires places { length cells.old ≡ length columns.now.columns }
    requires plain { ArePlain cells.old }
    requires forms { CellsHaveForms cells.old }
    ensures { OnOk result (cells.new ≡ linked_cells columns.now row cells.old) }
{
    let all = columns.columns().columns.as_slice();
    let mut about = no_link();
    for i in 0..all.len() {
        let lent = &cells[..];
        let scope = RowScope {
            alloc,
            row,
            cells: lent,
        };
        about = about_at(columns, room, about, i, &scope)?;
        // Most columns have no template of their own.
        if has_own_template(&all[i]) {
            let links = links_at(columns, room, about.clone(alloc)?, i, &scope)?;
            put_links(&mut cells[i], links)?;
        } else if has_template(&all[i]) {
            put_about(alloc, &mut cells[i], &about)?;
        }
    }
    Ok(())
}

/// Sets the links of the cells of a row. A template may name any column of the row.
pub(crate) fn link_row(
    alloc: Global,
    columns: &LinkedColumns,
    room: &mut LinkRoom,
    row: RowNumbers,
    cells: &mut [AnnCell],
) -> Result<(), AllocError>
    requires places { length cells.old ≡ length columns.now.columns }
    requires plain { ArePlain cells.old }
    requires forms { CellsHaveForms cells.old }
    ensures { OnOk result (cells.new ≡ linked_cells columns.now row cells.old) }
{
    if columns.any_has_template() {
        link_cells(alloc, columns, room, row, cells)
    } else {
        Ok(())
    }
}
