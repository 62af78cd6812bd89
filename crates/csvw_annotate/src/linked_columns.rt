//! `LinkedColumns`: the columns of a table, with their templates bound to them.
ghost use Rattle.std.specs.Prelude.{◌≡◌, ◌<◌, IfOk, length};
ghost use Rattle.std.specs.List.{list_any};
ghost use Rattle.csvw_annotate.specs.BoundLinks.{BoundLinksAreLinks};
ghost use Rattle.csvw_annotate.specs.Links.{has_template};
ghost use Rattle.csvw_annotate.specs.MadeAt.{IsMadeAt, IsMadeBefore, IsValueAt};
ghost use Rattle.csvw_annotate.specs.declared.bound_link.Which.TheVariants.{About, Property};

use crate::bound_link::{AboutLink, BoundLink, Which, bind_abouts, bind_links};
use crate::link_room::LinkRoom;
use crate::links::{Made, has_template, has_value, no_link};
use csvw_cell::CellValue;
use csvw_columns_core::{Column, Columns};
use csvw_template::{Values, bound_gives_the_same};
use csvw_text::{Seq, both};
use std::alloc::{AllocError, Global};
use std::marker::Model;

/// The columns of a table. Two things are found once for all rows: what the names in their templates are bound to, and
/// the links that are the same in each row. Contracts see the columns.
#[derive(Drop)]
pub struct LinkedColumns {
    /// The columns.
    columns: Columns,
    /// The about links of the columns.
    abouts: Seq<AboutLink>,
    /// The property links of the columns.
    properties: Seq<BoundLink>,
    /// The value links of the columns.
    values: Seq<BoundLink>,
    /// Whether one of the columns has a template.
    any: bool,
}

impl Model for LinkedColumns {
    ghost use Rattle.std.specs.Prelude.{◌≡◌};
    ghost use Rattle.std.specs.List.{list_any};
    ghost use Rattle.csvw_columns_core.specs.declared.columns.Columns.{Columns};
    ghost use Rattle.csvw_annotate.specs.BoundLinks.{bound_links, told_abouts};
    ghost use Rattle.csvw_annotate.specs.Links.{has_template, no_link};
    ghost use Rattle.csvw_annotate.specs.declared.bound_link.BoundLink.TheVariants.{Same};
    ghost use Rattle.csvw_annotate.specs.declared.bound_link.Which.TheVariants as which;

    ghost Value = { Columns };

    ghost view = { λ l. l.columns };

    ghost invariant = { λ l. (told_abouts (Same no_link) l.abouts ≡ bound_links which.About l.columns) × (l.properties ≡ bound_links which.Property l.columns)
        × (l.values ≡ bound_links which.Value l.columns) × (l.any ≡ list_any has_template l.columns.columns) };
}

fn any_has_template(columns: &[Column]) -> bool
    ensures { result ≡ list_any has_template columns.now }
{
    columns.iter().any(|column| has_template(column))
}

/// A law: a bound link is, in each row, the link by the template.
pub fn bound_links_are_links()
    ensures { BoundLinksAreLinks }
{
    bound_gives_the_same();
}

impl LinkedColumns {
    /// Returns the columns with their templates bound, or `AllocError` if memory runs out.
    pub fn new(alloc: Global, columns: Columns) -> Result<LinkedColumns, AllocError>
        ensures { IfOk result (λ l. l ≡ columns) }
    {
        let properties = bind_links(alloc, &columns, Which::Property);
        let values = bind_links(alloc, &columns, Which::Value);
        let links = both(properties, values);
        let (abouts, (properties, values)) = both(bind_abouts(alloc, &columns), links)?;
        Ok(LinkedColumns {
            abouts,
            properties,
            values,
            any: any_has_template(columns.columns.as_slice()),
            columns,
        })
    }

    /// Returns the columns.
    pub fn columns(&self) -> &Columns
        ensures { result.now ≡ self.now }
    {
        &self.columns
    }

    /// Returns whether one of the columns has a template.
    pub fn any_has_template(&self) -> bool
        ensures { result ≡ list_any has_template self.now.columns }
    {
        self.any
    }

    /// Returns the about link of the column at this place, from 0, in a row of these values.
    ///
    /// `before` is the about link of the column before it, which is often the same. Returns `AllocError` if memory
    /// runs out.
    pub fn about_at<V: Values>(
        &self,
        room: &mut LinkRoom,
        before: Made,
        place: usize,
        values: &V,
    ) -> Result<Made, AllocError>
        requires look_up { V.can_look_up values.now }
        requires place { place < length self.now.columns }
        requires before { IsMadeBefore self.now (V.values values.now) place before }
        ensures { IfOk result (λ l. IsMadeAt About self.now (V.values values.now) place l) }
    {
        let abouts = self.abouts.as_slice();
        match &abouts[place] {
            AboutLink::AsBefore => Ok(before),
            AboutLink::Own(link) => {
                let made = room.link_in(&self.columns.url, link, values)?;
                Ok(made)
            }
        }
    }

    /// Returns the property link of the column at this place, from 0, in a row of these values. Returns `AllocError`
    /// if memory runs out.
    pub fn property_at<V: Values>(
        &self,
        room: &mut LinkRoom,
        place: usize,
        values: &V,
    ) -> Result<Made, AllocError>
        requires look_up { V.can_look_up values.now }
        requires place { place < length self.now.columns }
        ensures { IfOk result (λ l. IsMadeAt Property self.now (V.values values.now) place l) }
    {
        let links = self.properties.as_slice();
        let made = room.link_in(&self.columns.url, &links[place], values)?;
        Ok(made)
    }

    /// Returns the value link of a cell of this value in the column at this place, from 0, in a row of these values
    /// (Metadata Vocabulary for Tabular Data, sections 5.1.3 and 5.7).
    ///
    /// There is none if the value is null or the empty list, unless the column is virtual. Returns `AllocError` if
    /// memory runs out.
    pub fn value_at<V: Values>(
        &self,
        room: &mut LinkRoom,
        place: usize,
        value: &CellValue,
        values: &V,
    ) -> Result<Made, AllocError>
        requires look_up { V.can_look_up values.now }
        requires place { place < length self.now.columns }
        ensures { IfOk result (λ l. IsValueAt self.now (V.values values.now) place value.now l) }
    {
        let all = self.columns.columns.as_slice();
        if all[place].is_virtual || has_value(value) {
            let links = self.values.as_slice();
            let made = room.link_in(&self.columns.url, &links[place], values)?;
            return Ok(made);
        }
        Ok(no_link())
    }
}
