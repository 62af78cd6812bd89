//! Writes the triples of a group and its tables into a sink.
ghost use Rattle.std.specs.Prelude.{◌≡◌, ◌++◌, IfErr, IfOk, OnOk};
ghost use Rattle.csvw_triples_core.specs.Taking.{FrontOf, Ends};
ghost use Rattle.csvw_triples.specs.Annotations.{annotations};
ghost use Rattle.csvw_triples.specs.Blanks.{blanks};
ghost use Rattle.csvw_triples.specs.Growing.{Grows};
ghost use Rattle.csvw_triples.specs.OpeningTriples.{group_node, node_of, group_triple, member_triple, class_triple, url_triple};
ghost use Rattle.csvw_triples.specs.OpeningTriples.{about_group, about_table, group_blanks, notes_of, table_blanks, table_triples, tables_triples};
ghost use Rattle.csvw_triples.specs.OpeningTriples.{standard_opening, opening};

use crate::draft::Draft;
use crate::names::OpeningNames;
use crate::notes::{object_of, push_notes};
use csvw_columns::{Plan, TablePlan};
use csvw_iri::Iri;
use csvw_triples_rows::{
    Mode, Node, Origin, SinkFault, Term, Triple, TripleSink, put_all, table_node,
};
use std::alloc::{AllocError, Global};

/// Returns the node of a group: its `@id` if it has one, else its blank node.
fn group_node(alloc: Global, id: &Option<Iri>) -> Result<Node, AllocError>
    ensures { IfOk result (λ s. s ≡ group_node id.now) }
{
    match id {
        Some(iri) => Ok(Node::Named(iri.clone(alloc)?)),
        None => Ok(Node::Blank(Origin::Group)),
    }
}

fn node_of(alloc: Global, table: &TablePlan) -> Result<Node, AllocError>
    ensures { IfOk result (λ s. s ≡ node_of table.now) }
{
    table_node(alloc, table.number, &table.id)
}

fn group_triple(alloc: Global, names: &OpeningNames, group: &Node) -> Result<Triple, AllocError>
    ensures { IfOk result (λ x. x ≡ group_triple group.now) }
{
    let s = group.clone(alloc)?;
    let p = names.rdf_type.clone(alloc)?;
    let o = Term::Named(names.group_class.clone(alloc)?);
    Ok(Triple { s, p, o })
}

fn member_triple(
    alloc: Global,
    names: &OpeningNames,
    group: &Node,
    table: &TablePlan,
) -> Result<Triple, AllocError>
    ensures { IfOk result (λ x. x ≡ member_triple group.now table.now) }
{
    let s = group.clone(alloc)?;
    let p = names.table.clone(alloc)?;
    let o = object_of(node_of(alloc, table)?);
    Ok(Triple { s, p, o })
}

fn class_triple(
    alloc: Global,
    names: &OpeningNames,
    table: &TablePlan,
) -> Result<Triple, AllocError>
    ensures { IfOk result (λ x. x ≡ class_triple table.now) }
{
    let s = node_of(alloc, table)?;
    let p = names.rdf_type.clone(alloc)?;
    let o = Term::Named(names.table_class.clone(alloc)?);
    Ok(Triple { s, p, o })
}

fn url_triple(alloc: Global, names: &OpeningNames, table: &TablePlan) -> Result<Triple, AllocError>
    ensures { IfOk result (λ x. x ≡ url_triple table.now) }
{
    let s = node_of(alloc, table)?;
    let p = names.url.clone(alloc)?;
    let o = Term::Named(table.url.iri().clone(alloc)?);
    Ok(Triple { s, p, o })
}

/// Adds that the group has the table, the class of the table and its URL.
fn push_about(
    alloc: Global,
    names: &OpeningNames,
    draft: &mut Draft,
    group: &Node,
    table: &TablePlan,
) -> Result<(), AllocError>
    ensures { OnOk result (Grows draft.old (about_table group.now table.now) 0 draft.new) }
{
    draft.push(member_triple(alloc, names, group, table)?)?;
    draft.push(class_triple(alloc, names, table)?)?;
    draft.push(url_triple(alloc, names, table)?)
}

/// Adds the triples of the table's annotations.
fn push_notes_of(
    alloc: Global,
    names: &OpeningNames,
    draft: &mut Draft,
    table: &TablePlan,
) -> Result<(), AllocError>
    ensures { OnOk result (Grows draft.old (notes_of draft.old.blanks table.now) (blanks (annotations table.now.notes)) draft.new) }
{
    let node = node_of(alloc, table)?;
    push_notes(alloc, names, draft, &node, table.notes.as_slice())
}

fn push_table(
    alloc: Global,
    names: &OpeningNames,
    draft: &mut Draft,
    group: &Node,
    table: &TablePlan,
) -> Result<(), AllocError>
    ensures { OnOk result (Grows draft.old (table_triples group.now draft.old.blanks table.now) (table_blanks table.now) draft.new) }
{
    if table.suppressed {
        return Ok(());
    }
    push_about(alloc, names, draft, group, table)?;
    push_notes_of(alloc, names, draft, table)
}

fn push_tables(
    alloc: Global,
    names: &OpeningNames,
    draft: &mut Draft,
    group: &Node,
    tables: &[TablePlan],
) -> Result<(), AllocError>
    ensures { OnOk result (draft.new.triples.items ≡ draft.old.triples.items ++ tables_triples group.now draft.old.blanks tables.now) }
{
    for table in tables {
        push_table(alloc, names, draft, group, table)?;
    }
    Ok(())
}

/// Adds the class of the group and the triples of its annotations.
fn push_group(
    alloc: Global,
    names: &OpeningNames,
    draft: &mut Draft,
    group: &Node,
    plan: &Plan,
) -> Result<(), AllocError>
    ensures { OnOk result (Grows draft.old (about_group group.now draft.old.blanks plan.now) (group_blanks plan.now) draft.new) }
{
    draft.push(group_triple(alloc, names, group)?)?;
    push_notes(alloc, names, draft, group, plan.notes.as_slice())
}

fn standard_opening(alloc: Global, plan: &Plan) -> Result<Vec<Triple>, AllocError>
    ensures { IfOk result (λ triples. triples.items ≡ standard_opening plan.now) }
{
    let names = OpeningNames::new(alloc)?;
    let group = group_node(alloc, &plan.id)?;
    let mut draft = Draft::new(alloc);
    push_group(alloc, &names, &mut draft, &group, plan)?;
    push_tables(alloc, &names, &mut draft, &group, plan.tables())?;
    Ok(draft.triples)
}

fn opening(alloc: Global, plan: &Plan, mode: Mode) -> Result<Vec<Triple>, AllocError>
    ensures { IfOk result (λ triples. triples.items ≡ opening mode plan.now) }
{
    match mode {
        Mode::Validate => Ok(Vec::new(alloc)),
        Mode::Minimal => Ok(Vec::new(alloc)),
        Mode::Standard => standard_opening(alloc, plan),
    }
}

/// Writes the opening into a sink (csv2rdf, section 4.2). In mode `Standard` these are the triples of the group,
/// its tables and their annotations, in their order. In the other modes there are none.
///
/// The fault is one that the sink returned in this call, or `Memory`. After an error the sink took a front of the
/// triples, each of them whole. After `Device` the device failed within the next triple.
pub fn emit_opening<S: TripleSink>(
    alloc: Global,
    plan: &Plan,
    mode: Mode,
    sink: &mut S,
) -> Result<(), SinkFault>
    ensures ok { OnOk result (S.gains sink.old (opening mode plan.now) sink.new) }
    ensures err { IfErr result (λ fault. FrontOf S.gains S.cuts sink.old (opening mode plan.now) sink.new (fault ≡ SinkFault.Device)) }
    ensures sink { Ends S.is_open S.failed sink.old sink.new result }
{
    let triples = opening(alloc, plan, mode)?;
    put_all(triples.as_slice(), sink)
}
