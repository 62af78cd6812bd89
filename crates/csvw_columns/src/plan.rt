//! What is known of tables before their texts are read: the plan.
ghost use Rattle.std.specs.Prelude.{◌≡◌, true, IfOk};
ghost use Rattle.csvw_columns.specs.Numbered.{are_numbered};

use csvw_columns_core::Column;
use csvw_description::{Inherited, Note};
use csvw_iri::{Base, Iri};
use csvw_records::Dialect;
use csvw_text::{Copied, Fault, Seq, both, copied_items, copied_option};
use std::alloc::{AllocError, Global};

/// A foreign key (Model for Tabular Data, section 4.2), as numbers.
#[derive(Debug, Drop)]
pub struct ForeignKeyPlan {
    /// The numbers of the referring columns, from 1.
    pub columns: Seq<u32>,
    /// The number of the referenced table, from 1.
    pub table: u32,
    /// The numbers of its referenced columns, from 1. There are as many as referring columns.
    pub referenced: Seq<u32>,
}

/// A table (Model for Tabular Data, section 4.2), before its header is known.
#[derive(Debug, Drop)]
pub struct TablePlan {
    /// Its number in its group, from 1.
    pub number: u32,
    /// Its URL.
    pub url: Base,
    /// Its `@id`.
    pub id: Option<Iri>,
    /// Whether the table makes no triples.
    pub suppressed: bool,
    /// The dialect by which its text is cut into rows and fields.
    pub dialect: Dialect,
    /// The columns that its schema declares. If there are none, the columns come from the header.
    pub declared: Seq<Column>,
    /// The inherited properties of its schema, for columns from its header.
    pub schema: Inherited,
    /// The inherited properties of the table itself.
    pub table: Inherited,
    /// The inherited properties of its group.
    pub group: Inherited,
    /// The numbers of the columns of its primary key, from 1. If there are none, it has no primary key.
    pub primary_key: Seq<u32>,
    /// Its foreign keys, in order.
    pub foreign_keys: Seq<ForeignKeyPlan>,
    /// Its annotations, in order.
    pub notes: Seq<Note>,
}

/// A group of tables (Model for Tabular Data, section 4.1), before their texts are read.
#[derive(Debug, Drop)]
pub struct Plan {
    /// Its `@id`.
    pub id: Option<Iri>,
    /// Its annotations, in order.
    pub notes: Seq<Note>,
    /// Its tables, in order.
    pub tables: Seq<TablePlan>,
    /// A warning for each property of its metadata that is ignored.
    pub warnings: Seq<Fault>,
    /// Its tables have numbers from 1, in order.
    pub ghost numbered: { are_numbered 1 tables ≡ true },
}

impl ForeignKeyPlan {
    /// Returns an equal key, or `AllocError` if there is no memory.
    pub fn clone(&self, alloc: Global) -> Result<ForeignKeyPlan, AllocError>
        ensures { IfOk result (λ k. k ≡ self.now) }
    {
        let columns = copied_items(alloc, &self.columns);
        let referenced = copied_items(alloc, &self.referenced);
        let (columns, referenced) = both(columns, referenced)?;
        Ok(ForeignKeyPlan {
            columns,
            table: self.table,
            referenced,
        })
    }
}

impl Copied for ForeignKeyPlan {
    fn copied(&self, alloc: Global) -> Result<ForeignKeyPlan, AllocError> {
        self.clone(alloc)
    }
}

impl TablePlan {
    /// Returns an equal plan, whose properties share their templates, texts and datatypes. It returns `AllocError` if
    /// there is no memory.
    pub fn clone(&self, alloc: Global) -> Result<TablePlan, AllocError>
        ensures { IfOk result (λ p. p ≡ self.now) }
    {
        let names = both(self.url.clone(alloc), copied_option(alloc, &self.id));
        let columns = both(self.dialect.clone(alloc), self.declared.clone(alloc));
        let inherited = both(self.schema.clone(alloc), self.table.clone(alloc));
        let inherited = both(inherited, self.group.clone(alloc));
        let primary_key = copied_items(alloc, &self.primary_key);
        let keys = both(primary_key, self.foreign_keys.clone(alloc));
        let rest = both(keys, self.notes.clone(alloc));
        let (known, rest) = both(both(names, columns), both(inherited, rest))?;
        let ((url, id), (dialect, declared)) = known;
        let (((schema, table), group), ((primary_key, foreign_keys), notes)) = rest;
        Ok(TablePlan {
            number: self.number,
            url,
            id,
            suppressed: self.suppressed,
            dialect,
            declared,
            schema,
            table,
            group,
            primary_key,
            foreign_keys,
            notes,
        })
    }
}

impl Copied for TablePlan {
    fn copied(&self, alloc: Global) -> Result<TablePlan, AllocError> {
        self.clone(alloc)
    }
}

impl Plan {
    /// Returns an equal plan, whose properties share their templates, texts and datatypes. It returns `AllocError` if
    /// there is no memory.
    pub fn clone(&self, alloc: Global) -> Result<Plan, AllocError>
        ensures { IfOk result (λ p. p ≡ self.now) }
    {
        let names = both(copied_option(alloc, &self.id), self.notes.clone(alloc));
        let warnings = copied_items(alloc, &self.warnings);
        let tables = both(self.tables.clone(alloc), warnings);
        let ((id, notes), (tables, warnings)) = both(names, tables)?;
        Ok(Plan {
            id,
            notes,
            tables,
            warnings,
        })
    }

    /// Returns its tables, in order.
    pub fn tables(&self) -> &[TablePlan]
        ensures { result.now ≡ self.now.tables }
    {
        self.tables.as_slice()
    }

    /// Returns a warning for each property of its metadata that is ignored.
    pub fn warnings(&self) -> &[Fault]
        ensures { result.now ≡ self.now.warnings }
    {
        self.warnings.as_slice()
    }
}
