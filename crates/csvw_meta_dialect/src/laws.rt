//! A law of the dialects that are read. A call does nothing.
ghost use Rattle.std.specs.Prelude.{◌≡◌, [], List, ℕ};
ghost use Rattle.serde_json.specs.Data.{Data};
ghost use Rattle.csvw_description.specs.Plannable.{IsFitDialect};
ghost use Rattle.csvw_meta_core.specs.declared.context.Context.{Context as TheContext};
ghost use Rattle.csvw_meta_dialect.specs.Dialect.{dialect};

/// A law: a dialect in which there is no fault is lawful, and skips at most 1,024 columns.
pub fn dialects_fit()
    ensures { (context : TheContext) (table : ℕ) (at : List ℕ) (d : Data) → (dialect context table at d).faults ≡ []
        → IsFitDialect (dialect context table at d).value.dialect }
{}
