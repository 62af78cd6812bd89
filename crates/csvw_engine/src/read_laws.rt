//! Laws about the definitions that the contracts use. A call of a law does nothing.
ghost use Rattle.std.specs.Prelude.{◌≤◌, ◌+◌, ℕ, List, length};
ghost use Rattle.csvw_session.specs.Events.{Event};
ghost use Rattle.csvw_engine.specs.ReadOrder.{AreReads, total_len};

use csvw_session::laws::texts_grow;

/// There are no more reads than the tables have bytes and ends. Each read gave at least one byte, or the end of a
/// table, and a table is ended once.
pub fn reads_are_bytes()
    ensures { (many limit : ℕ) (events : List Event) → AreReads many limit events → length events ≤ total_len many events + many }
{
    texts_grow();
}
