//! Laws about the definitions that the contracts use. A call of a law does nothing.
ghost use Rattle.csvw_session.specs.SessionLaws.{TextsGrow};

/// The texts of tables after one more event.
pub fn texts_grow()
    ensures { TextsGrow }
{}
