//! How often something occurs, as far as it matters for a key.
ghost use Rattle.std.specs.Prelude.{◌≡◌};
ghost use Rattle.csvw_keys.specs.Times.{more};

/// How often something occurs.
#[derive(Clone, Copy)]
pub enum Times {
    /// Not at all.
    Never,
    /// Once.
    Once,
    /// More than once.
    Often,
}

impl Times {
    /// Returns the count after one more time.
    pub(crate) fn more(self) -> Times
        ensures { result ≡ more self }
    {
        match self {
            Times::Never => Times::Once,
            Times::Once | Times::Often => Times::Often,
        }
    }
}
