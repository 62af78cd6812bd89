//! Whether a session takes events.

/// Whether a session takes events.
#[derive(Clone, Copy, Debug, PartialEq, Eq)]
pub enum State {
    /// It takes events.
    Open,
    /// All tables were ended, and the session was finished.
    Finished,
    /// It stopped.
    Failed,
}
