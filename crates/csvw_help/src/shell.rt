//! The shells that have completions.
ghost use Rattle.std.specs.Prelude.{◌≡◌, IfSome};
ghost use Rattle.csvw_help.specs.Shells.{shell_name};

/// A shell that has completions.
#[derive(Clone, Copy)]
pub enum Shell {
    /// GNU bash.
    Bash,
    /// The Z shell.
    Zsh,
    /// The friendly interactive shell.
    Fish,
}

impl Shell {
    /// Returns the shell of this name: `bash`, `zsh` or `fish`.
    pub fn of(name: &str) -> Option<Shell>
        ensures { IfSome result (λ shell. name.now ≡ shell_name shell) }
    {
        match name {
            "bash" => Some(Shell::Bash),
            "zsh" => Some(Shell::Zsh),
            "fish" => Some(Shell::Fish),
            _ => None,
        }
    }
}
