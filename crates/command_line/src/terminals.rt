//! What is different at a terminal.

/// Which of the standard streams are terminals.
#[derive(Clone, Copy)]
pub struct Terminals {
    /// Standard input.
    pub input: bool,
    /// Standard output.
    pub output: bool,
    /// Standard error.
    pub errors: bool,
}

/// No stream is a terminal.
pub const NO_TERMINALS: Terminals = Terminals {
    input: false,
    output: false,
    errors: false,
};
