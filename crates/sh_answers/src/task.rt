//! What the program is asked to do.
use sh_domain::Policy;

/// What is done with a script.
#[derive(Clone, Copy, Debug, PartialEq, Eq)]
pub enum Action {
    /// Looks for findings in it.
    Lint,
    /// Shows the certificate that says most of it: the full one, or the compact one that it is
    /// filled from.
    Cert {
        /// Whether the full one is shown.
        full: bool,
    },
    /// Checks it with a certificate.
    Check,
    /// Prints its canonical text.
    Print,
}

/// What is done, and under which policy.
#[derive(Debug, Drop)]
pub struct Task {
    /// What is done with the script.
    pub action: Action,
    /// What is set when the script starts.
    pub policy: Policy,
}
