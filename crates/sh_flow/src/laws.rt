//! What holds of the runs of a script whose rules and demands hold, and of the certificate that a
//! compact one is filled to.

pub use sh_domain::laws::filled;
pub use sh_sound::laws::no_unset;
