//! Words and here-documents are read alike wherever their bytes are. The lemmas are on tokens and
//! readings; `specs/` holds what is exported.
#![tactic(auto)]

pub mod laws;
