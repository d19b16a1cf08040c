//! A script with its names, its call table and a certificate of it.
ghost use Rattle.std.specs.Prelude.{length, ◌≡◌};
ghost use Rattle.sh_domain.specs.Knowledge.{AreNumbered};

use sh_domain::{Certificate, Names};
use sh_table::CallTable;

/// A script, its names, its call table, whose functions the certificate numbers, and a certificate
/// of it.
#[derive(Drop)]
pub struct Claims<'a> {
    pub script: &'a [u8],
    pub names: &'a Names,
    pub calls: &'a CallTable<'a>,
    pub certificate: &'a Certificate,
    ghost numbered: { AreNumbered names.now },
    ghost sized: { certificate.now.rows.count ≡ length names.now },
    ghost read: { calls.now.script ≡ script.now },
}
