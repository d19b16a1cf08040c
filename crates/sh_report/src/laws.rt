//! The limits of what is read, and that what is read of a compact certificate may be filled.
ghost use Rattle.std.specs.Prelude.{◌≡◌, ◌∷◌, [], codes};
ghost use Rattle.sh_domain.specs.Names.{first_names};

pub use sh_accept::laws::fillable;
use sh_domain::MAX_CERTIFICATE;
use sh_tree::{MAX_COMMANDS, MAX_NAMES, MAX_NESTING, MAX_SCRIPT};

/// A script has at most so many bytes, commands and names, and nests no deeper. Among its names are
/// those of its policy and five that every script has. A certificate's text has at most so many
/// bytes.
pub fn limits()
    ensures script { MAX_SCRIPT ≡ 1048576 }
    ensures nesting { MAX_NESTING ≡ 64 }
    ensures commands { MAX_COMMANDS ≡ 65535 }
    ensures names { MAX_NAMES ≡ 4096 }
    ensures first { first_names ≡ codes "IFS" ∷ codes "OPTIND" ∷ codes "PPID" ∷ codes "OPTARG" ∷ codes "!" ∷ [] }
    ensures certificate { MAX_CERTIFICATE ≡ 67108864 }
{}
