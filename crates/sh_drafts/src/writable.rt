//! Which names a text of a certificate may have.
ghost use Rattle.std.specs.Prelude.{◌≡◌, ◌<◌, ◌==◌, ◌&&◌, ◌||◌, ℕ, List, true};
ghost use Rattle.sh_tree.specs.declared.limits.TheConstants.{MAX_NAMES};
ghost use Rattle.sh_tree.specs.standard.language.Bytes.{is_name};
ghost use Rattle.sh_tree.specs.standard.program.Syntax.{Text};
ghost use Rattle.sh_domain.specs.Forms as form;
ghost use Rattle.sh_domain.specs.NumberSets.{numbers_of};
ghost use Rattle.sh_drafts.specs.Working.{AreWithin};
ghost use Rattle.sh_drafts.specs.Writable.{HasWritable, IsWritten, sets_in};

use sh_domain::{Names, NumberSet};
use sh_tree::{MAX_NAMES, is_name};

/// The names of a script that a text may have, by their numbers: those of variables, `!` among
/// them, and those of functions.
#[derive(Clone, Copy, Debug)]
pub struct Writable {
    pub vars: NumberSet,
    pub functions: NumberSet,
}

fn is_variable(name: &[u8]) -> bool
    ensures { result ≡ form.is_variable name.now }
{
    is_name(name) || name == b"!".as_slice()
}

// Adds a number, if it is one of these.
fn add_if(set: &mut NumberSet, is_one: bool, number: u32)
    requires { number < MAX_NAMES }
    ensures { (k : ℕ) → numbers_of set.new k ≡ ((is_one && (k == number)) || numbers_of set.old k) }
{
    if is_one {
        set.add(number);
    }
}

impl Writable {
    /// Of the names of a script.
    pub fn of(names: &Names) -> Writable
        ensures written { IsWritten names.now (sets_in result.vars result.functions) }
        ensures all { HasWritable names.now MAX_NAMES (sets_in result.vars result.functions) }
    {
        let mut vars = NumberSet::new();
        let mut functions = NumberSet::new();
        for number in 0..names.count().min(MAX_NAMES as u32) {
            let name = names.name(number);
            add_if(&mut vars, is_variable(name), number);
            add_if(&mut functions, is_name(name), number);
        }
        Writable { vars, functions }
    }

    /// Whether a text may have these variables and these functions.
    pub fn has(&self, vars: &NumberSet, functions: &NumberSet) -> bool
        ensures written { result ≡ true → (names : List Text) → IsWritten names (sets_in self.now.vars self.now.functions) → IsWritten names (sets_in vars.now functions.now) }
        ensures all { AreWithin (sets_in vars.now functions.now) (sets_in self.now.vars self.now.functions) → result ≡ true }
    {
        vars.is_within(&self.vars) && functions.is_within(&self.functions)
    }
}
