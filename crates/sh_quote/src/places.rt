//! The places where the rules of quoting are broken.
ghost use Rattle.std.specs.Prelude.{◌≡◌, ◌<◌, true, length, IfOk, IfErr};
ghost use Rattle.sh_tree.specs.standard.program.Trees.{script_of};
ghost use Rattle.sh_runs.specs.Calls as table;
ghost use Rattle.sh_runs.specs.Numbering.{is_numbered};
ghost use Rattle.sh_quote.specs.Places as definition;
ghost use Rattle.sh_quote.specs.Unquoted as spec;

use crate::steady::steady_ifs;
use crate::unquoted::add_command;
use sh_table::walk::{Visitor, walk};
use sh_table::{Around, CallTable};
use sh_tree::{Command, Place, Script};
use std::alloc::{AllocError, Global};
use std::convert::Infallible;

/// The places in the commands that were visited, until memory runs out; then no more than that
/// there are some.
#[derive(Drop)]
struct Unquoted<'t, 's> {
    calls: &'t CallTable<'s>,
    steady: bool,
    places: Vec<Place>,
    is_short: bool,
}

impl<'t, 's> Visitor for Unquoted<'t, 's> {
    ghost Kept = { spec.Kept };

    ghost keeps = { λ b s k. spec.Keeps s.is_short (record { table = s.calls.now; steady = s.steady; places = s.places.items }) k };

    ghost with_command = { spec.with_command };

    type Error = Infallible;

    fn visit(
        &mut self,
        _around: Around,
        command: &Command,
        script: &[u8],
    ) -> Result<(), Infallible> {
        if self.is_short {
            return Ok(());
        }
        let name = self.calls.text(command.number, 0);
        let added = add_command(command, name, self.steady, script, &mut self.places);
        self.is_short = added.is_err();
        Ok(())
    }
}

/// The places of the expansions that field splitting or pathname expansion could change (XCU 2.6.5,
/// 2.6.6). Each is of an expansion outside quotes in a word whose fields are split. Numbers have
/// none if IFS is steady and the word is no pattern, and quoted alternatives have none. The places
/// are in the order of the commands, a command before those in it.
///
/// # Errors
///
/// If memory runs out. That requires a place.
pub fn check_quotes(
    alloc: Global,
    tree: &Script,
    calls: &CallTable,
    script: &[u8],
) -> Result<Vec<Place>, AllocError>
    requires table { calls.now ≡ table.table_of script.now tree.now }
    requires numbered { is_numbered (script_of script.now tree.now) ≡ true }
    ensures places { IfOk result (λ places. places.items ≡ definition.unquoted (script_of script.now tree.now)) }
    ensures memory { IfErr result (λ _. 0 < length (definition.unquoted (script_of script.now tree.now))) }
{
    let mut unquoted = Unquoted {
        calls,
        steady: steady_ifs(tree, calls, script),
        places: Vec::new(alloc),
        is_short: false,
    };
    match walk(tree, script, &mut unquoted) {
        Ok(()) => {
            if unquoted.is_short {
                Err(AllocError)
            } else {
                Ok(unquoted.places)
            }
        }
        Err(never) => match never {},
    }
}
