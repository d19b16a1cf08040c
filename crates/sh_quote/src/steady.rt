//! Whether IFS separates numbers anywhere in a script.
ghost use Rattle.std.specs.Prelude.{◌≡◌, true, Option};
ghost use Rattle.sh_tree.specs.standard.program.Trees.{script_of};
ghost use Rattle.sh_runs.specs.Calls as table;
ghost use Rattle.sh_runs.specs.Numbering.{is_numbered};
ghost use Rattle.sh_quote.specs.Steady as definition;
ghost use Rattle.sh_quote.specs.Commands as spec;

use crate::commands::command_is_steady;
use sh_table::walk::{Visitor, walk};
use sh_table::{Around, CallTable};
use sh_tree::{Command, Script};
use std::convert::Infallible;

/// Whether each command that was visited leaves IFS to what separates no numbers.
#[derive(Drop)]
struct Watch<'t, 's> {
    calls: &'t CallTable<'s>,
    steady: bool,
}

impl<'t, 's> Visitor for Watch<'t, 's> {
    ghost Kept = { Option spec.Kept };

    ghost keeps = { λ b s k. spec.kept_of b s.calls.now s.steady ≡ k };

    ghost with_command = { spec.with_command };

    type Error = Infallible;

    fn visit(
        &mut self,
        _around: Around,
        command: &Command,
        script: &[u8],
    ) -> Result<(), Infallible> {
        let leaves = command_is_steady(command, self.calls.texts(command.number), script);
        self.steady &= leaves;
        Ok(())
    }
}

/// Whether IFS never has a value that separates numbers, whatever a script does, as far as its text
/// shows. Every assignment to it is static and has no digit and no `-`. No utility, `for` or
/// expansion could set it otherwise (XCU 2.6.5). The test takes no memory.
pub fn steady_ifs(tree: &Script, calls: &CallTable, script: &[u8]) -> bool
    requires table { calls.now ≡ table.table_of script.now tree.now }
    requires numbered { is_numbered (script_of script.now tree.now) ≡ true }
    ensures { result ≡ definition.steady (script_of script.now tree.now) }
{
    let mut watch = Watch {
        calls,
        steady: true,
    };
    match walk(tree, script, &mut watch) {
        Ok(()) => watch.steady,
        Err(never) => match never {},
    }
}
