//! The counts that are claimed are lowered to the greatest that the equations of a script allow.
ghost use Rattle.std.specs.Prelude.{IfOk};
ghost use Rattle.sh_tree.specs.standard.program.Trees.{script_of};
ghost use Rattle.sh_tally.specs.Walks.{AreOver};

use crate::bounds::Tally;
use crate::views::Views;
use sh_counts::{Equations, solve};
use sh_rules::alone;
use sh_tree::Script;
use std::alloc::{AllocError, Global};

impl Tally<'_> {
    /// Counts at the places of a script, which solve its equations. No certificate that keeps the
    /// flow rules has a greater one at such a place.
    ///
    /// # Errors
    ///
    /// If a growth was refused.
    pub fn lowered(&self, alloc: Global, tree: &Script) -> Result<Vec<u16>, AllocError>
        ensures { IfOk result (λ counts. AreOver self.now (script_of self.now.script.now tree.now) counts.items) }
    {
        let mut equations = Equations::none(alloc);
        self.places.add_all(&mut equations)?;
        let outside = alone();
        self.list(&mut equations, &outside, Views::NONE, tree)?;
        solve(alloc, &equations)
    }
}
