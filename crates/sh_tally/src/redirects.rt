//! The tally goes over the redirections of compound commands for the counts of positional
//! parameters at their places (XCU 2.7, 2.9.4).
ghost use Rattle.std.specs.Prelude.{IfOk};
ghost use Rattle.sh_tree.specs.Lists.{redirects_from};
ghost use Rattle.sh_domain.specs.Entries as entries;
ghost use Rattle.sh_domain.specs.Gains as gains;
ghost use Rattle.sh_tally.specs.Walks.{AddsRedirects, Passes};

use crate::bounds::Tally;
use crate::places::Part;
use crate::views::Views;
use sh_counts::{Change, Equations};
use sh_tree::Redirect;
use std::alloc::AllocError;

impl Tally<'_> {
    /// Goes over redirections, one after the other. Returns what is known after them.
    ///
    /// # Errors
    ///
    /// If a growth was refused.
    #[cycle(tally)]
    pub fn redirects(
        &self,
        equations: &mut Equations,
        known: Views,
        redirects: &[Redirect],
    ) -> Result<Views, AllocError>
        ensures { IfOk result (λ left. Passes self.now (λ q. entries.redirects_entered q (redirects_from self.now.script.now redirects.now)) (gains.redirects_gains (redirects_from self.now.script.now redirects.now)) known left equations.old equations.new) }
    {
        let mut left = known;
        for redirect in redirects {
            left = self.target(equations, left, &redirect.target)?;
        }
        Ok(left)
    }

    /// Adds that the count after a command of which a redirection failed is at most what is known
    /// before it.
    ///
    /// # Errors
    ///
    /// If a growth was refused.
    pub fn not_redirected(
        &self,
        equations: &mut Equations,
        number: u32,
        redirects: &[Redirect],
    ) -> Result<(), AllocError>
        ensures { IfOk result (λ unit. AddsRedirects self.now number (redirects_from self.now.script.now redirects.now) equations.old equations.new) }
    {
        match redirects {
            [] => Ok(()),
            [_, ..] => {
                let before = Views::at(Part::Before.of(number));
                self.bound(equations, Part::Nonzero.of(number), before, Change::NONE)
            }
        }
    }
}
