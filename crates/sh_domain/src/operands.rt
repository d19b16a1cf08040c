//! The operands of a utility that are names: those after its options.
ghost use Rattle.std.specs.Prelude.{◌≡◌, false, option_map};
ghost use Rattle.sh_domain.specs.Sights as spec;
ghost use Rattle.sh_domain.specs.SightWalks.{seen_in};

use crate::sights::Seen;
use sh_runs::{ends_options, is_dashed, option_takes};

/// The operands of `unset` after its options.
#[tactic(auto, unfolding(crate::specs::Sights::behind_options))]
pub fn behind_options(mut operands: &[Seen]) -> &[Seen]
    ensures { seen_in result.now ≡ spec.behind_options (seen_in operands.entry.now) }
{
    while let [first, rest @ ..] = operands {
        let ends = ends_options(&first.name);
        let dashed = is_dashed(&first.name);
        if ends {
            return rest;
        }
        if !dashed {
            return operands;
        }
        operands = rest;
    }
    operands
}

/// The operands of `read` after its options, or nothing if an option is none of the standard's.
#[tactic(auto, unfolding(crate::specs::Sights::read_behind))]
pub fn read_behind(mut operands: &[Seen]) -> Option<&[Seen]>
    ensures { option_map (λ left. seen_in left.now) result ≡ spec.read_behind false (seen_in operands.entry.now) }
{
    let mut takes = false;
    while let [first, rest @ ..] = operands {
        if takes {
            takes = false;
        } else {
            let ends = ends_options(&first.name);
            let dashed = is_dashed(&first.name);
            if ends {
                return Some(rest);
            }
            if dashed {
                takes = option_takes(&first.name)?;
            } else {
                return Some(operands);
            }
        }
        operands = rest;
    }
    Some(operands)
}
