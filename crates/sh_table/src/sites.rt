//! The commands of a script by their numbers, those in its words included, each with what is round
//! it.
ghost use Rattle.std.specs.Prelude.{◌≡◌, ℕ, List, map, OnOk, IfOk};
ghost use Rattle.sh_tree.specs.Lists.{elements_from};
ghost use Rattle.sh_tree.specs.standard.program.Trees.{script_of};
ghost use Rattle.sh_tree.specs.standard.program.Words.{operands_in};
ghost use Rattle.sh_runs.specs.Sites as sites;
ghost use Rattle.sh_table.specs.Walks as walks;

use crate::site::{Around, Form, Site};
use crate::walk::{Visitor, walk};
use sh_tree::{Command, Element, Kind, Part, Script, Word, command_name};
use std::alloc::{AllocError, Global};

/// The commands that a walk has met.
#[derive(Drop)]
struct Met {
    found: Vec<Site>,
}

/// Whether the word is plain bytes alone.
#[tactic(auto, unfolding(crate::specs::Walks::is_lone_plain))]
fn is_plain(word: &Word) -> bool
    ensures { result ≡ walks.is_lone_plain word.now.parts }
{
    matches!(word.parts.as_slice(), [Part::Plain(_)])
}

/// Whether the name of a simple command, if it has one, is more than plain bytes.
#[tactic(auto, using(crate::proofs::SiteLemmas::quoted_some, crate::proofs::SiteLemmas::quoted_none))]
fn is_quoted(elements: &[Element]) -> bool
    ensures { (b : List ℕ) → result ≡ walks.is_quoted (operands_in (elements_from b elements.now)) }
{
    match command_name(elements) {
        Some(word) => !is_plain(word),
        None => false,
    }
}

#[tactic(auto, using(crate::proofs::SiteLemmas::forms), unfolding(crate::specs::Walks::seen_form, crate::specs::Walks::shape_of))]
fn form_of(kind: &Kind) -> Form
    ensures { (b : List ℕ) → walks.seen_form b result ≡ walks.shape_of (walks.form_in b kind.now) }
{
    match kind {
        Kind::Simple(elements) => Form::Simple {
            quoted: is_quoted(elements.as_slice()),
        },
        Kind::Define { name, .. } => Form::Defines(*name),
        Kind::Group(_) => Form::Other,
        Kind::Subshell(_) => Form::Other,
        Kind::Cond { .. } => Form::Other,
        Kind::Loop { .. } => Form::Other,
        Kind::For { .. } => Form::Other,
        Kind::Branches { .. } => Form::Other,
    }
}

#[tactic(auto, unfolding(crate::specs::Walks::seen, crate::specs::Walks::outline_of, crate::specs::Walks::site_in))]
fn site_of(around: Around, command: &Command) -> Site
    ensures { (b : List ℕ) → walks.seen b result ≡ walks.outline_of (walks.site_in b around command.now) }
{
    Site {
        number: command.number,
        at: command.at,
        around,
        form: form_of(&command.kind),
    }
}

impl Visitor for Met {
    ghost Kept = { List walks.Outline };

    ghost keeps = { λ b met outlines. map (walks.seen b) met.found.items ≡ outlines };

    ghost with_command = { walks.with_outline };

    type Error = AllocError;

    fn visit(
        &mut self,
        around: Around,
        command: &Command,
        _script: &[u8],
    ) -> Result<(), AllocError> {
        self.found.push(site_of(around, command))?;
        Ok(())
    }
}

/// Puts commands in the order of their numbers.
fn sort_sites(found: &mut Vec<Site>) -> Result<(), AllocError>
    ensures { (b : List ℕ) (ss : List sites.Site) → map (walks.seen b) found.old.items ≡ map walks.outline_of ss → OnOk result (map (walks.seen b) found.new.items ≡ map walks.outline_of (sites.by_number ss)) }
{
    found.sort_by_key(|site| site.number)?;
    Ok(())
}

/// The commands of a script by their numbers, those in its words included, each with what is round
/// it.
///
/// # Errors
///
/// `AllocError` if a growth was refused.
pub fn sites(alloc: Global, tree: &Script, script: &[u8]) -> Result<Vec<Site>, AllocError>
    ensures { IfOk result (λ found. map (walks.seen script.now) found.items ≡ map walks.outline_of (sites.sites_of (script_of script.now tree.now))) }
{
    let mut met = Met {
        found: Vec::new(alloc),
    };
    walk(tree, script, &mut met)?;
    sort_sites(&mut met.found)?;
    Ok(met.found)
}
