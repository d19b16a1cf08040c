//! The rows and the definitions of a script's commands, made in one walk.
ghost use Rattle.std.specs.Prelude.{◌≡◌, ◌++◌, ◌∷◌, [], ℕ, List, map, IfOk, OnOk, option_map};
ghost use Rattle.std.specs.List.{filter_map};
ghost use Rattle.sh_tree.specs.standard.Tree.{text_of};
ghost use Rattle.sh_tree.specs.declared.tree.Command.{out-Command};
ghost use Rattle.sh_tree.specs.standard.program.Trees.{script_of};
ghost use Rattle.sh_runs.specs.Calls as calls;
ghost use Rattle.sh_table.specs.KeptTable as kept;
ghost use Rattle.sh_table.specs.Found as spec;
ghost use Rattle.sh_runs.specs.Sites as sites;
ghost use Rattle.sh_table.specs.Walks as walks;

use crate::functions::Definition;
use crate::site::Around;
use crate::table::Row;
use crate::walk::{Visitor, walk};
use crate::word_text::texts_of;
use sh_tree::{Command, Kind, Script, Span};
use std::alloc::{AllocError, Global};

/// The row of each command, and the definitions of functions.
#[derive(Drop)]
pub struct Found {
    alloc: Global,
    pub rows: Vec<Row>,
    pub definitions: Vec<Definition>,
}

fn add_row(
    alloc: Global,
    command: &Command,
    script: &[u8],
    rows: &mut Vec<Row>,
) -> Result<(), AllocError>
    ensures { OnOk result (map (kept.row_in script.now) rows.new.items ≡ map (kept.row_in script.now) rows.old.items ++ spec.row_at script.now command.now ∷ []) }
{
    let texts = texts_of(alloc, command.elements(), script)?;
    rows.push(Row {
        number: command.number,
        texts,
    })?;
    Ok(())
}

/// The name of the function that a command defines.
#[tactic(auto, using(crate::proofs::SiteLemmas::forms), unfolding(sh_runs::specs::Calls::defined))]
fn defined_name(kind: &Kind) -> Option<Span>
    ensures { (b : List ℕ) → option_map (text_of b) result ≡ calls.defined (walks.form_in b kind.now) }
{
    match kind {
        Kind::Define { name, .. } => Some(*name),
        Kind::Simple(_) => None,
        Kind::Group(_) => None,
        Kind::Subshell(_) => None,
        Kind::Cond { .. } => None,
        Kind::Loop { .. } => None,
        Kind::For { .. } => None,
        Kind::Branches { .. } => None,
    }
}

fn add_definition(command: &Command, definitions: &mut Vec<Definition>) -> Result<(), AllocError>
    ensures { (b : List ℕ) → OnOk result (map (spec.definition_in b) definitions.new.items ≡ map (spec.definition_in b) definitions.old.items ++ filter_map (spec.defined_by b) (command.now ∷ [])) }
{
    match defined_name(&command.kind) {
        Some(name) => {
            definitions.push(Definition {
                number: command.number,
                name,
            })?;
            Ok(())
        }
        None => Ok(()),
    }
}

impl Visitor for Found {
    ghost Kept = { spec.Found };

    ghost keeps = { λ b f found. spec.found_in b f.rows.items f.definitions.items ≡ found };

    ghost with_command = { spec.with_command };

    type Error = AllocError;

    fn visit(
        &mut self,
        _around: Around,
        command: &Command,
        script: &[u8],
    ) -> Result<(), AllocError> {
        add_row(self.alloc, command, script, &mut self.rows)?;
        add_definition(command, &mut self.definitions)
    }
}

/// Puts rows in the order of their commands' numbers.
fn sort_rows(rows: &mut Vec<Row>) -> Result<(), AllocError>
    ensures { (b : List ℕ) (ss : List sites.Site) → map (kept.row_in b) rows.old.items ≡ map calls.row_of ss → OnOk result (map (kept.row_in b) rows.new.items ≡ map calls.row_of (sites.by_number ss)) }
{
    rows.sort_by_key(|row| row.number)?;
    Ok(())
}

/// Puts definitions in the order of their commands' numbers.
fn sort_definitions(definitions: &mut Vec<Definition>) -> Result<(), AllocError>
    ensures { (b : List ℕ) (ss : List sites.Site) → map (spec.definition_in b) definitions.old.items ≡ filter_map spec.definition_of ss → OnOk result (map (spec.definition_in b) definitions.new.items ≡ filter_map spec.definition_of (sites.by_number ss)) }
{
    definitions.sort_by_key(|definition| definition.number)?;
    Ok(())
}

impl Found {
    /// Those of a script, by the numbers of its commands.
    ///
    /// # Errors
    ///
    /// `AllocError` if a growth was refused.
    pub fn new(alloc: Global, tree: &Script, script: &[u8]) -> Result<Found, AllocError>
        ensures rows { IfOk result (λ found. map (kept.row_in script.now) found.rows.items ≡ map calls.row_of (sites.sites_of (script_of script.now tree.now))) }
        ensures definitions { IfOk result (λ found. map (spec.definition_in script.now) found.definitions.items ≡ filter_map spec.definition_of (sites.sites_of (script_of script.now tree.now))) }
    {
        let mut found = Found {
            alloc,
            rows: Vec::new(alloc),
            definitions: Vec::new(alloc),
        };
        walk(tree, script, &mut found)?;
        sort_rows(&mut found.rows)?;
        sort_definitions(&mut found.definitions)?;
        Ok(found)
    }
}
