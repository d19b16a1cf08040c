//! The functions of a script, by first definition.
ghost use Rattle.std.specs.Prelude.{◌≡◌, ◌<◌, [], List, length, map, IfOk, IfSome, OnOk, None, Some, slice_get};
ghost use Rattle.std.specs.List.{filter_map, position_from};
ghost use Rattle.std.specs.Str.{bytes_eq};
ghost use Rattle.sh_runs.specs.Calls.{functions_of};
ghost use Rattle.sh_table.specs.KeptTable.{functions_in, with_definition};
ghost use Rattle.sh_table.specs.Found as found;
ghost use Rattle.sh_runs.specs.Sites.{Site};

use indexmap::IndexSet;
use sh_hash::NameHash;
use sh_tree::Span;
use std::alloc::{AllocError, Global};
use std::marker::Model;

/// A function definition: the number of its command, and the function's name.
#[derive(Clone, Copy)]
pub struct Definition {
    pub number: u32,
    pub name: Span,
}

/// The names of functions, and for each the numbers of the commands that define it.
#[derive(Drop)]
pub struct Functions {
    names: IndexSet<Vec<u8>, NameHash>,
    definitions: Vec<Vec<u32>>,
}

impl Model for Functions {
    ghost use Rattle.std.specs.Prelude.{◌≤◌, length};
    ghost use Rattle.sh_runs.specs.Calls as calls;
    ghost use Rattle.sh_table.specs.KeptTable as kept;

    ghost Value = { calls.Functions };

    ghost view = { λ f. kept.functions_in f.names.keys f.definitions.items };

    ghost invariant = { λ f. length f.names.keys ≤ length f.definitions.items };
}

impl Functions {
    /// No functions of a script.
    pub fn none(alloc: Global, script: &[u8]) -> Functions
        ensures { result ≡ functions_in [] [] }
    {
        Functions {
            names: IndexSet::with_hasher(alloc, NameHash::of(script, &[])),
            definitions: Vec::new(alloc),
        }
    }

    /// The functions that commands define, by their definitions in the order of the commands.
    ///
    /// # Errors
    ///
    /// `AllocError` if a growth was refused.
    pub fn new(
        alloc: Global,
        definitions: &[Definition],
        script: &[u8],
    ) -> Result<Functions, AllocError>
        ensures { (ss : List Site) → map (found.definition_in script.now) definitions.now ≡ filter_map found.definition_of ss → IfOk result (λ functions. functions ≡ functions_of ss) }
    {
        let mut functions = Functions::none(alloc, script);
        for definition in definitions {
            functions.add(alloc, definition.name.text(script), definition.number)?;
        }
        Ok(functions)
    }

    /// The names.
    pub fn names(&self) -> &[Vec<u8>]
        ensures { map (λ v. v.items) result.now ≡ self.now.names }
    {
        self.names.as_slice()
    }

    /// How many there are.
    pub fn len(&self) -> usize
        ensures { result ≡ length self.now.names }
    {
        self.names.len()
    }

    /// The place of a name, if it is a function's.
    pub fn place(&self, name: &[u8]) -> Option<usize>
        ensures place { result ≡ position_from (λ other. bytes_eq other name.now) 0 self.now.names }
        ensures within { IfSome result (λ place. place < length self.now.names) }
    {
        self.names.get_index_of(name)
    }

    /// The definitions of the function at a place.
    pub fn definitions(&self, place: usize) -> &[u32]
        requires { place < length self.now.names }
        ensures { slice_get self.now.definitions place ≡ Some result.now }
    {
        self.definitions[place].as_slice()
    }

    /// Adds a definition.
    fn add(&mut self, alloc: Global, name: &[u8], number: u32) -> Result<(), AllocError>
        ensures { OnOk result (self.new ≡ with_definition self.old name.now number) }
    {
        match self.names.get_index_of(name) {
            Some(index) => {
                self.definitions[index].push(number)?;
                Ok(())
            }
            None => self.add_first(alloc, name, number),
        }
    }

    /// Adds the first definition of a name.
    fn add_first(&mut self, alloc: Global, name: &[u8], number: u32) -> Result<(), AllocError>
        requires { position_from (λ other. bytes_eq other name.now) 0 self.old.names ≡ None }
        ensures { OnOk result (self.new ≡ with_definition self.old name.now number) }
    {
        let own = Vec::from_slice(alloc, name)?;
        let mut numbers = Vec::new(alloc);
        numbers.push(number)?;
        self.definitions.push(numbers)?;
        self.names.insert(own)?;
        Ok(())
    }
}
