//! The call table of a script.
ghost use Rattle.std.specs.Prelude.{◌≡◌, ◌≢◌, ℕ, List, true, ◌<◌, ◌≤◌, ◌-◌, ◌++◌, [], ◌∷◌, length, map, option_map, slice_get, get_or, Some, IfErr, IfOk, IfSome, IsErrOf, OnOk};
ghost use Rattle.std.specs.List.{All, position_from};
ghost use Rattle.std.specs.List.Sorted.{IsNonDecreasingBy};
ghost use Rattle.std.specs.Option.{option_copied};
ghost use Rattle.std.specs.Str.{bytes_eq};
ghost use Rattle.sh_runs.specs.Calls as calls;
ghost use Rattle.sh_table.specs.KeptTable as kept;
ghost use Rattle.sh_table.specs.declared.table.Row as declared;
ghost use Rattle.sh_tree.specs.declared.tree.Script.{Script, out-Script};
ghost use Rattle.sh_tree.specs.standard.Tree.{text_of};
ghost use Rattle.sh_tree.specs.standard.program.Trees.{script_of};
ghost use Rattle.sh_runs.specs.Numbering as numbering;
ghost use Rattle.sh_table.specs.WordTexts.{text_in};
ghost use Rattle.sh_runs.specs.standard.runs.Environment.{is_one_of};

use crate::found::Found;
use crate::functions::{Definition, Functions};
use crate::word_text::WordText;
use sh_runs::kind_of;
use sh_tree::{MAX_COMMANDS, Refusal, Script, Span};
use std::alloc::{AllocError, Global};
use std::marker::Model;

/// A command, by its number, and the texts of its words.
#[derive(Drop)]
pub struct Row {
    pub number: u32,
    pub texts: Vec<WordText>,
}

/// The span of a function's name where it is defined, and the function's place.
#[derive(Clone, Copy)]
pub struct Named {
    pub name: Span,
    pub place: Option<usize>,
}

/// The functions of a script with the commands that define them, and the static text of each word
/// of each simple command.
#[derive(Drop)]
pub struct CallTable<'s> {
    script: &'s [u8],
    functions: Functions,
    rows: Vec<Row>,
    // The function that each row's command calls.
    callees: Vec<Option<u32>>,
    // A name may be long, so its function is found by the span.
    named: Vec<Named>,
}

impl<'s> Model for CallTable<'s> {
    ghost use Rattle.std.specs.Prelude.{◌≤◌, length, map};
    ghost use Rattle.std.specs.List.Sorted.{IsNonDecreasingBy};
    ghost use Rattle.sh_tree.specs.declared.limits.TheConstants.{MAX_COMMANDS};
    ghost use Rattle.sh_runs.specs.Calls as calls;
    ghost use Rattle.sh_table.specs.KeptTable as kept;

    ghost Value = { calls.Table };

    ghost view = { λ t. kept.table_in t.script.now t.functions t.rows.items };

    ghost invariant = { λ t. kept.IsKept t.script.now t.functions t.rows.items t.callees.items t.named.items };
}

// Whether the row at a place is the first with this number, if the numbers of rows do not fall.
fn is_first_at(rows: &[Row], place: usize, command: u32) -> bool
    ensures within { result ≡ true → place < length rows.now }
    ensures here { result ≡ true → (d : declared.Row) → (get_or rows.now place d).number ≡ command }
    ensures before { result ≡ true → 0 < place → (d : declared.Row) → (get_or rows.now (place - 1) d).number < command }
{
    let Some(row) = rows.get(place) else {
        return false;
    };
    row.number == command && (place == 0 || rows[place - 1].number < command)
}

// The place of the first row with this number. It is that of its number, if the rows have all
// numbers from 1, as those of a script that was read do.
fn place_of(rows: &[Row], command: u32) -> Option<usize>
    requires { IsNonDecreasingBy (λ row. row.number) rows.now }
    ensures place { result ≡ kept.place_with command rows.now }
    ensures within { IfSome result (λ place. place < length rows.now) }
{
    let place = (command as usize).saturating_sub(1);
    if is_first_at(rows, place, command) {
        return Some(place);
    }
    let at = rows.partition_point(|row| row.number < command);
    let row = rows.get(at)?;
    if row.number == command {
        Some(at)
    } else {
        None
    }
}

#[tactic(auto, unfolding(sh_runs::specs::Calls::static_at))]
fn text_in_row<'a>(row: &'a Row, word: usize, script: &'a [u8]) -> Option<&'a [u8]>
    ensures { option_map (λ s. s.now) result ≡ calls.static_at (map (text_in script.entry.now) row.entry.now.texts.items) word }
{
    match row.texts.get(word) {
        Some(text) => text.get(script),
        None => None,
    }
}

// Whether the row has a lesser number than the first of these.
#[tactic(auto, unfolding(sh_runs::specs::Numbering::precedes))]
fn precedes(row: &Row, rows: &[Row]) -> bool
    ensures { result ≡ numbering.precedes row.now.number (map (λ r. r.number) rows.now) }
{
    match rows {
        [] => true,
        [next, ..] => row.number < next.number,
    }
}

// Whether each row has a lesser number than the next.
#[tactic(auto, unfolding(sh_runs::specs::Numbering::numbers_rise))]
fn numbers_rise(rows: &[Row]) -> bool
    ensures { result ≡ numbering.numbers_rise (map (λ r. r.number) rows.now) }
{
    let mut left = rows;
    while let [first, rest @ ..] = left {
        if !precedes(first, rest) {
            return false;
        }
        left = rest;
    }
    true
}

// The function that a name calls, by its place from 1.
#[tactic(auto, unfolding(sh_runs::specs::Calls::called))]
fn called(functions: &Functions, name: &[u8]) -> Option<u32>
    requires { length functions.now.names ≤ MAX_COMMANDS }
    ensures { result ≡ calls.called functions.now.names (Some name.now) }
{
    let place = functions.place(name)?;
    if kind_of(name).is_special() {
        return None;
    }
    Some(place as u32 + 1)
}

// The function that a row's command calls.
fn callee_of(row: &Row, functions: &Functions, script: &[u8]) -> Option<u32>
    requires { length functions.now.names ≤ MAX_COMMANDS }
    ensures { result ≡ kept.callee_in script.now functions.now.names row.now }
{
    match functions.names() {
        [] => None,
        [_, ..] => {
            let name = text_in_row(row, 0, script)?;
            called(functions, name)
        }
    }
}

// The functions that the commands of rows call, in their order.
fn callees_of(
    alloc: Global,
    rows: &[Row],
    functions: &Functions,
    script: &[u8],
) -> Result<Vec<Option<u32>>, AllocError>
    requires { length functions.now.names ≤ MAX_COMMANDS }
    ensures { IfOk result (λ callees. callees.items ≡ map (kept.callee_in script.now functions.now.names) rows.now) }
{
    let mut callees = Vec::with_capacity(alloc, rows.len())?;
    for row in rows {
        callees.push(callee_of(row, functions, script))?;
    }
    Ok(callees)
}

// The spans of the names of functions where they are defined, with the functions' places.
fn named_of(
    alloc: Global,
    definitions: &[Definition],
    functions: &Functions,
    script: &[u8],
) -> Result<Vec<Named>, AllocError>
    ensures { IfOk result (λ named. All (kept.IsNamed script.now functions.now.names) named.items) }
{
    let mut named = Vec::with_capacity(alloc, definitions.len())?;
    for definition in definitions {
        let name = definition.name;
        let place = functions.place(name.text(script));
        named.push(Named { name, place })?;
    }
    Ok(named)
}

impl<'s> CallTable<'s> {
    /// The table of a script.
    ///
    /// # Errors
    ///
    /// `TooMany` if there are more functions than a script may have commands. That is never so of a
    /// script that has no more of these than it may, as each has that was read. `Memory` if a
    /// growth was refused, which requires an item.
    pub fn new(alloc: Global, tree: &Script, script: &'s [u8]) -> Result<CallTable<'s>, Refusal>
        ensures tables { calls.Tables script.entry.now tree.now result }
        ensures counted { length (calls.table_of script.entry.now tree.now).rows ≤ MAX_COMMANDS → IfErr result (λ refusal. refusal ≡ Refusal.Memory) }
        ensures memory { IsErrOf result Refusal.Memory → (out-Script tree.now).items ≢ [] }
    {
        if tree.items.is_empty() {
            return Ok(CallTable::empty(alloc, script));
        }
        let Found {
            rows,
            definitions,
            ..
        } = Found::new(alloc, tree, script)?;
        let functions = Functions::new(alloc, definitions.as_slice(), script)?;
        if functions.len() > MAX_COMMANDS as usize {
            return Err(Refusal::TooMany);
        }
        let callees = callees_of(alloc, rows.as_slice(), &functions, script)?;
        let named = named_of(alloc, definitions.as_slice(), &functions, script)?;
        Ok(CallTable {
            script,
            functions,
            rows,
            callees,
            named,
        })
    }

    // The table of a script without items.
    fn empty(alloc: Global, script: &'s [u8]) -> CallTable<'s>
        ensures { (t : Script) → (out-Script t).items ≡ [] → result ≡ calls.table_of script.entry.now t }
    {
        let functions = Functions::none(alloc, script);
        let rows = Vec::new(alloc);
        let callees = Vec::new(alloc);
        let named = Vec::new(alloc);
        CallTable {
            script,
            functions,
            rows,
            callees,
            named,
        }
    }

    /// The commands by their numbers.
    pub fn rows(&self) -> &[Row]
        ensures { map (kept.row_in self.now.script) result.now ≡ self.now.rows }
    {
        self.rows.as_slice()
    }

    // The first command with this number.
    fn row(&self, command: u32) -> Option<&Row>
        ensures { kept.found_texts self.now.script (option_copied result) ≡ calls.texts_with command self.now.rows }
    {
        let place = place_of(self.rows.as_slice(), command)?;
        Some(&self.rows[place])
    }

    /// Whether the numbers of the commands rise, each above the one before it, as those of a script
    /// that was read do. Then each command of the script has a number of its own.
    pub fn is_numbered(&self) -> bool
        ensures rises { result ≡ numbering.numbers_rise (map (λ row. row.0) self.now.rows) }
        ensures numbered { (b : List ℕ) (t : Script) → self.now ≡ calls.table_of b t → result ≡ true → numbering.is_numbered (script_of b t) ≡ true }
    {
        numbers_rise(self.rows.as_slice())
    }

    /// The static texts of the words of a command, the command name's first; none if no simple
    /// command has this number.
    #[tactic(auto, unfolding(crate::specs::KeptTable::found_texts))]
    pub fn texts(&self, command: u32) -> &[WordText]
        ensures { map (text_in self.now.script) result.now ≡ calls.texts_with command self.now.rows }
    {
        match self.row(command) {
            Some(row) => row.texts.as_slice(),
            None => &[],
        }
    }

    /// The static text of a word of a command, the command name being word 0 (XCU 2.2). Nothing if
    /// the word has none, or if no such word or simple command is there.
    pub fn text(&self, command: u32, word: u32) -> Option<&[u8]>
        ensures { option_map (λ s. s.now) result ≡ calls.text_at self.now command word }
    {
        let row = self.row(command)?;
        text_in_row(row, word as usize, self.script)
    }

    /// The names of the functions, in the order of their first definitions, which is that of their
    /// numbers from 1 (XCU 2.9.5).
    pub fn functions(&self) -> &[Vec<u8>]
        ensures names { map (λ name. name.items) result.now ≡ self.now.functions.names }
        ensures few { length result.now ≤ MAX_COMMANDS }
    {
        self.functions.names()
    }

    /// The place of a function of this name, if the script has one (XCU 2.9.5).
    pub fn function_place(&self, name: &[u8]) -> Option<usize>
        ensures { result ≡ position_from (λ other. bytes_eq other name.now) 0 self.now.functions.names }
    {
        self.functions.place(name)
    }

    /// The place of the function whose name is at a span, if the script has one (XCU 2.9.5). If a
    /// definition has its name there, the length of the name takes no time.
    pub fn function_at(&self, name: Span) -> Option<usize>
        ensures { result ≡ position_from (λ other. bytes_eq other (text_of self.now.script name)) 0 self.now.functions.names }
    {
        let at = self
            .named
            .partition_point(|named| named.name.start < name.start);
        match self.named.get(at) {
            Some(named) if named.name == name => named.place,
            _ => self.function_place(name.text(self.script)),
        }
    }

    /// Whether the script has a function of this name (XCU 2.9.5).
    pub fn is_function(&self, name: &[u8]) -> bool
        ensures { result ≡ is_one_of self.now.functions.names name.now }
    {
        self.function_place(name).is_some()
    }

    /// The numbers of the commands that define a function.
    pub fn definitions(&self, function: u32) -> &[u32]
        requires some { 0 < function }
        requires within { function ≤ length self.now.functions.names }
        ensures { slice_get self.now.functions.definitions (function - 1) ≡ Some result.now }
    {
        self.functions.definitions(function as usize - 1)
    }

    /// The function that a command calls, if it is a simple command whose name is static and a
    /// function's. The name is no special built-in utility's (XCU 2.9.1.4).
    pub fn callee(&self, command: u32) -> Option<u32>
        ensures { result ≡ calls.callee_at self.now command }
    {
        let place = place_of(self.rows.as_slice(), command)?;
        self.callees[place]
    }
}
