//! The form of a line of a certificate: which fields it has.
ghost use Rattle.std.specs.Prelude.{◌≡◌, ◌<◌, ◌∷◌, [], option_map, is_some, is_none, if◌then◌else◌, ◌&&◌, ◌*◌, ◌+◌, ◌-◌, nat_le, codes, Some, None};
ghost use Rattle.std.specs.Char.{is_ascii_digit};
ghost use Rattle.std.specs.Fmt.{decimal};
ghost use Rattle.std.specs.Str.{bytes_eq};
ghost use Rattle.sh_facts.specs.Fields as field;
ghost use Rattle.sh_domain.specs.Forms as form;
ghost use Rattle.sh_domain.specs.Sheets as text;

use crate::splits::{cut, first_piece};
use sh_domain::precedes;
use sh_tree::is_name;

/// The numbers of commands and of functions in a second line.
#[derive(Clone, Copy, Debug, PartialEq, Eq)]
pub struct Counts {
    pub commands: u16,
    pub functions: u16,
}

/// What a set of names holds.
#[derive(Clone, Copy, Debug, PartialEq, Eq)]
pub enum Held {
    /// Variables, and `!`, the last asynchronous list.
    Variables,
    Functions,
}

/// Two sets of names, each a text with commas between the names.
#[derive(Clone, Copy, Debug)]
pub struct SetTexts<'t> {
    pub vars: &'t [u8],
    pub functions: &'t [u8],
}

/// The facts of a field.
#[derive(Clone, Copy, Debug)]
pub enum FactText<'t> {
    NotReached,
    Known { args: u16, sets: SetTexts<'t> },
}

/// The facts of a command's line.
#[derive(Clone, Copy, Debug)]
pub struct CommandTexts<'t> {
    pub before: FactText<'t>,
    pub zero: FactText<'t>,
    pub nonzero: FactText<'t>,
    pub head: Option<FactText<'t>>,
}

/// The facts of a function's line.
#[derive(Clone, Copy, Debug)]
pub struct FunctionTexts<'t> {
    pub before: FactText<'t>,
    pub drops: SetTexts<'t>,
    pub zero: FactText<'t>,
    pub nonzero: FactText<'t>,
}

/// The counts in a second line, if it is one.
pub fn counts_in(line: &[u8]) -> Option<Counts>
    ensures { option_map field.counts_of result ≡ form.counts_in line.now }
{
    let (commands_word, left) = cut(line, b' ')?;
    let (commands, left) = cut(left, b' ')?;
    let (functions_word, functions) = cut(left, b' ')?;
    if is_counts(commands_word, functions_word) {
        counts_of(commands, functions)
    } else {
        None
    }
}

/// Whether these are the words of the first two counts.
pub fn is_counts(first: &[u8], second: &[u8]) -> bool
    ensures { result ≡ (bytes_eq (codes "commands") first.now && bytes_eq (codes "functions") second.now) }
{
    b"commands".as_slice() == first && b"functions".as_slice() == second
}

#[tactic(auto, unfolding(sh_domain::specs::Forms::both))]
fn counts_of(commands: &[u8], functions: &[u8]) -> Option<Counts>
    ensures { option_map field.counts_of result ≡ form.both (λ x y. (x, y)) (form.number_in commands.now) (form.number_in functions.now) }
{
    Some(Counts {
        commands: number_in(commands)?,
        functions: number_in(functions)?,
    })
}

/// The facts in the line of the command of a number, if it is one.
pub fn command_in(number: u16, line: &[u8]) -> Option<CommandTexts<'_>>
    ensures { option_map field.command_of result ≡ form.command_in number line.now }
{
    command_facts(behind_number(b'c', number, line)?)
}

/// The facts in the line of the function of a number, if it is one.
pub fn function_in(number: u16, line: &[u8]) -> Option<FunctionTexts<'_>>
    ensures { option_map field.function_of result ≡ form.function_in number line.now }
{
    function_facts(behind_number(b'f', number, line)?)
}

// What follows the letter and the number of a line, if these begin it.
fn behind_number(letter: u8, number: u16, line: &[u8]) -> Option<&[u8]>
    ensures { option_map (λ t. form.pieces 32 t.now) result ≡ field.behind_number letter number (form.pieces 32 line.now) }
{
    let (first, left) = cut(line, b' ')?;
    let (digits, facts) = cut(left, b' ')?;
    if is_letter(letter, first) && is_number(number, digits) {
        Some(facts)
    } else {
        None
    }
}

/// Whether the text is this letter.
pub fn is_letter(letter: u8, text: &[u8]) -> bool
    ensures { result ≡ bytes_eq (letter ∷ []) text.now }
{
    match text {
        [first] => letter == *first,
        _ => false,
    }
}

fn is_number(number: u16, text: &[u8]) -> bool
    ensures { result ≡ bytes_eq (decimal number) text.now }
{
    number_in(text) == Some(number)
}

fn command_facts(text: &[u8]) -> Option<CommandTexts<'_>>
    ensures { option_map field.command_of result ≡ field.command_behind (form.pieces 32 text.now) }
{
    let (before, left) = cut(text, b' ')?;
    let (zero, left) = cut(left, b' ')?;
    let (nonzero, head) = first_piece(left, b' ');
    command_texts(before, zero, nonzero, head)
}

#[tactic(auto, unfolding(sh_domain::specs::Forms::claims_of))]
fn command_texts<'t>(
    before: &'t [u8],
    zero: &'t [u8],
    nonzero: &'t [u8],
    head: Option<&'t [u8]>,
) -> Option<CommandTexts<'t>>
    ensures { option_map field.command_of result ≡ form.claims_of (form.claim_in before.entry.now) (form.claim_in zero.entry.now) (form.claim_in nonzero.entry.now) (form.head_of (field.pieces_left 32 head.entry)) }
{
    Some(CommandTexts {
        before: fact_in(before)?,
        zero: fact_in(zero)?,
        nonzero: fact_in(nonzero)?,
        head: head_in(head)?,
    })
}

#[tactic(auto, using(crate::proofs::FormLemmas::head_sole), unfolding(sh_domain::specs::Forms::head_of, crate::specs::Fields::pieces_left))]
fn head_in(text: Option<&[u8]>) -> Option<Option<FactText<'_>>>
    ensures { option_map (option_map field.claim_of) result ≡ form.head_of (field.pieces_left 32 text.entry) }
{
    match text {
        None => Some(None),
        Some(head) => Some(Some(fact_in(head)?)),
    }
}

fn function_facts(text: &[u8]) -> Option<FunctionTexts<'_>>
    ensures { option_map field.function_of result ≡ field.function_behind (form.pieces 32 text.now) }
{
    let (before, left) = cut(text, b' ')?;
    let (drops, left) = cut(left, b' ')?;
    let (zero, nonzero) = cut(left, b' ')?;
    function_texts(before, drops, zero, nonzero)
}

#[tactic(auto, unfolding(sh_domain::specs::Forms::function_claims_of))]
fn function_texts<'t>(
    before: &'t [u8],
    drops: &'t [u8],
    zero: &'t [u8],
    nonzero: &'t [u8],
) -> Option<FunctionTexts<'t>>
    ensures { option_map field.function_of result ≡ form.function_claims_of (form.claim_in before.entry.now) (form.drops_in drops.entry.now) (form.claim_in zero.entry.now) (form.claim_in nonzero.entry.now) }
{
    Some(FunctionTexts {
        before: fact_in(before)?,
        drops: sets_in(drops)?,
        zero: fact_in(zero)?,
        nonzero: fact_in(nonzero)?,
    })
}

/// The facts of a field: `-`, or the count of parameters and the two sets.
#[tactic(auto, unfolding(sh_domain::specs::Forms::claim_in))]
pub fn fact_in(text: &[u8]) -> Option<FactText<'_>>
    ensures { option_map field.claim_of result ≡ form.claim_in text.now }
{
    if matches!(text, b"-") {
        return Some(FactText::NotReached);
    }
    let (args, sets) = cut(text, b':')?;
    known_in(args, sets)
}

#[tactic(auto, unfolding(sh_domain::specs::Forms::both, crate::specs::Fields::claim_of))]
fn known_in<'t>(args: &[u8], sets: &'t [u8]) -> Option<FactText<'t>>
    ensures { option_map field.claim_of result ≡ form.both field.known (form.number_in args.now) (form.drops_in sets.entry.now) }
{
    Some(FactText::Known {
        args: number_in(args)?,
        sets: sets_in(sets)?,
    })
}

fn sets_in(text: &[u8]) -> Option<SetTexts<'_>>
    ensures { option_map field.sets_of result ≡ form.drops_in text.now }
{
    let (vars, functions) = cut(text, b':')?;
    if are_names(Held::Variables, vars) && are_names(Held::Functions, functions) {
        Some(SetTexts { vars, functions })
    } else {
        None
    }
}

// Whether these are names with commas between them, or nothing.
#[tactic(auto, unfolding(sh_domain::specs::Forms::names_in))]
fn are_names(held: Held, text: &[u8]) -> bool
    ensures { result ≡ is_some (form.names_in (field.test_of held) text.now) }
{
    text.is_empty() || are_rising(held, text)
}

// Whether the pieces between commas are names in rising byte order.
fn are_rising(held: Held, text: &[u8]) -> bool
    ensures { result ≡ form.are_rising (field.test_of held) (form.pieces 44 text.now) }
{
    let mut last: &[u8] = b"";
    let mut left = Some(text);
    while let Some(names) = left {
        let (name, behind) = first_piece(names, b',');
        if !is_held(held, name) || !precedes(last, name) {
            return false;
        }
        last = name;
        left = behind;
    }
    true
}

#[tactic(auto, unfolding(crate::specs::Fields::test_of))]
fn is_held(held: Held, name: &[u8]) -> bool
    ensures { result ≡ field.test_of held name.now }
{
    match held {
        Held::Variables => is_name(name) || name == b"!".as_slice(),
        Held::Functions => is_name(name),
    }
}

/// The number that a text writes in decimal digits, without a leading zero.
pub fn number_in(text: &[u8]) -> Option<u16>
    ensures { result ≡ form.number_in text.now }
{
    if !leads_no_zero(text) {
        return None;
    }
    let mut value: u16 = 0;
    for byte in text {
        value = with_digit(value, *byte)?;
    }
    Some(value)
}

// The number with one digit more.
fn with_digit(value: u16, byte: u8) -> Option<u16>
    ensures { result ≡ (if is_ascii_digit byte && nat_le (value * 10 + (byte - 48)) 65535 then Some (value * 10 + (byte - 48)) else None) }
{
    if !byte.is_ascii_digit() {
        return None;
    }
    value.checked_mul(10)?.checked_add((byte - b'0') as u16)
}

#[tactic(auto, unfolding(sh_domain::specs::Forms::leads_no_zero))]
fn leads_no_zero(text: &[u8]) -> bool
    ensures { result ≡ form.leads_no_zero text.now }
{
    match text {
        [] => false,
        [_] => true,
        [first, _, ..] => *first != b'0',
    }
}
