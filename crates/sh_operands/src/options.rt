//! Operands after options, by their static texts (XBD 12.2, XCU 2.15).
ghost use Rattle.std.specs.Prelude.{IfSome, ◌≡◌, ◌==◌, ◌≤◌, length, drop, map, option_map, false};
ghost use Rattle.std.specs.List.{list_all};
ghost use Rattle.sh_runs.specs.ReadOptions.{read_operands};
ghost use Rattle.sh_table.specs.WordTexts.{text_in};
ghost use Rattle.sh_operands.specs.Texts as spec;

use sh_runs::{ends_options, is_dashed, option_takes};
use sh_table::{WordText, ends_in_o, is_set_option};

/// The letters of the options of `unset`: whether there are some, and whether all of them are `v`,
/// or all `f`.
#[derive(Clone, Copy, Debug, PartialEq, Eq)]
pub struct Letters {
    any: bool,
    only_variables: bool,
    only_functions: bool,
}

fn are_all(letters: &[u8], letter: u8) -> bool
    ensures { result ≡ list_all (λ c. c == letter) letters.now }
{
    letters.iter().all(|other| *other == letter)
}

// Whether each letter of an option is this one.
fn is_only(option: &[u8], letter: u8) -> bool
    ensures { result ≡ list_all (λ c. c == letter) (drop 1 option.now) }
{
    match option {
        [] => true,
        [_, letters @ ..] => are_all(letters, letter),
    }
}

impl Letters {
    /// None.
    fn new() -> Letters
        ensures { result ≡ spec.no_letters }
    {
        Letters {
            any: false,
            only_variables: true,
            only_functions: true,
        }
    }

    // With those of an option.
    #[tactic(auto, unfolding(crate::specs::Texts::with_option))]
    fn add(&mut self, option: &[u8])
        ensures { self.new ≡ spec.with_option self.old option.now }
    {
        self.any = true;
        let variables = is_only(option, b'v');
        let functions = is_only(option, b'f');
        self.only_variables = self.only_variables && variables;
        self.only_functions = self.only_functions && functions;
    }

    /// Whether `unset` takes variables.
    #[tactic(auto, using(crate::proofs::TextLemmas::variables_taken))]
    pub fn takes_variables(self) -> bool
        ensures { result ≡ spec.takes_variables (spec.removal_in self) }
    {
        if !self.any {
            return true;
        }
        self.only_variables || !self.only_functions
    }

    /// Whether it takes functions.
    #[tactic(auto, using(crate::proofs::TextLemmas::functions_taken))]
    pub fn takes_functions(self) -> bool
        ensures { result ≡ spec.takes_functions (spec.removal_in self) }
    {
        if self.any { !self.only_variables } else { true }
    }
}

// The operands after the options, whose letters are added to those so far.
#[tactic(auto, unfolding(crate::specs::Texts::unset_behind))]
fn behind_options<'a>(
    operands: &'a [WordText],
    script: &[u8],
    letters: &mut Letters,
) -> &'a [WordText]
    ensures { spec.unset_behind letters.old (map (text_in script.now) operands.entry.now) ≡ (letters.new, map (text_in script.now) result.now) }
{
    let mut rest = operands;
    while let [first, others @ ..] = rest {
        if let Some(text) = first.get(script) {
            if ends_options(text) {
                return others;
            }
            if !is_dashed(text) {
                return rest;
            }
            letters.add(text);
        }
        rest = others;
    }
    rest
}

/// The letters of the options of `unset`, and the operands after them.
pub fn unset_operands<'a>(operands: &'a [WordText], script: &[u8]) -> (Letters, &'a [WordText])
    ensures { spec.unset_behind spec.no_letters (map (text_in script.now) operands.entry.now) ≡ (result.0, map (text_in script.now) result.1.now) }
{
    let mut letters = Letters::new();
    let names = behind_options(operands, script, &mut letters);
    (letters, names)
}

// `set`

#[tactic(auto, unfolding(crate::specs::Texts::positional_from))]
fn find_positional(words: &[WordText], script: &[u8]) -> Option<usize>
    ensures same { result ≡ spec.positional_from 0 false (map (text_in script.now) words.now) }
    ensures within { IfSome result (λ at. at ≤ length words.now) }
{
    let mut rest = words;
    let mut takes = false;
    let mut at = 0;
    while let [first, others @ ..] = rest {
        if takes {
            takes = false;
        } else {
            let Some(text) = first.get(script) else {
                return Some(at);
            };
            if ends_options(text) {
                return Some(at + 1);
            }
            if !is_set_option(text) {
                return Some(at);
            }
            takes = ends_in_o(text);
        }
        at += 1;
        rest = others;
    }
    None
}

/// How many operands of `set` are before its positional words, if it has some or `--` is before
/// them.
#[tactic(auto, using(crate::proofs::TextLemmas::from_start))]
pub fn positional_at(words: &[WordText], script: &[u8]) -> Option<usize>
    ensures same { result ≡ spec.positional_at false (map (text_in script.now) words.now) }
    ensures within { IfSome result (λ at. at ≤ length words.now) }
{
    find_positional(words, script)
}

/// The operands of `read` after its options; nothing if an option is not one of the standard's
/// (XCU 3, read).
#[tactic(auto, unfolding(sh_runs::specs::ReadOptions::read_operands, sh_runs::specs::ReadOptions::go_on))]
pub fn read_operands<'a>(texts: &'a [WordText], script: &[u8]) -> Option<&'a [WordText]>
    ensures { option_map (λ left. map (text_in script.now) left.now) result ≡ read_operands false (map (text_in script.now) texts.entry.now) }
{
    let mut rest = texts;
    let mut takes = false;
    while let [first, others @ ..] = rest {
        if takes {
            takes = false;
        } else {
            let Some(text) = first.get(script) else {
                return Some(rest);
            };
            if ends_options(text) {
                return Some(others);
            }
            if !is_dashed(text) {
                return Some(rest);
            }
            takes = option_takes(text)?;
        }
        rest = others;
    }
    Some(rest)
}
