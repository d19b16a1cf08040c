//! How the bytes of a word are read.
ghost use Rattle.std.specs.Prelude.{◌≡◌, ◌≤◌, length};
ghost use Rattle.sh_tree.specs.standard.language.Contexts as contexts;
ghost use Rattle.sh_tree.specs.standard.language.Words as words;

use super::sites::is_quoted;
use crate::assignments::is_assignment_at;
use crate::front::name_at;
use sh_tree::{Action, Context, MAX_SCRIPT, Site};

/// Inside the double quotes that open here.
pub fn in_double(context: Context) -> Context
    ensures { result ≡ words.in_double context }
{
    Context {
        site: Site::Double,
        colons: false,
        ..context
    }
}

/// In the word after `-`, `=`, `?` or `+`, from `at` on.
pub fn in_use(context: Context, action: Action, at: u32) -> Context
    ensures { result ≡ words.in_use context action at }
{
    let quoted = is_quoted(context.site);
    let alternative = action.is_alternative();
    Context {
        site: if quoted {
            Site::QuotedBraced
        } else {
            Site::Braced
        },
        origin: at,
        fields: context.fields && !quoted && alternative,
        backquotes: context.backquotes && !quoted,
        ..context
    }
}

/// In the pattern of a removal, from `at` on.
pub fn in_removal(context: Context, at: u32) -> Context
    ensures { result ≡ words.in_removal context at }
{
    Context {
        site: Site::Braced,
        origin: at,
        fields: false,
        backquotes: context.backquotes && !is_quoted(context.site),
        ..context
    }
}

/// Around an expansion that is an operand of arithmetic.
pub fn in_arithmetic(context: Context) -> Context
    ensures { result ≡ words.in_arithmetic context }
{
    Context {
        fields: false,
        backquotes: false,
        ..in_double(context)
    }
}

/// A word at `at` whose fields are split.
pub fn in_word(at: u32) -> Context
    ensures { result ≡ contexts.in_word at }
{
    Context {
        site: Site::Word,
        origin: at,
        colons: false,
        fields: true,
        strip: false,
        body: false,
        backquotes: true,
    }
}

/// A word at `at` whose fields are not split.
pub fn in_unsplit(at: u32) -> Context
    ensures { result ≡ contexts.in_unsplit at }
{
    Context {
        fields: false,
        ..in_word(at)
    }
}

/// The value of an assignment, which begins at `at`.
pub fn in_value(at: u32) -> Context
    ensures { result ≡ contexts.in_value at }
{
    Context {
        colons: true,
        ..in_unsplit(at)
    }
}

/// An operand of `export` or `readonly` at `at`.
#[tactic(auto, unfolding(sh_tree::specs::standard::language::Contexts::in_operand))]
pub fn in_operand(script: &[u8], at: u32) -> Context
    requires small { length script.now ≤ MAX_SCRIPT }
    requires inside { at ≤ length script.now }
    ensures { result ≡ contexts.in_operand script.now at }
{
    if is_assignment_at(script, at) {
        in_value(name_at(script, at) + 1)
    } else {
        in_word(at)
    }
}

/// The body of a here-document, by whether its delimiter is quoted and whether tabs are stripped.
pub fn in_body(quoted: bool, strip: bool) -> Context
    ensures { result ≡ contexts.in_body quoted strip }
{
    Context {
        site: if quoted { Site::Verbatim } else { Site::Body },
        origin: 0,
        colons: false,
        fields: false,
        strip,
        body: true,
        backquotes: false,
    }
}
