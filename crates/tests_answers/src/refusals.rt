//! Every text of a refusal, whole.

use sh_answers::texts::answer;
use sh_tree::{Declaration, Fault, Form, KnownName, Refusal, Rule};
use std::process::Abort;
use std::test::Fail;

const FAULTS: &[(Fault, &str)] = &[
    (Fault::OpenSingle, "a single quote is not closed"),
    (Fault::OpenDouble, "a double quote is not closed"),
    (Fault::OpenBraced, "a braced expansion is not closed"),
    (
        Fault::OpenSubstitution,
        "a command substitution is not closed",
    ),
    (Fault::OpenArith, "an arithmetic expansion is not closed"),
    (Fault::OpenHereDoc, "a here-document is not ended"),
    (Fault::BadArith, "bad arithmetic"),
    (Fault::UnexpectedToken, "unexpected token"),
    (Fault::UnexpectedEnd, "unexpected end"),
    (Fault::FinalBackslash, "a backslash ends the script"),
];

const FORMS: &[(Form, &str)] = &[
    (
        Form::Continuation,
        "a line continuation inside a token is outside the profile",
    ),
    (
        Form::DollarEscape,
        "this escape in $' is outside the profile",
    ),
    (Form::DollarDouble, "$\" is outside the profile"),
    (Form::DollarBracket, "$[ is outside the profile"),
    (
        Form::Backquoted,
        "a backquoted substitution is outside the profile",
    ),
    (
        Form::BackslashInBackquotes,
        "a backslash in a backquoted substitution is outside the profile",
    ),
    (
        Form::BackquoteInside,
        "a backquote inside a backquoted substitution is outside the profile",
    ),
    (Form::Braced, "this braced form is outside the profile"),
    (
        Form::QuotedInDefault,
        "a double quote in a quoted default is outside the profile",
    ),
    (
        Form::BackslashInDefault,
        "a backslash before } in a quoted default is outside the profile",
    ),
    (
        Form::AllParameters,
        "$@ where fields are not split is outside the profile",
    ),
    (Form::Arithmetic, "this arithmetic is outside the profile"),
    (Form::DoubleParenthesis, "(( is outside the profile"),
    (Form::BangParenthesis, "!( is outside the profile"),
    (Form::LeftBrackets, "[[ is outside the profile"),
    (Form::RightBrackets, "]] is outside the profile"),
    (Form::Function, "function is outside the profile"),
    (Form::Select, "select is outside the profile"),
    (Form::Time, "time is outside the profile"),
    (Form::Namespace, "namespace is outside the profile"),
    (Form::IoLocation, "an IO location is outside the profile"),
    (
        Form::HereWord,
        "this here-document word is outside the profile",
    ),
    (
        Form::HereAcross,
        "a here-document across a substitution is outside the profile",
    ),
    (
        Form::HereTab,
        "a tab after a continuation in a here-document is outside the profile",
    ),
];

const RULES: &[(Rule, &str)] = &[
    (
        Rule::ComputedName,
        "a computed command name is outside the profile",
    ),
    (Rule::Append, "+= is outside the profile"),
    (
        Rule::Quoted(Declaration::Export),
        "a quoted export is outside the profile",
    ),
    (
        Rule::Quoted(Declaration::Readonly),
        "a quoted readonly is outside the profile",
    ),
    (
        Rule::TrapAction,
        "trap with an action is outside the profile",
    ),
    (
        Rule::CommandUse,
        "this use of command is outside the profile",
    ),
    (
        Rule::UnsetOperand,
        "this operand of unset is outside the profile",
    ),
    (
        Rule::SetOperand,
        "this operand of set is outside the profile",
    ),
    (
        Rule::BreakOperand,
        "this operand of break is outside the profile",
    ),
    (
        Rule::ContinueOperand,
        "this operand of continue is outside the profile",
    ),
    (
        Rule::BreakOutside,
        "break outside a loop is outside the profile",
    ),
    (
        Rule::ContinueOutside,
        "continue outside a loop is outside the profile",
    ),
    (
        Rule::ReturnOutside,
        "return outside a function is outside the profile",
    ),
];

// Each name where it is refused itself, and where a function has it.
const NAMES: &[(KnownName, &str, &str)] = &[
    (
        KnownName::Break,
        "break is outside the profile",
        "a function named break is outside the profile",
    ),
    (
        KnownName::Colon,
        ": is outside the profile",
        "a function named : is outside the profile",
    ),
    (
        KnownName::Continue,
        "continue is outside the profile",
        "a function named continue is outside the profile",
    ),
    (
        KnownName::Dot,
        ". is outside the profile",
        "a function named . is outside the profile",
    ),
    (
        KnownName::Eval,
        "eval is outside the profile",
        "a function named eval is outside the profile",
    ),
    (
        KnownName::Exec,
        "exec is outside the profile",
        "a function named exec is outside the profile",
    ),
    (
        KnownName::Exit,
        "exit is outside the profile",
        "a function named exit is outside the profile",
    ),
    (
        KnownName::Export,
        "export is outside the profile",
        "a function named export is outside the profile",
    ),
    (
        KnownName::Readonly,
        "readonly is outside the profile",
        "a function named readonly is outside the profile",
    ),
    (
        KnownName::Return,
        "return is outside the profile",
        "a function named return is outside the profile",
    ),
    (
        KnownName::Set,
        "set is outside the profile",
        "a function named set is outside the profile",
    ),
    (
        KnownName::Shift,
        "shift is outside the profile",
        "a function named shift is outside the profile",
    ),
    (
        KnownName::Times,
        "times is outside the profile",
        "a function named times is outside the profile",
    ),
    (
        KnownName::Trap,
        "trap is outside the profile",
        "a function named trap is outside the profile",
    ),
    (
        KnownName::Unset,
        "unset is outside the profile",
        "a function named unset is outside the profile",
    ),
    (
        KnownName::Alias,
        "alias is outside the profile",
        "a function named alias is outside the profile",
    ),
    (
        KnownName::Unalias,
        "unalias is outside the profile",
        "a function named unalias is outside the profile",
    ),
    (
        KnownName::Fc,
        "fc is outside the profile",
        "a function named fc is outside the profile",
    ),
    (
        KnownName::Local,
        "local is outside the profile",
        "a function named local is outside the profile",
    ),
    (
        KnownName::Typeset,
        "typeset is outside the profile",
        "a function named typeset is outside the profile",
    ),
    (
        KnownName::Declare,
        "declare is outside the profile",
        "a function named declare is outside the profile",
    ),
    (
        KnownName::Source,
        "source is outside the profile",
        "a function named source is outside the profile",
    ),
    (
        KnownName::Let,
        "let is outside the profile",
        "a function named let is outside the profile",
    ),
    (
        KnownName::Builtin,
        "builtin is outside the profile",
        "a function named builtin is outside the profile",
    ),
    (
        KnownName::Nameref,
        "nameref is outside the profile",
        "a function named nameref is outside the profile",
    ),
    (
        KnownName::Integer,
        "integer is outside the profile",
        "a function named integer is outside the profile",
    ),
    (
        KnownName::Float,
        "float is outside the profile",
        "a function named float is outside the profile",
    ),
    (
        KnownName::Mapfile,
        "mapfile is outside the profile",
        "a function named mapfile is outside the profile",
    ),
    (
        KnownName::Readarray,
        "readarray is outside the profile",
        "a function named readarray is outside the profile",
    ),
    (
        KnownName::Shopt,
        "shopt is outside the profile",
        "a function named shopt is outside the profile",
    ),
    (
        KnownName::LeftBrackets,
        "[[ is outside the profile",
        "a function named [[ is outside the profile",
    ),
    (
        KnownName::RightBrackets,
        "]] is outside the profile",
        "a function named ]] is outside the profile",
    ),
    (
        KnownName::Function,
        "function is outside the profile",
        "a function named function is outside the profile",
    ),
    (
        KnownName::Select,
        "select is outside the profile",
        "a function named select is outside the profile",
    ),
    (
        KnownName::Time,
        "time is outside the profile",
        "a function named time is outside the profile",
    ),
    (
        KnownName::Namespace,
        "namespace is outside the profile",
        "a function named namespace is outside the profile",
    ),
];

/// Holds the text of a refusal at the start of a script against what is wanted.
fn check(rt: &(impl Abort + AllocGlobal), refusal: Refusal, wanted: &str) -> Result<(), Fail> {
    let wanted = format!(in rt.alloc(); "refused 1:1: {wanted}\n")?;
    let text = answer(rt.alloc(), b"", &Err(refusal))?;
    assert_eq!(rt; text.as_slice(), wanted.as_bytes(), "{wanted}");
    Ok(())
}

#[test]
fn faults_are_told(rt: HostRuntime) -> Result<(), Fail> {
    for (fault, text) in FAULTS {
        check(&rt, Refusal::Syntax(*fault, 0), text)?;
    }
    Ok(())
}

#[test]
fn forms_are_told(rt: HostRuntime) -> Result<(), Fail> {
    for (form, text) in FORMS {
        check(&rt, Refusal::LeftOut(*form, 0), text)?;
    }
    Ok(())
}

#[test]
fn rules_are_told(rt: HostRuntime) -> Result<(), Fail> {
    for (rule, text) in RULES {
        check(&rt, Refusal::Profile(*rule, 0), text)?;
    }
    Ok(())
}

#[test]
fn names_are_told(rt: HostRuntime) -> Result<(), Fail> {
    for (name, refused, function) in NAMES {
        check(&rt, Refusal::Profile(Rule::Refused(*name), 0), refused)?;
        check(
            &rt,
            Refusal::Profile(Rule::FunctionNamed(*name), 0),
            function,
        )?;
    }
    Ok(())
}
