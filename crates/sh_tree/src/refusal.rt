//! Why a script or a certificate is refused.
ghost use Rattle.std.specs.Prelude.{◌≡◌, ◌++◌, length, take, OnOk, OnErr};
ghost use Rattle.sh_tree.specs.standard.Texts.{fault_text, form_text, rule_name, rule_text};

use crate::known::{Declaration, KnownName};
use std::alloc::{AllocError, AllocFailed};
use thiserror::Error;

/// A fault of syntax.
#[derive(Clone, Copy, Debug, PartialEq, Eq)]
pub enum Fault {
    /// Single quotes have no end (XCU 2.2.2).
    OpenSingle,
    /// Double quotes have no end (XCU 2.2.3).
    OpenDouble,
    /// `${` has no end (XCU 2.6.2).
    OpenBraced,
    /// `$(` has no end (XCU 2.6.3).
    OpenSubstitution,
    /// `$((` has no end (XCU 2.6.4).
    OpenArith,
    /// A here-document has no end line (XCU 2.7.4).
    OpenHereDoc,
    /// There is a byte where an arithmetic expression has none such (XCU 2.6.4).
    BadArith,
    /// There is a token where the grammar has none such (XCU 2.10).
    UnexpectedToken,
    /// The script ends where the grammar goes on (XCU 2.10).
    UnexpectedEnd,
    /// A backslash with nothing after it ends the script (XCU 2.2.1).
    FinalBackslash,
}

impl Fault {
    /// What is reported of the fault.
    pub fn text(self) -> &'static str
        ensures { result.now ≡ fault_text self }
    {
        match self {
            Fault::OpenSingle => "a single quote is not closed",
            Fault::OpenDouble => "a double quote is not closed",
            Fault::OpenBraced => "a braced expansion is not closed",
            Fault::OpenSubstitution => "a command substitution is not closed",
            Fault::OpenArith => "an arithmetic expansion is not closed",
            Fault::OpenHereDoc => "a here-document is not ended",
            Fault::BadArith => "bad arithmetic",
            Fault::UnexpectedToken => "unexpected token",
            Fault::UnexpectedEnd => "unexpected end",
            Fault::FinalBackslash => "a backslash ends the script",
        }
    }
}

// What is reported of a refused thing.
macro_rules! outside {
    ($name:literal) => {
        concat!($name, " is outside the profile")
    };
}

/// A refused form of the language.
#[derive(Clone, Copy, Debug, PartialEq, Eq)]
pub enum Form {
    /// A backslash and a newline inside a token (XCU 2.2.1).
    Continuation,
    /// An escape in `$'` that is not read (XCU 2.2.4).
    DollarEscape,
    /// `$"`, to which the standard gives no meaning (XCU 2.6).
    DollarDouble,
    /// `$[`, to which the standard gives no meaning (XCU 2.6).
    DollarBracket,
    /// A substitution in backquotes (XCU 2.6.3).
    Backquoted,
    /// A backslash in such a substitution.
    BackslashInBackquotes,
    /// A backquote in such a substitution, in something that is open there.
    BackquoteInside,
    /// A braced expansion of a form that is not read (XCU 2.6.2).
    Braced,
    /// A double quote in a default inside double quotes or a here-document (XCU 2.6.2).
    QuotedInDefault,
    /// A backslash before `}` in a default inside double quotes or a here-document (XCU 2.6.2).
    BackslashInDefault,
    /// `$@` where fields are not split (XCU 2.5.2).
    AllParameters,
    /// An arithmetic expression of a form that is not read (XCU 2.6.4).
    Arithmetic,
    /// `((`, which other shells read as arithmetic (XCU 2.9.4).
    DoubleParenthesis,
    /// `!(`, which other shells read as a pattern (XCU 2.9.2).
    BangParenthesis,
    /// `[[`, which other shells reserve (XCU 2.4).
    LeftBrackets,
    /// `]]`, which other shells reserve (XCU 2.4).
    RightBrackets,
    /// `function`, which other shells reserve (XCU 2.4).
    Function,
    /// `select`, which other shells reserve (XCU 2.4).
    Select,
    /// `time`, which other shells reserve (XCU 2.4).
    Time,
    /// `namespace`, which other shells reserve (XCU 2.4).
    Namespace,
    /// A word from `{` to `}` before a redirection (XCU 2.7).
    IoLocation,
    /// A delimiter of a here-document with an expansion or a newline in it (XCU 2.7.4).
    HereWord,
    /// A here-document with one end outside a command substitution and one inside (XCU 2.7.4).
    HereAcross,
    /// A tab after a continuation where leading tabs are stripped (XCU 2.7.4).
    HereTab,
}

impl Form {
    /// What is reported of the form.
    pub fn text(self) -> &'static str
        ensures { result.now ≡ form_text self }
    {
        match self {
            Form::Continuation => outside!("a line continuation inside a token"),
            Form::DollarEscape => outside!("this escape in $'"),
            Form::DollarDouble => outside!("$\""),
            Form::DollarBracket => outside!("$["),
            Form::Backquoted => outside!("a backquoted substitution"),
            Form::BackslashInBackquotes => outside!("a backslash in a backquoted substitution"),
            Form::BackquoteInside => outside!("a backquote inside a backquoted substitution"),
            Form::Braced => outside!("this braced form"),
            Form::QuotedInDefault => outside!("a double quote in a quoted default"),
            Form::BackslashInDefault => outside!("a backslash before } in a quoted default"),
            Form::AllParameters => outside!("$@ where fields are not split"),
            Form::Arithmetic => outside!("this arithmetic"),
            Form::DoubleParenthesis => outside!("(("),
            Form::BangParenthesis => outside!("!("),
            Form::LeftBrackets => outside!("[["),
            Form::RightBrackets => outside!("]]"),
            Form::Function => outside!("function"),
            Form::Select => outside!("select"),
            Form::Time => outside!("time"),
            Form::Namespace => outside!("namespace"),
            Form::IoLocation => outside!("an IO location"),
            Form::HereWord => outside!("this here-document word"),
            Form::HereAcross => outside!("a here-document across a substitution"),
            Form::HereTab => outside!("a tab after a continuation in a here-document"),
        }
    }
}

/// A rule of the profile that a command breaks.
#[derive(Clone, Copy, Debug, PartialEq, Eq)]
pub enum Rule {
    /// The command name is no static text.
    ComputedName,
    /// The command has a name that is refused.
    Refused(KnownName),
    /// The command name begins with a name and `+=`, which other shells read as an assignment.
    Append,
    /// A function is defined that has such a name.
    FunctionNamed(KnownName),
    /// The name of a declaration utility is quoted (XCU 2.9.1.1).
    Quoted(Declaration),
    /// `trap` is given an action (XCU 2.15, trap).
    TrapAction,
    /// `command` is to run a built-in that changes the shell or a refused name, or has an unknown
    /// option. Or what it runs is no static text (XCU 3, command).
    CommandUse,
    /// An operand of `unset` is no static text (XCU 2.15, unset).
    UnsetOperand,
    /// The operand where `set` may have an option is no static text, is `-` or `+` alone, or has an
    /// `o` before other letters. Or it is an `-o` whose argument is empty or looks like an option
    /// (XCU 2.15, set).
    SetOperand,
    /// The operand of `break` is no static number from 1 (XCU 2.15, break).
    BreakOperand,
    /// The operand of `continue` is no static number from 1 (XCU 2.15, continue).
    ContinueOperand,
    /// `break` is outside a loop (XCU 2.15, break).
    BreakOutside,
    /// `continue` is outside a loop (XCU 2.15, continue).
    ContinueOutside,
    /// `return` is outside a function (XCU 2.15, return).
    ReturnOutside,
}

impl Rule {
    /// Appends what is reported of the rule.
    ///
    /// # Errors
    ///
    /// `AllocError` if a growth was refused; what was written before stays, and nothing more.
    pub fn push_text(self, out: &mut Vec<u8>) -> Result<(), AllocError>
        ensures ok { OnOk result (out.new.items ≡ out.old.items ++ rule_text self) }
        ensures err { OnErr result (out.new.items ≡ out.old.items) }
    {
        let before = out.len();
        let pushed = self.push_pieces(out);
        if pushed.is_err() {
            out.truncate(before);
        }
        pushed
    }

    // Appends the text, or a front of it if a growth was refused.
    fn push_pieces(self, out: &mut Vec<u8>) -> Result<(), AllocError>
        ensures ok { OnOk result (out.new.items ≡ out.old.items ++ rule_text self) }
        ensures err { OnErr result (take (length out.old.items) out.new.items ≡ out.old.items) }
    {
        let (words, name) = self.pieces();
        out.extend_from_slice(words.as_bytes())?;
        out.extend_from_slice(name.as_bytes())?;
        out.extend_from_slice(outside!("").as_bytes())?;
        Ok(())
    }

    // The words of the text, and the name after them.
    #[tactic(auto, unfolding(crate::specs::standard::Texts::rule_name))]
    fn pieces(self) -> (&'static str, &'static str)
        ensures { rule_name self ≡ result.0.now ++ result.1.now }
    {
        match self {
            Rule::ComputedName => ("a computed command name", ""),
            Rule::Refused(name) => ("", name.text()),
            Rule::Append => ("+=", ""),
            Rule::FunctionNamed(name) => ("a function named ", name.text()),
            Rule::Quoted(declaration) => ("a quoted ", declaration.text()),
            Rule::TrapAction => ("trap with an action", ""),
            Rule::CommandUse => ("this use of command", ""),
            Rule::UnsetOperand => ("this operand of unset", ""),
            Rule::SetOperand => ("this operand of set", ""),
            Rule::BreakOperand => ("this operand of break", ""),
            Rule::ContinueOperand => ("this operand of continue", ""),
            Rule::BreakOutside => ("break outside a loop", ""),
            Rule::ContinueOutside => ("continue outside a loop", ""),
            Rule::ReturnOutside => ("return outside a function", ""),
        }
    }
}

/// Why there is no answer. Offsets count the script's bytes from 0.
#[derive(Clone, Copy, Debug, PartialEq, Eq, Error)]
pub enum Refusal {
    /// The script has more than `MAX_SCRIPT` bytes.
    #[error("the script is too long")]
    TooLong,
    /// A NUL byte, which no text has, at its offset.
    #[error("a NUL byte at {0}")]
    NulByte(u32),
    /// A fault of syntax and its offset, which may be the script's end.
    #[error("a syntax error at {1}")]
    Syntax(Fault, u32),
    /// A refused form, and the offset of its first byte.
    #[error("a form outside the profile at {1}")]
    LeftOut(Form, u32),
    /// More than `MAX_NESTING` levels, at the offset of the first that is too many.
    #[error("nested too deep at {0}")]
    TooDeep(u32),
    /// More than `MAX_COMMANDS` commands, or more names than are numbered.
    #[error("too many commands or names")]
    TooMany,
    /// A growth was refused.
    #[error("out of memory")]
    Memory,
    /// A command breaks a rule of the profile; the offset of the command.
    #[error("a command outside the profile at {1}")]
    Profile(Rule, u32),
    /// A line of a certificate, by its number from 1, is none of the format. The number is 0 if its
    /// text is longer than it may be.
    #[error("certificate line {0} is malformed")]
    CertSyntax(u32),
    /// A certificate that is well-formed speaks of another script.
    #[error("the certificate does not fit the script")]
    CertShape,
}

impl From<AllocError> for Refusal {
    ghost use Rattle.sh_tree.specs.declared.refusal.Refusal.TheVariants.{Memory};

    ghost from_gives = { λ _ e. e ≡ Memory };

    fn from(_error: AllocError) -> Refusal {
        Refusal::Memory
    }
}

impl<T: Drop> From<AllocFailed<T>> for Refusal {
    ghost use Rattle.sh_tree.specs.declared.refusal.Refusal.TheVariants.{Memory};

    ghost from_gives = { λ _ e. e ≡ Memory };

    fn from(_error: AllocFailed<T>) -> Refusal {
        Refusal::Memory
    }
}
