use sh_answers::Action;
use sh_line::{Line, Source, Stop, command_line};
use std::alloc::Global;
use std::process::Abort;
use std::test::Fail;

/// The words of a command line, and what is shown of its answer.
type Row = (&'static [&'static str], &'static str);

/// The action, the script, the number and the names of a line, as one text.
fn line_text(alloc: Global, line: &Line<'_>) -> Result<String, Fail> {
    let action = match line.task.action {
        Action::Lint => "lint",
        Action::Cert { full: false } => "cert",
        Action::Cert { full: true } => "cert in full",
        Action::Check => "check",
        Action::Print => "print",
    };
    let mut text = match line.script {
        Source::Input => format!(in alloc; "{action} standard input")?,
        Source::File(name) => format!(in alloc; "{action} file {name}")?,
    };
    let args = line.task.policy.args();
    text.push_str(format!(in alloc; " args {args}")?.as_str())?;
    for name in line.task.policy.names() {
        let name = String::from_utf8(name.clone()?)?;
        text.push_str(format!(in alloc; " name {name}")?.as_str())?;
    }
    match line.cert {
        None => (),
        Some(Source::Input) => text.push_str(" by standard input")?,
        Some(Source::File(name)) => text.push_str(format!(in alloc; " by file {name}")?.as_str())?,
    }
    Ok(text)
}

/// The answer to the words of a command line, as one text.
fn answer_text(alloc: Global, words: &[&str]) -> Result<String, Fail> {
    match command_line(alloc, words) {
        Ok(line) => line_text(alloc, &line),
        Err(Stop::Usage(text)) => Ok(format!(in alloc; "usage: {text}")?),
        Err(Stop::Help(text)) => Ok(format!(in alloc; "help: {text}")?),
        Err(Stop::BadName) => Ok("bad name".to_string(alloc)?),
        Err(Stop::Memory) => Ok("out of memory".to_string(alloc)?),
    }
}

fn check(rt: &(impl Abort + AllocGlobal), rows: &[Row]) -> Result<(), Fail> {
    for (words, wanted) in rows {
        let text = answer_text(rt.alloc(), words)?;
        assert_eq!(rt; text.as_str(), *wanted, "{words:?}");
    }
    Ok(())
}

const LINES: &[Row] = &[
    (&["shset", "lint", "-"], "lint standard input args 0"),
    (
        &["shset", "lint", "script.sh"],
        "lint file script.sh args 0",
    ),
    (
        &["shset", "lint", "-", "y"],
        "lint standard input args 0 name y",
    ),
    (
        &["shset", "lint", "--args", "5", "f", "a", "b"],
        "lint file f args 5 name a name b",
    ),
    (
        &["shset", "lint", "f", "a", "--args=5", "b"],
        "lint file f args 5 name a name b",
    ),
    (
        &["shset", "lint", "--args", "65535", "f"],
        "lint file f args 65535",
    ),
    (
        &["shset", "lint", "--args", "+007", "f"],
        "lint file f args 7",
    ),
    (
        &["shset", "lint", "f", "b", "a", "b"],
        "lint file f args 0 name b name a name b",
    ),
    (
        &["shset", "lint", "f", "_a9"],
        "lint file f args 0 name _a9",
    ),
    (
        &["shset", "lint", "--", "-", "y"],
        "lint standard input args 0 name y",
    ),
    (
        &["shset", "lint", "--", "--args"],
        "lint file --args args 0",
    ),
    (
        &["shset", "lint", "lint", "lint"],
        "lint file lint args 0 name lint",
    ),
    (
        &["shset", "cert", "--args", "1", "script.sh", "y"],
        "cert file script.sh args 1 name y",
    ),
    (
        &["shset", "cert", "--full", "script.sh"],
        "cert in full file script.sh args 0",
    ),
    (
        &["shset", "cert", "-", "y", "--full"],
        "cert in full standard input args 0 name y",
    ),
    (
        &["shset", "check", "script.sh", "certificate"],
        "check file script.sh args 0 by file certificate",
    ),
    (
        &["shset", "check", "-", "certificate", "a", "b"],
        "check standard input args 0 name a name b by file certificate",
    ),
    (
        &["shset", "check", "--args", "2", "script.sh", "-", "y"],
        "check file script.sh args 2 name y by standard input",
    ),
    (
        &["shset", "check", "check", "lint"],
        "check file check args 0 by file lint",
    ),
    (&["shset", "print", "-"], "print standard input args 0"),
    (
        &["shset", "print", "script.sh"],
        "print file script.sh args 0",
    ),
    (
        &["shset", "print", "--", "--args"],
        "print file --args args 0",
    ),
];

#[test]
fn lines(rt: HostRuntime) -> Result<(), Fail> {
    check(&rt, LINES)
}

const USAGE_OF_LINT: &[Row] = &[
    (
        &["shset", "lint", "--args", "65536", "f"],
        "usage: error: invalid value '65536' for '--args <N>': 65536 is not in 0..=65535

For more information, try '--help'.
",
    ),
    (
        &["shset", "lint", "--args", "65536", "-", "1x"],
        "usage: error: invalid value '65536' for '--args <N>': 65536 is not in 0..=65535

For more information, try '--help'.
",
    ),
    (
        &["shset", "lint", "--args", "x", "f"],
        "usage: error: invalid value 'x' for '--args <N>': invalid digit found in string

For more information, try '--help'.
",
    ),
    (
        &["shset", "lint", "--args=-1", "f"],
        "usage: error: invalid value '-1' for '--args <N>': -1 is not in 0..=65535

For more information, try '--help'.
",
    ),
    (
        &["shset", "lint", "f", "--args"],
        "usage: error: a value is required for '--args <N>' but none was supplied

For more information, try '--help'.
",
    ),
    (
        &["shset", "lint", "--args", "1", "--args", "2", "f"],
        "usage: error: the argument '--args <N>' cannot be used multiple times

Usage: shset lint [OPTIONS] <FILE> [NAME]...

For more information, try '--help'.
",
    ),
    (
        &["shset", "lint"],
        "usage: error: the following required arguments were not provided:
  <FILE>

Usage: shset lint <FILE> [NAME]...

For more information, try '--help'.
",
    ),
    (
        &["shset", "lint", "--all", "f"],
        "usage: error: unexpected argument '--all' found

  tip: to pass '--all' as a value, use '-- --all'

Usage: shset lint [OPTIONS] <FILE> [NAME]...

For more information, try '--help'.
",
    ),
    (
        &["shset", "lint", "--full", "f"],
        "usage: error: unexpected argument '--full' found

  tip: to pass '--full' as a value, use '-- --full'

Usage: shset lint [OPTIONS] <FILE> [NAME]...

For more information, try '--help'.
",
    ),
    (
        &["shset", "lint", "-x", "f"],
        "usage: error: unexpected argument '-x' found

  tip: to pass '-x' as a value, use '-- -x'

Usage: shset lint [OPTIONS] <FILE> [NAME]...

For more information, try '--help'.
",
    ),
    (
        &["shset", "lint", "--args", "-5", "f"],
        "usage: error: unexpected argument '-5' found

  tip: to pass '-5' as a value, use '-- -5'

Usage: shset lint [OPTIONS] <FILE> [NAME]...

For more information, try '--help'.
",
    ),
];

#[test]
fn usage_faults_of_lint(rt: HostRuntime) -> Result<(), Fail> {
    check(&rt, USAGE_OF_LINT)
}

const USAGE_OF_CHECK: &[Row] = &[
    (
        &["shset", "check", "-", "-"],
        "usage: shset: two inputs from -
",
    ),
    (
        &["shset", "check", "-", "-", "1x"],
        "usage: shset: two inputs from -
",
    ),
    (
        &["shset", "check", "script.sh"],
        "usage: error: the following required arguments were not provided:
  <CERT>

Usage: shset check <FILE> <CERT> [NAME]...

For more information, try '--help'.
",
    ),
];

#[test]
fn usage_faults_of_check(rt: HostRuntime) -> Result<(), Fail> {
    check(&rt, USAGE_OF_CHECK)
}

const USAGE_OF_PROGRAM: &[Row] = &[
    (
        &["shset", "lint", "--version"],
        "usage: error: unexpected argument '--version' found

  tip: to pass '--version' as a value, use '-- --version'

Usage: shset lint [OPTIONS] <FILE> [NAME]...

For more information, try '--help'.
",
    ),
    (
        &["shset"],
        "usage: error: 'shset' requires a subcommand but one was not provided
  [subcommands: lint, cert, check, print]

Usage: shset <COMMAND>

For more information, try '--help'.
",
    ),
    (
        &["shset", "mend", "f"],
        "usage: error: unrecognized subcommand 'mend'

Usage: shset <COMMAND>

For more information, try '--help'.
",
    ),
    (
        &["shset", "help"],
        "usage: error: unrecognized subcommand 'help'

Usage: shset <COMMAND>

For more information, try '--help'.
",
    ),
    (
        &["shset", "--args", "1", "lint", "f"],
        "usage: error: unexpected argument '--args' found

  tip: 'lint --args' exists

Usage: shset <COMMAND>

For more information, try '--help'.
",
    ),
    (
        &[],
        "usage: error: 'shset' requires a subcommand but one was not provided
  [subcommands: lint, cert, check, print]

Usage: shset <COMMAND>

For more information, try '--help'.
",
    ),
];

#[test]
fn usage_faults_of_the_program(rt: HostRuntime) -> Result<(), Fail> {
    check(&rt, USAGE_OF_PROGRAM)
}

const HELP: &str =
    "help: Looks in shell scripts for variables that may be unset and words that may be split

Usage: shset <COMMAND>

Commands:
  lint   Prints what is wrong with a script, or that it is clean
  cert   Prints what is surely set at the start, in loops and round functions, as a certificate
  check  Prints what is wrong with a script by a certificate of it, or that it is clean
  print  Prints a script in one layout, without comments outside words

Options:
  -h, --help     Print help
  -V, --version  Print version

Exit status:
  0  clean, or a certificate or a script was printed
  1  findings, or a certificate that claims too much
  2  refused: a script or a certificate was not read, or not analysed
  3  a fault of usage, reading, writing or memory

Findings:
  U1, U2, U3  a parameter may be unset: in an expansion, a tilde, arithmetic
  Q1          a value outside quotes may be split, or taken for a pattern
  P1, P2      a part of a pipeline may unset a name, or changes the operands

Examples:
  shset lint deploy.sh HOME PATH   HOME and PATH are set when the script starts
  shset lint --args 2 copy.sh      the script always gets two operands, or more
  shset cert x.sh >x.cert && shset check x.sh x.cert
  shset cert --full x.sh           what is set before and after each command too

One call reads one script: 'shset lint a.sh b' takes b for the name of a variable.
";

const VERSION: &str = "help: shset 0.1.0 (Rattle kit, logic dac8208d650f15bf)
";

const HELP_OF_LINT: &str = "help: Prints what is wrong with a script, or that it is clean

Usage: shset lint [OPTIONS] <FILE> [NAME]...

Arguments:
  <FILE>     The script, or - for standard input
  [NAME]...  A variable that is set when the script starts

Options:
      --args <N>  At least how many positional parameters are set when the script starts [default: 0]
  -h, --help      Print help

One call reads one script: a second file is taken for the NAME of a variable.
";

const HELP_OF_CHECK: &str =
    "help: Prints what is wrong with a script by a certificate of it, or that it is clean

Usage: shset check [OPTIONS] <FILE> <CERT> [NAME]...

Arguments:
  <FILE>     The script, or - for standard input
  <CERT>     A certificate of the script, or - for standard input
  [NAME]...  A variable that is set when the script starts

Options:
      --args <N>  At least how many positional parameters are set when the script starts [default: 0]
  -h, --help      Print help

One call reads one script: a second file is taken for the NAME of a variable.
";

const HELPED: &[Row] = &[
    (&["shset", "--help"], HELP),
    (&["shset", "-h"], HELP),
    (&["shset", "--version"], VERSION),
    (&["shset", "-V", "lint"], VERSION),
    (&["shset", "lint", "--help"], HELP_OF_LINT),
    (&["shset", "lint", "-h"], HELP_OF_LINT),
    (&["shset", "lint", "-", "1x", "--help"], HELP_OF_LINT),
    (&["shset", "check", "--help"], HELP_OF_CHECK),
    (&["shset", "check", "-", "-", "-h"], HELP_OF_CHECK),
];

#[test]
fn help(rt: HostRuntime) -> Result<(), Fail> {
    check(&rt, HELPED)
}

const USAGE_OF_PRINT: &[Row] = &[
    (
        &["shset", "print", "f", "x"],
        "usage: error: unexpected argument 'x' found

Usage: shset print <FILE>

For more information, try '--help'.
",
    ),
    (
        &["shset", "print", "--args", "1", "f"],
        "usage: error: unexpected argument '--args' found

  tip: to pass '--args' as a value, use '-- --args'

Usage: shset print <FILE>

For more information, try '--help'.
",
    ),
];

#[test]
fn usage_faults_of_print(rt: HostRuntime) -> Result<(), Fail> {
    check(&rt, USAGE_OF_PRINT)
}

const BAD_NAMES: &[Row] = &[
    (&["shset", "lint", "-", "1x"], "bad name"),
    (&["shset", "lint", "-", "-"], "bad name"),
    (&["shset", "lint", "-", "a", "b c", "c"], "bad name"),
    (&["shset", "lint", "-", ""], "bad name"),
    (&["shset", "lint", "f", "é"], "bad name"),
    (&["shset", "check", "-", "f", "1x"], "bad name"),
];

#[test]
fn bad_names(rt: HostRuntime) -> Result<(), Fail> {
    check(&rt, BAD_NAMES)
}
