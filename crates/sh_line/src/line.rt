//! The words of a command line, read by clap.
ghost use Rattle.std.specs.Prelude.{◌≡◌, IfOk, IfErr, Some, [], codes, false, true, map, List};
ghost use Rattle.clap.specs.Words.{Row, Text, app_of, fault_of, found_of, kind_of, rows_of, rule_of, subcommand_of};
ghost use Rattle.clap.specs.declared.builder.command.Command.TheViews.{out-Command};
ghost use Rattle.sh_line.specs.App.{args_rule, certifying_app, checking_app, file_rule, full_rule, name_rule, printing_app, reading_app, shset_app};
ghost use Rattle.sh_line.specs.Line.{AreApart, HasCertificate, HasNumber, IsCertificateOf, IsLineOf, IsNumberOf, IsPolicyOf, IsShownAs, IsSourceOf, IsWhole, StopsAs, StopsAt, StopsPolicy, StopsRead, action_name, declared_texts, fault_stop};
ghost use Rattle.sh_line.specs.declared.line.Source.TheVariants.{Input};

use clap::error::ErrorKind;
use clap::{Arg, ArgAction, ArgMatches, Command, Error};
use sh_answers::{Action, Task};
use sh_domain::{Policy, PolicyFault};
use std::alloc::{AllocError, Global};
use std::convert::AsStr;

/// The version that `--version` prints, as the file VERSION has it, and the logic of the kit that
/// proves it.
const VERSION: &str = "0.1.0 (Rattle kit, logic dac8208d650f15bf)";

/// What the help of the program says after clap's.
const AFTER_HELP: &str = "\
Exit status:
  0  clean, or a certificate or a script was printed
  1  findings, or a certificate that claims too much
  2  refused: a script or a certificate was not read, or not analysed
  3  a fault of usage, reading, writing or memory

Findings:
  U1, U2, U3  a parameter may be unset: in an expansion, a tilde, arithmetic
  Q1          a value outside quotes may be split, or taken for a pattern
  P1, P2      a part of a pipeline may unset a name, or changes the operands

Examples:
  shset lint deploy.sh HOME PATH   HOME and PATH are set when the script starts
  shset lint --args 2 copy.sh      the script always gets two operands, or more
  shset cert x.sh >x.cert && shset check x.sh x.cert
  shset cert --full x.sh           what is set before and after each command too

One call reads one script: 'shset lint a.sh b' takes b for the name of a variable.";

/// What the help of each subcommand says after clap's.
const AFTER_SUBCOMMAND: &str =
    "One call reads one script: a second file is taken for the NAME of a variable.";

/// What is reported if both files of a check are standard input.
const TWO_INPUTS: &str = "shset: two inputs from -\n";

/// Where bytes come from.
#[derive(Clone, Copy, Debug, PartialEq, Eq)]
pub enum Source<'a> {
    /// Standard input, which the words call `-`.
    Input,
    /// The file of this name.
    File(&'a str),
}

/// What a command line asks for.
#[derive(Debug, Drop)]
pub struct Line<'a> {
    /// What is done.
    pub task: Task,
    /// Where the script comes from.
    pub script: Source<'a>,
    /// Where the certificate comes from, for a task that reads one.
    pub cert: Option<Source<'a>>,
}

/// Why there is no line.
#[derive(Debug, Drop)]
pub enum Stop {
    /// The words are no line of the program. The text is for standard error: clap's, or that two
    /// files are standard input.
    Usage(String),
    /// Help or the version was asked for. The text is clap's, for standard output.
    Help(String),
    /// A declared name is no name.
    BadName,
    /// Memory was refused.
    Memory,
}

impl From<AllocError> for Stop {
    ghost use Rattle.sh_line.specs.declared.line.Stop.TheVariants.{Memory};

    ghost from_gives = { λ _ s. s ≡ Memory };

    fn from(_error: AllocError) -> Stop {
        Stop::Memory
    }
}

impl From<PolicyFault> for Stop {
    ghost use Rattle.sh_line.specs.Line.{fault_stop};

    ghost from_gives = { λ f s. s ≡ fault_stop f };

    fn from(fault: PolicyFault) -> Stop {
        match fault {
            PolicyFault::BadName(_) => Stop::BadName,
            PolicyFault::Memory => Stop::Memory,
        }
    }
}

fn args_arg<'a>(alloc: Global) -> Arg<'a>
    ensures rule { rule_of result ≡ args_rule }
    ensures local { result.global ≡ false }
{
    Arg::new(alloc, "args")
        .long("args")
        .value_name("N")
        .value_parser(clap::value_parser!(u16))
        .default_value("0")
        .help("At least how many positional parameters are set when the script starts")
}

fn full_arg<'a>(alloc: Global) -> Arg<'a>
    ensures rule { rule_of result ≡ full_rule }
    ensures local { result.global ≡ false }
{
    Arg::new(alloc, "full")
        .long("full")
        .action(ArgAction::SetTrue)
        .help("Prints what is claimed round each command too")
}

fn file_arg<'a>(alloc: Global) -> Arg<'a>
    ensures rule { rule_of result ≡ file_rule (codes "FILE") }
    ensures local { result.global ≡ false }
{
    Arg::new(alloc, "FILE")
        .required(true)
        .help("The script, or - for standard input")
}

fn certificate_arg<'a>(alloc: Global) -> Arg<'a>
    ensures rule { rule_of result ≡ file_rule (codes "CERT") }
    ensures local { result.global ≡ false }
{
    Arg::new(alloc, "CERT")
        .required(true)
        .help("A certificate of the script, or - for standard input")
}

fn name_arg<'a>(alloc: Global) -> Arg<'a>
    ensures rule { rule_of result ≡ name_rule }
    ensures local { result.global ≡ false }
{
    Arg::new(alloc, "NAME")
        .action(ArgAction::Append)
        .help("A variable that is set when the script starts")
}

fn reading_command<'a>(
    alloc: Global,
    name: &'a str,
    about: &'a str,
) -> Result<Command<'a>, AllocError>
    ensures app { IfOk result (λ c. app_of c ≡ reading_app name.entry.now) }
    ensures local { IfOk result (λ c. (out-Command c).has_globals ≡ false) }
{
    Command::new(alloc, name)
        .about(about)
        .after_help(AFTER_SUBCOMMAND)
        .arg(args_arg(alloc))?
        .arg(file_arg(alloc))?
        .arg(name_arg(alloc))
}

fn checking_command<'a>(
    alloc: Global,
    name: &'a str,
    about: &'a str,
) -> Result<Command<'a>, AllocError>
    ensures app { IfOk result (λ c. app_of c ≡ checking_app name.entry.now) }
    ensures local { IfOk result (λ c. (out-Command c).has_globals ≡ false) }
{
    Command::new(alloc, name)
        .about(about)
        .after_help(AFTER_SUBCOMMAND)
        .arg(args_arg(alloc))?
        .arg(file_arg(alloc))?
        .arg(certificate_arg(alloc))?
        .arg(name_arg(alloc))
}

fn certifying_command<'a>(
    alloc: Global,
    name: &'a str,
    about: &'a str,
) -> Result<Command<'a>, AllocError>
    ensures app { IfOk result (λ c. app_of c ≡ certifying_app name.entry.now) }
    ensures local { IfOk result (λ c. (out-Command c).has_globals ≡ false) }
{
    Command::new(alloc, name)
        .about(about)
        .after_help(AFTER_SUBCOMMAND)
        .arg(args_arg(alloc))?
        .arg(full_arg(alloc))?
        .arg(file_arg(alloc))?
        .arg(name_arg(alloc))
}

fn printing_command<'a>(
    alloc: Global,
    name: &'a str,
    about: &'a str,
) -> Result<Command<'a>, AllocError>
    ensures app { IfOk result (λ c. app_of c ≡ printing_app name.entry.now) }
    ensures local { IfOk result (λ c. (out-Command c).has_globals ≡ false) }
{
    Command::new(alloc, name).about(about).arg(file_arg(alloc))
}

fn shset_command<'a>(alloc: Global) -> Result<Command<'a>, AllocError>
    ensures { IfOk result (λ c. app_of c ≡ shset_app) }
{
    let lint = reading_command(
        alloc,
        "lint",
        "Prints what is wrong with a script, or that it is clean",
    )?;
    let command = Command::new(alloc, "shset")
        .about("Looks in shell scripts for variables that may be unset and words that may be split")
        .subcommand_required(true)
        .disable_help_subcommand(true)
        .version(VERSION)
        .after_help(AFTER_HELP)
        .subcommand(lint)?;
    let cert = certifying_command(
        alloc,
        "cert",
        "Prints what is surely set at the start, in loops and round functions, as a certificate",
    )?;
    let command = command.subcommand(cert)?;
    let check = checking_command(
        alloc,
        "check",
        "Prints what is wrong with a script by a certificate of it, or that it is clean",
    )?;
    let command = command.subcommand(check)?;
    let print = printing_command(
        alloc,
        "print",
        "Prints a script in one layout, without comments outside words",
    )?;
    command.subcommand(print)
}

fn stop_of(alloc: Global, error: Error) -> Stop
    ensures { StopsAs (kind_of error) result }
{
    let kind = error.kind();
    if kind == ErrorKind::OutOfMemory {
        return Stop::Memory;
    }
    let Ok(text) = format!(in alloc; "{error}") else {
        return Stop::Memory;
    };
    if kind == ErrorKind::DisplayHelp || kind == ErrorKind::DisplayVersion {
        Stop::Help(text)
    } else {
        Stop::Usage(text)
    }
}

fn action_of(name: &str, sub: &ArgMatches<'_>) -> Action
    requires { (a : Action) × (name.now ≡ action_name a) }
    ensures name { name.now ≡ action_name result }
    ensures shown { IsShownAs result (rows_of (found_of sub.now)) }
{
    match name {
        "lint" => Action::Lint,
        "cert" => certifying(sub),
        "check" => Action::Check,
        "print" => Action::Print,
        _ => unreachable!(),
    }
}

// A certificate is shown, in full if the flag is among the words.
fn certifying(sub: &ArgMatches<'_>) -> Action
    ensures name { codes "cert" ≡ action_name result }
    ensures shown { IsShownAs result (rows_of (found_of sub.now)) }
{
    Action::Cert {
        full: sub.get_flag("full"),
    }
}

fn source_of<'a>(text: &'a str) -> Source<'a>
    ensures { IsSourceOf text.entry.now result }
{
    if text == "-" {
        Source::Input
    } else {
        Source::File(text)
    }
}

// Where the certificate comes from, which only a check has.
fn certificate_of<'a>(action: Action, sub: &ArgMatches<'a>) -> Option<Source<'a>>
    requires { HasCertificate action (rows_of (found_of sub.now)) }
    ensures { IsCertificateOf action (rows_of (found_of sub.now)) result }
{
    match action {
        Action::Lint | Action::Cert { .. } | Action::Print => None,
        Action::Check => {
            let Some(file) = sub.get_str("CERT") else {
                unreachable!()
            };
            Some(source_of(file))
        }
    }
}

fn are_both_input(script: Source<'_>, cert: Option<Source<'_>>) -> bool
    ensures both { result ≡ true → (script.entry ≡ Input) × (cert.entry ≡ Some Input) }
    ensures apart { result ≡ false → AreApart script.entry cert.entry }
{
    matches!((script, cert), (Source::Input, Some(Source::Input)))
}

fn names_of<'a>(alloc: Global, sub: &ArgMatches<'a>) -> Result<Vec<&'a [u8]>, AllocError>
    ensures { IfOk result (λ v. map (λ s. s.now) v.items ≡ declared_texts (rows_of (found_of sub.now))) }
{
    match sub.get_strs("NAME") {
        Some(given) => bytes_of(alloc, given),
        None => Ok(Vec::new(alloc)),
    }
}

fn bytes_of<'a>(alloc: Global, texts: &[&'a str]) -> Result<Vec<&'a [u8]>, AllocError>
    ensures { IfOk result (λ v. map (λ s. s.now) v.items ≡ map (λ s. s.now) texts.now) }
{
    let mut bytes = Vec::with_capacity(alloc, texts.len())?;
    for text in texts {
        bytes.push(text.as_bytes())?;
    }
    Ok(bytes)
}

// How many positional parameters are declared, for an action to which this matters.
fn args_of(action: Action, sub: &ArgMatches<'_>) -> u16
    requires { HasNumber action (rows_of (found_of sub.now)) }
    ensures { IsNumberOf action (rows_of (found_of sub.now)) result }
{
    match action {
        Action::Print => 0,
        Action::Lint | Action::Cert { .. } | Action::Check => {
            let Some(args) = sub.get_one::<u16>("args") else {
                unreachable!()
            };
            args
        }
    }
}

fn policy_of(alloc: Global, action: Action, sub: &ArgMatches<'_>) -> Result<Policy, Stop>
    requires { HasNumber action (rows_of (found_of sub.now)) }
    ensures policy { IfOk result (λ p. IsPolicyOf action (rows_of (found_of sub.now)) p) }
    ensures stop { IfErr result (StopsPolicy (rows_of (found_of sub.now))) }
{
    let args = args_of(action, sub);
    let names = names_of(alloc, sub)?;
    let policy = Policy::new(alloc, &names, args)?;
    Ok(policy)
}

fn read_line<'a>(alloc: Global, name: &str, sub: &ArgMatches<'a>) -> Result<Line<'a>, Stop>
    requires { IsWhole name.now (rows_of (found_of sub.now)) }
    ensures line { IfOk result (IsLineOf name.now (rows_of (found_of sub.now))) }
    ensures stop { IfErr result (StopsRead name.now (rows_of (found_of sub.now))) }
{
    let Some(file) = sub.get_str("FILE") else {
        unreachable!()
    };
    let action = action_of(name, sub);
    let script = source_of(file);
    let cert = certificate_of(action, sub);
    if are_both_input(script, cert) {
        return Err(Stop::Usage(TWO_INPUTS.to_string(alloc)?));
    }
    let policy = policy_of(alloc, action, sub)?;
    Ok(Line {
        task: Task { action, policy },
        script,
        cert,
    })
}

/// Reads the words of a command line, the program's name first. They are
/// `lint [--args N] FILE [NAME..]`, `cert [--args N] [--full] FILE [NAME..]`, or
/// `check [--args N] FILE CERT [NAME..]`. N is 0 to 65535, and 0 if it is not given. FILE or CERT
/// `-` is standard input. Each NAME is a variable that is set when the script starts.
///
/// # Errors
///
/// `Usage` and `Help` if clap takes no line from the words: `Help` for a request of help or of the
/// version. `Usage` too if FILE and CERT are both standard input. `BadName` if a declared text is
/// no name, and `Memory` if a growth was refused.
pub fn command_line<'a, S: AsStr>(alloc: Global, words: &'a [S]) -> Result<Line<'a>, Stop>
    // clap's parse finds no fault in the words, and the line says what it found
    ensures taken { IfOk result (λ _. fault_of shset_app (map S.text words.entry.now) ≡ []) }
    ensures line { IfOk result (λ l. (p : Text × List Row) × (subcommand_of shset_app (map S.text words.entry.now) ≡ Some p) × IsLineOf p.0 p.1 l) }
    ensures stop { IfErr result (StopsAt (map S.text words.entry.now)) }
{
    let command = shset_command(alloc)?;
    let matches = match command.try_get_matches_from(words) {
        Ok(matches) => matches,
        Err(error) => return Err(stop_of(alloc, error)),
    };
    let Some((name, sub)) = matches.subcommand() else {
        unreachable!()
    };
    read_line(alloc, name, sub)
}
