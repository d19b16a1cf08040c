//! A linter for POSIX shell scripts whose `clean` is a proof. It opens the ends, does what the
//! command line asks for, and ends with its status.
#![tactic(auto)]

ghost use Rattle.std.specs.Prelude.{◌≡◌, Err, IfOk, IsErrOf, OnOk};
ghost use Rattle.std.specs.Process.{exit_status};
ghost use Rattle.sh_answers.specs.Ends.{BoreOnly, HasRoom, RefusedBetween};
ghost use Rattle.shset.specs.Endings.{Ends, EndsUnseen, Offers, seen};
ghost use Rattle.shset.specs.Sources.{Answers, Fronts, IsLacking, IsLackingIfNamed, IsSure, IsSureIfNamed, PromisesSafe, bytes_of, certificate_bytes};

mod ending;
mod sources;

use ending::{Ending, FAILED, Stream, UNWRITTEN, after_run, without_line, without_words};
use sh_answers::{Counted, Fault, Feed, Outlet, Task, write_all};
use sh_line::{Line, Source, command_line};
use sh_report::run;
use sources::{Nothing, Sources};
use std::alloc::Global;
use std::process::ExitCode;
use std::rt::Env;
use std::{env, io};

/// Prints on standard error, of which nothing can be reported if it refuses, and gives the status.
fn end_with<E: Outlet>(error: &mut E, text: &str, status: u8) -> ExitCode
    requires { HasRoom (E.tally error.old) }
    ensures status { exit_status result ≡ status }
    ensures offered { Offers text.now (seen (E.contents error.old) (E.tally error.old)) (seen (E.contents error.new) (E.tally error.new)) }
{
    let _ = write_all(error, text.as_bytes());
    ExitCode::from(status)
}

/// Prints what there is to print on its stream, and gives the status. If standard output refuses
/// help, that is a fault.
fn end<O: Outlet, E: Outlet>(out: &mut O, error: &mut E, ending: Ending<'_>) -> ExitCode
    requires out_room { HasRoom (O.tally out.old) }
    requires error_room { HasRoom (E.tally error.old) }
    ensures { Ends ending.entry (seen (O.contents out.old) (O.tally out.old)) (seen (O.contents out.new) (O.tally out.new)) (seen (E.contents error.old) (E.tally error.old)) (seen (E.contents error.new) (E.tally error.new)) (exit_status result) }
{
    let Some(message) = ending.message else {
        return ExitCode::from(ending.status);
    };
    match message.stream {
        Stream::Error => end_with(error, message.text, ending.status),
        Stream::Output => match write_all(out, message.text.as_bytes()) {
            Ok(()) => ExitCode::from(ending.status),
            Err(_) => end_with(error, UNWRITTEN, FAILED),
        },
    }
}

/// Ends on the streams of the runtime.
fn exit(rt: &HostRuntime, ending: Ending<'_>) -> ExitCode
    ensures { EndsUnseen ending.entry (exit_status result) }
{
    let (stdout, stderr) = (rt.stdout(), rt.stderr());
    let mut out = Counted::new(io::writer(&stdout));
    let mut error = Counted::new(io::writer(&stderr));
    end(&mut out, &mut error, ending)
}

/// Runs over a script and a certificate, and writes the answer.
fn run_over<S: Feed + Drop, C: Feed + Drop, W: Outlet>(
    alloc: Global,
    task: &Task,
    mut script: S,
    mut certificate: C,
    out: &mut W,
) -> Result<u8, Fault>
    requires script_room { HasRoom (S.tally script) }
    requires certificate_room { HasRoom (C.tally certificate) }
    requires out_room { HasRoom (W.tally out.old) }
    ensures answer { IfOk result (Answers (S.remaining script) (C.remaining certificate) task.now (W.contents out.old) (W.contents out.new)) }
    ensures safe { IfOk result (PromisesSafe (S.remaining script) task.now) }
    ensures wrote { OnOk result (BoreOnly (W.tally out.old) (W.tally out.new)) }
    ensures memory { IsErrOf result Fault.Memory → out.new ≡ out.old }
    ensures read { IsErrOf result Fault.Read → out.new ≡ out.old }
    ensures succeeds { S.cannot_fail script → C.cannot_fail certificate → IsErrOf result Fault.Read → ⊥ }
    ensures front { IsErrOf result Fault.Write → Fronts (S.remaining script) (C.remaining certificate) task.now (W.contents out.old) (W.contents out.new) }
    ensures write_failed { IsErrOf result Fault.Write → RefusedBetween (W.tally out.old) (W.tally out.new) }
{
    run(alloc, task, &mut script, &mut certificate, out)
}

/// Runs over a script and the certificate that the line names, if it names one.
fn run_script<R: Sources, S: Feed + Drop, W: Outlet>(
    alloc: Global,
    sources: &R,
    line: &Line<'_>,
    script: S,
    out: &mut W,
) -> Result<u8, Fault>
    requires script_room { HasRoom (S.tally script) }
    requires out_room { HasRoom (W.tally out.old) }
    ensures answer { IfOk result (Answers (S.remaining script) (certificate_bytes (R.input_bytes sources.now) (R.file_bytes sources.now) line.now.cert) line.now.task (W.contents out.old) (W.contents out.new)) }
    ensures safe { IfOk result (PromisesSafe (S.remaining script) line.now.task) }
    ensures wrote { OnOk result (BoreOnly (W.tally out.old) (W.tally out.new)) }
    ensures memory { IsErrOf result Fault.Memory → out.new ≡ out.old }
    ensures read { IsErrOf result Fault.Read → out.new ≡ out.old }
    ensures succeeds { S.cannot_fail script → IsSureIfNamed (R.reads_input sources.now) (R.reads_file sources.now) line.now.cert → IsErrOf result Fault.Read → ⊥ }
    ensures lacking { IsLackingIfNamed (R.lacks_file sources.now) line.now.cert → result ≡ Err Fault.Read }
    ensures front { IsErrOf result Fault.Write → Fronts (S.remaining script) (certificate_bytes (R.input_bytes sources.now) (R.file_bytes sources.now) line.now.cert) line.now.task (W.contents out.old) (W.contents out.new) }
    ensures write_failed { IsErrOf result Fault.Write → RefusedBetween (W.tally out.old) (W.tally out.new) }
{
    match line.cert {
        None => run_over(alloc, &line.task, script, Nothing::new(), out),
        Some(Source::Input) => run_over(alloc, &line.task, script, sources.input(), out),
        Some(Source::File(name)) => match sources.file(name) {
            Ok(file) => run_over(alloc, &line.task, script, file, out),
            Err(_) => Err(Fault::Read),
        },
    }
}

/// Runs over the script and the certificate that the line names, and writes the answer. If a file
/// cannot be opened, nothing is written.
///
/// # Errors
///
/// `Memory` if a growth was refused. `Read` if a file cannot be opened, or if a read of what the
/// line names failed. `Write` if the writer failed, with a front of the text written.
fn run_line<R: Sources, W: Outlet>(
    alloc: Global,
    sources: &R,
    line: &Line<'_>,
    out: &mut W,
) -> Result<u8, Fault>
    requires { HasRoom (W.tally out.old) }
    ensures answer { IfOk result (Answers (bytes_of (R.input_bytes sources.now) (R.file_bytes sources.now) line.now.script)
        (certificate_bytes (R.input_bytes sources.now) (R.file_bytes sources.now) line.now.cert) line.now.task (W.contents out.old) (W.contents out.new)) }
    ensures safe { IfOk result (PromisesSafe (bytes_of (R.input_bytes sources.now) (R.file_bytes sources.now) line.now.script) line.now.task) }
    ensures wrote { OnOk result (BoreOnly (W.tally out.old) (W.tally out.new)) }
    ensures memory { IsErrOf result Fault.Memory → out.new ≡ out.old }
    ensures read { IsErrOf result Fault.Read → out.new ≡ out.old }
    ensures succeeds { IsSure (R.reads_input sources.now) (R.reads_file sources.now) line.now.script
        → IsSureIfNamed (R.reads_input sources.now) (R.reads_file sources.now) line.now.cert → IsErrOf result Fault.Read → ⊥ }
    ensures lacking_script { IsLacking (R.lacks_file sources.now) line.now.script → result ≡ Err Fault.Read }
    ensures lacking_certificate { IsLackingIfNamed (R.lacks_file sources.now) line.now.cert → result ≡ Err Fault.Read }
    ensures front { IsErrOf result Fault.Write → Fronts (bytes_of (R.input_bytes sources.now) (R.file_bytes sources.now) line.now.script)
        (certificate_bytes (R.input_bytes sources.now) (R.file_bytes sources.now) line.now.cert) line.now.task (W.contents out.old) (W.contents out.new) }
    ensures write_failed { IsErrOf result Fault.Write → RefusedBetween (W.tally out.old) (W.tally out.new) }
{
    match line.script {
        Source::Input => run_script(alloc, sources, line, sources.input(), out),
        Source::File(name) => match sources.file(name) {
            Ok(file) => run_script(alloc, sources, line, file, out),
            Err(_) => Err(Fault::Read),
        },
    }
}

/// Does what the line asks for, on standard output.
fn run_here(rt: &HostRuntime, line: &Line<'_>) -> Result<u8, Fault> {
    let stdout = rt.stdout();
    let mut out = Counted::new(io::writer(&stdout));
    run_line(rt.alloc(), rt, line, &mut out)
}

fn words_of(rt: &(impl Env + AllocGlobal)) -> io::Result<Vec<String>> {
    env::args(rt)?.collect(rt.alloc()).map_err(io::Error::from)
}

fn main(rt: HostRuntime) -> ExitCode {
    let words = match words_of(&rt) {
        Ok(words) => words,
        Err(error) => return exit(&rt, without_words(error.kind())),
    };
    match command_line(rt.alloc(), words.as_slice()) {
        Ok(line) => exit(&rt, after_run(run_here(&rt, &line))),
        Err(stop) => exit(&rt, without_line(&stop)),
    }
}
