//! How the program ends: what it prints beside an answer, where, and its status.
ghost use Rattle.std.specs.Prelude.{◌≡◌, Some};
ghost use Rattle.shset.specs.declared.ending.Stream.TheVariants.{Error};
ghost use Rattle.shset.specs.Endings.{Fails, RunsTo, StopsWith, fault_line, message_of, words_line};

use sh_answers::Fault;
use sh_line::Stop;
use std::io::ErrorKind;

/// The status of a usage fault, of an end that failed and of memory that ran out.
pub const FAILED: u8 = 3;

/// What is printed if an answer, or help, is not written.
pub const UNWRITTEN: &str = "shset: cannot write\n";

/// Where a text is printed.
#[derive(Clone, Copy, Debug, PartialEq, Eq)]
pub enum Stream {
    /// Standard output.
    Output,
    /// Standard error.
    Error,
}

/// A text, and where it is printed.
#[derive(Clone, Copy, Debug)]
pub struct Message<'a> {
    /// Where the text goes.
    pub stream: Stream,
    /// The whole text, its last newline included.
    pub text: &'a str,
}

/// The status that the program ends with, and what it prints before.
#[derive(Clone, Copy, Debug)]
pub struct Ending<'a> {
    /// The exit status.
    pub status: u8,
    /// What is printed beside an answer.
    pub message: Option<Message<'a>>,
}

fn failing(text: &str) -> Ending<'_>
    ensures status { result.status ≡ 3 }
    ensures text { message_of result ≡ Some (Error, text.entry.now) }
{
    Ending {
        status: FAILED,
        message: Some(Message {
            stream: Stream::Error,
            text,
        }),
    }
}

/// The end after a fault.
pub fn after_fault(fault: Fault) -> Ending<'static>
    ensures { Fails (fault_line fault) result }
{
    match fault {
        Fault::Memory => failing("shset: out of memory\n"),
        Fault::Read => failing("shset: cannot read\n"),
        Fault::Write => failing(UNWRITTEN),
    }
}

/// The end if the runtime gives no words.
pub fn without_words(kind: ErrorKind) -> Ending<'static>
    ensures { Fails (words_line kind) result }
{
    match kind {
        ErrorKind::OutOfMemory => after_fault(Fault::Memory),
        _ => failing("shset: the words of the command line are not UTF-8\n"),
    }
}

/// The end if the words are no line: help is no fault, and goes to standard output.
pub fn without_line(stop: &Stop) -> Ending<'_>
    ensures { StopsWith stop.entry.now result }
{
    match stop {
        Stop::Usage(text) => failing(text.as_str()),
        Stop::Help(text) => Ending {
            status: 0,
            message: Some(Message {
                stream: Stream::Output,
                text: text.as_str(),
            }),
        },
        Stop::BadName => failing("shset: bad name\n"),
        Stop::Memory => after_fault(Fault::Memory),
    }
}

/// The end after a run, whose answer is written.
pub fn after_run(answer: Result<u8, Fault>) -> Ending<'static>
    ensures { RunsTo answer result }
{
    match answer {
        Ok(status) => Ending {
            status,
            message: None,
        },
        Err(fault) => after_fault(fault),
    }
}
