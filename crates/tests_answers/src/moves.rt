//! Whole reads and writes at ends that fail, are interrupted or move little.
ghost use Rattle.std.specs.Prelude.{◌≡◌, [], Some};
ghost use Rattle.sh_answers.specs.Ends.{HasRoom, no_counts};

use sh_answers::{Counted, Counts, Fault, Feed, Outlet, read_all, write_all};
use sh_rigged::{Rigged, Trick};
use std::io::{self, ErrorKind, Read, Write};
use std::process::Abort;
use std::test::Fail;

const TEXT: &[u8] = b"echo \"$x\"\n";

/// How an end moves bytes: at most so many a call, after so many interruptions, with a trick at the
/// call of a number.
type Way = (usize, u32, u32, Trick);

/// How many errors, interruptions and calls that moved no byte are counted.
type Tally = (u64, u64, u64);

fn rigged<T>(inner: T, way: Way) -> Rigged<T>
    ensures { result.counts ≡ no_counts }
{
    let (most, interrupts, call, trick) = way;
    Rigged::new(inner, most, interrupts, call, trick)
}

fn tally(counts: Counts) -> Tally {
    (counts.errors, counts.interruptions, counts.empty)
}

/// What a read of the text gives at a reader, and what the reader counts.
fn check_read<R: Feed + Drop>(
    rt: &(impl Abort + AllocGlobal),
    mut reader: R,
    limit: usize,
    wanted: Result<&[u8], Fault>,
    counted: Tally,
)
    requires { HasRoom (R.tally reader) }
{
    let found = read_all(rt.alloc(), &mut reader, limit);
    let is_wanted = match (&found, wanted) {
        (Ok(text), Ok(wanted)) => text.as_slice() == wanted,
        (Err(fault), Err(wanted)) => *fault == wanted,
        _ => false,
    };
    assert!(rt;
        is_wanted && tally(reader.counts()) == counted,
        "{limit} {found:?} {wanted:?}"
    );
}

/// What a write of the text answers at a writer, and what the writer counts.
fn check_write<W: Outlet>(
    rt: &impl Abort,
    writer: &mut W,
    wanted: Result<(), Fault>,
    counted: Tally,
)
    requires { HasRoom (W.tally writer.old) }
{
    let found = write_all(writer, TEXT);
    let is_wanted = found == wanted && tally(writer.counts()) == counted;
    assert!(rt; is_wanted, "{found:?} {counted:?}");
}

/// What a write of the text answers, and what of it is taken.
fn check_taken(
    rt: &(impl Abort + AllocGlobal),
    way: Way,
    wanted: Result<(), Fault>,
    taken: &[u8],
    counted: Tally,
) {
    let mut writer = rigged(Vec::<u8>::new(rt.alloc()), way);
    check_write(rt, &mut writer, wanted, counted);
    assert_eq!(rt; writer.inner.as_slice(), taken);
}

/// A way, the limit of the read, what is read, and what is counted.
type ReadRow = (Way, usize, Result<&'static [u8], Fault>, Tally);

const READS: &[ReadRow] = &[
    ((1, 1024, 0, Trick::Fail), 100, Ok(TEXT), (0, 1024, 1)),
    ((3, 1024, 0, Trick::Fail), 100, Ok(TEXT), (0, 1024, 1)),
    ((4096, 1024, 0, Trick::Fail), 100, Ok(TEXT), (0, 1024, 1)),
    (
        (1, 1025, 0, Trick::Fail),
        100,
        Err(Fault::Read),
        (0, 1025, 0),
    ),
    ((4096, 0, 0, Trick::Fail), 11, Ok(TEXT), (0, 0, 1)),
    ((4096, 0, 0, Trick::Fail), 10, Ok(TEXT), (0, 0, 0)),
    ((4096, 0, 0, Trick::Fail), 9, Ok(b"echo \"$x\""), (0, 0, 0)),
    ((4096, 0, 0, Trick::Fail), 1, Ok(b"e"), (0, 0, 0)),
    ((4096, 0, 0, Trick::Fail), 0, Ok(b""), (0, 0, 0)),
    ((1, 0, 11, Trick::Fail), 10, Ok(TEXT), (0, 0, 0)),
];

#[test]
fn a_read_stops_at_the_end_or_its_limit(rt: HostRuntime) {
    for (way, limit, wanted, counted) in READS {
        check_read(&rt, rigged(TEXT, *way), *limit, *wanted, *counted);
    }
}

#[test]
fn a_reader_that_fails_is_told(rt: HostRuntime) {
    for call in 1..=11 {
        let reader = rigged(TEXT, (1, 0, call, Trick::Fail));
        check_read(&rt, reader, 100, Err(Fault::Read), (1, 0, 0));
    }
}

#[test]
fn a_writer_of_single_bytes_takes_the_text(rt: HostRuntime) {
    check_taken(&rt, (1, 1024, 0, Trick::Fail), Ok(()), TEXT, (0, 1024, 0));
}

#[test]
fn a_writer_that_fails_is_told(rt: HostRuntime) {
    check_taken(
        &rt,
        (1, 1025, 0, Trick::Fail),
        Err(Fault::Write),
        b"",
        (0, 1025, 0),
    );
    for taken in 0..10 {
        let call = taken as u32 + 1;
        let front = &TEXT[..taken];
        check_taken(
            &rt,
            (1, 0, call, Trick::Fail),
            Err(Fault::Write),
            front,
            (1, 0, 0),
        );
        check_taken(
            &rt,
            (1, 0, call, Trick::Refuse),
            Err(Fault::Write),
            front,
            (0, 0, 1),
        );
    }
}

#[test]
fn a_full_writer_is_told(rt: HostRuntime) {
    let mut room = [0u8; 2];
    let mut writer = Counted::new(room.as_mut_slice());
    check_write(&rt, &mut writer, Err(Fault::Write), (0, 0, 1));
}

// A reader and a writer of std that give one error again and again.
#[derive(Drop)]
struct Failing {
    kind: ErrorKind,
}

impl Read for Failing {
    ghost remaining = { λ _. Some [] };

    fn read(&mut self, _buffer: &mut [u8]) -> io::Result<usize> {
        Err(self.kind.into())
    }
}

impl Write for Failing {
    ghost contents = { λ _. Some [] };

    fn write(&mut self, _piece: &[u8]) -> io::Result<usize> {
        Err(self.kind.into())
    }

    fn flush(&mut self) -> io::Result<()> {
        Ok(())
    }
}

const KINDS: &[(ErrorKind, Tally)] = &[
    (ErrorKind::Interrupted, (0, 1025, 0)),
    (ErrorKind::Other, (1, 0, 0)),
    (ErrorKind::WouldBlock, (1, 0, 0)),
    (ErrorKind::TimedOut, (1, 0, 0)),
    (ErrorKind::BrokenPipe, (1, 0, 0)),
    (ErrorKind::WriteZero, (1, 0, 0)),
    (ErrorKind::UnexpectedEof, (1, 0, 0)),
    (ErrorKind::OutOfMemory, (1, 0, 0)),
];

#[test]
fn errors_are_told_from_interruptions(rt: HostRuntime) {
    for (kind, counted) in KINDS {
        let reader = Counted::new(Failing { kind: *kind });
        check_read(&rt, reader, 100, Err(Fault::Read), *counted);
        let mut writer = Counted::new(Failing { kind: *kind });
        check_write(&rt, &mut writer, Err(Fault::Write), *counted);
    }
}
