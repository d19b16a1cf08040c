//! Reads all that there is, and writes a whole text.
ghost use Rattle.std.specs.Prelude.{◌≡◌, ℕ, ◌<◌, ◌≤◌, List, length, take, vec_len, IfOk, OnOk, OnErr, IsErrOf};
ghost use Rattle.std.specs.Io.KnownBytes.{Consumes, Appends};
ghost use Rattle.sh_answers.specs.Ends.{HasRoom, BoreOnly, FailedBetween, RefusedBetween};
ghost use Rattle.sh_answers.specs.Moves.{IsReadWhole, Had, TookAtMost};

use crate::ends::{Broken, Feed, Outlet};
use std::alloc::{AllocError, Global};
use thiserror::Error;

/// Why a run gave up.
#[derive(Clone, Copy, Debug, PartialEq, Eq, Error)]
pub enum Fault {
    /// Memory was refused.
    #[error("out of memory")]
    Memory,
    /// A reader failed.
    #[error("cannot read")]
    Read,
    /// The writer failed.
    #[error("cannot write")]
    Write,
}

impl From<AllocError> for Fault {
    ghost use Rattle.sh_answers.specs.declared.moves.Fault.TheVariants.{Memory};

    ghost from_gives = { λ _ e. e ≡ Memory };

    fn from(_error: AllocError) -> Fault {
        Fault::Memory
    }
}

// How many interruptions of an end are borne in one call.
const BORNE: u32 = 1024;

/// The bytes of a reader up to its end, or the first `limit` of them. It is asked for no more than
/// `limit` bytes in all.
///
/// # Errors
///
/// `Read` if the reader failed or was interrupted more than 1,024 times, `Memory` if a growth was
/// refused. The bytes that were read until then are lost.
pub fn read_all<R: Feed>(alloc: Global, reader: &mut R, limit: usize) -> Result<Vec<u8>, Fault>
    requires { HasRoom (R.tally reader.old) }

    ensures whole { IfOk result (λ v. IsReadWhole (R.tally reader.old) (R.tally reader.new) (R.remaining reader.new) limit (vec_len v)) }
    ensures bytes { IfOk result (λ v. Consumes (R.remaining reader.old) (R.remaining reader.new) v.items) }
    // The two as one, if the bytes of the reader are known.
    ensures taken { IfOk result (λ v. (b : List ℕ) → Had (R.remaining reader.old) limit b → v.items ≡ b) }

    ensures failed { IsErrOf result Fault.Read → FailedBetween (R.tally reader.old) (R.tally reader.new) }
    ensures succeeds { R.cannot_fail reader.old → IsErrOf result Fault.Read → ⊥ }
    ensures memory { IsErrOf result Fault.Memory → BoreOnly (R.tally reader.old) (R.tally reader.new) }
    ensures written { IsErrOf result Fault.Write → ⊥ }
    ensures lost { OnErr result (TookAtMost (R.remaining reader.old) (R.remaining reader.new) limit) }
{
    let mut text: Vec<u8> = Vec::new(alloc);
    let mut chunk = [0u8; 4096];
    let mut borne: u32 = 0;
    while text.len() < limit {
        let want = chunk.len().min(limit - text.len());
        match reader.pull(&mut chunk[..want]) {
            Ok(n) => {
                if n == 0 {
                    return Ok(text);
                }
                text.extend_from_slice(&chunk[..n])?;
            }
            Err(Broken::Interrupted) => {
                if borne == BORNE {
                    return Err(Fault::Read);
                }
                borne += 1;
            }
            Err(Broken::Failed) => return Err(Fault::Read),
        }
    }
    Ok(text)
}

/// Writes the whole text.
///
/// # Errors
///
/// `Write` if the writer failed, was interrupted more than 1,024 times or took no byte of a piece.
/// What it took is a front of the text, and not the whole.
pub fn write_all<W: Outlet>(writer: &mut W, text: &[u8]) -> Result<(), Fault>
    requires { HasRoom (W.tally writer.old) }

    ensures ok { OnOk result (Appends (W.contents writer.old) (W.contents writer.new) text.now) }
    ensures bore { OnOk result (BoreOnly (W.tally writer.old) (W.tally writer.new)) }

    ensures only { OnErr result (result ≡ Err Fault.Write) }
    ensures failed { OnErr result (RefusedBetween (W.tally writer.old) (W.tally writer.new)) }
    ensures front { OnErr result ((n : ℕ) × (n < length text.now) × Appends (W.contents writer.old) (W.contents writer.new) (take n text.now)) }
{
    let mut at: usize = 0;
    let mut borne: u32 = 0;
    while at < text.len() {
        match writer.push(&text[at..]) {
            Ok(n) => {
                if n == 0 {
                    return Err(Fault::Write);
                }
                at += n;
            }
            Err(Broken::Interrupted) => {
                if borne == BORNE {
                    return Err(Fault::Write);
                }
                borne += 1;
            }
            Err(Broken::Failed) => return Err(Fault::Write),
        }
    }
    Ok(())
}
