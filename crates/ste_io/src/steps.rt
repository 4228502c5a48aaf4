//! What the host's files and sinks do at each call, over any reader and any writer.

ghost use Rattle.std.specs.Prelude.{◌≡◌, ◌≢◌, ◌≤◌, ◌<◌, ◌+◌, ℕ, length, take, IfOk, IfSome, OnErr, OnOk};
ghost use Rattle.std.specs.Io.KnownBytes.{Appends, Keeps};
ghost use Rattle.ste_io.specs.Steps.{ReadOn, TakesAtMost};

use crate::files::FetchFault;
use crate::sink::SinkFailed;
use std::alloc::Global;
use std::io::{self, ErrorKind, Read, Write};

/// The most bytes that are read at once.
const MOST_AT_ONCE: usize = 32768;

/// Reads once, at most so many bytes as are left up to `most`, and puts them behind those that were
/// read; the result is whether the reader is at its end.
fn read_once<R: Read>(
    reader: &mut R,
    piece: &mut [u8],
    bytes: &mut Vec<u8>,
    most: u64,
) -> Result<bool, FetchFault>
    requires some { 0 < length piece.old }
    requires room { length bytes.old.items < most }
    ensures long { length piece.new ≡ length piece.old }
    ensures few { OnOk result (length bytes.new.items ≤ most) }
    ensures not_large { (seen : ℕ) → result ≢ Err (FetchFault.TooLarge seen) }
    ensures read { ReadOn (R.remaining reader.old) (R.remaining reader.new) bytes.old.items
        bytes.new.items most result }
{
    let left = (piece.len() as u64).min(most - bytes.len() as u64) as usize;
    match reader.read(&mut piece[..left]) {
        Ok(0) => Ok(true),
        Ok(count) => {
            bytes.extend_from_slice(&piece[..count])?;
            Ok(false)
        }
        Err(error) if error.kind() == ErrorKind::Interrupted => Ok(false),
        Err(error) if error.kind() == ErrorKind::OutOfMemory => Err(FetchFault::OutOfMemory),
        Err(_) => Err(FetchFault::Failed),
    }
}

/// All the bytes of a reader, at most `max`, by pieces.
fn read_by_pieces<R: Read>(
    alloc: Global,
    reader: &mut R,
    piece: &mut [u8],
    max: u64,
) -> Result<Vec<u8>, FetchFault>
    requires some { 0 < length piece.old }
    requires max { max ≤ 67108864 }
    ensures whole { IfOk result (λ bytes.
        IfSome (R.remaining reader.old) (λ all. bytes.items ≡ all)) }
    ensures size { IfOk result (λ bytes. length bytes.items ≤ max) }
    ensures too_large { (seen : ℕ) → result ≡ Err (FetchFault.TooLarge seen)
        → (max < seen) × IfSome (R.remaining reader.old) (λ all. max < length all) }
    ensures asked { TakesAtMost (R.remaining reader.old) (R.remaining reader.new) (max + 1) }
{
    let mut bytes = Vec::new(alloc);
    for _ in 0..u64::MAX {
        let seen = bytes.len() as u64;
        if seen > max {
            return Err(FetchFault::TooLarge { seen });
        }
        if read_once(reader, piece, &mut bytes, max + 1)? {
            return Ok(bytes);
        }
    }
    Err(FetchFault::Failed)
}

/// All the bytes of a reader, at most `max`. It asks for one more at the most.
pub fn read_up_to<R: Read>(alloc: Global, reader: &mut R, max: u64) -> Result<Vec<u8>, FetchFault>
    requires { max ≤ 67108864 }
    ensures whole { IfOk result (λ bytes.
        IfSome (R.remaining reader.old) (λ all. bytes.items ≡ all)) }
    ensures size { IfOk result (λ bytes. length bytes.items ≤ max) }
    ensures too_large { (seen : ℕ) → result ≡ Err (FetchFault.TooLarge seen)
        → (max < seen) × IfSome (R.remaining reader.old) (λ all. max < length all) }
    ensures asked { TakesAtMost (R.remaining reader.old) (R.remaining reader.new) (max + 1) }
{
    let mut piece = vec![in alloc; 0u8; MOST_AT_ONCE]?;
    read_by_pieces(alloc, reader, &mut piece, max)
}

/// All the bytes of what was opened, at most `max`, or why it could not be opened.
pub fn read_opened<R: Read + Drop>(
    alloc: Global,
    opened: io::Result<R>,
    max: u64,
) -> Result<Vec<u8>, FetchFault>
    requires { max ≤ 67108864 }
    ensures not_opened { OnErr opened (OnOk result ⊥) }
    ensures whole { IfOk opened (λ reader. IfOk result (λ bytes.
        IfSome (R.remaining reader) (λ all. bytes.items ≡ all))) }
    ensures size { IfOk result (λ bytes. length bytes.items ≤ max) }
    ensures too_large { (seen : ℕ) → result ≡ Err (FetchFault.TooLarge seen) → (max < seen)
        × IfOk opened (λ reader. IfSome (R.remaining reader) (λ all. max < length all)) }
{
    match opened {
        Ok(mut reader) => read_up_to(alloc, &mut reader, max),
        Err(error) if error.kind() == ErrorKind::OutOfMemory => Err(FetchFault::OutOfMemory),
        Err(_) => Err(FetchFault::Failed),
    }
}

/// Hands a piece to a writer once, and says how many bytes of it were taken.
#[tactic(auto, using(crate::proofs::Limits::nothing_appended))]
pub fn write_some<W: Write>(writer: &mut W, piece: &[u8]) -> Result<usize, SinkFailed>
    requires { 0 < length piece.now }
    ensures count { IfOk result (λ n. (0 < n) × (n ≤ length piece.now)) }
    ensures ok { IfOk result (λ n.
        Appends (W.contents writer.old) (W.contents writer.new) (take n piece.now)) }
    ensures err { OnErr result (Keeps (W.contents writer.old) (W.contents writer.new)) }
{
    match writer.write(piece) {
        Ok(count) if count > 0 => Ok(count),
        _ => Err(SinkFailed),
    }
}
