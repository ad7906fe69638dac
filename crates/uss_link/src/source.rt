ghost use Rattle.std.specs.Prelude.{◌≡◌, ◌≢◌, Err, ℕ, ◌+◌, ◌≤◌, ◌<◌, [], List, length, Option, Some, IfOk, IsErrOf};
ghost use Rattle.uss_cause.specs.Cause.{Counts, Rose};
ghost use Rattle.uss_link.specs.Bytes.{Reads, Appended};

use std::alloc::{AllocError, Global};

/// A read was not carried out. The source's count of faults rose, or stands at its greatest value.
#[derive(Clone, Copy, Debug, PartialEq, Eq)]
pub struct ReadFault;

/// Where bytes come from, as standard input or a connection.
pub trait Source {
    /// How many faults this source has answered: it never falls.
    ghost faults: { Self → ℕ };

    /// The bytes that are left to be read, where the source tells them. What is told stays told.
    ghost left: { Self → Option (List ℕ) };

    /// Reads bytes into the start of the buffer, and says how many. None in a buffer that isn't empty is the
    /// end. Of the buffer after these bytes nothing is said.
    fn read(&mut self, buffer: &mut [u8]) -> Result<usize, ReadFault>
        ensures counts { Counts (faults self.old) (faults self.new) result }
        ensures bytes { Reads (left self.old) (left self.new) buffer.old buffer.new result };
}

/// Why a source was not read to its end.
#[derive(Clone, Copy, Debug, PartialEq, Eq)]
pub enum ReadWholeRefusal {
    /// It gives more bytes than the limit allows.
    TooLarge,
    /// A read answered a fault.
    Fault,
    /// Memory is wanting.
    Memory,
}

/// How many bytes are asked for at once.
const PIECE: usize = 65536;

/// So many zeros, to be read over.
fn zeros(alloc: Global, count: usize) -> Result<Vec<u8>, AllocError>
    ensures { IfOk result (λ bytes. length bytes.items ≡ count) }
{
    vec![in alloc; 0u8; count]
}

/// Reads once into the piece, appends what came to the bytes, and says how many that were: none at the end.
fn read_on<S: Source>(
    input: &mut S,
    piece: &mut [u8],
    bytes: &mut Vec<u8>,
) -> Result<usize, ReadWholeRefusal>
    requires { 0 < length piece.old }
    ensures kept { S.faults input.old ≤ S.faults input.new }
    ensures fault { IsErrOf result ReadWholeRefusal.Fault → Rose (S.faults input.old) (S.faults input.new) }
    ensures calm { result ≢ Err ReadWholeRefusal.Fault → S.faults input.new ≡ S.faults input.old }
    ensures possible { result ≢ Err ReadWholeRefusal.TooLarge }
    ensures count { IfOk result (λ n. length bytes.new.items ≡ length bytes.old.items + n) }
    ensures few { IfOk result (λ n. n ≤ length piece.old) }
    ensures told { (left : List ℕ) → S.left input.old ≡ Some left → IfOk result (Appended left (S.left input.new) bytes.old.items bytes.new.items) }
{
    let count = match input.read(piece) {
        Ok(count) => count,
        Err(ReadFault) => return Err(ReadWholeRefusal::Fault),
    };
    match bytes.extend_from_slice(&piece[..count]) {
        Ok(()) => Ok(count),
        Err(AllocError) => Err(ReadWholeRefusal::Memory),
    }
}

/// Reads a source to its end, if it gives no more bytes than `limit`. More than that are refused once they
/// were taken, without reading on to the end: at most 65,536 bytes more than the limit are taken.
pub fn read_whole<S: Source>(
    alloc: Global,
    input: &mut S,
    limit: usize,
) -> Result<Vec<u8>, ReadWholeRefusal>
    ensures kept { S.faults input.old ≤ S.faults input.new }
    ensures fault { IsErrOf result ReadWholeRefusal.Fault → Rose (S.faults input.old) (S.faults input.new) }
    ensures calm { result ≢ Err ReadWholeRefusal.Fault → S.faults input.new ≡ S.faults input.old }
    ensures short { IfOk result (λ bytes. length bytes.items ≤ limit) }

    // where the source tells what it has left, it is all of that, and too much exactly where that is
    ensures whole { (left : List ℕ) → S.left input.old ≡ Some left → IfOk result (λ bytes. bytes.items ≡ left) }
    ensures ended { (left : List ℕ) → S.left input.old ≡ Some left → IfOk result (λ _. S.left input.new ≡ Some []) }
    ensures too_large { (left : List ℕ) → S.left input.old ≡ Some left → IsErrOf result ReadWholeRefusal.TooLarge → limit < length left }
    ensures bounded { (left : List ℕ) → S.left input.old ≡ Some left → IsErrOf result ReadWholeRefusal.TooLarge
        → (rest : List ℕ) × (S.left input.new ≡ Some rest) × (length left ≤ length rest + limit + 65536) }
{
    let mut piece = match zeros(alloc, PIECE) {
        Ok(piece) => piece,
        Err(AllocError) => return Err(ReadWholeRefusal::Memory),
    };
    let mut bytes = Vec::new(alloc);
    loop {
        let count = read_on(input, piece.as_mut_slice(), &mut bytes)?;
        if count == 0 {
            return Ok(bytes);
        }
        if bytes.len() > limit {
            return Err(ReadWholeRefusal::TooLarge);
        }
    }
}
