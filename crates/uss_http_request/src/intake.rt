ghost use Rattle.std.specs.Prelude.{◌≡◌, ◌≢◌, ℕ, ◌+◌, ◌<◌, ◌≤◌, ◌++◌, [], List, length, drop, take, Ok, Err, IfOk, IfErr, OnOk, IsErrOf};
ghost use Rattle.uss_cause.specs.Cause.{Rose};
ghost use Rattle.uss_http_request.specs.Pieces.{piece_limit};
ghost use Rattle.uss_http_request.specs.Prompt.{GrowsBy, call_limit};
ghost use Rattle.uss_http_request.specs.Streams.{Hears, Passes, Adds, IsOutside};

use crate::halt::Halt;
use crate::stream::{Stream, StreamFault};
use std::alloc::{AllocError, Global};
use std::marker::Model;
use std::mem;

/// How many bytes are asked for at once.
const PIECE: usize = 16384;

/// What a call for more bytes found.
#[derive(Clone, Copy)]
pub enum More {
    /// There are more bytes than before.
    Some,
    /// The stream has ended.
    End,
}

/// The bytes that came and were not used yet, seen as their list. Bytes are used from the start, and come at the
/// end.
#[derive(Drop)]
pub struct Intake {
    bytes: Vec<u8>,
    // where the bytes not yet used begin
    start: usize,
    // what the next bytes are read into
    piece: Vec<u8>,
    // empty, but for the time of a move of the bytes to the start
    spare: Vec<u8>,
}

impl Model for Intake {
    ghost use Rattle.std.specs.Prelude.{◌≡◌, List, ℕ, ◌≤◌, length, drop};

    ghost Value = { List ℕ };

    ghost view = { λ i. drop i.start i.bytes.items };

    ghost invariant = { λ i. (i.start ≤ length i.bytes.items) × (length i.piece.items ≡ 16384) };
}

/// So many zeros, to be read over.
fn zeros(alloc: Global, count: usize) -> Result<Vec<u8>, AllocError>
    ensures { IfOk result (λ bytes. length bytes.items ≡ count) }
{
    vec![in alloc; 0u8; count]
}

/// Reads the next bytes of the stream into the piece, and adds them to the others. Says how many: none at the end.
#[tactic(auto, using(crate::proofs::Passing::hears_then, crate::proofs::Passing::hears_same))]
fn add_next<K, T: Stream<K>>(
    stream: &mut T,
    piece: &mut [u8],
    bytes: &mut Vec<u8>,
) -> Result<usize, Halt>
    requires { 0 < length piece.old }
    ensures adds { IfOk result (Adds T.gave stream.old stream.new bytes.old.items bytes.new.items) }
    ensures within { IfOk result (λ n. n ≤ length piece.old) }
    ensures grows { length bytes.old.items ≤ length bytes.new.items }
    ensures ended { IfOk result (λ n. n ≡ 0 → T.ended stream.new) }
    ensures kept { T.faults stream.old ≤ T.faults stream.new }
    ensures heard { Hears T.gave stream.old stream.new }
    ensures fault { IsErrOf result Halt.Fault → Rose (T.faults stream.old) (T.faults stream.new) }
    ensures calm { result ≢ Err Halt.Fault → T.faults stream.new ≡ T.faults stream.old }
    ensures kinds { IfErr result IsOutside }
{
    let count = match stream.next(piece) {
        Ok(count) => count,
        Err(StreamFault) => return Err(Halt::Fault),
    };
    match bytes.extend_from_slice(&piece[..count]) {
        Ok(()) => Ok(count),
        Err(AllocError) => Err(Halt::Memory),
    }
}

impl Intake {
    /// Nothing came yet.
    pub fn new(alloc: Global) -> Result<Intake, AllocError>
        ensures { IfOk result (λ intake. intake ≡ []) }
    {
        let piece = zeros(alloc, PIECE)?;
        Ok(Intake {
            bytes: Vec::new(alloc),
            start: 0,
            piece,
            spare: Vec::new(alloc),
        })
    }

    /// The bytes not yet used.
    pub fn as_slice(&self) -> &[u8]
        ensures { result.now ≡ self.now }
    {
        &self.bytes.as_slice()[self.start..]
    }

    /// The number of bytes not yet used.
    pub fn len(&self) -> usize
        ensures { result ≡ length self.now }
    {
        self.bytes.len() - self.start
    }

    /// The first 16 KiB of the bytes not yet used, or all where there are fewer.
    pub fn front(&self) -> &[u8]
        ensures value { result.now ≡ take piece_limit self.now }
        ensures limit { length result.now ≤ piece_limit }
    {
        let bytes = self.as_slice();
        if bytes.len() <= PIECE {
            bytes
        } else {
            &bytes[..PIECE]
        }
    }

    /// Uses so many bytes at the start.
    pub fn use_front(&mut self, count: usize)
        requires { count ≤ length self.old }
        ensures { self.new ≡ drop count self.old }
    {
        self.start += count;
    }

    /// Gives back the room of the bytes that were used, once it is half of all.
    fn make_room(&mut self) -> Result<(), AllocError>
        ensures { self.new ≡ self.old }
    {
        if self.start > 0 && self.start >= self.bytes.len() - self.start {
            self.spare.clear();
            self.spare
                .extend_from_slice(&self.bytes.as_slice()[self.start..])?;
            mem::swap(&mut self.bytes, &mut self.spare);
            self.start = 0;
        }
        Ok(())
    }

    /// Takes some more bytes from the stream.
    #[tactic(auto, using(crate::proofs::Passing::hears_then, crate::proofs::Passing::hears_same))]
    pub fn take_more<K, T: Stream<K>>(&mut self, stream: &mut T) -> Result<More, Halt>
        ensures some { result ≡ Ok More.Some → length self.old < length self.new }
        ensures same { result ≡ Ok More.End → self.new ≡ self.old }
        ensures ended { result ≡ Ok More.End → T.ended stream.new }
        ensures passes { OnOk result (Passes T.gave stream.old self.old stream.new self.new) }
        ensures grows { OnOk result (GrowsBy self.old self.new call_limit) }
        ensures kept { T.faults stream.old ≤ T.faults stream.new }
        ensures heard { Hears T.gave stream.old stream.new }
        ensures fault { IsErrOf result Halt.Fault → Rose (T.faults stream.old) (T.faults stream.new) }
        ensures calm { result ≢ Err Halt.Fault → T.faults stream.new ≡ T.faults stream.old }
        ensures kinds { IfErr result IsOutside }
    {
        self.make_room()?;
        match add_next(stream, self.piece.as_mut_slice(), &mut self.bytes) {
            Ok(0) => Ok(More::End),
            Ok(_) => Ok(More::Some),
            Err(halt) => Err(halt),
        }
    }

    /// Takes some bytes from the stream, at most `limit` of them, and adds them to the body and not to the bytes
    /// kept here. Says how many: none at the end of the stream.
    #[tactic(auto, using(crate::proofs::Passing::hears_then, crate::proofs::Passing::hears_same))]
    pub fn read_past<K, T: Stream<K>>(
        &mut self,
        stream: &mut T,
        limit: usize,
        body: &mut Vec<u8>,
    ) -> Result<usize, Halt>
        requires { 0 < limit }
        ensures adds { IfOk result (Adds T.gave stream.old stream.new body.old.items body.new.items) }
        ensures within { IfOk result (λ n. n ≤ limit) }
        ensures one_call { IfOk result (λ n. n ≤ call_limit) }
        ensures ended { IfOk result (λ n. n ≡ 0 → T.ended stream.new) }
        ensures same { self.new ≡ self.old }
        ensures kept { T.faults stream.old ≤ T.faults stream.new }
        ensures heard { Hears T.gave stream.old stream.new }
        ensures fault { IsErrOf result Halt.Fault → Rose (T.faults stream.old) (T.faults stream.new) }
        ensures calm { result ≢ Err Halt.Fault → T.faults stream.new ≡ T.faults stream.old }
        ensures kinds { IfErr result IsOutside }
    {
        let want = limit.min(self.piece.len());
        add_next(stream, &mut self.piece.as_mut_slice()[..want], body)
    }
}
