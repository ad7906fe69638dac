ghost use Rattle.std.specs.Prelude.{◌≡◌, ◌≢◌, ℕ, ◌++◌, ◌<◌, ◌≤◌, length, Ok, Err, IfOk, IfErr, OnOk};
ghost use Rattle.httparse.specs.Ascii.{crlf_bytes};
ghost use Rattle.uss_cause.specs.Cause.{Rose};
ghost use Rattle.uss_http_request.specs.Streams.{Hears, Passes, UnlessOutside};
ghost use Rattle.uss_http_request.specs.Chunks.{IsOpenLine, IsOpenLineEnd, IsCutOff};
ghost use Rattle.uss_http_request.specs.Fields.{body_limit};
ghost use Rattle.uss_http_request.specs.Pieces.{piece_limit};
ghost use Rattle.uss_http_request.specs.Prompt.{IsPrompt, ButForFaults};
ghost use Rattle.uss_http_request.specs.ChunkAnswers.{TakesSize, MissesChunk, MissesLineEnd, TakesChunk, TakesLast, refusal_of_piece};

use crate::chunk_pieces::{ChunkEnd, SizeLine};
use crate::data::take_data;
use crate::halt::Halt;
use crate::intake::Intake;
use crate::piece::take_piece;
use crate::refusal::ReadRefusal;
use crate::stream::Stream;

/// The most bytes that a body may have: 8 MiB.
pub const BODY_LIMIT: usize = 8388608;

/// What was taken of a body in chunks.
#[derive(Clone, Copy)]
pub enum Turn {
    /// A chunk, whose bytes were added to the body.
    Chunk,
    /// The last line, which says 0.
    Last,
}

/// Why a piece of a body in chunks is missing.
pub fn piece_refusal(halt: Halt) -> ReadRefusal
    ensures { result ≡ refusal_of_piece halt }
{
    match halt {
        Halt::Bad | Halt::Long => ReadRefusal::BadChunk,
        Halt::Cut => ReadRefusal::Truncated,
        Halt::Fault => ReadRefusal::Fault,
        Halt::Memory => ReadRefusal::Memory,
    }
}

/// Takes a size line, and says the size.
#[tactic(auto, using(crate::proofs::Passing::hears_then, crate::proofs::Passing::hears_same))]
fn take_size<K, T: Stream<K>>(stream: &mut T, intake: &mut Intake) -> Result<u64, ReadRefusal>
    ensures taken { IfOk result (TakesSize T.gave stream.old intake.old stream.new intake.new) }
    ensures refused { (so_far : ℕ) → IfErr result (MissesChunk T.gave T.ended stream.old intake.old stream.new so_far) }
    ensures prompt { ButForFaults result (IsPrompt T.gave stream.old intake.old stream.new (λ seen. (length seen < piece_limit) × IsOpenLine seen)) }
    ensures kept { T.faults stream.old ≤ T.faults stream.new }
    ensures heard { Hears T.gave stream.old stream.new }
    ensures fault { result ≡ Err ReadRefusal.Fault → Rose (T.faults stream.old) (T.faults stream.new) }
    ensures calm { result ≢ Err ReadRefusal.Fault → T.faults stream.new ≡ T.faults stream.old }
{
    let (len, size) = match take_piece(stream, intake, &mut SizeLine) {
        Ok(found) => found,
        Err(halt) => return Err(piece_refusal(halt)),
    };
    intake.use_front(len);
    Ok(size)
}

/// Takes the CR LF after the bytes of a chunk.
#[tactic(auto, using(crate::proofs::Passing::hears_then, crate::proofs::Passing::hears_same))]
fn take_line_end<K, T: Stream<K>>(stream: &mut T, intake: &mut Intake) -> Result<(), Halt>
    ensures taken { OnOk result (Passes T.gave stream.old intake.old stream.new (crlf_bytes ++ intake.new)) }
    ensures refused { IfErr result (MissesLineEnd T.gave T.ended stream.old intake.old stream.new) }
    ensures prompt { UnlessOutside result (IsPrompt T.gave stream.old intake.old stream.new (λ seen. (length seen < piece_limit) × IsOpenLineEnd seen)) }
    ensures kept { T.faults stream.old ≤ T.faults stream.new }
    ensures heard { Hears T.gave stream.old stream.new }
    ensures fault { result ≡ Err Halt.Fault → Rose (T.faults stream.old) (T.faults stream.new) }
    ensures calm { result ≢ Err Halt.Fault → T.faults stream.new ≡ T.faults stream.old }
{
    match take_piece(stream, intake, &mut ChunkEnd) {
        Ok(()) => {}
        Err(halt) => return Err(halt),
    }
    intake.use_front(2);
    Ok(())
}

/// Takes the next chunk and adds its bytes to the body, or takes the last line.
#[tactic(auto, using(crate::proofs::Passing::hears_then, crate::proofs::Passing::hears_same))]
pub fn take_chunk<K, T: Stream<K>>(
    stream: &mut T,
    intake: &mut Intake,
    body: &mut Vec<u8>,
) -> Result<Turn, ReadRefusal>
    requires { length body.old.items ≤ body_limit }
    ensures chunk { result ≡ Ok Turn.Chunk → TakesChunk T.gave stream.old intake.old stream.new intake.new body.old.items body.new.items }
    ensures last { result ≡ Ok Turn.Last → TakesLast T.gave stream.old intake.old stream.new intake.new body.old.items body.new.items }
    ensures refused { IfErr result (MissesChunk T.gave T.ended stream.old intake.old stream.new (length body.old.items)) }
    ensures prompt { ButForFaults result (IsPrompt T.gave stream.old intake.old stream.new (IsCutOff (length body.old.items))) }
    ensures kept { T.faults stream.old ≤ T.faults stream.new }
    ensures heard { Hears T.gave stream.old stream.new }
    ensures fault { result ≡ Err ReadRefusal.Fault → Rose (T.faults stream.old) (T.faults stream.new) }
    ensures calm { result ≢ Err ReadRefusal.Fault → T.faults stream.new ≡ T.faults stream.old }
{
    let size = match take_size(stream, intake) {
        Ok(size) => size,
        Err(refusal) => return Err(refusal),
    };
    if size == 0 {
        return Ok(Turn::Last);
    }
    if size > (BODY_LIMIT - body.len()) as u64 {
        return Err(ReadRefusal::BodyTooLarge);
    }
    match take_data(stream, intake, size as usize, body) {
        Ok(()) => {}
        Err(halt) => return Err(piece_refusal(halt)),
    }
    match take_line_end(stream, intake) {
        Ok(()) => Ok(Turn::Chunk),
        Err(halt) => Err(piece_refusal(halt)),
    }
}
