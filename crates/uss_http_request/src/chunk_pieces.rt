ghost use Rattle.std.specs.Prelude.{◌≡◌, ℕ, ◌≤◌, List, length, codes};
ghost use Rattle.httparse.specs.Grammar.{ChunkLine, NeverHasChunkLine};
ghost use Rattle.httparse.specs.Spans.{IsChunkLineAt};
ghost use Rattle.uss_http_request.specs.Chunks.{IsOpenLine, HasLineEnd, IsOpenLineEnd, NeverHasLineEnd};
ghost use Rattle.uss_http_request.specs.Pieces.{MatchLook, piece_limit};

use crate::piece::{Look, Piece};
use httparse::{Status, parse_chunk_size};

/// The size line of a chunk.
#[derive(Clone, Copy)]
pub struct SizeLine;

impl Piece for SizeLine {
    /// The length of the line, and the size that it says.
    type Found = (usize, u64);

    ghost found = { λ _ bytes found. (line : ChunkLine) × IsChunkLineAt bytes found.0 found.1 line };

    ghost unfinished = { λ bytes. IsOpenLine bytes };

    ghost never = { λ _ bytes. NeverHasChunkLine bytes };

    fn look(&mut self, bytes: &[u8]) -> Look<(usize, u64)> {
        match parse_chunk_size(bytes) {
            Ok(Status::Complete(found)) => Look::Whole(found),
            Ok(Status::Partial) => Look::NotYet,
            Err(_) => Look::Never,
        }
    }

    fn may_end(&self, bytes: &[u8], from: usize) -> bool {
        bytes[from..].contains(&b'\n')
    }
}

/// The CR LF after the bytes of a chunk.
#[derive(Clone, Copy)]
pub struct ChunkEnd;

impl Piece for ChunkEnd {
    type Found = ();

    ghost found = { λ _ bytes _. HasLineEnd bytes };

    ghost unfinished = { λ bytes. IsOpenLineEnd bytes };

    ghost never = { λ _ bytes. NeverHasLineEnd bytes };

    fn look(&mut self, bytes: &[u8]) -> Look<()> {
        if bytes.is_empty() {
            return Look::NotYet;
        }
        if bytes[0] != b'\r' {
            return Look::Never;
        }
        if bytes.len() == 1 {
            return Look::NotYet;
        }
        if bytes[1] != b'\n' {
            return Look::Never;
        }
        Look::Whole(())
    }

    fn may_end(&self, bytes: &[u8], from: usize) -> bool {
        from < bytes.len()
    }
}
