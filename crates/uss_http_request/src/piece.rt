ghost use Rattle.std.specs.Prelude.{◌≡◌, ◌≢◌, ℕ, ◌+◌, ◌<◌, ◌≤◌, List, length, take, Ok, Err, IfOk, IfErr, OnOk, IsErrOf};
ghost use Rattle.uss_cause.specs.Cause.{Rose};
ghost use Rattle.uss_http_request.specs.Prompt.{GrowsBy, IsPrompt, call_limit};
ghost use Rattle.uss_http_request.specs.Streams.{Hears, Passes, UnlessOutside, IsOutside};
ghost use Rattle.uss_http_request.specs.Pieces.{MatchLook, piece_limit};

use crate::halt::Halt;
use crate::intake::{Intake, More};
use crate::stream::Stream;

/// What a look at bytes shows of a piece of a message.
#[derive(Clone, Copy)]
pub enum Look<F> {
    /// The bytes begin with a whole piece.
    Whole(F),
    /// They don't, but with more bytes they may.
    NotYet,
    /// Whatever bytes follow, they don't begin with such a piece.
    Never,
}

/// A kind of piece of a message, which is found at the start of bytes.
pub trait Piece {
    /// What is told of a piece that was found.
    type Found: Copy + Drop;

    /// These bytes begin with this piece.
    ghost found: { Self → List ℕ → Self.Found → Type 0 };

    /// These bytes begin with no such piece, but with more bytes they may.
    ghost unfinished: { List ℕ → Type 0 };

    /// Whatever bytes follow, these begin with no such piece.
    ghost never: { Self → List ℕ → Type 0 };

    /// Looks at the bytes, of which there are at most 16 KiB.
    fn look(&mut self, bytes: &[u8]) -> Look<Self::Found>
        requires { length bytes.now ≤ piece_limit }
        ensures { MatchLook result (found self.new bytes.now) (unfinished bytes.now) (never self.new bytes.now) };

    /// Whether such a piece may end after the first `from` of these bytes. Where it may not, the bytes are looked at again
    /// only once their number has doubled. So the answer decides how soon a piece is found, and not which.
    fn may_end(&self, bytes: &[u8], from: usize) -> bool
        requires { from ≤ length bytes.now };
}

/// Within how many bytes a piece has to end.
pub const PIECE_LIMIT: usize = 16384;

/// Takes bytes until the piece may end, their number doubled, or there are as many as a piece may have.
#[tactic(auto, using(crate::proofs::Passing::hears_then, crate::proofs::Passing::hears_same))]
fn take_on<K, T: Stream<K>, P: Piece>(
    stream: &mut T,
    intake: &mut Intake,
    piece: &P,
) -> Result<More, Halt>
    ensures some { result ≡ Ok More.Some → length intake.old < length intake.new }
    ensures same { result ≡ Ok More.End → intake.new ≡ intake.old }
    ensures ended { result ≡ Ok More.End → T.ended stream.new }
    ensures passes { OnOk result (Passes T.gave stream.old intake.old stream.new intake.new) }
    ensures doubled { OnOk result (GrowsBy intake.old intake.new (length intake.old + call_limit)) }
    ensures near { length intake.old < piece_limit → OnOk result (length intake.new < piece_limit + call_limit) }
    ensures kept { T.faults stream.old ≤ T.faults stream.new }
    ensures heard { Hears T.gave stream.old stream.new }
    ensures fault { IsErrOf result Halt.Fault → Rose (T.faults stream.old) (T.faults stream.new) }
    ensures calm { result ≢ Err Halt.Fault → T.faults stream.new ≡ T.faults stream.old }
    ensures kinds { IfErr result IsOutside }
{
    let before = intake.len();
    match intake.take_more(stream) {
        Ok(More::Some) => {}
        Ok(More::End) => return Ok(More::End),
        Err(halt) => return Err(halt),
    }
    let mut seen = before;
    'taking: while intake.len() < PIECE_LIMIT
        && intake.len() - before < before
        && !piece.may_end(intake.as_slice(), seen)
    {
        seen = intake.len();
        match intake.take_more(stream) {
            Ok(More::Some) => {}
            Ok(More::End) => return Ok(More::Some),
            Err(halt) => return Err(halt),
        }
    }
    Ok(More::Some)
}

/// Takes bytes until a look at them shows a whole piece at their start. The piece stays among the bytes not yet
/// used. It looks again only when the piece may have ended, the bytes doubled, or their limit was reached.
#[tactic(auto, using(crate::proofs::Passing::hears_then, crate::proofs::Passing::hears_same, crate::proofs::Prompting::prompt_same))]
pub fn take_piece<K, T: Stream<K>, P: Piece>(
    stream: &mut T,
    intake: &mut Intake,
    piece: &mut P,
) -> Result<P::Found, Halt>
    ensures passes { UnlessOutside result (Passes T.gave stream.old intake.old stream.new intake.new) }
    ensures found { IfOk result (P.found piece.new (take piece_limit intake.new)) }
    ensures bad { result ≡ Err Halt.Bad → P.never piece.new (take piece_limit intake.new) }
    ensures long { result ≡ Err Halt.Long → (piece_limit ≤ length intake.new) × P.unfinished (take piece_limit intake.new) }
    ensures cut { result ≡ Err Halt.Cut → (length intake.new < piece_limit) × P.unfinished (take piece_limit intake.new) × T.ended stream.new }
    ensures prompt { UnlessOutside result (IsPrompt T.gave stream.old intake.old stream.new (λ seen. (length seen < piece_limit) × P.unfinished seen)) }
    ensures kept { T.faults stream.old ≤ T.faults stream.new }
    ensures heard { Hears T.gave stream.old stream.new }
    ensures fault { result ≡ Err Halt.Fault → Rose (T.faults stream.old) (T.faults stream.new) }
    ensures calm { result ≢ Err Halt.Fault → T.faults stream.new ≡ T.faults stream.old }
{
    'looking: loop {
        match piece.look(intake.front()) {
            Look::Whole(found) => return Ok(found),
            Look::Never => return Err(Halt::Bad),
            Look::NotYet => {}
        }
        if intake.len() >= PIECE_LIMIT {
            return Err(Halt::Long);
        }
        match take_on(stream, intake, piece) {
            Ok(More::Some) => {}
            Ok(More::End) => return Err(Halt::Cut),
            Err(halt) => return Err(halt),
        }
    }
}
