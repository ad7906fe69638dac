ghost use Rattle.std.specs.Prelude.{◌≡◌, ◌≢◌, ◌≤◌, length, Err, IfOk, IfErr};
ghost use Rattle.uss_cause.specs.Cause.{Rose};
ghost use Rattle.uss_http_request.specs.Fields.{body_limit};
ghost use Rattle.uss_http_request.specs.Prompt.{IsPrompt, ButForFaults};
ghost use Rattle.uss_http_request.specs.Streams.{Hears};
ghost use Rattle.uss_http_response.specs.Answers.{TakesRest, MissesRest};

use std::alloc::{AllocError, Global};
use uss_http_request::{BODY_LIMIT, Intake, PIECE_LIMIT, ReadRefusal, Stream, piece_refusal};

/// Takes all the bytes up to the end of the stream: those not yet used, and then the next ones.
#[tactic(auto, using(uss_http_request::proofs::Passing::hears_then, uss_http_request::proofs::Passing::hears_same, uss_http_request::proofs::Prompting::prompt_same))]
pub fn take_rest<K, T: Stream<K>>(
    alloc: Global,
    stream: &mut T,
    intake: &mut Intake,
) -> Result<Vec<u8>, ReadRefusal>
    ensures taken { IfOk result (λ body. TakesRest T.gave T.ended stream.old intake.old stream.new body.items) }
    ensures refused { IfErr result (MissesRest T.gave stream.old intake.old stream.new) }
    ensures prompt { ButForFaults result (IsPrompt T.gave stream.old intake.old stream.new (λ seen. length seen ≤ body_limit)) }
    ensures kept { T.faults stream.old ≤ T.faults stream.new }
    ensures heard { Hears T.gave stream.old stream.new }
    ensures fault { result ≡ Err ReadRefusal.Fault → Rose (T.faults stream.old) (T.faults stream.new) }
    ensures calm { result ≢ Err ReadRefusal.Fault → T.faults stream.new ≡ T.faults stream.old }
{
    let mut body = match Vec::from_slice(alloc, intake.as_slice()) {
        Ok(body) => body,
        Err(AllocError) => return Err(ReadRefusal::Memory),
    };
    'taking: while body.len() <= BODY_LIMIT {
        match intake.read_past(stream, PIECE_LIMIT, &mut body) {
            Ok(0) => return Ok(body),
            Ok(_) => {}
            Err(halt) => return Err(piece_refusal(halt)),
        }
    }
    Err(ReadRefusal::BodyTooLarge)
}
