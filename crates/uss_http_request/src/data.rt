ghost use Rattle.std.specs.Prelude.{◌≡◌, ◌≢◌, ◌<◌, ◌≤◌, length, Err, IfErr, OnOk};
ghost use Rattle.uss_cause.specs.Cause.{Rose};
ghost use Rattle.uss_http_request.specs.Prompt.{IsPrompt};
ghost use Rattle.uss_http_request.specs.Streams.{Hears, Moves, Lacks, IsEndOrOutside, UnlessOutside};

use crate::halt::Halt;
use crate::intake::Intake;
use crate::stream::Stream;

/// Moves so many bytes to the end of the body: those not yet used, and then the next ones of the stream.
#[tactic(auto, using(crate::proofs::Passing::hears_then, crate::proofs::Passing::hears_same, crate::proofs::Prompting::prompt_same))]
pub fn take_data<K, T: Stream<K>>(
    stream: &mut T,
    intake: &mut Intake,
    count: usize,
    body: &mut Vec<u8>,
) -> Result<(), Halt>
    ensures done { OnOk result (Moves T.gave stream.old intake.old stream.new intake.new body.old.items body.new.items count) }
    ensures cut { result ≡ Err Halt.Cut → Lacks T.gave T.ended stream.old intake.old stream.new count }
    ensures prompt { UnlessOutside result (IsPrompt T.gave stream.old intake.old stream.new (λ seen. length seen < count)) }
    ensures kept { T.faults stream.old ≤ T.faults stream.new }
    ensures heard { Hears T.gave stream.old stream.new }
    ensures fault { result ≡ Err Halt.Fault → Rose (T.faults stream.old) (T.faults stream.new) }
    ensures calm { result ≢ Err Halt.Fault → T.faults stream.new ≡ T.faults stream.old }
    ensures kinds { IfErr result IsEndOrOutside }
{
    let ready = count.min(intake.len());
    body.extend_from_slice(&intake.as_slice()[..ready])?;
    intake.use_front(ready);
    let mut missing = count - ready;
    'moving: while missing > 0 {
        match intake.read_past(stream, missing, body) {
            Ok(came) => {
                if came == 0 {
                    return Err(Halt::Cut);
                }
                missing -= came;
            }
            Err(halt) => return Err(halt),
        }
    }
    Ok(())
}
