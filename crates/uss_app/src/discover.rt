ghost use Rattle.std.specs.Prelude.{◌≡◌, ◌≤◌, ◌++◌, string_bytes, IfOk, IfErr, OnOk};
ghost use Rattle.uss_law_dss.specs.Step.{service_step};
ghost use Rattle.uss_text.specs.Replies.{reply_text};
ghost use Rattle.uss_app.specs.declared.commands.Command.{Command};
ghost use Rattle.uss_app.specs.Discover.{replies_of};
ghost use Rattle.uss_app.specs.Says.{Says};

use crate::answer::{Answer, Stop, refused};
use std::alloc::{AllocError, Global};
use uss_dss::Dss;
use uss_text::{DiscoverLine, ScriptRefusal, read_discover, write_reply};

/// What `uss discover` writes of its input. The script is read whole before its first call.
pub fn judged(alloc: Global, input: &[u8]) -> Result<Answer, Stop>
    ensures memory { IfErr result (λ e. e ≡ Stop.Memory) }
    ensures status { IfOk result (λ a. a.status ≤ 1) }
    ensures says { IfOk result (λ a. Says Command.Discover input.now a.status (string_bytes a.text)) }
{
    match read_discover(alloc, input) {
        Ok(lines) => Ok(Answer {
            status: 0,
            text: replies(alloc, lines.as_slice())?,
        }),
        Err(ScriptRefusal::Memory) => Err(Stop::Memory),
        Err(refusal) => refused(alloc, refusal),
    }
}

/// Carries out the calls, one step of a new discovery service for each, and gives the texts of the replies.
fn replies(alloc: Global, lines: &[DiscoverLine]) -> Result<String, AllocError>
    ensures { IfOk result (λ text. string_bytes text ≡ replies_of lines.now) }
{
    let mut service = Dss::new(alloc);
    let mut text = String::new(alloc);
    for line in lines {
        carry_out(&mut service, line, &mut text)?;
    }
    Ok(text)
}

/// Carries out one call, and appends the text of its reply.
fn carry_out(service: &mut Dss, line: &DiscoverLine, text: &mut String) -> Result<(), AllocError>
    ensures state { OnOk result (service.new ≡ (service_step service.old line.now.client line.now.ask).1) }
    ensures text { OnOk result (string_bytes text.new ≡ string_bytes text.old ++ reply_text (service_step service.old line.now.client line.now.ask).0) }
{
    let reply = service.step(&line.client, &line.ask)?;
    write_reply(&reply, text)
}
