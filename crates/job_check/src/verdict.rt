//! Unclean steps, and the line that is printed of one.

ghost use Rattle.std.specs.Prelude.{◌≡◌, Some, IfOk};
ghost use Rattle.std.specs.String.{string_bytes};
ghost use Rattle.thread_blocks.specs.Turns.{Stopped};
ghost use Rattle.whole_meaning.specs.Jobs.{cause_name, unclean_ending, verdict_text};

use guest_arithmetic::Cause;
use guest_operands::Stop;
use std::alloc::{AllocError, Global};
use whole_meaning::UncleanStep;

/// The unclean step of a thread's line that stopped, if the stop is one.
pub(crate) fn unclean_stop(thread: u32, line: u32, stop: Stop) -> Option<UncleanStep>
    ensures { result ≡ unclean_ending thread line (Stopped stop) }
{
    match stop {
        Stop::Unclean(address, cause) => Some(UncleanStep {
            thread,
            line,
            address,
            cause,
        }),
        Stop::Returned(_) | Stop::Look(_) | Stop::Address(_) | Stop::Code(_) | Stop::Steps(_) => {
            None
        }
    }
}

/// The word for a cause.
fn cause_name(cause: Cause) -> &'static str
    ensures { result.now ≡ cause_name cause }
{
    match cause {
        Cause::Inside => "inside",
        Cause::Field => "field",
        Cause::Linker => "linker",
        Cause::Undefined => "undefined",
        Cause::Flags => "flags",
        Cause::Base => "base",
        Cause::Descriptor => "desc",
        Cause::Answer => "answer",
        Cause::Steps => "steps",
    }
}

/// The line that is printed of a job: `clean`, or its first unclean step.
#[tactic(auto, unfolding(whole_meaning::specs::Jobs::verdict_text))]
pub fn verdict_text(alloc: Global, verdict: Option<UncleanStep>) -> Result<String, AllocError>
    ensures { IfOk result (λ text. string_bytes text ≡ verdict_text verdict) }
{
    let Some(step) = verdict else {
        return String::from_str(alloc, "clean\n");
    };
    let UncleanStep {
        thread,
        line,
        address,
        cause,
    } = step;
    let name = cause_name(cause);
    let mut text = String::new(alloc);
    write!(text, "unclean t{thread} l{line} at ")?;
    write!(text, "{address:016x}")?;
    write!(text, " {name}\n")?;
    Ok(text)
}
