//! What a thread asks for at its next turn, and the answer.

ghost use Rattle.std.specs.Prelude.{◌≡◌, IfErr, IfOk};
ghost use Rattle.thread_blocks.specs.Lines.{refused_close, refused_open};
ghost use Rattle.job_turns.specs.Asking.{IsClosesAnswer, IsOpensAnswer};
ghost use Rattle.job_turns.specs.Progress.{is_done};

use module_table::{CloseRefusal, Closed, OpenRefusal, Opened};
use std::alloc::AllocError;
use transcript_text::LineRefusal;

/// What a thread does at its next turn, so that the keeper of the history can answer it.
#[derive(Clone, Copy, PartialEq, Eq, Debug)]
pub enum Ask {
    /// Nothing: its lines are over.
    Done,
    /// It looks, in the line with this number.
    Look(u32),
    /// In the line with the first number it opens the image with the second.
    Opens(u32, u32),
    /// In the line with the first number it closes the image with the second.
    Closes(u32, u32),
}

impl Ask {
    /// Whether nothing is left to do.
    pub fn is_done(self) -> bool
        ensures { result ≡ is_done self }
    {
        match self {
            Ask::Done => true,
            Ask::Look(_) | Ask::Opens(_, _) | Ask::Closes(_, _) => false,
        }
    }
}

/// The registry's answer to an open or a close, as a line is handed it.
#[derive(Clone, Copy, PartialEq, Eq, Debug)]
pub enum LineAnswer {
    Opened(Result<Opened, LineRefusal>),
    Closed(Result<Closed, LineRefusal>),
}

/// Why an open was refused. Want of memory is no answer.
pub fn refused_open(refusal: OpenRefusal) -> Result<LineRefusal, AllocError>
    ensures shown { IfOk result (λ shown. shown ≡ refused_open refusal) }
    ensures answers { IfOk result (λ shown. IsOpensAnswer refusal) }
    ensures memory { IfErr result (λ _. refusal ≡ OpenRefusal.OutOfMemory) }
{
    match refusal {
        OpenRefusal::Unknown => Ok(LineRefusal::Unknown),
        OpenRefusal::Full => Ok(LineRefusal::Full),
        OpenRefusal::StaticFull => Ok(LineRefusal::StaticFull),
        OpenRefusal::OutOfMemory => Err(AllocError),
    }
}

/// Why a close was refused. Want of memory is no answer.
pub fn refused_close(refusal: CloseRefusal) -> Result<LineRefusal, AllocError>
    ensures shown { IfOk result (λ shown. shown ≡ refused_close refusal) }
    ensures answers { IfOk result (λ shown. IsClosesAnswer refusal) }
    ensures memory { IfErr result (λ _. refusal ≡ CloseRefusal.OutOfMemory) }
{
    match refusal {
        CloseRefusal::Permanent => Ok(LineRefusal::Permanent),
        CloseRefusal::NotOpen => Ok(LineRefusal::NotOpen),
        CloseRefusal::OutOfMemory => Err(AllocError),
    }
}
