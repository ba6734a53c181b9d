//! The outcome of a thread's line.

ghost use Rattle.std.specs.Prelude.{◌≡◌, Some};
ghost use Rattle.transcript_text.specs.OutcomeWords.{refusal_text, fault_text};

use std::fmt;
use std::marker::Model;

/// Why a line of a thread was refused.
#[derive(Clone, Copy, PartialEq, Eq, Debug)]
pub enum LineRefusal {
    /// No late image has the number.
    Unknown,
    /// 4,095 instances were made, and the line needs one more.
    Full,
    /// The static surplus is too small for the image.
    StaticFull,
    /// The image cannot be closed: it started with the program.
    Permanent,
    /// The image is not open.
    NotOpen,
    /// The image defines no such symbol.
    Symbol,
    /// The bytes pass the end of the thread-local block.
    Length,
}

impl fmt::Display for LineRefusal {
    ghost output = { λ refusal. Some (refusal_text refusal) };

    fn fmt<W: fmt::Write>(&self, f: &mut fmt::Formatter<W>) -> fmt::Result {
        match self {
            LineRefusal::Unknown => write!(f, "unknown"),
            LineRefusal::Full => write!(f, "full"),
            LineRefusal::StaticFull => write!(f, "static-full"),
            LineRefusal::Permanent => write!(f, "permanent"),
            LineRefusal::NotOpen => write!(f, "not-open"),
            LineRefusal::Symbol => write!(f, "symbol"),
            LineRefusal::Length => write!(f, "length"),
        }
    }
}

/// Why a call ended early.
#[derive(Clone, Copy, PartialEq, Eq, Debug)]
pub enum LineFault {
    /// An access to memory that the thread has no right to.
    Address,
    /// An instruction that the machine does not know, or memory without code.
    Code,
    /// The module that asked for its block was unloaded.
    Unloaded,
    /// The call took more steps than allowed.
    Steps,
}

impl fmt::Display for LineFault {
    ghost output = { λ fault. Some (fault_text fault) };

    fn fmt<W: fmt::Write>(&self, f: &mut fmt::Formatter<W>) -> fmt::Result {
        match self {
            LineFault::Address => write!(f, "address"),
            LineFault::Code => write!(f, "code"),
            LineFault::Unloaded => write!(f, "unloaded"),
            LineFault::Steps => write!(f, "steps"),
        }
    }
}

/// The bytes that a peek shows. Contracts see their list.
#[derive(Debug, Drop)]
pub struct Bytes {
    items: Vec<u8>,
}

impl Model for Bytes {
    ghost use Rattle.std.specs.Prelude.{ℕ, List};

    ghost Value = { List ℕ };

    ghost view = { λ bytes. bytes.items.items };
}

impl Bytes {
    /// These bytes.
    pub fn new(items: Vec<u8>) -> Bytes
        ensures { result ≡ items.items }
    {
        Bytes { items }
    }

    /// The bytes.
    pub fn as_slice(&self) -> &[u8]
        ensures { result.now ≡ self.now }
    {
        self.items.as_slice()
    }
}

/// The points of a line: for each look, the number of events that it saw. Contracts see their list.
#[derive(Debug, Drop)]
pub struct Points {
    items: Vec<u64>,
}

impl Model for Points {
    ghost use Rattle.std.specs.Prelude.{ℕ, List};

    ghost Value = { List ℕ };

    ghost view = { λ points. points.items.items };
}

impl Points {
    /// These points.
    pub fn new(items: Vec<u64>) -> Points
        ensures { result ≡ items.items }
    {
        Points { items }
    }

    /// The points.
    pub fn as_slice(&self) -> &[u64]
        ensures { result.now ≡ self.now }
    {
        self.items.as_slice()
    }
}

/// The outcome of a line.
#[derive(Debug, Drop)]
pub enum Outcome {
    /// A call returned this number.
    Returned(u64),
    /// The image was opened, as this instance.
    Opened(u32),
    /// The image was closed.
    Closed,
    /// A peek showed these bytes.
    Bytes(Bytes),
    /// The line was refused.
    Refused(LineRefusal),
    /// A call ended early.
    Fault(LineFault),
}

/// A line of a thread that ran: its points, and its outcome.
#[derive(Debug, Drop)]
pub struct Line {
    pub points: Points,
    pub outcome: Outcome,
}
