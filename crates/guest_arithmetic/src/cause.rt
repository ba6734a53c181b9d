//! Why a step has no meaning, and which of two causes is reported.

ghost use Rattle.std.specs.Prelude.{◌≡◌};
ghost use Rattle.guest_arithmetic.specs.Cause.{rank_of, first_cause, both};

/// Why a step has no meaning, the cause to report first at the top. Values give `Undefined`, `Flags`, `Base` and
/// `Descriptor`. The machine itself gives `Field` and `Answer`. The others are for callers that know more of a program
/// than its bytes.
#[derive(Clone, Copy, PartialEq, Eq, Debug)]
pub enum Cause {
    /// Execution begins in the middle of a sequence, or an instruction reaches into one.
    Inside,
    /// An instruction covers an offset field, but not as the displacement from a base or as a number that is added to
    /// one.
    Field,
    /// The byte is the linker's own.
    Linker,
    /// The step uses a word of which nothing is known.
    Undefined,
    /// The step uses a flag that was left undefined.
    Flags,
    /// The step uses the base of a TLS block as a number.
    Base,
    /// The step uses a TLS descriptor as a number.
    Descriptor,
    /// The call returns a value that is not a number.
    Answer,
    /// The call has taken all the steps that it may take.
    Steps,
}

impl Cause {
    /// The cause's place in the order.
    fn rank(self) -> u8
        ensures { result ≡ rank_of self }
    {
        match self {
            Cause::Inside => 0,
            Cause::Field => 1,
            Cause::Linker => 2,
            Cause::Undefined => 3,
            Cause::Flags => 4,
            Cause::Base => 5,
            Cause::Descriptor => 6,
            Cause::Answer => 7,
            Cause::Steps => 8,
        }
    }

    /// The cause to report, of two.
    pub fn first(self, other: Cause) -> Cause
        ensures { result ≡ first_cause self other }
    {
        if self.rank() <= other.rank() {
            self
        } else {
            other
        }
    }
}

/// The results of two uses. If both fail, the cause that comes first is reported.
pub fn both<A: Copy, B: Copy>(
    left: Result<A, Cause>,
    right: Result<B, Cause>,
) -> Result<(A, B), Cause>
    ensures { result ≡ both left right }
{
    match (left, right) {
        (Ok(a), Ok(b)) => Ok((a, b)),
        (Ok(_), Err(cause)) => Err(cause),
        (Err(cause), Ok(_)) => Err(cause),
        (Err(cause), Err(other)) => Err(cause.first(other)),
    }
}
