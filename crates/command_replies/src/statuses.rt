//! The statuses that the program ends with.
ghost use Rattle.std.specs.Prelude.{◌≡◌};

/// How a command ended. Two more statuses come only from writing its text: 1, memory ran out, and 4, the sink failed.
#[derive(Clone, Copy)]
pub enum Status {
    /// 0: the command's output.
    Done,
    /// 2: the words are not a command.
    Usage,
    /// 3: the store failed.
    Store,
    /// 5: the job has a fault.
    Job,
    /// 6: an object has a fault.
    Object,
    /// 7: the images of a job do not link.
    Link,
    /// 8: an image has a fault.
    Image,
    /// 9: the job is unclean.
    Unclean,
}

impl Status {
    ghost use Rattle.command_replies.specs.Statuses.{code_of};

    /// The status as the system sees it.
    pub fn code(self) -> u8
        ensures { result ≡ code_of self }
    {
        match self {
            Status::Done => 0,
            Status::Usage => 2,
            Status::Store => 3,
            Status::Job => 5,
            Status::Object => 6,
            Status::Link => 7,
            Status::Image => 8,
            Status::Unclean => 9,
        }
    }
}
