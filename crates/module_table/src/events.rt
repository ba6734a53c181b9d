//! The events of the history, and the results of an open and of a close.

ghost use Rattle.std.specs.Prelude.{◌≡◌};
ghost use Rattle.module_table.specs.History.{open_event, close_event};

use thiserror::Error;

/// A successful open or close of a late image, as the history of modules keeps it.
#[derive(Clone, Copy, PartialEq, Eq, Debug)]
pub struct Event {
    /// The thread, counted from 1.
    pub thread: u32,
    /// Which of the thread's lines it was, counted from 1.
    pub line: u32,
    /// Whether it opened the image; else it closed it.
    pub opens: bool,
    /// The image, numbered from 1 in image order.
    pub image: u32,
}

impl Event {
    /// A thread's line opened the image.
    pub fn open(thread: u32, line: u32, image: u32) -> Event
        ensures { result ≡ open_event thread line image }
    {
        Event {
            thread,
            line,
            opens: true,
            image,
        }
    }

    /// A thread's line closed the image.
    pub fn close(thread: u32, line: u32, image: u32) -> Event
        ensures { result ≡ close_event thread line image }
    {
        Event {
            opens: false,
            ..Event::open(thread, line, image)
        }
    }
}

/// The result of an open: the live instance of the image.
#[derive(Clone, Copy, PartialEq, Eq, Debug)]
pub struct Opened {
    /// The instance, counted from 1: a new one if the image was not loaded.
    pub instance: u32,
    /// Its module id, from 1 on.
    pub id: u64,
    /// How many events came before this one.
    pub at: u64,
}

/// The result of a close.
#[derive(Clone, Copy, PartialEq, Eq, Debug)]
pub struct Closed {
    /// How many events came before this one.
    pub at: u64,
    /// Whether this was the last close, so that the instance is no longer live.
    pub gone: bool,
}

/// Why an open is refused, in the order of the tests.
#[derive(Clone, Copy, PartialEq, Eq, Debug, Error)]
pub enum OpenRefusal {
    /// No late image has the number.
    #[error("no late image has this number")]
    Unknown,
    /// The image is not loaded, and 4,095 instances were made.
    #[error("no more instances can be made")]
    Full,
    /// The image is not loaded, its blocks are static, and the rest of the static surplus is too small for one.
    #[error("the static surplus has no room for the image")]
    StaticFull,
    /// Memory ran out for the event.
    #[error("out of memory")]
    OutOfMemory,
}

/// Why a close is refused, in the order of the tests.
#[derive(Clone, Copy, PartialEq, Eq, Debug, Error)]
pub enum CloseRefusal {
    /// The image started with the program.
    #[error("the image started with the program")]
    Permanent,
    /// The image was closed as often as it was opened, or no image has the number.
    #[error("the image is not open")]
    NotOpen,
    /// Memory ran out for the event.
    #[error("out of memory")]
    OutOfMemory,
}
