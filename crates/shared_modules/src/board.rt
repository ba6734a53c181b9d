//! The table that threads share, what each of its seats knows, and the rule that ties them. Of these types, only a
//! table, a seat and a key have values at run time: the others are for the proof alone.

use atomic_table::{Seat, Shared, Table, TableRule};
use module_table::{Event, ImageInfo, Registry};
use std::alloc::Global;
use std::collections::LinkedList;
use std::snapshot::Snapshot;

/// What a registry never changes: the images, and how far below the thread pointer the last startup image's block
/// begins.
pub struct Images {
    pub infos: LinkedList<ImageInfo>,
    pub last_offset: u64,
}

/// The state of a seat at the lock: it has no ticket, or waits with one, or its ticket is being served
/// and it noted the history.
pub enum Turn {
    Away,
    Waits(u64),
    Holds(u64, LinkedList<Event>),
}

/// What a seat learned when two were joined: the events of `more` beyond `less` name none of the threads.
pub struct Lesson {
    pub less: LinkedList<Event>,
    pub more: LinkedList<Event>,
    pub threads: LinkedList<u32>,
}

/// What a seat knows.
pub struct View {
    pub images: Images,
    /// The part of the history, from its start, that its holder has.
    pub seen: LinkedList<Event>,
    /// The history at the last load of its length.
    pub told: LinkedList<Event>,
    /// How often it loaded that length.
    pub loads: u64,
    /// How often it drew a ticket.
    pub turns: u64,
    /// The threads that it speaks for.
    pub threads: LinkedList<u32>,
    pub turn: Turn,
    pub lesson: Lesson,
}

/// The rule of the table: there is one history.
pub struct OneHistory;

impl TableRule<Option<Registry>, View, Snapshot<Registry>> for OneHistory {
    ghost use Rattle.shared_modules.specs.Views.{images_of, first_view};
    ghost use Rattle.shared_modules.specs.Rule.{Kept};

    ghost holds = { λ key. Kept (images_of key.value) };

    ghost first = { λ key. first_view (images_of key.value) key.value.events };
}

/// Word 0 is the next ticket, word 1 the ticket being served, word 2 the length of the history;
/// slot 0 holds the registry.
pub type Board = Table<Option<Registry>, View, Snapshot<Registry>, OneHistory, Global>;

pub(crate) type Steps = Shared<Option<Registry>, View, Snapshot<Registry>, OneHistory>;

pub(crate) type Place = Seat<Option<Registry>, View>;

/// The word of the next ticket.
pub(crate) const TICKET: usize = 0;

/// The word of the ticket that is being served.
pub(crate) const SERVING: usize = 1;

/// The word of the history's length.
pub(crate) const GENERATION: usize = 2;
