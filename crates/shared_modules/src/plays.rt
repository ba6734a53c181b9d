//! What each step on the table tells its caller, and how a view is split and two are joined.
ghost use Rattle.shared_modules.specs.Plays.{Draws, Sees, Catches, Loads, Publishes, Leaves, Learns};
ghost use Rattle.shared_modules.specs.Views.{left_of, right_of, both, spent};

use crate::board::View;
use atomic_table::{Join, Play, Split};
use module_table::Registry;

/// Draws a ticket.
pub(crate) struct Draw;

impl Play<Option<Registry>, View> for Draw {
    ghost then = { λ _. Draws };
}

/// Sees which ticket is being served, and takes the registry if it is the seat's.
pub(crate) struct See;

impl Play<Option<Registry>, View> for See {
    ghost then = { λ _. Sees };
}

/// Loads the length of the history with the registry in hand.
pub(crate) struct Catch;

impl Play<Option<Registry>, View> for Catch {
    ghost then = { λ _. Catches };
}

/// Loads the length of the history.
pub(crate) struct Load;

impl Play<Option<Registry>, View> for Load {
    ghost then = { λ _. Loads };
}

/// Makes the history longer by an event that the registry in hand has.
pub(crate) struct Publish;

impl Play<Option<Registry>, View> for Publish {
    ghost then = { λ _. Publishes };
}

/// Puts the registry back, and serves the next ticket.
pub(crate) struct Leave;

impl Play<Option<Registry>, View> for Leave {
    ghost then = { λ _. Leaves };
}

/// Tells what was learned when two seats were joined.
pub(crate) struct Learn;

impl Play<Option<Registry>, View> for Learn {
    ghost then = { λ _. Learns };
}

/// Gives the first half of the threads to one seat, and the second to the other.
pub(crate) struct Halves;

impl Split<View> for Halves {
    ghost left = { left_of };

    ghost right = { right_of };
}

/// Joins two seats.
pub(crate) struct Both;

impl Join<View> for Both {
    ghost both = { both };

    ghost spent = { spent };
}
