//! The step of a sequence.

ghost use Rattle.std.specs.Option.{option_map_or};
ghost use Rattle.std.specs.Prelude.{◌≡◌, ◌≤◌, ◌&&◌, List, map, nat_lt, true};
ghost use Rattle.guest_operands.specs.Use.{left};
ghost use Rattle.module_table.specs.declared.events.Event.{Event};
ghost use Rattle.module_table.specs.Past.{startup_count};
ghost use Rattle.thread_blocks.specs.Instances.{block_start};
ghost use Rattle.whole_meaning.specs.Loads.{info_of, meaning_of};
ghost use Rattle.whole_meaning.specs.Sequences.{asks, looks_first};
ghost use Rattle.whole_meaning.specs.Threads.{sequence_next};
ghost use Rattle.job_check.specs.Stepping.{Makes, StepsAs, next_as, sequence_made, space_of};

use crate::step::{Stepped, as_step};
use guest_operands::{State, Stop};
use job_meaning::{Flag, Word};
use loaded_modules::Instance;
use marked_memory::{MarkedMemory, block_start};
use meant_images::MeantImages;
use meant_steps::{asks, does, stops};
use whole_meaning::Sequence;

/// Whether an instance did not start with the program.
fn came_late(images: &MeantImages, number: u64) -> bool
    ensures { result ≡ nat_lt (startup_count (map info_of images.now)) number }
{
    let infos = images.infos();
    let count = infos.iter().filter(|info| !info.late).count();
    (count as u64) < number
}

/// The address of a thread's block of an instance.
fn start_in(thread: u32, instance: Option<Instance>) -> u64
    requires { thread ≤ 64 }
    ensures { result ≡ option_map_or (block_start thread) instance 0 }
{
    match instance {
        None => 0,
        Some(instance) => block_start(thread, &instance),
    }
}

/// Does a sequence, without a look.
pub(crate) fn do_sequence(
    sequence: &Sequence,
    state: &mut State<Word, Flag>,
    space: &mut MarkedMemory,
) -> Result<(), Stop>
    ensures { Makes result state.old space.old state.new space.new (sequence_made sequence.now state.old space.old) }
{
    let thread = space.thread();
    let start = start_in(thread, space.numbered(sequence.target));
    does(sequence, u64::from(thread), start, state, space)
}

/// The look before a sequence. The thread looks only if the sequence can be done after it; else this is the stop.
fn look(sequence: &Sequence, state: &State<Word, Flag>, space: &MarkedMemory) -> Stepped
    ensures { (seen : List Event) → looks_first true (left state.now (space_of seen space.now))
        (sequence_made sequence.now state.now space.now seen)
        ≡ next_as result (left state.now (space_of seen space.now)) }
{
    match stops(sequence, state, space) {
        None => Stepped::Looks,
        Some(stop) => Stepped::Ends(stop),
    }
}

/// Whether a sequence looks first: it asks the run time for a variable of an instance that came late.
fn has_look(sequence: &Sequence, images: &MeantImages) -> bool
    ensures { result ≡ (asks sequence.now.form && nat_lt (startup_count (map info_of images.now)) sequence.now.target) }
{
    asks(sequence.form) && came_late(images, sequence.target)
}

/// The step of a sequence, or the look before it.
pub(crate) fn sequence_step(
    sequence: &Sequence,
    state: &mut State<Word, Flag>,
    space: &mut MarkedMemory,
) -> Stepped
    ensures { StepsAs result state.old space.old state.new space.new (λ seen.
        sequence_next (meaning_of space.old.images) space.old.thread (left state.old (space_of seen space.old))
        sequence.now) }
{
    if has_look(sequence, space.images()) {
        return look(sequence, state, space);
    }
    as_step(do_sequence(sequence, state, space))
}
