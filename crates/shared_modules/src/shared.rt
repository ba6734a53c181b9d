//! The shared history, and the passes by which threads use it.
ghost use Rattle.std.specs.Prelude.{◌≡◌, ◌≤◌, ◌<◌, ◌↔◌, length, false, IfOk, IfErr, OnOk, OnErr, IsTrue};
ghost use Rattle.module_table.specs.History.{open_event, close_event};
ghost use Rattle.module_table.specs.Past.{IsLegal};
ghost use Rattle.shared_modules.specs.Views.{times, images_of};
ghost use Rattle.shared_modules.specs.Passes.{first_pass, left_pass, right_pass, joined, Agree, IsLoaded, IsTried};
ghost use Rattle.shared_modules.specs.Passes.{IsSamePass, IsCaught, IsTold, IsOpened, IsOpenRefused, IsClosed};
ghost use Rattle.shared_modules.specs.Passes.{IsCloseRefused};

use crate::board::{Board, Place};
use crate::plays::{Both, Halves};
use crate::steps;
use module_table::{CloseRefusal, Closed, Event, OpenRefusal, Opened, Registry};
use std::alloc::{AllocError, Global};
use std::marker::Model;
use std::snapshot::Snapshot;
use std::sync::Wait;

/// One history of modules, shared by threads. Contracts see its identity, and what its registry never changes.
#[derive(Drop)]
pub struct Shared {
    board: Board,
}

impl Model for Shared {
    ghost use Rattle.shared_modules.specs.Passes.{SharedView};

    ghost Value = { SharedView };

    ghost use Rattle.shared_modules.specs.Views.{images_of};
    ghost use Rattle.shared_modules.specs.Plays.{IsSized};

    ghost view = { λ s. record { table = s.board.shared.table_id; images = images_of s.board.shared.key.value } };

    ghost invariant = { λ s. IsSized s.board.shared.table_id };
}

/// The part of a shared history that some threads have seen. Contracts see a `PassView`.
#[derive(Drop)]
pub struct Pass {
    /// How many events it has seen.
    seen: u64,
    seat: Place,
}

impl Model for Pass {
    ghost use Rattle.shared_modules.specs.Passes.{PassView, pass_view, IsPass};

    ghost Value = { PassView };

    ghost view = { λ p. pass_view p.seat.table_id p.seat.me.0 };

    ghost invariant = { λ p. IsPass p.seen p.seat.me };
}

impl Shared {
    /// Shares a registry. The pass has seen its history, and speaks for the threads 1 to 64. If memory runs out,
    /// the registry is dropped.
    pub fn start(alloc: Global, registry: Registry) -> Result<(Shared, Pass), AllocError>
        ensures images { IfOk result (λ started. started.0.images ≡ images_of registry) }
        ensures pass { IfOk result (λ started. started.1 ≡ first_pass started.0 registry.events) }
    {
        let about = Snapshot::of(&registry);
        let seen = registry.len();
        let mut slots = Vec::with_capacity(alloc, 1)?;
        slots.push(Some(registry))?;
        let Ok((board, seat)) = Board::new(alloc, &[0, 0, seen], slots, &about) else {
            return Err(AllocError);
        };
        Ok((Shared { board }, Pass { seen, seat }))
    }

    /// Splits a pass in two. The first speaks for the first half of the threads, rounded up, the second for the
    /// rest, with its counts at 0.
    pub fn split(&self, pass: Pass) -> (Pass, Pass)
        requires of { pass.shared ≡ self.now }
        requires two { 2 ≤ length pass.threads }
        ensures { result ≡ (left_pass pass, right_pass pass) }
    {
        let Pass { seen, mut seat } = pass;
        let other = self.board.shared.split_seat::<Halves>(&mut seat);
        (Pass { seen, seat }, Pass { seen, seat: other })
    }

    /// Joins two passes into one, which has the longer list.
    pub fn join(&self, first: Pass, second: Pass) -> Pass
        requires first { first.shared ≡ self.now }
        requires second { second.shared ≡ self.now }
        ensures joined { result ≡ joined first second }
        ensures agree { Agree first second }
    {
        let Pass { seen, mut seat } = first;
        let Pass {
            seen: other_seen,
            seat: other,
        } = second;
        self.board.shared.join_seat::<Both>(&mut seat, other);
        steps::learn(&self.board.shared, &mut seat);
        Pass {
            seen: if seen < other_seen { other_seen } else { seen },
            seat,
        }
    }

    /// Whether there are events that the pass has not seen: one load, and no lock.
    pub fn newer(&self, pass: &mut Pass) -> bool
        requires of { pass.old.shared ≡ self.now }
        ensures loaded { IsLoaded pass.old pass.new }
        ensures newer { IsTrue result ↔ length pass.new.seen < length pass.new.told }
        ensures whole { result ≡ false → pass.new.told ≡ pass.new.seen }
    {
        let told = steps::load_generation(&self.board.shared, &mut pass.seat);
        told > pass.seen
    }

    /// Appends to the list the events that the pass has not seen, in order.
    pub fn catch_up<R: Wait>(
        &self,
        rt: &R,
        pass: &mut Pass,
        into: &mut Vec<Event>,
    ) -> Result<(), AllocError>
        requires of { pass.old.shared ≡ self.now }
        ensures caught { OnOk result (IsCaught pass.old pass.new.seen pass.new) }
        ensures lacked { OnOk result (IsTold pass.old pass.new.seen into.old.items into.new.items) }
        ensures memory { OnErr result (IsTried pass.old pass.new into.old.items into.new.items) }
        ensures same { IsSamePass pass.old pass.new }
    {
        let steps = &self.board.shared;
        let registry = steps::begin(rt, steps, &mut pass.seat);
        if into.extend_from_slice(registry.since(pass.seen)).is_err() {
            steps::end(steps, &mut pass.seat, registry);
            return Err(AllocError);
        }
        pass.seen = steps::read_generation(steps, &mut pass.seat);
        steps::end(steps, &mut pass.seat, registry);
        Ok(())
    }

    /// Opens an image for a thread's line. First the list gets the events that the pass has not seen, without the
    /// event of this call. The refusals, in order: `OutOfMemory`, then those of `Registry::open`.
    pub fn open<R: Wait>(
        &self,
        rt: &R,
        pass: &mut Pass,
        thread: u32,
        line: u32,
        image: u32,
        into: &mut Vec<Event>,
    ) -> Result<Opened, OpenRefusal>
        requires of { pass.old.shared ≡ self.now }
        requires speaks { 1 ≤ times thread pass.old.threads }
        ensures opened { IfOk result (λ opened.
            IsOpened pass.old (open_event thread line image) opened pass.new into.old.items into.new.items) }
        ensures refused { IfErr result (IsOpenRefused pass.old image pass.new into.old.items into.new.items) }
        ensures same { IsSamePass pass.old pass.new }
    {
        let steps = &self.board.shared;
        let Ok(mut registry) = steps::enter(rt, steps, &mut pass.seat, pass.seen, into) else {
            return Err(OpenRefusal::OutOfMemory);
        };
        let answer = registry.open(thread, line, image);
        pass.seen = registry.len();
        match answer {
            Ok(_) => steps::end_with(steps, &mut pass.seat, registry),
            Err(_) => steps::end(steps, &mut pass.seat, registry),
        }
        answer
    }

    /// Closes an image for a thread's line. First the list gets the events that the pass has not seen, without the
    /// event of this call. The refusals, in order: `OutOfMemory`, then those of `Registry::close`.
    pub fn close<R: Wait>(
        &self,
        rt: &R,
        pass: &mut Pass,
        thread: u32,
        line: u32,
        image: u32,
        into: &mut Vec<Event>,
    ) -> Result<Closed, CloseRefusal>
        requires speaks { 1 ≤ times thread pass.old.threads }
        requires of { pass.old.shared ≡ self.now }
        ensures same { IsSamePass pass.old pass.new }
        ensures refused { IfErr result (IsCloseRefused pass.old image pass.new into.old.items into.new.items) }
        ensures closed { IfOk result (λ closed.
            IsClosed pass.old (close_event thread line image) closed pass.new into.old.items into.new.items) }
    {
        let steps = &self.board.shared;
        let Ok(mut registry) = steps::enter(rt, steps, &mut pass.seat, pass.seen, into) else {
            return Err(CloseRefusal::OutOfMemory);
        };
        let answer = registry.close(thread, line, image);
        pass.seen = registry.len();
        match answer {
            Ok(_) => steps::end_with(steps, &mut pass.seat, registry),
            Err(_) => steps::end(steps, &mut pass.seat, registry),
        }
        answer
    }

    /// The registry with the whole history, all of which the pass of all threads has seen.
    pub fn finish(self, pass: Pass) -> Registry
        requires of { pass.shared ≡ self }
        requires all { length pass.threads ≡ 64 }
        ensures images { images_of result ≡ self.images }
        ensures events { result.events ≡ pass.seen }
    {
        let Shared { board } = self;
        let Pass { seen: _, seat } = pass;
        let mut closed = board.close_with(seat);
        let slot = closed.take(0);
        closed.free();
        match slot {
            Some(registry) => registry,
            None => unreachable!(),
        }
    }
}

impl Pass {
    /// How many events of the history it has seen.
    pub fn seen(&self) -> u64
        ensures value { result ≡ length self.now.seen }
        ensures legal { IsLegal self.now.shared.images.infos self.now.shared.images.last_offset self.now.seen }
        ensures speaks { 0 < length self.now.threads }
    {
        self.seen
    }

    /// What the pass has seen is a history of the images. The call does nothing; it gives a proof this fact.
    pub fn history_is_lawful(&self)
        ensures { IsLegal self.now.shared.images.infos self.now.shared.images.last_offset self.now.seen }
    {
        self.seen();
    }
}
