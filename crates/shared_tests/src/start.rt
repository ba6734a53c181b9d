//! A new shared history, and its pass in halves.

ghost use Rattle.std.specs.Prelude.{◌≡◌, ◌≤◌, ◌+◌, ◌-◌, ◌/◌, IfOk};
ghost use Rattle.shared_tests.specs.Races.{IsReady};

use module_table::{ImageInfo, Registry};
use shared_modules::{Pass, Shared};
use std::alloc::{AllocError, Global};

/// The registry of a program, image 1, and of a late image of 8 bytes, image 2.
fn registry(alloc: Global) -> Result<Registry, AllocError> {
    let program = ImageInfo {
        late: false,
        statics: false,
        size: 4,
        align: 4,
    };
    let late = ImageInfo {
        late: true,
        size: 8,
        ..program
    };
    Registry::new(alloc, &[program, late], 4)
}

/// A shared history of these images, and its pass.
pub fn started(alloc: Global) -> Result<(Shared, Pass), AllocError>
    ensures { IfOk result (λ started. IsReady 1 64 started.0 started.1) }
{
    let (shared, pass) = Shared::start(alloc, registry(alloc)?)?;
    Ok((shared, pass))
}

/// Gives the first half of the threads to one pass.
pub fn halve(shared: &Shared, pass: Pass, first: u32, count: u32) -> (Pass, Pass)
    requires ready { IsReady first count shared.now pass }
    requires two { 2 ≤ count }
    ensures left { IsReady first ((count + 1) / 2) shared.now result.0 }
    ensures right { IsReady (first + (count + 1) / 2) (count - (count + 1) / 2) shared.now result.1 }
{
    shared.split(pass)
}
