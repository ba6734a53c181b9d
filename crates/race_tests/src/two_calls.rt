//! Two threads that wait for each other.
//!
//! Thread 1 opens a module and calls its function; thread 2 calls it too. The gate lets thread 2's call begin after
//! thread 1's open, and thread 1's call after thread 2's is over. So neither can finish before the other has begun,
//! and thread 2 must see an open of a thread that is still running.

use crate::images::{plug_image, program_image};
use crate::loading::{loaded, race};
use racing_thread::Gate;
use std::sync::atomic::{AtomicU64, Ordering};
use std::test::Fail;
use std::thread;

const JOB: &str = "image app exe app.o
image plug late plug.o
threads 2
1 open plug
1 call plug f 0 0 0
2 call plug f 0 0 0
";

const SHOWN: &str = "t1 l1 g0 opened 2
t1 l2 g1,1 = 0000000000000005
t2 l1 g1,1 = 0000000000000005
e0 t1 l1 open plug
";

/// Which lines are over: 1 for one that is.
#[derive(Drop)]
struct TwoCalls {
    opened: AtomicU64,
    called: AtomicU64,
    /// 1 after a thread was held back for too long.
    gave_up: AtomicU64,
}

impl TwoCalls {
    fn new() -> TwoCalls {
        TwoCalls {
            opened: AtomicU64::new(0),
            called: AtomicU64::new(0),
            gave_up: AtomicU64::new(0),
        }
    }

    /// Holds a thread back until a line of the other thread is over.
    fn hold(&self, line: &AtomicU64) {
        for _ in 0..1u64 << 32 {
            if line.load(Ordering::SeqCst) == 1 {
                return;
            }
            thread::yield_now();
        }
        self.gave_up.store(1, Ordering::SeqCst);
    }
}

impl Gate for TwoCalls {
    fn before(&self, thread: u32, line: u32) {
        match (thread, line) {
            (2, 1) => self.hold(&self.opened),
            (1, 2) => self.hold(&self.called),
            _ => {}
        }
    }

    fn after(&self, thread: u32, line: u32) {
        match (thread, line) {
            (1, 1) => self.opened.store(1, Ordering::SeqCst),
            (2, 1) => self.called.store(1, Ordering::SeqCst),
            _ => {}
        }
    }
}

#[test]
fn gate_two_calls(rt: HostRuntime) -> Result<(), Fail> {
    let alloc = rt.alloc();
    let images = vec![in alloc; program_image(alloc)?, plug_image(alloc)?]?;
    let (job, modules) = loaded(alloc, JOB, images)?;
    let gate = TwoCalls::new();
    let shown = race(&rt, alloc, &job, &modules, &gate)?;
    let mut text = Vec::new(alloc);
    shown.text(&job, &mut text)?;
    let gave_up = gate.gave_up.load(Ordering::SeqCst);
    assert!(rt; gave_up == 0 && text.as_slice() == SHOWN.as_bytes());
    Ok(())
}
