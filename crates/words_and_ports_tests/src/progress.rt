//! The progress that a store shows, with a clock that the test sets.
use crate::files::fetched;
use ports::{MemoryStore, Store};
use std::alloc::Global;
use std::fmt::Display;
use std::io;
use std::io::{Error, ErrorKind};
use std::rt::Clock;
use std::sync::Mutex;
use std::sync::atomic::{AtomicU64, Ordering};
use std::test::Fail;
use std::time::Duration;
use terminal_progress::ProgressStore;

/// The seconds at which the clock fails.
const NO_TIME: u64 = u64::MAX;

/// A clock that fails where it has no time, and a standard error that keeps each line and then fails.
#[derive(Drop)]
struct Terminal {
    alloc: Global,
    seconds: AtomicU64,
    readings: AtomicU64,
    lines: Mutex<String>,
}

impl Terminal {
    fn new(alloc: Global) -> Self {
        Terminal {
            alloc,
            seconds: AtomicU64::new(10),
            readings: AtomicU64::new(0),
            lines: Mutex::new(String::new(alloc)),
        }
    }

    /// Whether exactly these lines were written.
    fn has_shown(&self, lines: &str) -> bool {
        match self.lines.try_lock() {
            Some(shown) => shown.as_str() == lines,
            None => false,
        }
    }
}

impl Clock for Terminal {
    fn monotonic(&self) -> io::Result<Duration> {
        self.readings.fetch_add(1, Ordering::SeqCst);
        match self.seconds.load(Ordering::SeqCst) {
            NO_TIME => Err(Error::from(ErrorKind::Other)),
            seconds => Ok(Duration::from_secs(seconds)),
        }
    }

    fn since_1970(&self) -> io::Result<Duration> {
        self.monotonic()
    }
}

impl Eprint for Terminal {
    fn eprint<D: Display + Drop>(&self, value: D) -> io::Result<()> {
        let text = value.to_string(self.alloc)?;
        if let Some(mut lines) = self.lines.try_lock() {
            lines.push_str(text.as_str())?;
        }
        Err(Error::from(ErrorKind::Other))
    }

    fn eprintln<D: Display + Drop>(&self, value: D) -> io::Result<()> {
        self.eprint(format_args!("{value}\n"))
    }
}

/// Fetches a file at each of five times and puts one at two, and returns whether every call succeeded.
fn works<S: Store>(store: &mut S, alloc: Global, seconds: &AtomicU64) -> bool {
    let mut is_done = true;
    for now in [10, 11, 11, NO_TIME, 13] {
        seconds.store(now, Ordering::SeqCst);
        is_done &= fetched(alloc, store, "a").is_ok();
    }
    for now in [13, 14] {
        seconds.store(now, Ordering::SeqCst);
        is_done &= store.put("b", b"").is_ok();
    }
    is_done
}

#[test]
fn progress_is_a_line_a_second_and_only_where_it_is_shown(rt: HostRuntime) -> Result<(), Fail> {
    let shown = "tlsld: 2 files fetched\ntlsld: 5 files fetched\ntlsld: writing out\n";
    for (is_shown, lines, readings) in [(true, shown, 8), (false, "", 0)] {
        let terminal = Terminal::new(rt.alloc());
        let mut files = MemoryStore::new(rt.alloc());
        files.add("a", b"two")?;
        let mut store = ProgressStore::new(files, &terminal, is_shown);
        assert!(rt; works(&mut store, rt.alloc(), &terminal.seconds));
        assert!(rt; terminal.readings.load(Ordering::SeqCst) == readings);
        assert!(rt; terminal.has_shown(lines));
    }
    Ok(())
}
