//! How far a search of all orders is, told to a person who waits for it.

use cmwq_explore::Progress;
use cmwq_play::{Marked, put_all};
use std::io::IsTerminal;
use std::time::{Duration, Instant};

/// A line is told anew after so many milliseconds at the earliest.
const PAUSE: u64 = 100;

/// Tells on standard error how far a search is, where that is a terminal: the states that were seen, how deep the search is, and the
/// states in a second, in one line, at most ten times a second.
#[derive(Drop)]
pub(crate) struct Meter<'a> {
    rt: &'a HostRuntime,
    /// When the search began and when the line was told last; nothing where none is to be told.
    times: Option<(Instant, Instant)>,
    /// A line stands there.
    is_told: bool,
}

impl<'a> Meter<'a> {
    /// A meter of a search that begins now.
    pub(crate) fn new(rt: &'a HostRuntime) -> Meter<'a> {
        let times = match Instant::now(rt) {
            Ok(now) if rt.stderr().is_terminal() => Some((now, now)),
            _ => None,
        };
        Meter {
            rt,
            times,
            is_told: false,
        }
    }

    /// Takes the line away.
    pub(crate) fn clear(&mut self) {
        if self.is_told {
            self.put("\r\x1b[K");
            self.is_told = false;
        }
    }

    /// Puts the text on standard error. Where that fails there is nobody to tell.
    fn put(&self, text: &str) {
        let _ = put_all(&mut Marked::new(self.rt.stderr()), text.as_bytes());
    }
}

impl Progress for Meter<'_> {
    fn tell(&mut self, states: usize, depth: u16) {
        let Some((begun, last)) = self.times else {
            return;
        };
        let Ok(now) = Instant::now(self.rt) else {
            return;
        };
        if now.duration_since(last) < Duration::from_millis(PAUSE) {
            return;
        }
        let rate = rate_of(states, now.duration_since(begun));
        if let Ok(line) = format!(in self.rt.alloc();
            "\r\x1b[K{states} states, {depth} instructions deep, {rate} states a second"
        ) {
            self.put(&line);
            self.is_told = true;
            self.times = Some((begun, now));
        }
    }
}

/// How many states a second that is.
fn rate_of(states: usize, time: Duration) -> u64 {
    let millis = u64::try_from(time.as_millis()).unwrap_or(u64::MAX).max(1);
    (states as u64).saturating_mul(1000) / millis
}
