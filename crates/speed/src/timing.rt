//! The best time of some rounds of a call.
use std::time::{Duration, Instant};

/// How often each call is timed.
const ROUNDS: usize = 20;

/// The time of the quickest round.
pub fn best_time<F: FnMut() -> anyhow::Result<()>>(
    rt: &HostRuntime,
    mut call: F,
) -> anyhow::Result<Duration>
    requires { F.IsAlwaysCallable call }
{
    let mut best = Duration::MAX;
    for _ in 0..ROUNDS {
        let start = Instant::now(rt)?;
        call()?;
        best = best.min(start.elapsed(rt)?);
    }
    Ok(best)
}
