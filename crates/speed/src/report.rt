//! What the program prints of a dictionary.
use crate::compiling::Figures;
use std::time::Duration;

/// The number of keys, states, arcs and bytes.
pub fn print_figures(rt: &HostRuntime, keys: usize, figures: Figures) -> anyhow::Result<()> {
    let Figures {
        states,
        arcs,
        bytes,
    } = figures;
    let hundredths = bytes.saturating_mul(100) / keys.max(1);
    let whole = hundredths / 100;
    let part = hundredths % 100;
    println!(rt;
        "{keys} keys: {states} states, {arcs} arcs, {bytes} bytes, {whole}.{part:02} bytes a key"
    )?;
    Ok(())
}

/// A time, and what it is for each of some keys.
pub fn print_time(rt: &HostRuntime, call: &str, time: Duration, keys: usize) -> anyhow::Result<()> {
    let micros = time.as_micros();
    let millis = micros / 1000;
    let part = micros % 1000;
    let each = time.as_nanos() / keys.max(1) as u128;
    println!(rt; "{call:<5} {millis:>6}.{part:03} ms {each:>6} ns a key, {keys} keys")?;
    Ok(())
}
