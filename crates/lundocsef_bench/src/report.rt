use anyhow::Result;
use std::time::Duration;

/// How many things a timeline tells, and how many nanoseconds of the processor an add and a remove took.
#[derive(Clone, Copy)]
pub struct Found {
    pub count: usize,
    pub nanos: u128,
}

/// How many nanoseconds each of so many things took from one reading of the clock to the other.
pub fn nanos_each(from: Duration, to: Duration, count: u32) -> u128 {
    to.saturating_sub(from).as_nanos() / u128::from(count.max(1))
}

/// Says what was found and, if asked, what a change cost.
pub fn show(rt: &impl Print, name: &str, what: &str, found: Found, is_timed: bool) -> Result<()> {
    let Found { count, nanos } = found;
    rt.println(format_args!("{name}: {count} {what}"))?;
    if is_timed {
        rt.println(format_args!("{name}: {nanos} ns for an add and a remove"))?;
    }
    Ok(())
}
