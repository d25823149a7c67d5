// The checks that every call begins with, in document 01's order: 13, 5 and 2.
ghost use Rattle.std.specs.Prelude.{◌≡◌, ◌++◌};
ghost use Rattle.segment.specs.Refusal.{refusal};
ghost use Rattle.endpoint.specs.Checks.{is_untimely, timely, addressed};

use crate::address::{Family, is_address};
use segment::refusal::Refusal;

// The last time that a call may carry, in ms: 2^48.
pub const LAST_TIME: u64 = 281474976710656;

// Whether a time is before the clock or above the last one.
pub fn is_untimely(clock: u64, time: u64) -> bool
    ensures { result ≡ is_untimely clock time }
{
    time < clock || LAST_TIME < time
}

// 13 and 5.
pub fn check_time(started: bool, clock: u64, time: u64) -> Result<(), Refusal>
    ensures { result ≡ refusal (timely started (is_untimely clock time)) }
{
    if !started {
        return Err(Refusal::NotStarted);
    }
    if is_untimely(clock, time) {
        return Err(Refusal::Time);
    }
    Ok(())
}

// 13, 5 and 2.
pub fn check_name(
    started: bool,
    family: Family,
    clock: u64,
    time: u64,
    addr: &[u8],
) -> Result<(), Refusal>
    ensures { result ≡ refusal (timely started (is_untimely clock time) ++ addressed family addr.now) }
{
    check_time(started, clock, time)?;
    if !is_address(family, addr) {
        return Err(Refusal::Address);
    }
    Ok(())
}
