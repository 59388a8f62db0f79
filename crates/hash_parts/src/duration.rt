// Durations of whole seconds and nanoseconds, deadlines in ticks and the time that is left.
ghost use Rattle.std.specs.Prelude.{◌≡◌, ◌^◌, ◌<◌, ◌==◌, min, Option};
ghost use Rattle.hash_parts.specs.Outcome.{outcome_of};
ghost use Rattle.hash_parts.specs.Duration.{nanos_of, ceil_div, deadline_at, encoded_expiry, lives_at, product, remaining};

use crate::error::SegmentCacheBuildError;
use crate::setting::SegmentExpiry;

// The deadline of a record that never lapses.
pub const NEVER_EXPIRES: u16 = 65_535;

const MAX_EXPIRY_TICK: u128 = 65_534;

const NANOS_PER_SEC: u64 = 1_000_000_000;

// Not the library's, which takes a second or more in the nanoseconds only where the seconds hold it too: here every
// pair of numbers is a duration.
#[derive(Clone, Copy, Debug, PartialEq, Eq)]
pub struct Duration {
    pub secs: u64,
    pub nanos: u32,
}

impl Duration {
    pub const fn is_zero(self) -> bool
        ensures { result ≡ (nanos_of self == 0) }
    {
        self.secs == 0 && self.nanos == 0
    }

    // All of it in nanoseconds, which pass 64 bits after some 584 years and never need more than 94.
    pub const fn as_nanos(self) -> u128
        ensures { result ≡ nanos_of self }
    {
        self.secs as u128 * NANOS_PER_SEC as u128 + self.nanos as u128
    }

    // So many times this duration, where its seconds fit 64 bits.
    #[tactic(auto, using(crate::proofs::Deadlines::secs_are, crate::proofs::Deadlines::nanos_are), unfolding(crate::specs::Duration::product))]
    fn checked_mul(self, times: u16) -> Option<Duration>
        ensures { result ≡ product self times }
    {
        let nanos = self.nanos as u64 * times as u64;
        let whole = self.secs.checked_mul(times as u64)?;
        let secs = whole.checked_add(nanos / NANOS_PER_SEC)?;
        Some(Duration {
            secs,
            nanos: (nanos % NANOS_PER_SEC) as u32,
        })
    }
}

// How long a record still lives, for ever or for a while: the Rust's own type, plainer than an Option in an Option.
#[derive(Clone, Copy, Debug, PartialEq, Eq)]
pub enum SegmentRemainingTtl {
    Never,
    Finite(Duration),
}

// The tick at which a record lapses whose lifetime starts at tick now_tick.
#[tactic(auto, unfolding(crate::specs::Duration::encoded_expiry))]
pub fn encode_expiry_at_tick(
    expiry: SegmentExpiry,
    ttl: Option<Duration>,
    now_tick: u64,
) -> Result<u16, SegmentCacheBuildError>
    ensures { outcome_of result ≡ encoded_expiry expiry ttl now_tick }
{
    let Some(lifetime) = ttl else {
        return Ok(NEVER_EXPIRES);
    };
    let SegmentExpiry::Relative16 { tick } = expiry else {
        return Err(SegmentCacheBuildError::ExpiryDisabled);
    };
    if tick.is_zero() {
        return Err(SegmentCacheBuildError::ZeroExpiryTick);
    }
    deadline_at(now_tick, lifetime, tick.as_nanos())
}

// The lifetime in ticks of so many nanoseconds, rounded up, after tick base.
#[tactic(auto, unfolding(crate::specs::Duration::deadline_at))]
fn deadline_at(base: u64, lifetime: Duration, tick: u128) -> Result<u16, SegmentCacheBuildError>
    requires { (0 < tick) × (tick < 2 ^ 94) }
    ensures { outcome_of result ≡ deadline_at base (nanos_of lifetime) tick }
{
    let deadline = base as u128 + ticks_of(lifetime.as_nanos(), tick) as u128;
    if deadline > MAX_EXPIRY_TICK {
        return Err(SegmentCacheBuildError::ExpiryOutOfRange);
    }
    Ok(deadline as u16)
}

// A lifetime in ticks, rounded up; past the last deadline only that it is more. Where both have 64 bits they are divided; a
// division of 128 would be a call of the compiler's own library.
#[tactic(auto, using(crate::proofs::Deadlines::rounded_up, crate::proofs::Deadlines::ticks_once))]
fn ticks_of(lifetime: u128, tick: u128) -> u64
    requires { (0 < tick) × (tick < 2 ^ 94) }
    ensures { min result 65535 ≡ min (ceil_div lifetime tick) 65535 }
{
    if let (Ok(lifetime), Ok(tick)) = (u64::try_from(lifetime), u64::try_from(tick)) {
        return lifetime.div_ceil(tick);
    }
    if lifetime <= tick {
        return u64::from(lifetime > 0);
    }
    search_ticks(lifetime, tick)
}

// The same of a lifetime that is longer than the tick, and one more than the last deadline for all above it: halves the range in
// which the answer lies, at most 16 times.
fn search_ticks(lifetime: u128, tick: u128) -> u64
    requires { (0 < tick) × (tick < lifetime) × (tick < 2 ^ 94) }
    ensures { result ≡ min (ceil_div lifetime tick) 65535 }
{
    let mut short: u64 = 1;
    let mut enough = MAX_EXPIRY_TICK as u64 + 1;
    while enough - short > 1 {
        let middle = (short + enough) / 2;
        if tick * (middle as u128) < lifetime {
            short = middle;
        } else {
            enough = middle;
        }
    }
    enough
}

// Whether a record with this deadline is live.
#[tactic(auto, unfolding(crate::specs::Duration::lives_at))]
pub const fn lives_at_tick(expires_at: u16, now_tick: u64) -> bool
    ensures { result ≡ lives_at expires_at now_tick }
{
    expires_at == NEVER_EXPIRES || now_tick < (expires_at as u64)
}

// How long a record with this deadline still lives; nothing where it has lapsed, or where that is longer than the
// largest duration.
#[tactic(auto, unfolding(crate::specs::Duration::remaining))]
pub fn remaining_ttl(
    expiry: SegmentExpiry,
    expires_at: u16,
    now_tick: u64,
) -> Option<SegmentRemainingTtl>
    ensures { result ≡ remaining expiry expires_at now_tick }
{
    if expires_at == NEVER_EXPIRES {
        return Some(SegmentRemainingTtl::Never);
    }
    if now_tick >= (expires_at as u64) {
        return None;
    }
    let SegmentExpiry::Relative16 { tick } = expiry else {
        return Some(SegmentRemainingTtl::Never);
    };
    let left = tick.checked_mul(expires_at - now_tick as u16)?;
    Some(SegmentRemainingTtl::Finite(left))
}
