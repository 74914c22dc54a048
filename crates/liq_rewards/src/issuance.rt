//! Which units are issued by which minute: half as many in each year as in the one before.

ghost use Rattle.std.specs.Prelude.{◌≡◌, ◌-◌, ◌*◌, ◌/◌, ◌^◌, ◌<◌, ◌≤◌, min};
ghost use Rattle.liq_rewards.specs.Issued.{issued};

/// The minutes of a year.
pub const YEAR: u64 = 525_600;

/// The units that each minute of the first year issues.
pub const UNITS_AT_FIRST: u64 = 30_000;

/// In each later year a minute issues less than one unit, and so none.
pub const YEARS: u32 = 15;

/// All units that are ever issued.
pub const UNITS_MOST: u64 = 31_532_320_800;

/// The most events that one value takes: 2^40.
pub const EVENTS_MOST: u64 = 1_099_511_627_776;

/// The least total of the pool (micro-LUSD) at which units are shared.
pub const SHARED_LEAST: u64 = 1_000_000_000;

/// All units that the first minutes issue.
pub fn issued(minutes: u64) -> u64
    ensures issued { result ≡ issued minutes }
    ensures within { result ≤ UNITS_MOST }
{
    let mut units = 0;
    for year in 0..YEARS {
        units += issued_in(minutes, year);
    }
    units
}

/// What the first minutes issue in one year.
fn issued_in(minutes: u64, year: u32) -> u64
    requires { year < YEARS }
    ensures issued { result ≡ min (minutes - year * YEAR) YEAR * (UNITS_AT_FIRST / 2 ^ year) }
    ensures within { result ≤ YEAR * UNITS_AT_FIRST }
{
    let inside = minutes.saturating_sub(u64::from(year) * YEAR).min(YEAR);
    inside * rate_in(year)
}

/// What each minute of a year issues.
fn rate_in(year: u32) -> u64
    requires { year < YEARS }
    ensures rate { result ≡ UNITS_AT_FIRST / 2 ^ year }
    ensures within { result ≤ UNITS_AT_FIRST }
{
    UNITS_AT_FIRST / 2_u64.pow(year)
}
