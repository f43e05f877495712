//! The number of a level.

ghost use Rattle.std.specs.Prelude.{◌≡◌};
ghost use Rattle.xrf_scenario.specs.SettingLines.{level_number};
ghost use Rattle.xrf_scenario.specs.Settled.{level_named};

use xrf_ctl::Level;

/// The number of a level, 1 or 2.
pub fn level_number(level: Level) -> u16
    ensures { result ≡ level_number level }
{
    match level {
        Level::One => 1,
        Level::Two => 2,
    }
}

/// The level of a number.
pub fn level_named(number: u16) -> Level
    ensures { result ≡ level_named number }
{
    match number {
        1 => Level::One,
        _ => Level::Two,
    }
}
