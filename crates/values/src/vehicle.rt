// The calls of the vehicle.
// Its twin of the handheld stays: README names a module for each set, and each call is one line, of the function for any limits.
ghost use Rattle.lists.specs.Ladder.{Answers};
ghost use Rattle.tables.specs.Limits.{vehicle};
ghost use Rattle.values.specs.Digits.{digits_told, writing_digits};
ghost use Rattle.values.specs.Values.{entering, held, home_asked, key_asked, system_asked, told, tuning};

use super::answers::{EmergencyKey, NoValue, Target};
use super::digits::digits_in;
use super::entries::entry_in;
use super::fixed::{home_in, key_in, system_in};
use super::tuning::channel_in;
use screen::rows::Row;
use tables::limits::VEHICLE;
use writing::{HomeNumbers, SystemCode};

// What stands behind a row.
pub fn entry(row: Row, store: &[u8]) -> Result<Target, NoValue>
    ensures { Answers (entering vehicle row store.now) (told result) }
{
    entry_in(row, store, VEHICLE)
}

// The digits behind a row, at the buffer's start.
pub fn entry_digits(row: Row, store: &[u8], buffer: &mut [u8]) -> Result<usize, NoValue>
    ensures { Answers (writing_digits vehicle row store.now buffer.old) (digits_told result buffer.new) }
{
    digits_in(row, store, buffer, VEHICLE)
}

// The scan channel at a position.
pub fn channel(position: usize, store: &[u8]) -> Result<u16, NoValue>
    ensures { Answers (tuning vehicle position store.now) (told result) }
{
    channel_in(position, store, VEHICLE)
}

// Where the emergency key calls, and how; none of bytes that are no store, here and below.
pub fn emergency_key(store: &[u8]) -> Option<EmergencyKey>
    ensures { Answers (key_asked vehicle store.now) (held result) }
{
    key_in(store, VEHICLE)
}

pub fn home_numbers(store: &[u8]) -> Option<HomeNumbers>
    ensures { Answers (home_asked vehicle store.now) (held result) }
{
    home_in(store, VEHICLE)
}

pub fn system_code(store: &[u8]) -> Option<SystemCode>
    ensures { Answers (system_asked vehicle store.now) (held result) }
{
    system_in(store, VEHICLE)
}
