// The settings: at start, by port, in range, and how many satellites they allow.
ghost use Rattle.std.specs.Prelude.{◌≡◌};
ghost use Rattle.receiver.specs.Settings.{at_start, counts_of, port_good, port_of, settings_good, with_port};

use crate::{Counts, Port, Settings};

// At start: 4800, protocol 4 and mask 007F on both ports; datum 0; zone 0; all satellites; code 0.
pub fn at_start() -> Settings
    ensures { result ≡ at_start }
{
    let port = Port {
        rate: 4800,
        protocol: 4,
        mask: 127,
    };
    Settings {
        first: port,
        second: port,
        datum: 0,
        zone: 0,
        gps: 4294967295,
        glonass: 16777215,
        code: 0,
    }
}

// Port 0 is the first, any other the second.
pub fn port_of(s: Settings, n: u32) -> Port
    ensures { result ≡ port_of s n }
{
    if n == 0 { s.first } else { s.second }
}

// The settings with one port changed.
pub fn with_port(s: Settings, n: u32, p: Port) -> Settings
    ensures { result ≡ with_port s n p }
{
    if n == 0 {
        Settings { first: p, ..s }
    } else {
        Settings { second: p, ..s }
    }
}

fn is_port_good(p: Port) -> bool
    ensures { result ≡ port_good p }
{
    form::range::within(p.rate, 1200, 115200) == 0
        && form::range::within(p.protocol, 0, 4) == 0
        && form_mask::range::port_mask(true, p.mask) == 0
}

// Whether every setting is in its range.
pub fn are_good(s: Settings) -> bool
    ensures { result ≡ settings_good s }
{
    is_port_good(s.first)
        && is_port_good(s.second)
        && form::range::within(s.datum, 0, 4) == 0
        && form::range::signed(true, s.zone, 839) == 0
        && form::range::within(s.gps, 0, 4294967295) == 0
        && form::range::within(s.glonass, 0, 16777215) == 0
        && form::range::within(s.code, 0, 255) == 0
}

// How many satellites each mask allows. Refused: 5 with line 0 where a setting is out of its range.
pub fn counts(s: Settings) -> Counts
    ensures { result ≡ counts_of s }
{
    if !are_good(s) {
        return Counts {
            no: 5,
            line: 0,
            field: 0,
            gps: 0,
            glonass: 0,
        };
    }
    Counts {
        no: 0,
        line: 0,
        field: 0,
        gps: s.gps.count_ones(),
        glonass: s.glonass.count_ones(),
    }
}
