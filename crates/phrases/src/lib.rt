// The values of a record in words. Each function writes into a lent buffer from the place `at` on, as far as there
// is room, leaves all other bytes, and answers the next place.
#![tactic(auto)]

ghost use Rattle.std.specs.Prelude.{◌∷◌, ◌≡◌};
ghost use Rattle.digits.specs.Decimal.{print_fixed};
ghost use Rattle.put.specs.Wrote.{held, Puts};
ghost use Rattle.phrases.specs.Phrases.{angle_words, clock_words, counted, date_words, either, height_words, hours_words, measure_text};
ghost use Rattle.phrases.specs.Phrases.{place_words, signed_text, variation_words, zone_words};

// The one text or the other.
fn pick<'a>(first: bool, s: &'a [u8], t: &'a [u8]) -> &'a [u8]
    ensures { result.now ≡ either first s.now t.now }
{
    if first { s } else { t }
}

// `1 hour`, `13 hours`
fn put_counted<'a>(out: &mut [u8], at: usize, n: u32, one: &'a [u8], many: &'a [u8]) -> usize
    ensures { Puts (held at out.old) (counted n one.now many.now) (held result out.new) }
{
    let a = text::put_number(out, at, u64::from(n));
    put::put_bytes(out, a, pick(n == 1, one, many))
}

// `:51`: a byte and two digits.
fn put_pair(out: &mut [u8], at: usize, b: u8, v: u32) -> usize
    ensures { Puts (held at out.old) (b ∷ print_fixed 2 v) (held result out.new) }
{
    let a = put::put(out, at, b);
    put::put_two(out, a, v)
}

// `07:51:40.00`
fn put_clock(out: &mut [u8], at: usize, v: u32) -> usize
    ensures { Puts (held at out.old) (clock_words v) (held result out.new) }
{
    let a0 = put::put_two(out, at, v / 360000);
    let a1 = put_pair(out, a0, b':', v / 6000 % 60);
    let a2 = put_pair(out, a1, b':', v / 100 % 60);
    put_pair(out, a2, b'.', v % 100)
}

// `2026-11-15`
fn put_date(out: &mut [u8], at: usize, day: u32, month: u32, year: u32) -> usize
    ensures { Puts (held at out.old) (date_words day month year) (held result out.new) }
{
    let a0 = put::put_four(out, at, year);
    let a1 = put_pair(out, a0, b'-', month);
    put_pair(out, a1, b'-', day)
}

// The hours of a zone, where there are any.
fn put_hours(out: &mut [u8], at: usize, n: u32) -> usize
    ensures { Puts (held at out.old) (hours_words n) (held result out.new) }
{
    if n == 0 {
        return at;
    }
    put_counted(out, at, n, b" hour ", b" hours ")
}

// `minus 13 hours 59 minutes`
fn put_zone(out: &mut [u8], at: usize, z: i32) -> usize
    ensures { Puts (held at out.old) (zone_words z) (held result out.new) }
{
    let minutes = digits::sign::size(z);
    let a0 = put::put_bytes(out, at, pick(z < 0, b"minus ", b""));
    let a1 = put_hours(out, a0, minutes / 60);
    put_counted(out, a1, minutes % 60, b" minute", b" minutes")
}

// `55 degrees 50.6111`
fn put_angle(out: &mut [u8], at: usize, v: u32) -> usize
    ensures { Puts (held at out.old) (angle_words v) (held result out.new) }
{
    let a0 = put_counted(out, at, v / 600000, b" degree ", b" degrees ");
    let a1 = text::put_number(out, a0, u64::from(v / 10000 % 60));
    let a2 = put::put(out, a1, b'.');
    put::put_four(out, a2, v % 10000)
}

// `55 degrees 50.6111 minutes north, 37 degrees 32.2534 minutes east`
fn put_place(out: &mut [u8], at: usize, lat: i32, lon: i32) -> usize
    ensures { Puts (held at out.old) (place_words lat lon) (held result out.new) }
{
    let a0 = put_angle(out, at, digits::sign::size(lat));
    let a1 = put::put_bytes(
        out,
        a0,
        pick(lat < 0, b" minutes south, ", b" minutes north, "),
    );
    let a2 = put_angle(out, a1, digits::sign::size(lon));
    put::put_bytes(out, a2, pick(lon < 0, b" minutes west", b" minutes east"))
}

// `-12.5`
fn put_height(out: &mut [u8], at: usize, z: i32) -> usize
    ensures { Puts (held at out.old) (height_words z) (held result out.new) }
{
    let a = put::put_bytes(out, at, pick(z < 0, b"-", b""));
    put::put_number(out, a, digits::sign::size(z))
}

// `5.2 degrees west`
fn put_variation(out: &mut [u8], at: usize, z: i32) -> usize
    ensures { Puts (held at out.old) (variation_words z) (held result out.new) }
{
    let a = put::put_number(out, at, digits::sign::size(z));
    put::put_bytes(out, a, pick(z < 0, b" degrees west", b" degrees east"))
}

// A signed value.
fn put_signed(out: &mut [u8], at: usize, f: u8, z: i32) -> usize
    ensures { Puts (held at out.old) (signed_text f z) (held result out.new) }
{
    match f {
        b'h' => put_height(out, at, z),
        b'v' => put_variation(out, at, z),
        b'z' => put_zone(out, at, z),
        _ => at,
    }
}

// The value that stands first in `numbers`, by the letter of its form: of one number, a position of two, or a date of
// three. A letter that is no form puts nothing.
pub fn put_measure(out: &mut [u8], at: usize, f: u8, numbers: &[i64]) -> usize
    ensures { Puts (held at out.old) (measure_text f numbers.now) (held result out.new) }
{
    let u = numbers::whole_at(numbers, 0);
    let z = numbers::signed_at(numbers, 0);
    match f {
        b'n' => text::put_number(out, at, u64::from(u)),
        b'k' => put::put_number(out, at, u),
        b't' => put_clock(out, at, u),
        b'd' => {
            let month = numbers::whole_at(numbers, 1);
            let year = numbers::whole_at(numbers, 2);
            put_date(out, at, u, month, year)
        }
        b'p' => put_place(out, at, z, numbers::signed_at(numbers, 1)),
        _ => put_signed(out, at, f, z),
    }
}
