// What each field of a kind is: its name with its unit, and its form.
ghost use Rattle.std.specs.Prelude.{◌++◌, ◌≡◌, get_or};
ghost use Rattle.put.specs.Wrote.{held, Puts};
ghost use Rattle.words.specs.Fields.{count_text, field_text, form_words};

use crate::nth;

// The first byte of `s`, 0 where there is none.
fn first(s: &[u8]) -> u8
    ensures { result ≡ get_or s.now 0 0 }
{
    s.first().copied().unwrap_or(0)
}

// The form that a letter stands for, behind a comma; nothing for a byte that stands for none.
fn put_form(out: &mut [u8], at: usize, letter: u8) -> usize
    ensures { Puts (held at out.old) (form_words letter) (held result out.new) }
{
    let forms = b"\
        , hhmmss.ss or empty;, ddmm.mmmm up to 9000.0000, or empty;, N or S, empty exactly where the latitude is\
        ;, dddmm.mmmm up to 18000.0000, empty exactly where the latitude is;, E or W, empty exactly where the longitude is\
        ;, 1 to 6 digits, then perhaps a point and 1 to 3 digits, or empty\
        ;, 1 to 6 digits, then perhaps a point and 1 to 3 digits, a minus before them or none, or empty\
        ;, 1 to 6 digits, then perhaps a point and 1 to 3 digits, below 360, or empty;, or empty where the value before it is\
        ;, A or V;, A, D, E, M, S or N;, 01 to 99 or empty;, 00 to 90 or empty;, 000 to 359 or empty;, 00 to 99 or empty\
        ;, four digits 0-9 or A-F, bits 7 and 12 to 15 zero;, hhmm from 0000 to 1359, a minus before it or none but not -0000\
        ;, 1200 to 115200 without leading zeros";
    put::put_bytes(
        out,
        at,
        nth::nth_of(forms, b';', digits::find(b"tabcdkhousmneigxzr", letter)),
    )
}

// Field `field` of a kind, from 1 on, its name with its unit, and its form: `latitude, ddmm.mmmm up to 9000.0000, or empty`.
// Nothing for what is no kind, or no field of it.
pub fn put_field(out: &mut [u8], at: usize, kind: u32, field: usize) -> usize
    ensures { Puts (held at out.old) (field_text kind field) (held result out.new) }
{
    let fields = b"\
        ;|time of day UTC%t|latitude%a|north or south%b|longitude%c|east or west%d|fix quality, one digit 0 to 8\
        |satellites used, two digits or empty|horizontal dilution%k|altitude above sea level in metres%h|unit M%u\
        |geoid height in metres%h|unit M%u|age of corrections in seconds%k|reference station, 0000 to 1023 or empty\
        ;|latitude%a|north or south%b|longitude%c|east or west%d|time of day UTC%t|status%s|mode%m\
        ;|selection, M or A|fix, one digit 1 to 3|satellite used%n|satellite used%n|satellite used%n|satellite used%n\
        |satellite used%n|satellite used%n|satellite used%n|satellite used%n|satellite used%n|satellite used%n|satellite used%n\
        |satellite used%n|position dilution%k|horizontal dilution%k|vertical dilution%k\
        ;|lines, one digit 1 to 9|this line, one digit 1 to 9|satellites in view, 00 to 99|satellite number, 01 to 99\
        |elevation in degrees%e|azimuth in degrees%i|signal in dB%g|satellite number, 01 to 99|elevation in degrees%e\
        |azimuth in degrees%i|signal in dB%g|satellite number, 01 to 99|elevation in degrees%e|azimuth in degrees%i|signal in dB%g\
        |satellite number, 01 to 99|elevation in degrees%e|azimuth in degrees%i|signal in dB%g\
        ;|time of day UTC%t|status%s|latitude%a|north or south%b|longitude%c|east or west%d|speed in knots%k\
        |true course in degrees%o|date, ddmmyy of a day that exists, or empty\
        |magnetic variation in degrees, 1 to 6 digits, then perhaps a point and 1 to 3 digits, below 180, or empty\
        |east or west, E or W%u|mode%m\
        ;|true course in degrees%o|unit T%u|magnetic course in degrees%o|unit M%u|speed in knots%k|unit N%u\
        |speed in kilometres per hour%k|unit K%u|mode%m\
        ;|time of day UTC%t|day, 01 to 31, or empty|month, 01 to 12, empty exactly where the day is\
        |year, 1980 to 2079 with a day that exists, empty exactly where the day is\
        |hours of the zone, 00 to 13, a minus before them or none, or empty\
        |minutes of the zone, 00 to 59, not 00 behind -00, empty exactly where the hours are\
        ;|port, 0, 1 or empty|rate in bits per second, empty to ask, else%r|protocol, 0 to 4, empty only where the rate is\
        |mask, empty only where the rate is, else%x;|datum, 0 to 4, or empty to ask|zone, empty only where the datum is, else%z\
        ;|GPS mask, 1 to 8 digits 0-9 or A-F, -1 for all, or empty|GLONASS mask, 1 to 6 digits 0-9 or A-F, -1 for all, or empty\
        |nothing, always empty;|self-test, 0;|port, 0 or 1|rate in bits per second%r|protocol, 0 to 4|mask%x;|datum, 0 to 4|zone%z\
        ;|GPS mask, eight digits 0-9 or A-F|GLONASS mask, six digits 0-9 or A-F|nothing, always empty\
        ;|self-test code, 0 to 255 without leading zeros";
    let entry = nth::nth_of(nth::nth_of(fields, b';', kind as usize), b'|', field);
    let a = put::put_bytes(out, at, nth::nth_of(entry, b'%', 0));
    put_form(out, a, first(nth::nth_of(entry, b'%', 1)))
}

// How many fields a kind has: `14`, or `3, 7, 11, 15 or 19`. Nothing for what is no kind.
pub fn put_count(out: &mut [u8], at: usize, kind: u32) -> usize
    ensures { Puts (held at out.old) (count_text kind) (held result out.new) }
{
    let counts = b";14;7;17;3, 7, 11, 15 or 19;12;9;6;4;2;3;1;4;2;3;1";
    put::put_bytes(out, at, nth::nth_of(counts, b';', kind as usize))
}
