// The fields of a sentence in words, for one who reads an exhibit. Each function writes into a lent buffer from
// the place `at` on, as far as there is room, leaves all other bytes, and answers the next place.
#![tactic(auto)]

mod code;
pub mod field_words;
mod form_words;
pub mod nth;
mod table;

ghost use Rattle.std.specs.Prelude.{◌≡◌, min, drop};
ghost use Rattle.put.specs.Wrote.{held, Puts};
ghost use Rattle.words.specs.Words.{entries_text, talkers_of, words_text, kind_text, refusal_text};

// How many satellites a GSV with this count has; no more than four.
fn few(count: u32) -> usize
    ensures { result ≡ min 4 count }
{
    count.min(4) as usize
}

// The rows of the satellites of a GSV.
fn put_entries(out: &mut [u8], at: usize, numbers: &[i64], count: u32) -> usize
    ensures { Puts (held at out.old) (entries_text (min 4 count) (drop 5 numbers.now))
        (held result out.new) }
{
    let mut a = at;
    for i in 0..few(count) {
        let rows = b"satellite: %N\nelevation: %n degrees\nazimuth: %n degrees\nsignal: %n dB\n";
        a = table::put_table(out, a, rows, numbers, 5 + 7 * i);
    }
    a
}

// How many numbers stand before the fields.
fn talkers(kind: u32) -> usize
    ensures { result ≡ talkers_of kind }
{
    if kind < 8 { 1 } else { 0 }
}

// The fields of a sentence, a row each, by its kind and its numbers: `date: 2026-11-15`. A missing value is
// `not sent`; a kind that is none has no rows.
pub fn put_words(out: &mut [u8], at: usize, kind: u32, numbers: &[i64]) -> usize
    ensures { Puts (held at out.old) (words_text kind numbers.now) (held result out.new) }
{
    let tables = b"\
        ;time of day: %t UTC\nposition: %p\nfix quality: %Q\nsatellites used: %n\nhorizontal dilution: %k\n\
        altitude above sea level: %h metres\ngeoid height: %h metres\nage of corrections: %k seconds\nreference station: %n\n\
        ;position: %p\ntime of day: %t UTC\nstatus: %S\nmode: %M\n\
        ;selection: %A\nfix: %F\nsatellite 1: %n\nsatellite 2: %n\nsatellite 3: %n\nsatellite 4: %n\n\
        satellite 5: %n\nsatellite 6: %n\nsatellite 7: %n\nsatellite 8: %n\n\
        satellite 9: %n\nsatellite 10: %n\nsatellite 11: %n\nsatellite 12: %n\n\
        position dilution: %k\nhorizontal dilution: %k\nvertical dilution: %k\n\
        ;lines: %N\nthis line: %N\nsatellites in view: %N\nsatellites on this line: %N\n\
        ;time of day: %t UTC\nstatus: %S\nposition: %p\nspeed: %k knots\ntrue course: %k degrees\n\
        date: %d\nmagnetic variation: %v\nmode: %M\n\
        ;true course: %k degrees\nmagnetic course: %k degrees\nspeed: %k knots\nspeed: %k kilometres per hour\nmode: %M\n\
        ;time of day: %t UTC\ndate: %d\nzone: %z\n\
        ;port: %n\nrate: %n bits per second\nprotocol: %n\nmask: %x\n\
        ;datum: %n\nzone: %z\n\
        ;GPS mask: %g\nGLONASS mask: %r\n\
        ;\
        ;port: %N\nrate: %N bits per second\nprotocol: %N\nmask: %X\n\
        ;datum: %N\nzone: %Z\n\
        ;GPS mask: %G\nGLONASS mask: %R\n\
        ;self-test code: %N\n";
    let table = nth::nth_of(tables, b';', kind as usize);
    let a = table::put_table(out, at, table, numbers, talkers(kind));
    if kind == 4 {
        return put_entries(out, a, numbers, numbers::whole_at(numbers, 4));
    }
    a
}

// What a sentence is, by its kind; nothing for a kind that is none.
pub fn put_kind(out: &mut [u8], at: usize, kind: u32) -> usize
    ensures { Puts (held at out.old) (kind_text kind) (held result out.new) }
{
    let kinds = b"\
        ;position fix;geographic position;satellites used and dilution;satellites in view;position, speed, course and date\
        ;course and speed over ground;time, date and zone;command: settings of a port;command: datum and zone\
        ;command: satellites allowed;command: self-test;reply: settings of a port;reply: datum and zone\
        ;reply: satellites allowed;reply: self-test";
    put::put_bytes(out, at, nth::nth_of(kinds, b';', kind as usize))
}

// What a refusal says, by its number; nothing for a number that is none.
pub fn put_refusal(out: &mut [u8], at: usize, no: u8) -> usize
    ensures { Puts (held at out.old) (refusal_text no) (held result out.new) }
{
    let refusals = b"\
        ;the line rule fails, or a written line would pass 82 bytes;the two digits differ from the XOR of the body\
        ;the address is unknown;the kind does not have so many fields\
        ;a field is not of its form or range, or a value of a record is outside its range\
        ;a line does not go with its group;a satellite is repeated in its group;the output is shorter than what would be written\
        ;the sentence is not a command;the protocol of the port is not 4;the bytes are no index;no exhibit has that number";
    put::put_bytes(out, at, nth::nth_of(refusals, b';', no as usize))
}
