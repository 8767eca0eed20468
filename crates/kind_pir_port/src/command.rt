// PIRPR: a port, its rate, protocol and mask; without a rate a question.
ghost use Rattle.std.specs.Prelude.{◌≡◌};
ghost use Rattle.fields.specs.Parts.{parts_of};
ghost use Rattle.frame.specs.Written.{fault_at, Writes};
ghost use Rattle.numbers.specs.Told.{gives, Tells};
ghost use Rattle.kind_pir_port.specs.Command.{pirpr_at, pirpr_body, pirpr_fields, pirpr_from, pirpr_numbers, pirpr_told, pirpr_wrong};

use fields::Fields;
use form::Maybe;
use form::from_numbers::FromNumbers;
use form::got::Got;
use frame::Written;
use frame::record::Record;
use numbers::Told;

// A port's settings to set, or, where the rate is missing, a question.
#[derive(Clone, Copy)]
pub struct PortAsked {
    pub port: Maybe,
    pub rate: Maybe,
    pub protocol: Maybe,
    pub mask: Maybe,
}

// Lays the numbers of a record, in the order of docs/LAYOUT.md.
fn lay(out: &mut [i64], r: PortAsked) -> Told
    ensures { Tells (gives out.old 8 (pirpr_numbers r)) result out.new }
{
    let v = [
        r.port.there as i64,
        r.port.value as i64,
        r.rate.there as i64,
        r.rate.value as i64,
        r.protocol.there as i64,
        r.protocol.value as i64,
        r.mask.there as i64,
        r.mask.value as i64,
    ];
    numbers::tell(out, 8, &v)
}

// The record that numbers say; a number past the end is taken as 0.
pub fn at(n: &[i64]) -> PortAsked
    ensures { result ≡ pirpr_at n.now }
{
    PortAsked {
        port: Maybe::at(n, 0),
        rate: Maybe::at(n, 2),
        protocol: Maybe::at(n, 4),
        mask: Maybe::at(n, 6),
    }
}

// Lays the record, or refuses the first wrong field.
fn pirpr_from(out: &mut [i64], port: Got, rate: Got, protocol: Got, mask: Got) -> Told
    ensures { Tells (pirpr_from out.old port rate protocol mask) result out.new }
{
    let mask_wrong = form::keep::needed(rate.there, mask);
    let w4 = form::keep::near(3, mask_wrong, 0);
    let protocol_wrong = form::keep::needed(rate.there, protocol);
    let w3 = form::keep::near(2, protocol_wrong, w4);
    let w2 = form::keep::near(1, rate.wrong, w3);
    let w1 = form::keep::near(0, port.wrong, w2);
    if w1 != 0 {
        return numbers::refuse(5, w1);
    }
    lay(
        out,
        PortAsked {
            port: port.into(),
            rate: rate.into(),
            protocol: form::keep::kept_if(rate.there, protocol),
            mask: form::keep::kept_if(rate.there, mask),
        },
    )
}

// Reads the fields of a body, and lays the numbers of the record at the start of `out`. Refused: 4 where there are not so many
// fields as the kind has, 5 at the first wrong field, 8 where `out` is shorter than the record; then `out` is left.
//
//     $PIRPR,0,4800,4,007F*30
pub fn read(out: &mut [i64], f: Fields) -> Told
    ensures { Tells (pirpr_told out.old f.entry.count (parts_of f.entry)) result out.new }
{
    if f.count != 4 {
        return numbers::refuse(4, 0);
    }
    let port = form_number::fixed::fixed(f.at(1), 1, 0, 1);
    let rate = form_mask::plain::rate(f.at(2));
    let protocol = form_number::fixed::fixed(f.at(3), 1, 0, 4);
    let mask = form_mask::read::port_mask(f.at(4));
    pirpr_from(out, port, rate, protocol, mask)
}

// The first value outside its range, by the number of its field, or 0.
fn wrong(r: PortAsked) -> usize
    ensures { result ≡ pirpr_wrong r }
{
    let w4 = form::keep::near(
        3,
        form::range::alike(
            r.rate.there,
            r.mask.there,
            form_mask::range::port_mask(r.mask.there, r.mask.value),
        ),
        0,
    );
    let w3 = form::keep::near(
        2,
        form::range::alike(
            r.rate.there,
            r.protocol.there,
            form::range::maybe(r.protocol, 0, 4),
        ),
        w4,
    );
    let w2 = form::keep::near(1, form::range::maybe(r.rate, 1200, 115200), w3);
    form::keep::near(0, form::range::maybe(r.port, 0, 1), w2)
}

impl Record for PortAsked {
    ghost fault = { λ r. fault_at (pirpr_wrong r) };

    ghost texts = { pirpr_fields };

    fn fault(self) -> Written {
        frame::fault(wrong(self))
    }

    fn put_fields(self, out: &mut [u8], at: usize) -> usize {
        let a0 = form_number::text::one(out, at, self.port);
        let a1 = form_mask::text::plain(out, a0, self.rate);
        let a2 = form_number::text::one(out, a1, self.protocol);
        form_mask::text::four(out, a2, self.mask)
    }
}

// Writes the line of a record into `out`, and answers its length. Refused: 5 at the first value outside its
// range, 8 where `out` is shorter than the line.
//
//     $PIRPR,0,4800,4,007F*30
pub fn write(out: &mut [u8], r: PortAsked) -> Written
    ensures { Writes (fault_at (pirpr_wrong r)) (pirpr_body r) out.old result out.new }
{
    frame::record::write_maker(out, b"PIRPR", r)
}
