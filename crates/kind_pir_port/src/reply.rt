// PIRPA: a port's rate, protocol and mask.
ghost use Rattle.std.specs.Prelude.{◌≡◌};
ghost use Rattle.fields.specs.Parts.{parts_of};
ghost use Rattle.frame.specs.Written.{fault_at, Writes};
ghost use Rattle.numbers.specs.Told.{gives, Tells};
ghost use Rattle.kind_pir_port.specs.Reply.{pirpa_at, pirpa_body, pirpa_fields, pirpa_from, pirpa_numbers, pirpa_told, pirpa_wrong};

use fields::Fields;
use form::got::Got;
use frame::Written;
use frame::record::Record;
use numbers::Told;

#[derive(Clone, Copy)]
pub struct PortTold {
    pub port: u32,
    pub rate: u32,
    pub protocol: u32,
    pub mask: u32,
}

// Lays the numbers of a record, in the order of docs/LAYOUT.md.
fn lay(out: &mut [i64], r: PortTold) -> Told
    ensures { Tells (gives out.old 12 (pirpa_numbers r)) result out.new }
{
    let v = [
        r.port as i64,
        r.rate as i64,
        r.protocol as i64,
        r.mask as i64,
    ];
    numbers::tell(out, 12, &v)
}

// The record that numbers say; a number past the end is taken as 0.
pub fn at(n: &[i64]) -> PortTold
    ensures { result ≡ pirpa_at n.now }
{
    PortTold {
        port: numbers::whole_at(n, 0),
        rate: numbers::whole_at(n, 1),
        protocol: numbers::whole_at(n, 2),
        mask: numbers::whole_at(n, 3),
    }
}

// Lays the record, or refuses the first wrong field.
fn pirpa_from(out: &mut [i64], port: Got, rate: Got, protocol: Got, mask: Got) -> Told
    ensures { Tells (pirpa_from out.old port rate protocol mask) result out.new }
{
    let mask_wrong = form::keep::needed(true, mask);
    let w4 = form::keep::near(3, mask_wrong, 0);
    let w3 = form::keep::near(2, protocol.wrong, w4);
    let rate_wrong = form::keep::needed(true, rate);
    let w2 = form::keep::near(1, rate_wrong, w3);
    let w1 = form::keep::near(0, port.wrong, w2);
    if w1 != 0 {
        return numbers::refuse(5, w1);
    }
    lay(
        out,
        PortTold {
            port: port.value,
            rate: rate.value,
            protocol: protocol.value,
            mask: mask.value,
        },
    )
}

// Reads the fields of a body, and lays the numbers of the record at the start of `out`. Refused: 4 where there are not so many
// fields as the kind has, 5 at the first wrong field, 8 where `out` is shorter than the record; then `out` is left.
//
//     $PIRPA,0,4800,4,007F*23
pub fn read(out: &mut [i64], f: Fields) -> Told
    ensures { Tells (pirpa_told out.old f.entry.count (parts_of f.entry)) result out.new }
{
    if f.count != 4 {
        return numbers::refuse(4, 0);
    }
    let port = form_number::fixed::exact(f.at(1), 1, 0, 1);
    let rate = form_mask::plain::rate(f.at(2));
    let protocol = form_number::fixed::exact(f.at(3), 1, 0, 4);
    let mask = form_mask::read::port_mask(f.at(4));
    pirpa_from(out, port, rate, protocol, mask)
}

// The first value outside its range, by the number of its field, or 0.
fn wrong(r: PortTold) -> usize
    ensures { result ≡ pirpa_wrong r }
{
    let w4 = form::keep::near(3, form_mask::range::port_mask(true, r.mask), 0);
    let w3 = form::keep::near(2, form::range::within(r.protocol, 0, 4), w4);
    let w2 = form::keep::near(1, form::range::within(r.rate, 1200, 115200), w3);
    form::keep::near(0, form::range::within(r.port, 0, 1), w2)
}

impl Record for PortTold {
    ghost fault = { λ r. fault_at (pirpa_wrong r) };

    ghost texts = { pirpa_fields };

    fn fault(self) -> Written {
        frame::fault(wrong(self))
    }

    fn put_fields(self, out: &mut [u8], at: usize) -> usize {
        let a0 = form_number::text::one(out, at, self.port);
        let a1 = form_mask::text::plain(out, a0, self.rate);
        let a2 = form_number::text::one(out, a1, self.protocol);
        form_mask::text::four(out, a2, self.mask)
    }
}

// Writes the line of a record into `out`, and answers its length. Refused: 5 at the first value outside its
// range, 8 where `out` is shorter than the line.
//
//     $PIRPA,0,4800,4,007F*23
pub fn write(out: &mut [u8], r: PortTold) -> Written
    ensures { Writes (fault_at (pirpa_wrong r)) (pirpa_body r) out.old result out.new }
{
    frame::record::write_maker(out, b"PIRPA", r)
}
