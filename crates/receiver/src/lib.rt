// The class receiver: its settings, and what a command makes of them.
#![tactic(auto)]

pub mod state;

ghost use Rattle.std.specs.Prelude.{◌≡◌};
ghost use Rattle.frame.specs.Written.{refused};
ghost use Rattle.sentence.specs.Lines.{read_line};
ghost use Rattle.receiver.specs.Command.{after_datum, after_masks, after_port, code_reply, datum_reply, datum_told, Does, handed_over};
ghost use Rattle.receiver.specs.Command.{masks_reply, named_port, outcome_of, port_reply, port_told, sentence_outcome};

use frame::Written;
use kind_pir_code::reply::CodeTold;
use kind_pir_datum::command::DatumAsked;
use kind_pir_datum::reply::DatumTold;
use kind_pir_masks::command::MasksAsked;
use kind_pir_masks::reply::MasksTold;
use kind_pir_port::command::PortAsked;
use kind_pir_port::reply::PortTold;

// What one port is set to.
#[derive(Clone, Copy)]
pub struct Port {
    pub rate: u32,
    pub protocol: u32,
    pub mask: u32,
}

#[derive(Clone, Copy)]
pub struct Settings {
    pub first: Port,
    pub second: Port,
    pub datum: u32,
    pub zone: i32,
    pub gps: u32,
    pub glonass: u32,
    pub code: u32,
}

// How many satellites each mask allows; or the number of the refusal with line and field, and then none.
#[derive(Clone, Copy)]
pub struct Counts {
    pub no: u8,
    pub line: usize,
    pub field: usize,
    pub gps: u32,
    pub glonass: u32,
}

// What a command comes to: the length of its reply or the refusal, and the settings as a whole: new, or, where
// it was refused, the old.
#[derive(Clone, Copy)]
pub struct Done {
    pub written: Written,
    pub settings: Settings,
}

// Hands over the new settings where the reply was written, else the old.
fn hand_over(written: Written, old: Settings, new: Settings) -> Done
    ensures { result ≡ handed_over written old new }
{
    let settings = if written.no == 0 { new } else { old };
    Done { written, settings }
}

fn refuse(s: Settings, no: u8, line: usize, field: usize) -> Done
    ensures { result ≡ record { written = refused no line field; settings = s } }
{
    Done {
        written: frame::refuse(no, line, field),
        settings: s,
    }
}

// The port that a command names, or the one that it arrived on.
fn named_port(arrival: u32, r: PortAsked) -> u32
    ensures { result ≡ named_port arrival r }
{
    if r.port.there { r.port.value } else { arrival }
}

impl Settings {
    fn after_port(self, arrival: u32, r: PortAsked) -> Settings
        ensures { result ≡ after_port self arrival r }
    {
        if !r.rate.there {
            return self;
        }
        let port = Port {
            rate: r.rate.value,
            protocol: r.protocol.value,
            mask: r.mask.value,
        };
        state::with_port(self, named_port(arrival, r), port)
    }

    fn port_told(self, n: u32) -> PortTold
        ensures { result ≡ port_told self n }
    {
        let port = state::port_of(self, n);
        PortTold {
            port: n,
            rate: port.rate,
            protocol: port.protocol,
            mask: port.mask,
        }
    }

    fn after_datum(self, r: DatumAsked) -> Settings
        ensures { result ≡ after_datum self r }
    {
        if !r.datum.there {
            return self;
        }
        Settings {
            datum: r.datum.value,
            zone: r.zone.minutes,
            ..self
        }
    }

    fn datum_told(self) -> DatumTold
        ensures { result ≡ datum_told self }
    {
        DatumTold {
            datum: self.datum,
            zone: self.zone,
        }
    }

    fn after_masks(self, r: MasksAsked) -> Settings
        ensures { result ≡ after_masks self r }
    {
        Settings {
            gps: if r.gps.there { r.gps.value } else { self.gps },
            glonass: if r.glonass.there {
                r.glonass.value
            } else {
                self.glonass
            },
            ..self
        }
    }

    // PIRPR: sets the named port, or the one that the command arrived on, or, with no rate, asks about it. The
    // reply is PIRPA of that port. Refused: 5 at the first value that is out of its range after it, 8 where
    // `out` is shorter than the reply.
    fn port(self, arrival: u32, r: PortAsked, out: &mut [u8]) -> Done
        ensures { Does self (port_reply (after_port self arrival r) (named_port arrival r)) out.old result out.new }
    {
        let new = self.after_port(arrival, r);
        let told = new.port_told(named_port(arrival, r));
        let written = kind_pir_port::reply::write(out, told);
        hand_over(written, self, new)
    }

    // PIRTR: sets datum and zone, or, with no datum, asks about them. The reply is PIRTA.
    fn place(self, r: DatumAsked, out: &mut [u8]) -> Done
        ensures { Does self (datum_reply (after_datum self r)) out.old result out.new }
    {
        let new = self.after_datum(r);
        let told = new.datum_told();
        let written = kind_pir_datum::reply::write(out, told);
        hand_over(written, self, new)
    }

    // PIRSR: sets the satellite masks that are there. The reply is PIRSA.
    fn satellites(self, r: MasksAsked, out: &mut [u8]) -> Done
        ensures { Does self (masks_reply (after_masks self r)) out.old result out.new }
    {
        let new = self.after_masks(r);
        let told = MasksTold {
            gps: new.gps,
            glonass: new.glonass,
        };
        let written = kind_pir_masks::reply::write(out, told);
        hand_over(written, self, new)
    }

    // PIRER: asks for the self-test code, which does not change. The reply is PIREA.
    fn test(self, out: &mut [u8]) -> Done
        ensures { Does self (code_reply self) out.old result out.new }
    {
        let told = CodeTold { code: self.code };
        let written = kind_pir_code::reply::write(out, told);
        hand_over(written, self, self)
    }
}

// What a line is to the receiver: a command is carried out; 9 for any other sentence; its own refusal where it
// does not read.
fn take_line(s: Settings, arrival: u32, line: &[u8], out: &mut [u8]) -> Done
    ensures { Does s (sentence_outcome s arrival (read_line line.now)) out.old result out.new }
{
    let mut n = [0i64; 33];
    let told = sentence::read(line, &mut n);
    if told.no != 0 {
        return refuse(s, told.no, 1, told.field);
    }
    match told.kind {
        8 => s.port(arrival, kind_pir_port::command::at(&n), out),
        9 => s.place(kind_pir_datum::command::at(&n), out),
        10 => s.satellites(kind_pir_masks::command::at(&n), out),
        11 => s.test(out),
        _ => refuse(s, 9, 1, 0),
    }
}

// The step of a command: the settings before it, the port that it arrived on, its line, and an output for the
// reply. Refused, in order: 5 with line 0 for an arrival port other than 0 and 1 or a setting out of range; 10
// where the port's protocol is not 4; 1 to 5 of the line; 9 where it is not a command; 8 where `out` is
// shorter than the reply. A refusal leaves `out` and the settings.
//
//     $PIRPR,0,9600,4,007F*33
pub fn step(s: Settings, arrival: u32, line: &[u8], out: &mut [u8]) -> Done
    ensures { Does s (outcome_of s arrival line.now) out.old result out.new }
{
    if 2 <= arrival || !state::are_good(s) {
        return refuse(s, 5, 0, 0);
    }
    if state::port_of(s, arrival).protocol != 4 {
        return refuse(s, 10, 1, 0);
    }
    take_line(s, arrival, line, out)
}
