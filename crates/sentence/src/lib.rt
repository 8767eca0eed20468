// The fifteen kinds of sentence as one: a line read to the numbers of its record, and numbers written as a line.
#![tactic(auto)]

pub mod writing;

ghost use Rattle.std.specs.Prelude.{◌≡◌, replicate};
ghost use Rattle.fields.specs.Parts.{parts_of};
ghost use Rattle.fields.specs.Places.{Placed};
ghost use Rattle.numbers.specs.Told.{Tells};
ghost use Rattle.sentence.specs.Back.{address_at, known_of};
ghost use Rattle.sentence.specs.FromHost.{left_as, written_as};
ghost use Rattle.sentence.specs.Lines.{maker_of, read_body, read_line, standard_of};
ghost use Rattle.sentence.specs.Numbers.{count_of};
ghost use Rattle.sentence.specs.ToHost.{handed, laid_for, told_for};

use address::{Address, Kind, Pir, Talker};
use fields::Fields;
use frame::Written;
use numbers::Told;

// A sentence of a talker, by its type.
fn standard(out: &mut [i64], t: Talker, k: Kind, f: Fields) -> Told
    ensures { Tells (handed (standard_of t k f.entry.count (parts_of f.entry)) out.old) result out.new }
{
    match k {
        Kind::Gga => kind_gga::read(out, t, f),
        Kind::Gll => kind_gll::read(out, t, f),
        Kind::Gsa => kind_gsa::read(out, t, f),
        Kind::Gsv => kind_gsv::read(out, t, f),
        Kind::Rmc => kind_rmc::read(out, t, f),
        Kind::Vtg => kind_vtg::read(out, t, f),
        Kind::Zda => kind_zda::read(out, t, f),
    }
}

// A sentence of the maker.
fn maker(out: &mut [i64], k: Pir, f: Fields) -> Told
    ensures { Tells (handed (maker_of k f.entry.count (parts_of f.entry)) out.old) result out.new }
{
    match k {
        Pir::Pr => kind_pir_port::command::read(out, f),
        Pir::Tr => kind_pir_datum::command::read(out, f),
        Pir::Sr => kind_pir_masks::command::read(out, f),
        Pir::Er => kind_pir_code::command::read(out, f),
        Pir::Pa => kind_pir_port::reply::read(out, f),
        Pir::Ta => kind_pir_datum::reply::read(out, f),
        Pir::Sa => kind_pir_masks::reply::read(out, f),
        Pir::Ea => kind_pir_code::reply::read(out, f),
    }
}

// The body `s` of a line, by the number of its fields and the ends of up to 20 of them: no kind has more than 19
// after the address.
fn read_body(out: &mut [i64], s: &[u8], count: usize, ends: &[usize]) -> Told
    requires { Placed s.now (replicate 20 0) count ends.now }
    ensures { Tells (handed (read_body s.now) out.old) result out.new }
{
    let address = address::address_of(s);
    if 20 < count {
        return match address {
            Address::Standard(_, _) => numbers::refuse(4, 0),
            Address::Maker(_) => numbers::refuse(4, 0),
            Address::Unknown => numbers::refuse(3, 0),
        };
    }
    let n = count - 1;
    let fields = Fields {
        count: n,
        body: s,
        ends,
    };
    match address {
        Address::Standard(t, k) => standard(out, t, k, fields),
        Address::Maker(k) => maker(out, k, fields),
        Address::Unknown => numbers::refuse(3, 0),
    }
}

// Reads `line`, answers its kind, and stores the numbers of its record at the start of `numbers`. Refused: 1 or 2 by
// the line rule, 3 for an unknown address, 4 for the count of fields, 5 at the first wrong field, 8 where `numbers`
// is shorter than the record; then `numbers` is left.
//
//     $GPGLL,5550.6111,N,03732.2534,E,075140.00,A,A*69
pub fn read(line: &[u8], numbers: &mut [i64]) -> Told
    ensures value { result ≡ told_for (read_line line.now) numbers.old }
    ensures numbers_after { numbers.new ≡ laid_for (read_line line.now) numbers.old }
{
    let mut ends = [0usize; 20];
    let passed = line::pass(line, &mut ends);
    if passed.no != 0 {
        return numbers::refuse(passed.no, 0);
    }
    let end = line.len() - 5;
    read_body(numbers, &line[1..end], passed.count, &ends)
}

// How many numbers a kind has; 0 for PIRER, and for what is no kind.
pub fn count_of(kind: u32) -> usize
    ensures { result ≡ count_of kind }
{
    match kind {
        1 => 19,
        2 => 8,
        3 => 33,
        4 => 33,
        5 => 18,
        6 => 10,
        7 => 9,
        8 => 8,
        9 => 4,
        10 => 4,
        11 => 0,
        12 => 4,
        13 => 2,
        14 => 2,
        15 => 1,
        _ => 0,
    }
}

// The type of sentence that a kind's number stands for, of the talker `t` where it has one.
fn known(kind: u32, t: Talker) -> Address
    ensures { result ≡ known_of kind t }
{
    match kind {
        1 => Address::Standard(t, Kind::Gga),
        2 => Address::Standard(t, Kind::Gll),
        3 => Address::Standard(t, Kind::Gsa),
        4 => Address::Standard(t, Kind::Gsv),
        5 => Address::Standard(t, Kind::Rmc),
        6 => Address::Standard(t, Kind::Vtg),
        7 => Address::Standard(t, Kind::Zda),
        8 => Address::Maker(Pir::Pr),
        9 => Address::Maker(Pir::Tr),
        10 => Address::Maker(Pir::Sr),
        11 => Address::Maker(Pir::Er),
        12 => Address::Maker(Pir::Pa),
        13 => Address::Maker(Pir::Ta),
        14 => Address::Maker(Pir::Sa),
        15 => Address::Maker(Pir::Ea),
        _ => Address::Unknown,
    }
}

// The same for a talker's number; unknown where a talker's sentence has none with that number.
pub fn address_at(kind: u32, talker: u32) -> Address
    ensures { result ≡ address_at kind talker }
{
    if (kind < 8) & (4 < talker) {
        return Address::Unknown;
    }
    known(kind, numbers::talker_of(talker))
}

// Writes the line of the record of a kind that `numbers` say into `out`. Refused, and then `out` is left: 5 for
// too few numbers and 3 for what is no kind or no talker, both on line 0; 5 on line 1 in field 1 for a GPS mask
// that 32 bits do not hold; or as the kind's writer does. Drawn into its one caller.
#[inline(always)]
pub fn write(kind: u32, numbers: &[i64], out: &mut [u8]) -> Written
    ensures value { result ≡ written_as kind numbers.now out.old }
    ensures out_after { out.new ≡ left_as kind numbers.now out.old }
{
    if numbers.len() < count_of(kind) {
        return frame::refuse(5, 0, 0);
    }
    let address = address_at(kind, numbers::whole_at(numbers, 0));
    match address {
        Address::Standard(t, k) => writing::standard(out, t, k, numbers),
        Address::Maker(k) => writing::maker(out, k, numbers),
        Address::Unknown => frame::refuse(3, 0, 0),
    }
}
