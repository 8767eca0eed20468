// The record that numbers say, handed to the writer of its kind: a talker's sentence, and one of the maker.
ghost use Rattle.std.specs.Prelude.{false, ◌≡◌};
ghost use Rattle.sentence.specs.Back.{maker_at, standard_at};
ghost use Rattle.sentence.specs.FromHost.{mask_over, WritesRecord};

use address::{Kind, Pir, Talker};
use frame::Written;

pub fn standard(out: &mut [u8], t: Talker, k: Kind, n: &[i64]) -> Written
    ensures { WritesRecord false (standard_at t k n.now) out.old result out.new }
{
    match k {
        Kind::Gga => kind_gga::write(out, t, kind_gga::at(n)),
        Kind::Gll => kind_gll::write(out, t, kind_gll::at(n)),
        Kind::Gsa => kind_gsa::write(out, t, kind_gsa::at(n)),
        Kind::Gsv => kind_gsv::write(out, t, kind_gsv::at(n)),
        Kind::Rmc => kind_rmc::write(out, t, kind_rmc::at(n)),
        Kind::Vtg => kind_vtg::write(out, t, kind_vtg::at(n)),
        Kind::Zda => kind_zda::write(out, t, kind_zda::at(n)),
    }
}

// Whether a number for a GPS mask is one that 32 bits do not hold.
fn over(k: Pir, n: &[i64]) -> bool
    ensures { result ≡ mask_over k n.now }
{
    match k {
        Pir::Pr => false,
        Pir::Tr => false,
        Pir::Sr => numbers::there_at(n, 0) & !numbers::is_whole_at(n, 1),
        Pir::Er => false,
        Pir::Pa => false,
        Pir::Ta => false,
        Pir::Sa => !numbers::is_whole_at(n, 0),
        Pir::Ea => false,
    }
}

pub fn maker(out: &mut [u8], k: Pir, n: &[i64]) -> Written
    ensures { WritesRecord (mask_over k n.now) (maker_at k n.now) out.old result out.new }
{
    if over(k, n) {
        return frame::refuse(5, 1, 1);
    }
    match k {
        Pir::Pr => kind_pir_port::command::write(out, kind_pir_port::command::at(n)),
        Pir::Tr => kind_pir_datum::command::write(out, kind_pir_datum::command::at(n)),
        Pir::Sr => kind_pir_masks::command::write(out, kind_pir_masks::command::at(n)),
        Pir::Er => kind_pir_code::command::write(out),
        Pir::Pa => kind_pir_port::reply::write(out, kind_pir_port::reply::at(n)),
        Pir::Ta => kind_pir_datum::reply::write(out, kind_pir_datum::reply::at(n)),
        Pir::Sa => kind_pir_masks::reply::write(out, kind_pir_masks::reply::at(n)),
        Pir::Ea => kind_pir_code::reply::write(out, kind_pir_code::reply::at(n)),
    }
}
