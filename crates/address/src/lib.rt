// The address of a sentence: who talks, and which kind it is.
#![tactic(auto)]

ghost use Rattle.std.specs.Prelude.{◌≡◌, length};
ghost use Rattle.address.specs.Address.{talker_of, kind_of, pir_of, known_of, address_of};

// The talkers of the five satellite systems' receivers.
#[derive(Clone, Copy, PartialEq, Eq, Debug)]
pub enum Talker {
    Gp,
    Gl,
    Ga,
    Gq,
    Gn,
}

// The seven types of sentence that any of them sends.
#[derive(Clone, Copy, PartialEq, Eq, Debug)]
pub enum Kind {
    Gga,
    Gll,
    Gsa,
    Gsv,
    Rmc,
    Vtg,
    Zda,
}

// The maker's own sentences: four commands and their replies.
#[derive(Clone, Copy, PartialEq, Eq, Debug)]
pub enum Pir {
    Pr,
    Tr,
    Sr,
    Er,
    Pa,
    Ta,
    Sa,
    Ea,
}

#[derive(Clone, Copy, PartialEq, Eq, Debug)]
pub enum Address {
    Standard(Talker, Kind),
    Maker(Pir),
    Unknown,
}

// The talker, the type and the maker's sentence whose bytes are `a`.
#[tactic(auto, using(crate::proofs::Tables::no_talker))]
fn talker_of(a: &[u8]) -> Option<Talker>
    ensures { result ≡ talker_of a.now }
{
    match a {
        b"GP" => Some(Talker::Gp),
        b"GL" => Some(Talker::Gl),
        b"GA" => Some(Talker::Ga),
        b"GQ" => Some(Talker::Gq),
        b"GN" => Some(Talker::Gn),
        _ => None,
    }
}

#[tactic(auto, using(crate::proofs::Tables::no_kind))]
fn kind_of(a: &[u8]) -> Option<Kind>
    ensures { result ≡ kind_of a.now }
{
    match a {
        b"GGA" => Some(Kind::Gga),
        b"GLL" => Some(Kind::Gll),
        b"GSA" => Some(Kind::Gsa),
        b"GSV" => Some(Kind::Gsv),
        b"RMC" => Some(Kind::Rmc),
        b"VTG" => Some(Kind::Vtg),
        b"ZDA" => Some(Kind::Zda),
        _ => None,
    }
}

#[tactic(auto, using(crate::proofs::Tables::no_pir))]
fn pir_of(a: &[u8]) -> Option<Pir>
    ensures { result ≡ pir_of a.now }
{
    match a {
        b"PIRPR" => Some(Pir::Pr),
        b"PIRTR" => Some(Pir::Tr),
        b"PIRSR" => Some(Pir::Sr),
        b"PIRER" => Some(Pir::Er),
        b"PIRPA" => Some(Pir::Pa),
        b"PIRTA" => Some(Pir::Ta),
        b"PIRSA" => Some(Pir::Sa),
        b"PIREA" => Some(Pir::Ea),
        _ => None,
    }
}

// The address whose five bytes are `a`.
fn known_of(a: &[u8]) -> Address
    requires { length a.now ≡ 5 }
    ensures { result ≡ known_of a.now }
{
    match talker_of(&a[0..2]) {
        Some(t) => match kind_of(&a[2..5]) {
            Some(k) => Address::Standard(t, k),
            None => Address::Unknown,
        },
        None => match pir_of(a) {
            Some(p) => Address::Maker(p),
            None => Address::Unknown,
        },
    }
}

// The address of a line's body: the five bytes before its first comma, where they are known.
//
//     GPGSV,5,5,17,77,71,048,53
pub fn address_of(body: &[u8]) -> Address
    ensures { result ≡ address_of body.now }
{
    if body.len() < 6 || body[5] != b',' {
        return Address::Unknown;
    }
    known_of(&body[0..5])
}
