// The records of the kinds, each written as a line.
ghost use Rattle.std.specs.Prelude.{ℕ, ◌++◌, ◌≡◌, List};
ghost use Rattle.put.specs.Wrote.{held, PutsFields};
ghost use Rattle.fields.specs.Fields.{join_fields};
ghost use Rattle.frame.specs.Body.{talker_text};
ghost use Rattle.frame.specs.Written.{Writes};
ghost use Rattle.frame.specs.declared.Written.{Written};

use crate::{Written, finish, put_address};
use address::Talker;

pub trait Record: Copy {
    // Why it is refused, with number 0 where it is good; and its fields.
    ghost fault: { Self → Written };

    ghost texts: { Self → List (List ℕ) };

    fn fault(self) -> Written
        ensures { result ≡ fault self };

    // Puts the fields from place `at` on, each behind its comma.
    fn put_fields(self, out: &mut [u8], at: usize) -> usize
        ensures { PutsFields (held at out.old) (texts self) (held result out.new) };
}

// Writes the line of a talker's record into `out`, and answers its length. Refused: as the record's fault says, 1 where the
// line would pass 82 bytes, 8 where `out` is shorter than the line.
pub fn write_standard<R: Record>(out: &mut [u8], t: Talker, kind: &[u8], r: R) -> Written
    ensures { Writes (R.fault r) (join_fields (talker_text t ++ kind.now) (R.texts r)) out.old result out.new }
{
    let mut scratch = [0u8; 96];
    let a = put_address(&mut scratch, t, kind);
    let n = r.put_fields(&mut scratch, a);
    finish(out, &scratch, n, r.fault())
}

// The same of a record of the maker, by its whole address.
pub fn write_maker<R: Record>(out: &mut [u8], address: &[u8], r: R) -> Written
    ensures { Writes (R.fault r) (join_fields address.now (R.texts r)) out.old result out.new }
{
    let mut scratch = [0u8; 96];
    let a = put::put_bytes(&mut scratch, 0, address);
    let n = r.put_fields(&mut scratch, a);
    finish(out, &scratch, n, r.fault())
}
