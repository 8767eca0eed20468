// A letter put behind its comma.
ghost use Rattle.std.specs.Prelude.{◌%◌, [], ◌∷◌};
ghost use Rattle.put.specs.Wrote.{held, PutsFields};
ghost use Rattle.form_letter.specs.Letters.{letter_field};

// `A`: the letter that a record holds, as its byte.
pub fn letter(out: &mut [u8], at: usize, v: u32) -> usize
    ensures { PutsFields (held at out.old) (letter_field v ∷ []) (held result out.new) }
{
    let a = put::put(out, at, 44);
    put::put(out, a, (v % 256) as u8)
}
