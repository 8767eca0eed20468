// The letter of a unit, and an empty field, put behind their commas.
ghost use Rattle.std.specs.Prelude.{[], ◌∷◌};
ghost use Rattle.put.specs.Wrote.{held, PutsFields};
ghost use Rattle.form.specs.Values.{if_there};

// `M`: the letter of a unit.
pub fn unit(out: &mut [u8], at: usize, there: bool, b: u8) -> usize
    ensures { PutsFields (held at out.old) (if_there there (b ∷ []) ∷ []) (held result out.new) }
{
    let a = put::put(out, at, 44);
    if there {
        return put::put(out, a, b);
    }
    a
}

// A field that stays empty.
pub fn empty(out: &mut [u8], at: usize) -> usize
    ensures { PutsFields (held at out.old) ([] ∷ []) (held result out.new) }
{
    put::put(out, at, 44)
}
