// What a host is answered: a number that is lent for an answer is set where nothing was refused, and left where something was.
ghost use Rattle.std.specs.Prelude.{◌≡◌, cond, eqb};
ghost use Rattle.host.specs.Answer.{single_line};

pub fn kept<T: Copy>(no: u8, value: T, stood: T) -> T
    ensures { result ≡ cond (eqb no 0) value stood }
{
    if no == 0 { value } else { stood }
}

// The line of a refusal of a single line that was read; 0 for 8, which is about the lent numbers.
pub fn single_line(no: u8) -> usize
    ensures { result ≡ single_line no }
{
    if (no == 0) | (no == 8) { 0 } else { 1 }
}
