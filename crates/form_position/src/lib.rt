// Positions: latitude and longitude with their letters; and the magnetic variation.
#![tactic(auto)]

pub mod from_numbers;
pub mod keep;
pub mod range;
pub mod read;
pub mod split;
pub mod text;

// Which of the four fields is wrong, counted from 1, or 0 for none; whether the position is there;
// and both values in ten-thousandths of a minute, south and west negative, 0 where it is missing
// or wrong.
#[derive(Clone, Copy, Default)]
pub struct Position {
    pub wrong: u8,
    pub there: bool,
    pub lat: i32,
    pub lon: i32,
}

// A position in signed ten-thousandths of a minute, south and west negative.
#[derive(Clone, Copy)]
pub struct Place {
    pub there: bool,
    pub lat: i32,
    pub lon: i32,
}
