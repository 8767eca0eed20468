// Numbers in thousandths, and digits of a fixed width; speeds in knots and in km/h are kept apart.
#![tactic(auto)]

pub mod fixed;
pub mod from_numbers;
pub mod keep;
pub mod read;
pub mod text;

// A number in thousandths.
#[derive(Clone, Copy)]
pub struct Number {
    pub there: bool,
    pub value: u32,
}

// A number with a sign, in thousandths: a height, or a variation, east positive.
#[derive(Clone, Copy)]
pub struct Signed {
    pub there: bool,
    pub value: i32,
}

// A speed in knots, in thousandths.
#[derive(Clone, Copy)]
pub struct Knots {
    pub there: bool,
    pub value: u32,
}

// A speed in km/h, in thousandths; it is kept apart from knots and not compared.
#[derive(Clone, Copy)]
pub struct Kmh {
    pub there: bool,
    pub value: u32,
}
