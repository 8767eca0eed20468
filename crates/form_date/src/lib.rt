// Dates and time zones.
#![tactic(auto)]

pub mod dates;
pub mod from_numbers;
pub mod keep;
pub mod range;
pub mod split;
pub mod text;
pub mod zones;

#[derive(Clone, Copy)]
pub struct Date {
    pub there: bool,
    pub day: u32,
    pub month: u32,
    pub year: u32,
}

// A time zone in signed minutes.
#[derive(Clone, Copy)]
pub struct Zone {
    pub there: bool,
    pub minutes: i32,
}
