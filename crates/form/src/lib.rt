// What every form of a field has: a reading, a value, a range and a text; and rows of forms, of which a kind of sentence is made.
#![tactic(auto)]

pub mod from_numbers;
pub mod got;
pub mod keep;
pub mod range;
pub mod sent;
pub mod text;
pub mod unit;

// A value that may be missing: a time in hundredths of a second, a count, a station, a setting.
#[derive(Clone, Copy)]
pub struct Maybe {
    pub there: bool,
    pub value: u32,
}
