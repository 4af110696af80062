// A number in lent memory: what a place holds before a call, a number that no run stores, another at each place.
use std::fmt::Display;

pub trait Number: Copy + PartialEq + Display {
    fn lent(place: usize) -> Self;
}

// Another byte at each place, up to the 251st behind it.
impl Number for u8 {
    fn lent(place: usize) -> u8 {
        (place % 251) as u8
    }
}

impl Number for u32 {
    fn lent(place: usize) -> u32 {
        3000000000 + (place % 100000) as u32
    }
}

impl Number for u64 {
    fn lent(place: usize) -> u64 {
        5000000000000000000 + (place % 100000) as u64
    }
}
