// The memory of the program: room for the list's jobs. Each result has as much as the records.

pub const INPUT: usize = 524288;

pub const RECORDS: usize = 8000;

pub const WORDS: usize = 4200;

pub const NUMBERS: usize = 84000;
