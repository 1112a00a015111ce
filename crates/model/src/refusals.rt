// The rows of document 01's table, and document 02's numbers, by name, as in specs/Refusals.antt, which has their words.
pub const PROGRAM_LENGTH: u8 = 1;

pub const PROGRAM_RANGE: u8 = 2;

pub const PROGRAM_FORM: u8 = 3;

pub const RECORD_LENGTH: u8 = 4;

pub const RECORD_RANGE: u8 = 5;

pub const RECORD_FORM: u8 = 6;

pub const WRONG_TRANSITION: u8 = 7;

pub const OPERAND_RANGE: u8 = 8;

pub const ASSUME_FAILS: u8 = 9;

pub const EMPTY_QUEUE: u8 = 10;

pub const ACCESS_DIFFERS: u8 = 11;

pub const BARRIER_ROW: u8 = 12;

pub const QUEUES_LEFT: u8 = 13;

pub const ORDER_TOO_SHORT: u8 = 14;

pub const MEMORY_TOO_SHORT: u8 = 15;

pub const SLIP_FORM: u8 = 16;

pub const NO_VALUE: u8 = 18;

pub const START_FORM: u8 = 19;
