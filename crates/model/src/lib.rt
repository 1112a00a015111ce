// The types and limits that every layer of the checker shares. Their meaning is in specs/; the limits stand there in Limits.antt too, and a proof
// fails where the two differ. Every number of the formats has sixteen bits here, whether its field has one byte or two.
#![tactic(auto)]

pub mod refusals;

// "Ranks 1 to N"; document 02, #105: "N goes to 16". What is held per rank has a row for each, rank 1 first.
pub const RANKS: usize = 16;

// As many ranks as the rank map of one byte has bits.
pub const BYTE_RANKS: u16 = 8;

pub type Control = [u16; RANKS];

// "Each rank has A cells (1..64), R registers (1..16), Q queues (1..4), all numbered from 0."
pub const CELLS: usize = 64;

pub type RankCells = [u16; CELLS];

pub type Cells = [RankCells; RANKS];

// "an eight-byte big-endian map" of a rank's cells, document 02, #103.
pub const MAP_BYTES: usize = 8;

pub const REGISTERS: usize = 16;

pub type RankRegisters = [u16; REGISTERS];

pub type Registers = [RankRegisters; RANKS];

pub const QUEUES: usize = 4;

// "S control states (1..64), T transitions (0..128), both numbered from 0"; document 02, #107: "T may reach 400".
pub const STATES: usize = 64;

pub const TRANSITIONS: usize = 400;

// What a count of one byte says at most, and the count byte behind which a two-byte count follows.
pub const SHORT_TRANSITIONS: u16 = 128;

pub const LONG_COUNT: u16 = 255;

// Where each transition of a program starts: with so few and short transitions every place fits sixteen bits.
pub type Starts = [u16; TRANSITIONS];

// "Expressions are tokens in prefix form, at most 15 each."
pub const TOKENS: usize = 15;

// "a two-byte item count, 0..1,024"
pub const ITEMS: usize = 1024;

// What the drawing of arrows needs of each item, in three numbers: its rank if it is a command and else 0, its group, and its access.
pub const TOLD: usize = 3;

pub type Trail = [[u16; TOLD]; ITEMS];

// Why an input is refused: a number of document 01's table, and the place that its row asks for.
#[derive(Clone, Copy)]
pub struct Refusal {
    pub number: u8,
    pub place: usize,
}

// What was read of bytes, and the place after it. The place stands first, so that the words of what was read, and not halves of them, lie where a
// refusal's do.
#[derive(Clone, Copy)]
pub struct Found<T> {
    pub next: usize,
    pub value: T,
}

pub type Read<T> = Result<Found<T>, Refusal>;

// What an accepted record comes to, by the count of groups listed.
#[derive(Clone, Copy)]
pub enum Verdict {
    Order(usize),
    Ring(usize),
}

// "An answer is an order, a ring or a refusal."
pub type Answer = Result<Verdict, Refusal>;

// What writers and readers of slips and starts answer: how many entries of the lent memory they filled, or the refusal.
pub type Filled = Result<usize, Refusal>;

// What the listing answers: the check's verdict or refusal, and how many bytes it wrote.
#[derive(Clone, Copy)]
pub struct Listed {
    pub answer: Answer,
    pub length: usize,
}

// The six numbers that a program begins with: N, A, R, Q, S and T.
#[derive(Clone, Copy)]
pub struct Header {
    pub ranks: u16,
    pub cells: u16,
    pub registers: u16,
    pub queues: u16,
    pub states: u16,
    pub transitions: u16,
}

// The nine kinds of items; all but the pops are kinds of transitions too.
#[derive(Clone, Copy, PartialEq, Eq)]
pub enum Kind {
    Load,
    Store,
    Assign,
    Assume,
    Read,
    Write,
    Popa,
    Popb,
    Bar,
}

// Which of an item's kind byte and map byte is to blame.
#[derive(Clone, Copy)]
pub enum FormFault {
    UnknownKind,
    WrongMap,
}

// What an item's map byte and kind byte say together.
pub type ItemForm = Result<Kind, FormFault>;

// A cell of the global address space: the rank that holds it, and its number there.
#[derive(Clone, Copy, PartialEq, Eq)]
pub struct Address {
    pub rank: u16,
    pub cell: u16,
}

// An access of a cell: what it reads or writes there. "Loads and popa read their cell; stores and popb write theirs."
#[derive(Clone, Copy)]
pub struct Access {
    pub writes: bool,
    pub address: Address,
    pub value: u16,
}

// What a command does once its expressions are evaluated and its operands are in their ranges.
#[derive(Clone, Copy)]
pub enum Action {
    Loads {
        register: u16,
        cell: u16,
    },
    Stores {
        cell: u16,
        value: u16,
    },
    Assigns {
        register: u16,
        value: u16,
    },
    Passes,
    Issues {
        queue: u16,
        remote: u16,
        source: Address,
        destination: Address,
    },
    Meets,
}

// The operands of a transfer, in their ranges: the two cells, and the queue of requests.
#[derive(Clone, Copy)]
pub struct Transfer {
    pub own: Address,
    pub remote: Address,
    pub queue: u16,
}

// An item of a record. A field that the item's map leaves out is 0; so a pop whose `remote` is 0 names no remote rank. Four numbers, then place and
// value, are eight bytes each, and the kind, one byte, stands last: so an item is put together and copied in whole words.
#[derive(Clone, Copy)]
pub struct Item {
    pub rank: u16,
    pub transition: u16,
    pub queue: u16,
    pub remote: u16,
    pub place: Address,
    // The value that an item may give for what it reads or writes.
    pub given: Option<u16>,
    pub kind: Kind,
}
