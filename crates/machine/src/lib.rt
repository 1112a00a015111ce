// The machine's arrays as one memory, what an item leaves of it, and how it stands for a state of the definition. No functions: those that take an
// item stand above.
#![tactic(auto)]

use items::rows::Progress;
use links::Queues;
use model::{Control, Header, Item, Refusal, Registers};

// The machine but for its cells, which the caller of the replay lends: the control states, the registers and the queues of all ranks.
#[derive(Drop)]
pub struct Machine {
    pub control: Control,
    pub registers: Registers,
    pub queues: Queues,
}

// An item in its turn: how far the replay is before it, the item, and the program's numbers. Progress stands first, so that it is copied in whole
// words.
#[derive(Clone, Copy)]
pub struct Turn {
    pub progress: Progress,
    pub item: Item,
    pub header: Header,
}

// What an item that was taken comes to: how far the replay is then, the item's group and the number of its access.
#[derive(Clone, Copy)]
pub struct Advance {
    pub next: Progress,
    pub group: u16,
    pub access: u16,
}

// An item taken, or the refusal.
pub type Outcome = Result<Advance, Refusal>;
