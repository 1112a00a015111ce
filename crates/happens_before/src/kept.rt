// What is kept of the items so far, each by its number: by rank the last command, and by cell the last write and a list of the accesses since.
ghost use Rattle.std.specs.Prelude.{◌≡◌, ◌<◌};
ghost use Rattle.model.specs.Limits.{max_items};
ghost use Rattle.happens_before.specs.Drawing.{kept, kept_none, commands_with, accessed_with};

use crate::rows::Told;
use chains::push;
use model::{ITEMS, RANKS};

// By cell: its last write; the newest access, and what links it to the others since that write, itself included.
#[derive(Drop)]
pub struct Accesses<const CELLS: usize> {
    pub writes: [Option<u16>; CELLS],
    pub newest: [u16; CELLS],
    pub links: [u16; ITEMS],
}

// All that is kept, in tables that have entries for so many cells.
#[derive(Drop)]
pub struct Kept<const CELLS: usize> {
    pub commands: [Option<u16>; RANKS],
    pub accesses: Accesses<CELLS>,
}

impl<const CELLS: usize> Accesses<CELLS> {
    // An access joins its cell's list. A write begins the list anew, and is the cell's last.
    #[tactic(auto, unfolding(crate::specs::Drawing::accessed_with))]
    pub fn keep(&mut self, told: Told, item: u16)
        requires { item < max_items }
        ensures { self.new ≡ accessed_with self.old told item }
    {
        if let Some(touch) = told.access {
            if touch.writes && touch.cell < CELLS {
                self.writes[touch.cell] = Some(item);
                self.newest[touch.cell] = 0;
            }
            push(&mut self.newest, &mut self.links, touch.cell, item + 1);
        }
    }
}

impl<const CELLS: usize> Kept<CELLS> {
    // Nothing is kept.
    pub fn none() -> Self
        ensures { result ≡ kept_none CELLS }
    {
        Kept {
            commands: [None; RANKS],
            accesses: Accesses {
                writes: [None; CELLS],
                newest: [0; CELLS],
                links: [0; ITEMS],
            },
        }
    }

    // A command is its rank's last.
    #[tactic(auto, unfolding(crate::specs::Drawing::commands_with))]
    pub fn keep_command(&mut self, told: Told, item: u16)
        ensures { self.new ≡ kept (commands_with self.old.commands told item) self.old.accesses }
    {
        if let Some(rank) = told.rank {
            if rank < RANKS {
                self.commands[rank] = Some(item);
            }
        }
    }
}
