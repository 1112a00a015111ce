// Barrier rows and groups: what an item may be where a row is open, which group it belongs to, and how far the replay is after it.
ghost use Rattle.std.specs.Prelude.{◌≡◌};
ghost use Rattle.model.specs.Replay.{row_allows, row_after, joins_row, group_of};
ghost use Rattle.items.specs.Progress.{opened_next, command_progress, pop_progress};

use model::{ITEMS, Item, Kind};

// How far the replay is: the items taken, the groups opened by them, and the ranks in an open barrier row (0: no row is open).
#[derive(Clone, Copy)]
pub struct Progress {
    pub at: usize,
    pub opened: u16,
    pub row: u16,
}

// "A barrier is N bar items in a row, ranks 1 to N": with `row` ranks in the row only a bar of the next rank may come, and only then.
#[tactic(auto, unfolding(model::specs::Replay::row_allows))]
pub fn row_allows(row: u16, item: Item) -> bool
    ensures { result ≡ row_allows row item }
{
    if item.kind == Kind::Bar {
        usize::from(item.rank) == usize::from(row) + 1
    } else {
        row == 0
    }
}

// The row after an item that it allows. The bar of rank N ends it.
#[tactic(auto, unfolding(model::specs::Replay::row_after))]
fn row_after(ranks: u16, row: u16, item: Item) -> u16
    ensures { result ≡ row_after ranks row item }
{
    if item.kind != Kind::Bar {
        row
    } else if item.rank == ranks {
        0
    } else {
        item.rank
    }
}

// A command item opens a group, unless it is a bar in a row that rank 1 has opened.
#[tactic(auto, unfolding(model::specs::Replay::joins_row))]
fn joins_row(item: Item) -> bool
    ensures { result ≡ joins_row item }
{
    item.kind == Kind::Bar && 1 < item.rank
}

// The group of a command item, where so many groups are open.
#[tactic(auto, unfolding(model::specs::Replay::group_of))]
pub fn group_of(opened: u16, item: Item) -> u16
    ensures { result ≡ group_of opened item }
{
    if joins_row(item) {
        opened.saturating_sub(1)
    } else {
        opened
    }
}

// How many groups there are after a command item. No more are counted than a record has items.
#[tactic(auto, unfolding(crate::specs::Progress::opened_next))]
fn opened_after(opened: u16, item: Item) -> u16
    ensures { result ≡ opened_next opened item }
{
    if !joins_row(item) && usize::from(opened) < ITEMS {
        opened + 1
    } else {
        opened
    }
}

// How far the replay is after a pop, and after a command item.
pub fn pop_progress(progress: Progress) -> Progress
    ensures { result ≡ pop_progress progress }
{
    let at = if progress.at < ITEMS {
        progress.at + 1
    } else {
        progress.at
    };
    Progress { at, ..progress }
}

pub fn command_progress(progress: Progress, ranks: u16, item: Item) -> Progress
    ensures { result ≡ command_progress ranks item progress }
{
    Progress {
        at: pop_progress(progress).at,
        opened: opened_after(progress.opened, item),
        row: row_after(ranks, progress.row, item),
    }
}
