// What the replay tells of each item: a row of three numbers, its rank if it is a command, its group, and its access.
#![tactic(auto)]

ghost use Rattle.std.specs.Prelude.{◌≡◌};
ghost use Rattle.trails.specs.Trails.{command_rank, told};

use model::{Item, Kind, Trail};

// "Pops are not in program order": the rank of a command, and 0 for a pop.
fn command_rank(item: Item) -> u16
    ensures { result ≡ command_rank item }
{
    match item.kind {
        Kind::Popa | Kind::Popb => 0,
        _ => item.rank,
    }
}

// What is told of the item with the number `at`.
#[tactic(auto, unfolding(crate::specs::Trails::told))]
pub fn tell(trail: &mut Trail, at: usize, item: Item, group: u16, access: u16)
    ensures { trail.new ≡ told trail.old at item group access }
{
    if at < trail.len() {
        trail[at] = [command_rank(item), group, access];
    }
}
