// "then `cell`, rank, cell, value for each cell not 0, ranks and then cells rising"
ghost use Rattle.std.specs.Prelude.{◌≡◌, ◌+◌, ◌≤◌};
ghost use Rattle.layout.specs.Laid.{laid, LaysOut};
ghost use Rattle.layout.specs.Lines.{cell_line_on, rank_lines_on, cell_lines_on, rank_long, cells_long, farthest};

use crate::Contents;
use crate::line::{Line, Page};
use memory::cell_at;
use model::{Address, Cells};

// A cell's line; none where it is 0.
#[tactic(auto, unfolding(crate::specs::Lines::cell_line_on))]
fn cell_line(cells: &Cells, rank: u16, cell: u16) -> Line
    ensures { result ≡ cell_line_on cells.now rank cell }
{
    let value = cell_at(cells, Address { rank, cell });
    if value == 0 {
        Line::Nothing
    } else {
        Line::Cell { rank, cell, value }
    }
}

// The lines of one rank.
fn write_rank(page: &mut Page<'_>, cells: &Cells, rank: u16, width: u16)
    requires { page.old.at + rank_long ≤ farthest }
    ensures same { page.new.text.ghost_name ≡ page.old.text.ghost_name }
    ensures laid { LaysOut (rank_lines_on cells.now rank width) rank_long (laid page.old.text.now page.old.at) (laid page.new.text.now page.new.at) }
{
    for cell in 0..width {
        let line = cell_line(cells, rank, cell);
        page.put(line);
    }
}

impl Contents<'_> {
    // The lines of all ranks.
    pub fn write_cells(&self, page: &mut Page<'_>)
        requires { page.old.at + cells_long ≤ farthest }
        ensures same { page.new.text.ghost_name ≡ page.old.text.ghost_name }
        ensures laid { LaysOut (cell_lines_on self.now.cells.now self.now.header.ranks self.now.header.cells) cells_long
            (laid page.old.text.now page.old.at) (laid page.new.text.now page.new.at) }
    {
        for done in 0..self.header.ranks {
            write_rank(page, self.cells, done + 1, self.header.cells);
        }
    }
}
