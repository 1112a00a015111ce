// What a transition asks for by the values of its expressions: 18 for one that is missing, 8 for an operand outside its range, then 9 for an
// assumption that fails.
#![tactic(auto)]

ghost use Rattle.std.specs.Prelude.{◌≡◌, ltb};
ghost use Rattle.model.specs.declared.Action.TheVariants.{Issues};
ghost use Rattle.model.specs.Refusals.{require};
ghost use Rattle.operands.specs.Operands.{kind_in, given, in_ranges, transfer_by, reads, writes, load_by, store_by, assign_by, assume_by, action_by};

use model::refusals::{ASSUME_FAILS, NO_VALUE, OPERAND_RANGE};
use model::{Action, Address, Header, Kind, Refusal, Transfer};
use transitions::transition::{Command, Operands};

// The value of an operand's expression.
fn given(value: Option<u16>, at: usize) -> Result<u16, Refusal>
    ensures { result ≡ given at value }
{
    value.ok_or(Refusal {
        number: NO_VALUE,
        place: at,
    })
}

// Nothing to say where a test passes, and the refusal with this number where it fails.
fn require(test: bool, number: u8, at: usize) -> Result<(), Refusal>
    ensures { result ≡ require test number at }
{
    if test {
        Ok(())
    } else {
        Err(Refusal { number, place: at })
    }
}

// The operands of a transfer, each in its range or the first that is not.
#[tactic(auto, unfolding(crate::specs::Operands::in_ranges))]
fn in_ranges(
    own: u16,
    remote: u16,
    cell: u16,
    queue: u16,
    header: Header,
    rank: u16,
    at: usize,
) -> Result<Transfer, Refusal>
    ensures { result ≡ in_ranges header rank at own remote cell queue }
{
    require(own < header.cells, OPERAND_RANGE, at)?;
    require(1 <= remote && remote <= header.ranks, OPERAND_RANGE, at)?;
    require(cell < header.cells, OPERAND_RANGE, at)?;
    require(queue < header.queues, OPERAND_RANGE, at)?;
    Ok(Transfer {
        own: Address { rank, cell: own },
        remote: Address { rank: remote, cell },
        queue,
    })
}

// "e1 own cell, e2 remote rank, e3 remote cell, e4 queue": one without a value is refused before any is judged by its range.
#[tactic(auto, unfolding(crate::specs::Operands::transfer_by))]
fn transfer(operands: Operands, header: Header, rank: u16, at: usize) -> Result<Transfer, Refusal>
    ensures { result ≡ transfer_by header rank at operands }
{
    let own = given(operands.own, at)?;
    let remote = given(operands.rank, at)?;
    let cell = given(operands.cell, at)?;
    let queue = given(operands.queue, at)?;
    in_ranges(own, remote, cell, queue, header, rank, at)
}

// "register takes cell e1 of its own rank"
fn load(register: u16, cell: Option<u16>, cells: u16, at: usize) -> Result<Action, Refusal>
    ensures { result ≡ load_by cells at register cell }
{
    let cell = given(cell, at)?;
    require(cell < cells, OPERAND_RANGE, at)?;
    Ok(Action::Loads { register, cell })
}

// "own cell e1 takes value e2"
fn store(cell: Option<u16>, value: Option<u16>, cells: u16, at: usize) -> Result<Action, Refusal>
    ensures { result ≡ store_by cells at cell value }
{
    let cell = given(cell, at)?;
    let value = given(value, at)?;
    require(cell < cells, OPERAND_RANGE, at)?;
    Ok(Action::Stores { cell, value })
}

// "register takes e1"
fn assign(register: u16, value: Option<u16>, at: usize) -> Result<Action, Refusal>
    ensures { result ≡ assign_by at register value }
{
    let value = given(value, at)?;
    Ok(Action::Assigns { register, value })
}

// "passes if e1 is not 0"
fn assume(value: Option<u16>, at: usize) -> Result<Action, Refusal>
    ensures { result ≡ assume_by at value }
{
    let value = given(value, at)?;
    require(0 < value, ASSUME_FAILS, at)?;
    Ok(Action::Passes)
}

// A transfer that is issued: "A pending request now remembers its remote rank".
fn issue(queue: u16, remote: u16, source: Address, destination: Address) -> Action
    ensures { result ≡ Issues queue remote source destination }
{
    Action::Issues {
        queue,
        remote,
        source,
        destination,
    }
}

// "read appends (e2, e3, own rank, e1)", and remembers "the rank read from".
fn read(transfer: Transfer) -> Action
    ensures { result ≡ reads transfer }
{
    let Transfer { own, remote, queue } = transfer;
    issue(queue, remote.rank, remote, own)
}

// "write appends (own rank, e1, e2, e3) to the rank's queue e4 of requests"
fn write(transfer: Transfer) -> Action
    ensures { result ≡ writes transfer }
{
    let Transfer { own, remote, queue } = transfer;
    issue(queue, remote.rank, own, remote)
}

// What a transition asks for.
#[tactic(auto, unfolding(crate::specs::Operands::action_by))]
pub fn action_of(command: Command, header: Header, rank: u16, at: usize) -> Result<Action, Refusal>
    ensures { result ≡ action_by header rank at command }
{
    match command {
        Command::Load { cell, register } => load(register, cell, header.cells, at),
        Command::Store { cell, value } => store(cell, value, header.cells, at),
        Command::Assign { value, register } => assign(register, value, at),
        Command::Assume { value } => assume(value, at),
        Command::Read { operands } => Ok(read(transfer(operands, header, rank, at)?)),
        Command::Write { operands } => Ok(write(transfer(operands, header, rank, at)?)),
        Command::Bar => Ok(Action::Meets),
    }
}

// The kind of a transition, by its command.
pub fn kind_of(command: Command) -> Kind
    ensures { result ≡ kind_in command }
{
    match command {
        Command::Load { .. } => Kind::Load,
        Command::Store { .. } => Kind::Store,
        Command::Assign { .. } => Kind::Assign,
        Command::Assume { .. } => Kind::Assume,
        Command::Read { .. } => Kind::Read,
        Command::Write { .. } => Kind::Write,
        Command::Bar => Kind::Bar,
    }
}
