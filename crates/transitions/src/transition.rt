// Transitions: "a map byte, a kind byte, a from state, a to state, then only the fields whose map bit stands, in bit order". One is read with the
// values of its expressions in an environment; the program's reader drops them.
ghost use Rattle.std.specs.Prelude.{◌≡◌, option_map};
ghost use Rattle.model.specs.Choice.{lookup};
ghost use Rattle.model.specs.Programs.{Fields, forms, read_transition};
ghost use Rattle.expressions.specs.declared.Environment.{Environment};
ghost use Rattle.expressions.specs.Values.{map_found};
ghost use Rattle.transitions.specs.Transitions.{command_form, command_of, first_bytes, transfer_operands, transition_of, values_of};

use crate::values::{Values, read_fields};
use expressions::{Environment, read_below};
use fields::read_byte;
use model::refusals::{PROGRAM_FORM, PROGRAM_LENGTH};
use model::{Found, Read, Refusal};

// The values of e1 to e4 of a transfer: "e1 own cell, e2 remote rank, e3 remote cell, e4 queue". None is judged yet.
#[derive(Clone, Copy)]
pub struct Operands {
    pub own: Option<u16>,
    pub rank: Option<u16>,
    pub cell: Option<u16>,
    pub queue: Option<u16>,
}

impl From<Values> for Operands {
    ghost from_gives = { λ values operands. operands ≡ transfer_operands values };

    fn from(values: Values) -> Operands {
        Operands {
            own: values.e1,
            rank: values.e2,
            cell: values.e3,
            queue: values.e4,
        }
    }
}

// The command column of document 01's table of kinds, with a value in the place of each expression.
#[derive(Clone, Copy)]
pub enum Command {
    Load {
        cell: Option<u16>,
        register: u16,
    },
    Store {
        cell: Option<u16>,
        value: Option<u16>,
    },
    Assign {
        value: Option<u16>,
        register: u16,
    },
    Assume {
        value: Option<u16>,
    },
    Read {
        operands: Operands,
    },
    Write {
        operands: Operands,
    },
    Bar,
}

#[derive(Clone, Copy)]
pub struct Transition {
    pub source: u16,
    pub target: u16,
    pub command: Command,
}

// A row of the table of kinds. The pops are no kinds of transitions.
#[derive(Clone, Copy)]
enum Form {
    Load,
    Store,
    Assign,
    Assume,
    Read,
    Write,
    Bar,
}

// The row of a kind's number.
#[tactic(auto, unfolding(model::specs::Choice::lookup, model::specs::Programs::forms))]
fn form_of(kind: u16) -> Option<Form>
    ensures { option_map command_form result ≡ lookup kind forms }
{
    match kind {
        1 => Some(Form::Load),
        2 => Some(Form::Store),
        3 => Some(Form::Assign),
        4 => Some(Form::Assume),
        5 => Some(Form::Read),
        6 => Some(Form::Write),
        9 => Some(Form::Bar),
        _ => None,
    }
}

impl Form {
    // The map that the transitions of the kind have.
    fn map(self) -> u16
        ensures { result ≡ (command_form self).map }
    {
        match self {
            Form::Load | Form::Assign => 3,
            Form::Store => 6,
            Form::Assume => 2,
            Form::Read | Form::Write => 30,
            Form::Bar => 0,
        }
    }

    // The command that it makes of its fields.
    fn command(self, values: Values) -> Command
        ensures { (e : Environment) (fields : Fields) → values ≡ values_of e fields → result ≡ command_of e ((command_form self).command fields) }
    {
        match self {
            Form::Load => Command::Load {
                cell: values.e1,
                register: values.register,
            },
            Form::Store => Command::Store {
                cell: values.e1,
                value: values.e2,
            },
            Form::Assign => Command::Assign {
                value: values.e1,
                register: values.register,
            },
            Form::Assume => Command::Assume { value: values.e1 },
            Form::Read => Command::Read {
                operands: Operands::from(values),
            },
            Form::Write => Command::Write {
                operands: Operands::from(values),
            },
            Form::Bar => Command::Bar,
        }
    }
}

// Map and kind: both are read before either is judged, the kind first.
#[tactic(auto, unfolding(crate::specs::Transitions::first_bytes, model::specs::Programs::judged_form))]
fn read_form(bytes: &[u8], at: usize) -> Read<Form>
    ensures { map_found command_form result ≡ first_bytes bytes.now at }
{
    let map = read_byte(bytes, at, PROGRAM_LENGTH)?;
    let kind = read_byte(bytes, map.next, PROGRAM_LENGTH)?;
    let form = form_of(kind.value).ok_or(Refusal {
        number: PROGRAM_FORM,
        place: map.next,
    })?;
    if map.value == form.map() {
        Ok(Found {
            value: form,
            next: kind.next,
        })
    } else {
        Err(Refusal {
            number: PROGRAM_FORM,
            place: at,
        })
    }
}

// The transition at a place, with the values of its expressions in an environment.
#[tactic(auto, using(crate::proofs::Transitions::by_form))]
pub fn read_transition(environment: Environment, bytes: &[u8], at: usize) -> Read<Transition>
    ensures { result ≡ map_found (transition_of environment) (read_transition environment.header bytes.now at) }
{
    let states = environment.header.states;
    let form = read_form(bytes, at)?;
    let source = read_below(bytes, form.next, states)?;
    let target = read_below(bytes, source.next, states)?;
    let fields = read_fields(environment, bytes, target.next, form.value.map())?;
    Ok(Found {
        value: Transition {
            source: source.value,
            target: target.value,
            command: form.value.command(fields.value),
        },
        next: fields.next,
    })
}
