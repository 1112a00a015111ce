// The program reader: the header, where each transition starts, and nothing left over; or the first refusal, front to back.
ghost use Rattle.std.specs.Prelude.{◌≡◌};
ghost use Rattle.program.specs.Starts.{Answers, Begun, after_header, map_ok, program_of};

use crate::header::read_header;
use expressions::Environment;
use model::refusals::PROGRAM_LENGTH;
use model::{Header, REGISTERS, Refusal, Starts, TRANSITIONS};
use transitions::transition::read_transition;

// A program that can be read: its header, and where its transitions start. Entries beyond the transitions are 0.
#[derive(Clone, Copy)]
pub struct Program {
    pub header: Header,
    pub starts: Starts,
}

// The header's transitions, one after the other from a place to the last byte. Their values are dropped: no register matters to where they end.
fn read_transitions(bytes: &[u8], at: usize, header: Header) -> Result<Program, Refusal>
    requires { Begun header at }
    ensures { result ≡ map_ok program_of (after_header header bytes.now at) }
{
    let environment = Environment {
        header,
        rank: 0,
        registers: [0; REGISTERS],
    };
    let mut starts = [0; TRANSITIONS];
    let mut place = at;
    let entries = &mut starts[..header.transitions as usize];
    for start in entries.iter_mut() {
        let transition = read_transition(environment, bytes, place)?;
        *start = place as u16;
        place = transition.next;
    }
    if place == bytes.len() {
        Ok(Program { header, starts })
    } else {
        Err(Refusal {
            number: PROGRAM_LENGTH,
            place,
        })
    }
}

// Reads a program: "N, A, R, Q, S, T, one byte each, then T transitions".
pub fn read_program(bytes: &[u8]) -> Result<Program, Refusal>
    ensures { Answers bytes.now result }
{
    let header = read_header(bytes)?;
    read_transitions(bytes, header.next, header.value)
}
