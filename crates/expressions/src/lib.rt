// Expressions in prefix form, read and evaluated at once: a token's operands are expressions again, and the count of tokens that may still be read
// falls with each. The program's reader drops the value; the replay takes it.
#![tactic(auto)]

mod tokens;

ghost use Rattle.std.specs.Prelude.{◌≡◌, get_or, ℕ, Some};
ghost use Rattle.model.specs.Bytes.{Reader};
ghost use Rattle.model.specs.Expressions.{Counted, after_token, expression, read_expression};
ghost use Rattle.expressions.specs.Values.{map_found, operand_token, value_of, evaluated, number_below, token_byte};

use crate::tokens::{Operand, Token, operated, token_of};
use fields::{below, read_byte, read_word};
use model::refusals::{PROGRAM_FORM, PROGRAM_LENGTH, PROGRAM_RANGE};
use model::{Found, Header, RankRegisters, Read, Refusal, TOKENS};

// What expressions are evaluated in: a rank of a machine with this header, and that rank's registers.
#[derive(Clone, Copy)]
pub struct Environment {
    pub header: Header,
    pub rank: u16,
    pub registers: RankRegisters,
}

// The value of an expression, if it has one: "A sum or product above 65,535 or a difference below 0 has no value any more, and neither has an
// expression holding it"; and how many tokens may still be read of the fifteen.
#[derive(Clone, Copy)]
struct Evaluated {
    value: Option<u16>,
    left: u16,
}

// A number of a program that has to be below a limit, as a state or a register.
#[tactic(auto, unfolding(crate::specs::Values::number_below, model::specs::Bytes::judged))]
pub fn read_below(bytes: &[u8], at: usize, limit: u16) -> Read<u16>
    ensures { result ≡ number_below limit bytes.now at }
{
    below(
        read_byte(bytes, at, PROGRAM_LENGTH),
        at,
        limit,
        PROGRAM_RANGE,
    )
}

// A token's byte. "sixteenth token": it has to be there, and is refused whatever it is.
#[tactic(auto, unfolding(model::specs::Bytes::judged))]
fn read_token(bytes: &[u8], at: usize, left: u16) -> Read<u16>
    ensures { result ≡ token_byte left bytes.now at }
{
    let byte = read_byte(bytes, at, PROGRAM_LENGTH)?;
    if 0 < left {
        Ok(byte)
    } else {
        Err(Refusal {
            number: PROGRAM_FORM,
            place: at,
        })
    }
}

impl Environment {
    // A register's value. One that no rank has is 0.
    fn register_value(&self, index: u16) -> u16
        ensures { result ≡ get_or self.now.registers index 0 }
    {
        self.registers.get(index as usize).copied().unwrap_or(0)
    }

    // A token that takes no operands, by what follows it: it has a value always, and leaves as many tokens as it was given. However operands would be
    // read, it is the same.
    #[tactic(auto, unfolding(model::specs::Expressions::after_token, model::specs::Expressions::evaluate, crate::specs::Values::number_below))]
    fn evaluate_operand(&self, bytes: &[u8], at: usize, operand: Operand) -> Read<u16>
        ensures { (operands : ℕ → Reader Counted) (left : ℕ) →
            map_found (λ value. record { value = Some value; left = left }) result
            ≡ evaluated self.now (after_token self.now.header.registers operands left (operand_token operand) bytes.now at) }
    {
        match operand {
            Operand::Constant => read_word(bytes, at, PROGRAM_LENGTH),
            Operand::Register => {
                let index = read_below(bytes, at, self.header.registers)?;
                Ok(Found {
                    value: self.register_value(index.value),
                    next: index.next,
                })
            }
            Operand::OwnRank => Ok(Found {
                value: self.rank,
                next: at,
            }),
            Operand::RankCount => Ok(Found {
                value: self.header.ranks,
                next: at,
            }),
        }
    }

    // An expression of at most `left` tokens. "A token's operands are expressions again."
    fn evaluate_tokens(&self, bytes: &[u8], at: usize, left: u16) -> Read<Evaluated>
        ensures { result ≡ evaluated self.now (read_expression self.now.header.registers left left bytes.now at) }
    {
        let byte = read_token(bytes, at, left)?;
        let token = token_of(byte.value).ok_or(Refusal {
            number: PROGRAM_FORM,
            place: at,
        })?;
        let fewer = left - 1;
        match token {
            Token::Operand(operand) => {
                let operand = self.evaluate_operand(bytes, byte.next, operand)?;
                Ok(Found {
                    value: Evaluated {
                        value: Some(operand.value),
                        left: fewer,
                    },
                    next: operand.next,
                })
            }
            Token::Operator(operator) => {
                let first = self.evaluate_tokens(bytes, byte.next, fewer)?;
                let second = self.evaluate_tokens(bytes, first.next, first.value.left)?;
                Ok(Found {
                    value: Evaluated {
                        value: operated(operator, first.value.value, second.value.value),
                        left: second.value.left,
                    },
                    next: second.next,
                })
            }
        }
    }

    // The expression at a place, with fifteen tokens of its own: its value, if it has one, and the place after it.
    #[tactic(auto, unfolding(model::specs::Expressions::expression))]
    pub fn evaluate(self, bytes: &[u8], at: usize) -> Read<Option<u16>>
        ensures { result ≡ map_found (value_of self) (expression self.header.registers bytes.now at) }
    {
        let read = self.evaluate_tokens(bytes, at, TOKENS as u16)?;
        Ok(Found {
            value: read.value.value,
            next: read.next,
        })
    }
}
