// The fields of a transition, with the values of its expressions: "only the fields whose map bit stands, in bit order: bit 0 a register (one byte);
// bits 1 to 4 expressions e1 to e4".
ghost use Rattle.std.specs.Prelude.{◌≡◌};
ghost use Rattle.model.specs.Bytes.{optional};
ghost use Rattle.model.specs.Programs.{read_fields};
ghost use Rattle.expressions.specs.Values.{number_below, map_found, value_of};
ghost use Rattle.transitions.specs.Transitions.{expression_field, values_of};

use expressions::{Environment, read_below};
use fields::bit;
use model::{Found, Read};

// A field that the map leaves out is 0.
#[derive(Clone, Copy)]
pub struct Values {
    pub register: u16,
    pub e1: Option<u16>,
    pub e2: Option<u16>,
    pub e3: Option<u16>,
    pub e4: Option<u16>,
}

// The register, if its map bit stands.
fn read_register(bytes: &[u8], at: usize, stands: bool, limit: u16) -> Read<u16>
    ensures { result ≡ optional stands 0 (number_below limit) bytes.now at }
{
    if stands {
        read_below(bytes, at, limit)
    } else {
        Ok(Found { value: 0, next: at })
    }
}

// The value of an expression, if its map bit stands.
#[tactic(auto, unfolding(crate::specs::Transitions::expression_field, model::specs::Expressions::evaluate))]
fn read_value(environment: Environment, bytes: &[u8], at: usize, stands: bool) -> Read<Option<u16>>
    ensures { result ≡ map_found (value_of environment) (expression_field environment.header.registers stands bytes.now at) }
{
    if stands {
        environment.evaluate(bytes, at)
    } else {
        Ok(Found {
            value: Some(0),
            next: at,
        })
    }
}

// The fields that a map has.
#[tactic(auto, using(crate::proofs::Fields::by_values))]
pub fn read_fields(environment: Environment, bytes: &[u8], at: usize, map: u16) -> Read<Values>
    ensures { result ≡ map_found (values_of environment) (read_fields environment.header.registers map bytes.now at) }
{
    let register = read_register(bytes, at, bit(map, 0), environment.header.registers)?;
    let e1 = read_value(environment, bytes, register.next, bit(map, 1))?;
    let e2 = read_value(environment, bytes, e1.next, bit(map, 2))?;
    let e3 = read_value(environment, bytes, e2.next, bit(map, 3))?;
    let e4 = read_value(environment, bytes, e3.next, bit(map, 4))?;
    Ok(Found {
        value: Values {
            register: register.value,
            e1: e1.value,
            e2: e2.value,
            e3: e3.value,
            e4: e4.value,
        },
        next: e4.next,
    })
}
