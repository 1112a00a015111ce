// The tables of tokens: what a byte says, and what an operator does.
ghost use Rattle.std.specs.Prelude.{◌≡◌};
ghost use Rattle.model.specs.Choice.{lookup};
ghost use Rattle.model.specs.Expressions as Expressions;
ghost use Rattle.model.specs.Expressions.{tokens};
ghost use Rattle.expressions.specs.Values.{option_token, operator_of};

// A token that stands for a value by itself.
#[derive(Clone, Copy)]
pub enum Operand {
    Constant,
    Register,
    OwnRank,
    RankCount,
}

// A token that takes two operands.
#[derive(Clone, Copy)]
pub enum Operator {
    Sum,
    Difference,
    Product,
    Equal,
    Less,
}

// What a token's byte says.
#[derive(Clone, Copy)]
pub enum Token {
    Operand(Operand),
    Operator(Operator),
}

// "Token bytes in hexadecimal: 00 constant, 01 register, 02 own rank, 03 N, 10 sum, 11 difference, 12 product, 13 equal, 14 less".
#[tactic(auto, unfolding(model::specs::Choice::lookup, model::specs::Expressions::tokens))]
pub fn token_of(byte: u16) -> Option<Token>
    ensures { option_token result ≡ lookup byte tokens }
{
    match byte {
        0x00 => Some(Token::Operand(Operand::Constant)),
        0x01 => Some(Token::Operand(Operand::Register)),
        0x02 => Some(Token::Operand(Operand::OwnRank)),
        0x03 => Some(Token::Operand(Operand::RankCount)),
        0x10 => Some(Token::Operator(Operator::Sum)),
        0x11 => Some(Token::Operator(Operator::Difference)),
        0x12 => Some(Token::Operator(Operator::Product)),
        0x13 => Some(Token::Operator(Operator::Equal)),
        0x14 => Some(Token::Operator(Operator::Less)),
        _ => None,
    }
}

// What an operator makes of its operands' values: "A sum or product above 65,535 or a difference below 0 has no value any more, and neither has an
// expression holding it"; "13 and 14 give 1 or 0."
#[tactic(auto, unfolding(model::specs::Expressions::operated, model::specs::Expressions::operate))]
pub fn operated(operator: Operator, first: Option<u16>, second: Option<u16>) -> Option<u16>
    ensures { result ≡ Expressions.operated (operator_of operator) first second }
{
    let a = first?;
    let b = second?;
    match operator {
        Operator::Sum => a.checked_add(b),
        Operator::Difference => a.checked_sub(b),
        Operator::Product => a.checked_mul(b),
        Operator::Equal => Some(u16::from(a == b)),
        Operator::Less => Some(u16::from(a < b)),
    }
}
