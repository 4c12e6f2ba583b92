ghost use Rattle.std.specs.Prelude.{◌≡◌, codes, map};
ghost use Rattle.std.specs.Option.{option_map};
ghost use Rattle.std.specs.List.{list_any};
ghost use Rattle.hc_tokens.specs.Returns.{Returns};
ghost use Rattle.hc_tokens.specs.Grammar.{is_of_sum, is_of_product, is_comparison};
ghost use Rattle.hc_tokens.specs.Tokens.{same_bytes};
ghost use Rattle.hc_tokens.specs.Words as words;
ghost use Rattle.hc_tokens.specs.Reading as reading;

use crate::stop::Stop;
use crate::token::{Mark, Token};
use crate::tree::{Num, NumOp};
use hc_fault::Name;
use sqlite_items::Boxed;
use std::alloc::Global;

/// The words of calls.
const CALL_WORDS: [&[u8]; 31] = [
    b"const", b"add", b"sub", b"mulu", b"muls", b"and", b"or", b"xor", b"eq", b"lt", b"not",
    b"mux", b"cat", b"select", b"read", b"op", b"bits", b"ne", b"gt", b"le", b"ge", b"lts",
    b"mux2", b"uresize", b"sresize", b"sll", b"srl", b"sra", b"repeat", b"msb", b"lsb",
];

fn of_sum(op: NumOp) -> bool
    ensures { result ≡ is_of_sum op }
{
    match op {
        NumOp::Add | NumOp::Sub => true,
        _ => false,
    }
}

fn of_product(op: NumOp) -> bool
    ensures { result ≡ is_of_product op }
{
    match op {
        NumOp::Mul | NumOp::Div | NumOp::Rem => true,
        _ => false,
    }
}

fn compares(op: NumOp) -> bool
    ensures { result ≡ is_comparison op }
{
    match op {
        NumOp::Eq | NumOp::Ne | NumOp::Lt | NumOp::Le | NumOp::Gt | NumOp::Ge => true,
        _ => false,
    }
}

/// The operator of a sum that comes next, and the tokens after it.
fn next_of_sum(tokens: &[Token]) -> Option<(NumOp, &[Token])>
    ensures { option_map (λ q. (q.0, q.1.now)) result ≡ reading.next is_of_sum tokens.now }
{
    match tokens {
        [Token::Operator(op), rest @ ..] if of_sum(*op) => Some((*op, rest)),
        _ => None,
    }
}

fn next_of_product(tokens: &[Token]) -> Option<(NumOp, &[Token])>
    ensures { option_map (λ q. (q.0, q.1.now)) result ≡ reading.next is_of_product tokens.now }
{
    match tokens {
        [Token::Operator(op), rest @ ..] if of_product(*op) => Some((*op, rest)),
        _ => None,
    }
}

fn next_comparison(tokens: &[Token]) -> Option<(NumOp, &[Token])>
    ensures { option_map (λ q. (q.0, q.1.now)) result ≡ reading.next is_comparison tokens.now }
{
    match tokens {
        [Token::Operator(op), rest @ ..] if compares(*op) => Some((*op, rest)),
        _ => None,
    }
}

/// The tokens after a closing bracket.
fn close(number: Num, tokens: &[Token]) -> Result<(Num, &[Token]), Stop>
    ensures { Returns (λ x. (x.0, x.1.now)) result (reading.close number tokens.now) }
{
    match tokens {
        [Token::Mark(Mark::CloseRound), rest @ ..] => Ok((number, rest)),
        _ => Err(Stop::Syntax),
    }
}

/// Whether the word is no call word.
pub fn is_name(word: &[u8]) -> bool
    ensures { result ≡ words.is_name word.now }
{
    !is_call_word(word)
}

/// Whether the word is one of these.
pub fn is_among(word: &[u8], list: &[&[u8]]) -> bool
    ensures { result ≡ list_any (same_bytes word.now) (map (λ w. w.now) list.now) }
{
    for known in list {
        if word == *known {
            return true;
        }
    }
    false
}

fn is_call_word(word: &[u8]) -> bool
    ensures { result ≡ list_any (same_bytes word.now) words.call_words }
{
    is_among(word, &CALL_WORDS)
}

fn is_bits(word: &[u8]) -> bool
    ensures { result ≡ same_bytes word.now (codes "bits") }
{
    word == b"bits".as_slice()
}

/// A number in brackets, where `depth` may be opened.
#[cycle(number)]
fn opened(alloc: Global, tokens: &[Token], depth: usize) -> Result<(Num, &[Token]), Stop>
    ensures { Returns (λ x. (x.0, x.1.now)) result (reading.opened (reading.inside depth) tokens.now) }
{
    match tokens {
        [Token::Mark(Mark::OpenRound), rest @ ..] => {
            if depth == 0 {
                return Err(Stop::Syntax);
            }
            let (number, rest) = number(alloc, rest, depth - 1)?;
            close(number, rest)
        }
        _ => Err(Stop::Syntax),
    }
}

/// An atom at the front of the tokens, with at most `depth` brackets open, and the tokens after it. `Syntax` where none stands there.
#[cycle(number)]
pub fn atom(alloc: Global, tokens: &[Token], depth: usize) -> Result<(Num, &[Token]), Stop>
    ensures { Returns (λ x. (x.0, x.1.now)) result (reading.atom (reading.inside depth) tokens.now) }
{
    match tokens {
        [Token::Int(value), rest @ ..] => Ok((Num::Int(*value), rest)),
        [Token::Word(word), rest @ ..] => {
            if is_name(word.bytes()) {
                let name = Name::new(alloc, word.bytes())?;
                return Ok((Num::Name(name), rest));
            }
            if is_bits(word.bytes()) {
                let (number, rest) = opened(alloc, rest, depth)?;
                return Ok((Num::Bits(Boxed::new(alloc, number)?), rest));
            }
            Err(Stop::Syntax)
        }
        [Token::Mark(_), ..] => opened(alloc, tokens, depth),
        _ => Err(Stop::Syntax),
    }
}

#[cycle(number)]
fn signed(alloc: Global, tokens: &[Token], depth: usize) -> Result<(Num, &[Token]), Stop>
    ensures { Returns (λ x. (x.0, x.1.now)) result (reading.signed (reading.inside depth) tokens.now) }
{
    match tokens {
        [Token::Operator(NumOp::Sub), rest @ ..] => {
            let (number, rest) = atom(alloc, rest, depth)?;
            Ok((Num::Neg(Boxed::new(alloc, number)?), rest))
        }
        _ => atom(alloc, tokens, depth),
    }
}

#[cycle(number)]
#[tactic(auto, unfolding(crate::specs::Reading::product, crate::specs::Reading::chain))]
fn product(alloc: Global, tokens: &[Token], depth: usize) -> Result<(Num, &[Token]), Stop>
    ensures { Returns (λ x. (x.0, x.1.now)) result (reading.product (reading.inside depth) tokens.now) }
{
    let (mut value, mut rest) = signed(alloc, tokens, depth)?;
    let mut left: usize = 32;
    while let Some((op, after)) = next_of_product(rest) {
        if left == 0 {
            return Err(Stop::Syntax);
        }
        let (other, more) = signed(alloc, after, depth)?;
        value = Num::Two {
            op,
            a: Boxed::new(alloc, value)?,
            b: Boxed::new(alloc, other)?,
        };
        rest = more;
        left -= 1;
    }
    Ok((value, rest))
}

#[cycle(number)]
#[tactic(auto, unfolding(crate::specs::Reading::sum, crate::specs::Reading::chain))]
fn sum(alloc: Global, tokens: &[Token], depth: usize) -> Result<(Num, &[Token]), Stop>
    ensures { Returns (λ x. (x.0, x.1.now)) result (reading.sum (reading.inside depth) tokens.now) }
{
    let (mut value, mut rest) = product(alloc, tokens, depth)?;
    let mut left: usize = 32;
    while let Some((op, after)) = next_of_sum(rest) {
        if left == 0 {
            return Err(Stop::Syntax);
        }
        let (other, more) = product(alloc, after, depth)?;
        value = Num::Two {
            op,
            a: Boxed::new(alloc, value)?,
            b: Boxed::new(alloc, other)?,
        };
        rest = more;
        left -= 1;
    }
    Ok((value, rest))
}

/// A number at the front of the tokens, with at most `depth` brackets open, and the tokens after it. `Syntax` where none stands there.
#[cycle(number)]
#[tactic(auto, unfolding(crate::specs::Reading::whole))]
pub fn number(alloc: Global, tokens: &[Token], depth: usize) -> Result<(Num, &[Token]), Stop>
    ensures { Returns (λ x. (x.0, x.1.now)) result (reading.number_at depth tokens.now) }
{
    let (value, rest) = sum(alloc, tokens, depth)?;
    match next_comparison(rest) {
        None => Ok((value, rest)),
        Some((op, after)) => {
            let (other, rest) = sum(alloc, after, depth)?;
            let a = Boxed::new(alloc, value)?;
            let b = Boxed::new(alloc, other)?;
            Ok((Num::Two { op, a, b }, rest))
        }
    }
}
