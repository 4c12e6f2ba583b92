ghost use Rattle.std.specs.Prelude.{◌≡◌, ◌≤◌, ◌<◌, ◌^◌, ◌+◌, ◌*◌, nat_le, nat_lt, not, ◌&&◌, length, take, drop, pos, map, MatchOption, IfOk, IfSome, Some, None};
ghost use Rattle.std.specs.List.{prefix_len, find, starts_with};
ghost use Rattle.std.specs.Prelude.{nat_eq, IsTrue, codes};
ghost use Rattle.std.specs.Char.{is_ascii_digit, is_ascii_hexdigit};
ghost use Rattle.std.specs.Option.{option_map};
ghost use Rattle.hc_tokens.specs.Returns.{Returns};
ghost use Rattle.hc_tokens.specs.Tokens as spec;
ghost use Rattle.hc_tokens.specs.SignTable as table;
ghost use Rattle.hc_tokens.specs.declared.token.Token.TheVariants as tok;

use crate::stop::Stop;
use crate::token::{Mark, Token};
use crate::tree::NumOp;
use hc_fault::{ItemList, Name};
use std::alloc::Global;

fn begins_word(byte: u8) -> bool
    ensures { result ≡ spec.begins_word byte }
{
    byte.is_ascii_alphabetic() || byte == b'_'
}

fn is_word_byte(byte: u8) -> bool
    ensures { result ≡ spec.is_word_byte byte }
{
    byte.is_ascii_alphanumeric() || byte == b'_'
}

fn is_blank(byte: u8) -> bool
    ensures { result ≡ spec.is_blank byte }
{
    byte == b'\t' || byte == b'\r' || byte == b' '
}

fn is_binary_digit(byte: u8) -> bool
    ensures { result ≡ spec.is_binary_digit byte }
{
    byte == b'0' || byte == b'1'
}

fn word_len(bytes: &[u8]) -> usize
    ensures value { result ≡ prefix_len spec.is_word_byte bytes.now }
    ensures within { result ≤ length bytes.now }
{
    bytes.iter().take_while(|byte| is_word_byte(**byte)).count()
}

fn decimal_len(bytes: &[u8]) -> usize
    ensures value { result ≡ prefix_len is_ascii_digit bytes.now }
    ensures within { result ≤ length bytes.now }
{
    bytes
        .iter()
        .take_while(|byte| byte.is_ascii_digit())
        .count()
}

fn hexadecimal_len(bytes: &[u8]) -> usize
    ensures value { result ≡ prefix_len is_ascii_hexdigit bytes.now }
    ensures within { result ≤ length bytes.now }
{
    bytes
        .iter()
        .take_while(|byte| byte.is_ascii_hexdigit())
        .count()
}

fn binary_len(bytes: &[u8]) -> usize
    ensures value { result ≡ prefix_len spec.is_binary_digit bytes.now }
    ensures within { result ≤ length bytes.now }
{
    bytes
        .iter()
        .take_while(|byte| is_binary_digit(**byte))
        .count()
}

fn digit_value(byte: u8) -> u8
    ensures { result ≡ spec.digit_value byte }
{
    if byte <= 57 {
        byte.saturating_sub(48)
    } else if byte <= 70 {
        byte.saturating_sub(55)
    } else {
        byte.saturating_sub(87)
    }
}

/// One more digit, or none where the number is past 128 bits.
fn add_digit(base: u128, value: u128, digit: u8) -> Option<u128>
    ensures { MatchOption result (2 ^ 128 ≤ base * value + spec.digit_value digit) (λ n. n ≡ base * value + spec.digit_value digit) }
{
    let product = base.checked_mul(value)?;
    product.checked_add(u128::from(digit_value(digit)))
}

/// The number that digits stand for, or none where it is past 128 bits.
fn number_of(base: u128, digits: &[u8]) -> Option<u128>
    requires { 1 ≤ base }
    ensures { MatchOption result (2 ^ 128 ≤ spec.number_of base digits.now) (λ n. n ≡ spec.number_of base digits.now) }
{
    let mut value: u128 = 0;
    'digit: for digit in digits {
        match add_digit(base, value, *digit) {
            Some(more) => value = more,
            None => return None,
        }
    }
    Some(value)
}

fn to_i64(number: u128) -> i64
    requires { number < 2 ^ 63 }
    ensures { result ≡ pos number }
{
    number as i64
}

fn starts_word(bytes: &[u8]) -> bool
    ensures { result ≡ spec.first_is spec.begins_word bytes.now }
{
    match bytes {
        [byte, ..] => begins_word(*byte),
        _ => false,
    }
}

fn starts_number(bytes: &[u8]) -> bool
    ensures { result ≡ spec.first_is is_ascii_digit bytes.now }
{
    match bytes {
        [byte, ..] => byte.is_ascii_digit(),
        _ => false,
    }
}

fn fits(count: usize, most: usize) -> bool
    ensures { result ≡ nat_le count most }
{
    count <= most
}

fn is_integer(number: u128) -> bool
    ensures { result ≡ nat_lt number (2 ^ 63) }
{
    number < 0x8000_0000_0000_0000
}

fn word_front(alloc: Global, bytes: &[u8]) -> Result<(Token, usize), Stop>
    ensures { Returns (λ x. x) result (spec.word_front bytes.now) }
{
    let len = word_len(bytes);
    if !fits(len, 64) {
        return Err(Stop::Syntax);
    }
    let name = Name::new(alloc, bytes.split_at(len).0)?;
    Ok((Token::Word(name), len))
}

/// Whether a literal of so many digits and this width may stand before these bytes.
fn is_literal(count: usize, most: usize, width: u128, after: &[u8]) -> bool
    ensures { result ≡ (nat_le 1 count && nat_le count most && nat_lt width (2 ^ 63) && not (spec.first_is spec.begins_word after.now)) }
{
    fits(1, count) && fits(count, most) && is_integer(width) && !starts_word(after)
}

/// A literal of hexadecimal digits, whose width was read in `read` bytes.
fn hexadecimal_front(bytes: &[u8], width: u128, read: usize) -> Result<(Token, usize), Stop>
    requires short { read + length bytes.now < 2 ^ 63 }
    ensures value { Returns (λ x. x) result (spec.literal_front is_ascii_hexdigit 16 32 width read bytes.now) }
{
    let len = hexadecimal_len(bytes);
    let (digits, after) = bytes.split_at(len);
    if !is_literal(len, 32, width, after) {
        return Err(Stop::Syntax);
    }
    match number_of(16, digits) {
        Some(value) => Ok((Token::Sized(to_i64(width), value), read + 2 + len)),
        None => Err(Stop::Syntax),
    }
}

/// A literal of binary digits.
fn binary_front(bytes: &[u8], width: u128, read: usize) -> Result<(Token, usize), Stop>
    requires short { read + length bytes.now < 2 ^ 63 }
    ensures value { Returns (λ x. x) result (spec.literal_front spec.is_binary_digit 2 128 width read bytes.now) }
{
    let len = binary_len(bytes);
    let (digits, after) = bytes.split_at(len);
    if !is_literal(len, 128, width, after) {
        return Err(Stop::Syntax);
    }
    match number_of(2, digits) {
        Some(value) => Ok((Token::Sized(to_i64(width), value), read + 2 + len)),
        None => Err(Stop::Syntax),
    }
}

/// A plain number.
fn integer_front(bytes: &[u8], number: u128, read: usize) -> Result<(Token, usize), Stop>
    ensures value { Returns (λ x. x) result (spec.when (nat_lt number (2 ^ 63) && not (spec.first_is spec.begins_word bytes.now)) (tok.Int (pos number)) read) }
{
    if is_integer(number) && !starts_word(bytes) {
        Ok((Token::Int(to_i64(number)), read))
    } else {
        Err(Stop::Syntax)
    }
}

fn is_hexadecimal(bytes: &[u8]) -> bool
    ensures { result ≡ starts_with nat_eq bytes.now (codes "'h") }
{
    bytes.starts_with(b"'h")
}

fn is_binary(bytes: &[u8]) -> bool
    ensures { result ≡ starts_with nat_eq bytes.now (codes "'b") }
{
    bytes.starts_with(b"'b")
}

/// A number or a literal, whose first digits are read.
fn digits_front(bytes: &[u8], number: u128, read: usize) -> Result<(Token, usize), Stop>
    requires short { read + length bytes.now < 2 ^ 63 }
    ensures value { Returns (λ x. x) result (spec.digits_front number read bytes.now) }
{
    if is_hexadecimal(bytes) {
        hexadecimal_front(bytes.split_at(2).1, number, read)
    } else if is_binary(bytes) {
        binary_front(bytes.split_at(2).1, number, read)
    } else {
        integer_front(bytes, number, read)
    }
}

/// A number or a literal.
fn number_front(bytes: &[u8]) -> Result<(Token, usize), Stop>
    requires short { length bytes.now < 2 ^ 63 }
    ensures value { Returns (λ x. x) result (spec.number_front bytes.now) }
{
    let read = decimal_len(bytes);
    let (digits, after) = bytes.split_at(read);
    match number_of(10, digits) {
        Some(number) => digits_front(after, number, read),
        None => Err(Stop::Syntax),
    }
}

/// A sign as it is written.
#[derive(Clone, Copy, Debug, PartialEq, Eq, Drop)]
pub enum Sign {
    Operator(NumOp),
    Mark(Mark),
}

/// The signs, frequent ones first, and a longer one before its beginning.
const SIGNS: [(&[u8], Sign); 19] = [
    (b"(", Sign::Mark(Mark::OpenRound)),
    (b")", Sign::Mark(Mark::CloseRound)),
    (b"[", Sign::Mark(Mark::OpenSquare)),
    (b"]", Sign::Mark(Mark::CloseSquare)),
    (b",", Sign::Mark(Mark::Comma)),
    (b":", Sign::Mark(Mark::Colon)),
    (b".", Sign::Mark(Mark::Dot)),
    (b"<=", Sign::Operator(NumOp::Le)),
    (b">=", Sign::Operator(NumOp::Ge)),
    (b"==", Sign::Operator(NumOp::Eq)),
    (b"!=", Sign::Operator(NumOp::Ne)),
    (b"<", Sign::Operator(NumOp::Lt)),
    (b">", Sign::Operator(NumOp::Gt)),
    (b"+", Sign::Operator(NumOp::Add)),
    (b"-", Sign::Operator(NumOp::Sub)),
    (b"*", Sign::Operator(NumOp::Mul)),
    (b"/", Sign::Operator(NumOp::Div)),
    (b"%", Sign::Operator(NumOp::Rem)),
    (b"=", Sign::Mark(Mark::Equals)),
];

fn sign_token(sign: Sign) -> Token
    ensures { result ≡ table.token_of sign }
{
    match sign {
        Sign::Operator(op) => Token::Operator(op),
        Sign::Mark(mark) => Token::Mark(mark),
    }
}

/// The first sign of these that the bytes begin with.
fn sign_among(bytes: &[u8], list: &[(&[u8], Sign)]) -> Result<(Token, usize), Stop>
    ensures { Returns (λ x. x) result (table.front_among bytes.now (map (λ s. (s.0.now, table.token_of s.1)) list.now)) }
{
    'sign: for (written, sign) in list {
        if bytes.starts_with(*written) {
            return Ok((sign_token(*sign), written.len()));
        }
    }
    Err(Stop::Syntax)
}

fn sign_front(bytes: &[u8]) -> Result<(Token, usize), Stop>
    ensures { Returns (λ x. x) result (spec.sign_front bytes.now) }
{
    sign_among(bytes, &SIGNS)
}

/// The token at the front of the bytes, and how many it takes.
fn first_token(alloc: Global, bytes: &[u8]) -> Result<(Token, usize), Stop>
    requires short { length bytes.now < 2 ^ 63 }
    ensures value { Returns (λ x. x) result (spec.first_token bytes.now) }
{
    if starts_word(bytes) {
        word_front(alloc, bytes)
    } else if starts_number(bytes) {
        number_front(bytes)
    } else {
        sign_front(bytes)
    }
}

/// There is room at first for so many tokens, which most lines do not exceed.
const USUAL: usize = 16;

/// The longest tokens of a line. `Syntax` where a byte begins no token, or a token is past its limit.
pub fn tokens(alloc: Global, line: &[u8]) -> Result<ItemList<Token>, Stop>
    requires short { length line.now < 2 ^ 63 }
    ensures value { Returns (λ ts. ts) result (spec.tokens line.now) }
{
    let mut tokens = ItemList::with_capacity(alloc, USUAL)?;
    let mut rest = line;
    'cut: while let Some((first, after)) = rest.split_first() {
        if *first == b'#' {
            break;
        }
        if is_blank(*first) {
            rest = after;
            continue;
        }
        let (token, len) = first_token(alloc, rest)?;
        rest = rest.split_at(len).1;
        tokens.push(token)?;
    }
    Ok(tokens)
}
