ghost use Rattle.std.specs.Prelude.{◌≡◌, ◌<◌, codes, map, [], Some};
ghost use Rattle.std.specs.Option.{option_map};
ghost use Rattle.hc_tokens.specs.Returns.{Returns};
ghost use Rattle.hc_tokens.specs.Tokens.{same_bytes};
ghost use Rattle.hc_tokens.specs.Words as words;
ghost use Rattle.hc_sigtext.specs.CallWords as call_words;
ghost use Rattle.hc_tokens.specs.Reading as reading;
ghost use Rattle.hc_sigtext.specs.SigReading as r;

use crate::tree::{CallWord, IdentText, Sig};
use hc_fault::{ItemList, Name};
use hc_tokens::{Mark, Num, Stop, Token, is_name, number};
use sqlite_items::Boxed;
use std::alloc::Global;

/// The tokens after a comma, where one comes next.
fn next_comma(tokens: &[Token]) -> Option<&[Token]>
    ensures { option_map (λ q. q.now) result ≡ r.past_comma tokens.now }
{
    match tokens {
        [Token::Mark(Mark::Comma), rest @ ..] => Some(rest),
        _ => None,
    }
}

fn past_comma(tokens: &[Token]) -> Result<&[Token], Stop>
    ensures { Returns (λ x. x.now) result (r.past_comma tokens.now) }
{
    match tokens {
        [Token::Mark(Mark::Comma), rest @ ..] => Ok(rest),
        _ => Err(Stop::Syntax),
    }
}

fn past_round(tokens: &[Token]) -> Result<&[Token], Stop>
    ensures { Returns (λ x. x.now) result (r.past_round tokens.now) }
{
    match tokens {
        [Token::Mark(Mark::CloseRound), rest @ ..] => Ok(rest),
        _ => Err(Stop::Syntax),
    }
}

fn past_square(tokens: &[Token]) -> Result<&[Token], Stop>
    ensures { Returns (λ x. x.now) result (r.past_square tokens.now) }
{
    match tokens {
        [Token::Mark(Mark::CloseSquare), rest @ ..] => Ok(rest),
        _ => Err(Stop::Syntax),
    }
}

/// A number inside one more bracket.
fn inside(alloc: Global, tokens: &[Token], depth: usize) -> Result<(Num, &[Token]), Stop>
    ensures { Returns (λ x. (x.0, x.1.now)) result (reading.inside depth tokens.now) }
{
    if depth == 0 {
        return Err(Stop::Syntax);
    }
    number(alloc, tokens, depth - 1)
}

/// What follows a name: nothing, or an index.
fn ident_by(
    alloc: Global,
    name: Name,
    tokens: &[Token],
    depth: usize,
) -> Result<(IdentText, &[Token]), Stop>
    ensures { Returns (λ x. (x.0, x.1.now)) result (r.ident_by (reading.inside depth) name tokens.now) }
{
    match tokens {
        [Token::Mark(Mark::OpenSquare), rest @ ..] => {
            let (number, rest) = inside(alloc, rest, depth)?;
            let rest = past_square(rest)?;
            Ok((
                IdentText {
                    name,
                    index: Some(number),
                },
                rest,
            ))
        }
        _ => Ok((IdentText { name, index: None }, tokens)),
    }
}

/// A name at the front of the tokens, with an index if it has one, and the tokens after it. At most `depth` brackets may be open
/// in the index. `Syntax` where no such name stands there, `Memory` where memory runs out.
pub fn ident(alloc: Global, tokens: &[Token], depth: usize) -> Result<(IdentText, &[Token]), Stop>
    ensures { Returns (λ x. (x.0, x.1.now)) result (r.ident_at depth tokens.now) }
{
    match tokens {
        [Token::Word(word), rest @ ..] => {
            if !is_name(word.bytes()) {
                return Err(Stop::Syntax);
            }
            let name = Name::new(alloc, word.bytes())?;
            ident_by(alloc, name, rest, depth)
        }
        _ => Err(Stop::Syntax),
    }
}

/// What stands before the bracket of a call.
#[derive(Drop)]
pub enum Head {
    Call(CallWord),
    Read,
    Op(Name),
}

/// What stands in the brackets of a call.
#[derive(Clone, Copy, Debug, PartialEq, Eq, Drop)]
pub enum Shape {
    Sigs,
    Nums,
    SigNum,
    SigNums,
}

/// The call words that have no form of their own.
const WORDS: [CallWord; 28] = [
    CallWord::Const,
    CallWord::Add,
    CallWord::Sub,
    CallWord::Mulu,
    CallWord::Muls,
    CallWord::And,
    CallWord::Or,
    CallWord::Xor,
    CallWord::Eq,
    CallWord::Lt,
    CallWord::Not,
    CallWord::Mux,
    CallWord::Cat,
    CallWord::Select,
    CallWord::Ne,
    CallWord::Gt,
    CallWord::Le,
    CallWord::Ge,
    CallWord::Lts,
    CallWord::Mux2,
    CallWord::Uresize,
    CallWord::Sresize,
    CallWord::Sll,
    CallWord::Srl,
    CallWord::Sra,
    CallWord::Repeat,
    CallWord::Msb,
    CallWord::Lsb,
];

/// How a call word is written.
fn spelling(word: CallWord) -> &'static [u8]
    ensures { result.now ≡ call_words.spelling word }
{
    match word {
        CallWord::Const => b"const",
        CallWord::Add => b"add",
        CallWord::Sub => b"sub",
        CallWord::Mulu => b"mulu",
        CallWord::Muls => b"muls",
        CallWord::And => b"and",
        CallWord::Or => b"or",
        CallWord::Xor => b"xor",
        CallWord::Eq => b"eq",
        CallWord::Lt => b"lt",
        CallWord::Not => b"not",
        CallWord::Mux => b"mux",
        CallWord::Cat => b"cat",
        CallWord::Select => b"select",
        CallWord::Ne => b"ne",
        CallWord::Gt => b"gt",
        CallWord::Le => b"le",
        CallWord::Ge => b"ge",
        CallWord::Lts => b"lts",
        CallWord::Mux2 => b"mux2",
        CallWord::Uresize => b"uresize",
        CallWord::Sresize => b"sresize",
        CallWord::Sll => b"sll",
        CallWord::Srl => b"srl",
        CallWord::Sra => b"sra",
        CallWord::Repeat => b"repeat",
        CallWord::Msb => b"msb",
        CallWord::Lsb => b"lsb",
    }
}

fn word_among(bytes: &[u8], list: &[CallWord]) -> Option<CallWord>
    ensures { result ≡ r.word_among bytes.now list.now }
{
    'word: for word in list {
        if bytes == spelling(*word) {
            return Some(*word);
        }
    }
    None
}

#[tactic(auto, unfolding(crate::specs::SigReading::word_of))]
fn call_word(bytes: &[u8]) -> Option<CallWord>
    ensures { result ≡ r.word_of bytes.now }
{
    word_among(bytes, &WORDS)
}

fn is_read(word: &[u8]) -> bool
    ensures { result ≡ same_bytes word.now (codes "read") }
{
    word == b"read".as_slice()
}

fn is_op(word: &[u8]) -> bool
    ensures { result ≡ same_bytes word.now (codes "op") }
{
    word == b"op".as_slice()
}

fn op_head(alloc: Global, tokens: &[Token]) -> Result<(Head, &[Token]), Stop>
    ensures { Returns (λ x. (x.0, x.1.now)) result (r.op_head tokens.now) }
{
    match tokens {
        [Token::Mark(Mark::Dot), rest @ ..] => op_name(alloc, rest),
        _ => Err(Stop::Syntax),
    }
}

fn op_name(alloc: Global, tokens: &[Token]) -> Result<(Head, &[Token]), Stop>
    ensures { Returns (λ x. (x.0, x.1.now)) result (r.op_name tokens.now) }
{
    match tokens {
        [Token::Word(word), rest @ ..] => {
            if is_name(word.bytes()) {
                Ok((Head::Op(Name::new(alloc, word.bytes())?), rest))
            } else {
                Err(Stop::Syntax)
            }
        }
        _ => Err(Stop::Syntax),
    }
}

/// The head of a call whose word was read.
fn head_of<'a>(alloc: Global, word: &[u8], tokens: &'a [Token]) -> Result<(Head, &'a [Token]), Stop>
    ensures { Returns (λ x. (x.0, x.1.now)) result (r.head_of word.now tokens.now) }
{
    match call_word(word) {
        Some(word) => Ok((Head::Call(word), tokens)),
        None => {
            if is_read(word) {
                Ok((Head::Read, tokens))
            } else if is_op(word) {
                op_head(alloc, tokens)
            } else {
                Err(Stop::Syntax)
            }
        }
    }
}

fn shape_of(word: CallWord) -> Shape
    ensures { result ≡ r.shape_of word }
{
    match word {
        CallWord::Const => Shape::Nums,
        CallWord::Select => Shape::SigNums,
        CallWord::Uresize
        | CallWord::Sresize
        | CallWord::Sll
        | CallWord::Srl
        | CallWord::Sra
        | CallWord::Repeat => Shape::SigNum,
        _ => Shape::Sigs,
    }
}

fn takes_sigs(word: CallWord, count: usize) -> bool
    ensures { result ≡ r.takes_sigs word count }
{
    match word {
        CallWord::Not | CallWord::Msb | CallWord::Lsb => count == 1,
        CallWord::Mux2 => count == 3,
        CallWord::Mux => 3 <= count,
        CallWord::Cat => 1 <= count,
        _ => count == 2,
    }
}

/// Signals with commas between them, one or more. Most calls have two.
#[cycle(signal)]
#[tactic(auto, unfolding(crate::specs::SigReading::sig_list, crate::specs::SigReading::more_sigs))]
fn sig_list(
    alloc: Global,
    tokens: &[Token],
    depth: usize,
) -> Result<(ItemList<Sig>, &[Token]), Stop>
    ensures { Returns (λ x. (x.0, x.1.now)) result (r.sig_list (r.signal_at depth) tokens.now) }
{
    let mut sigs = ItemList::with_capacity(alloc, 2)?;
    let (first, mut rest) = signal(alloc, tokens, depth)?;
    sigs.push(first)?;
    let mut left = tokens.len();
    'more: while let Some(after) = next_comma(rest) {
        if left == 0 {
            return Err(Stop::Syntax);
        }
        let (sig, more) = signal(alloc, after, depth)?;
        sigs.push(sig)?;
        rest = more;
        left -= 1;
    }
    Ok((sigs, rest))
}

/// A call of signals alone.
#[cycle(signal)]
fn listed(
    alloc: Global,
    word: CallWord,
    tokens: &[Token],
    depth: usize,
) -> Result<(Sig, &[Token]), Stop>
    ensures { Returns (λ x. (x.0, x.1.now)) result (r.listed (r.signal_at depth) word tokens.now) }
{
    let (sigs, rest) = sig_list(alloc, tokens, depth)?;
    if !takes_sigs(word, sigs.as_slice().len()) {
        return Err(Stop::Syntax);
    }
    Ok((
        Sig::Call {
            word,
            sigs,
            nums: ItemList::new(alloc),
        },
        rest,
    ))
}

fn one_num(alloc: Global, tokens: &[Token], depth: usize) -> Result<(ItemList<Num>, &[Token]), Stop>
    ensures { Returns (λ x. (x.0, x.1.now)) result (r.one_num (reading.number_at depth) tokens.now) }
{
    let mut nums = ItemList::with_capacity(alloc, 1)?;
    let (number, rest) = number(alloc, tokens, depth)?;
    nums.push(number)?;
    Ok((nums, rest))
}

fn two_nums(
    alloc: Global,
    tokens: &[Token],
    depth: usize,
) -> Result<(ItemList<Num>, &[Token]), Stop>
    ensures { Returns (λ x. (x.0, x.1.now)) result (r.two_nums (reading.number_at depth) tokens.now) }
{
    let mut nums = ItemList::with_capacity(alloc, 2)?;
    let (first, rest) = number(alloc, tokens, depth)?;
    let rest = past_comma(rest)?;
    let (second, rest) = number(alloc, rest, depth)?;
    nums.push(first)?;
    nums.push(second)?;
    Ok((nums, rest))
}

#[cycle(signal)]
fn sig_num(
    alloc: Global,
    word: CallWord,
    tokens: &[Token],
    depth: usize,
) -> Result<(Sig, &[Token]), Stop>
    ensures { Returns (λ x. (x.0, x.1.now)) result (r.sig_num (r.signal_at depth) (reading.number_at depth) (r.ident_at depth) word tokens.now) }
{
    let mut sigs = ItemList::with_capacity(alloc, 1)?;
    let (sig, rest) = signal(alloc, tokens, depth)?;
    let rest = past_comma(rest)?;
    let (nums, rest) = one_num(alloc, rest, depth)?;
    sigs.push(sig)?;
    Ok((Sig::Call { word, sigs, nums }, rest))
}

#[cycle(signal)]
fn sig_nums(
    alloc: Global,
    word: CallWord,
    tokens: &[Token],
    depth: usize,
) -> Result<(Sig, &[Token]), Stop>
    ensures { Returns (λ x. (x.0, x.1.now)) result (r.sig_nums (r.signal_at depth) (reading.number_at depth) (r.ident_at depth) word tokens.now) }
{
    let mut sigs = ItemList::with_capacity(alloc, 1)?;
    let (sig, rest) = signal(alloc, tokens, depth)?;
    let rest = past_comma(rest)?;
    let (nums, rest) = two_nums(alloc, rest, depth)?;
    sigs.push(sig)?;
    Ok((Sig::Call { word, sigs, nums }, rest))
}

/// A call of numbers alone.
fn nums_call(
    alloc: Global,
    word: CallWord,
    tokens: &[Token],
    depth: usize,
) -> Result<(Sig, &[Token]), Stop>
    ensures { Returns (λ x. (x.0, x.1.now)) result (reading.go_on (r.two_nums (reading.number_at depth) tokens.now) (r.made word [])) }
{
    let (nums, rest) = two_nums(alloc, tokens, depth)?;
    let sigs = ItemList::new(alloc);
    Ok((Sig::Call { word, sigs, nums }, rest))
}

#[cycle(signal)]
#[tactic(auto, unfolding(crate::specs::SigReading::call))]
fn call(
    alloc: Global,
    word: CallWord,
    tokens: &[Token],
    depth: usize,
) -> Result<(Sig, &[Token]), Stop>
    ensures { Returns (λ x. (x.0, x.1.now)) result (r.call (r.signal_at depth) (reading.number_at depth) (r.ident_at depth) (r.shape_of word) word tokens.now) }
{
    match shape_of(word) {
        Shape::Sigs => listed(alloc, word, tokens, depth),
        Shape::Nums => nums_call(alloc, word, tokens, depth),
        Shape::SigNum => sig_num(alloc, word, tokens, depth),
        Shape::SigNums => sig_nums(alloc, word, tokens, depth),
    }
}

#[cycle(signal)]
#[tactic(auto, unfolding(crate::specs::SigReading::memory_read))]
fn memory_read(alloc: Global, tokens: &[Token], depth: usize) -> Result<(Sig, &[Token]), Stop>
    ensures { Returns (λ x. (x.0, x.1.now)) result (r.memory_read (r.signal_at depth) (reading.number_at depth) (r.ident_at depth) tokens.now) }
{
    let (mem, rest) = ident(alloc, tokens, depth)?;
    let rest = past_comma(rest)?;
    let (addr, rest) = signal(alloc, rest, depth)?;
    let addr = Boxed::new(alloc, addr)?;
    Ok((Sig::Read { mem, addr }, rest))
}

#[cycle(signal)]
fn operation(
    alloc: Global,
    name: Name,
    tokens: &[Token],
    depth: usize,
) -> Result<(Sig, &[Token]), Stop>
    ensures { Returns (λ x. (x.0, x.1.now)) result (r.operation (r.signal_at depth) (reading.number_at depth) (r.ident_at depth) name tokens.now) }
{
    let (sigs, rest) = sig_list(alloc, tokens, depth)?;
    Ok((Sig::Op { name, sigs }, rest))
}

/// What stands in the brackets after this head.
#[cycle(signal)]
#[tactic(auto, unfolding(crate::specs::SigReading::body))]
fn body(alloc: Global, head: Head, tokens: &[Token], depth: usize) -> Result<(Sig, &[Token]), Stop>
    ensures { Returns (λ x. (x.0, x.1.now)) result (r.body_at depth head tokens.now) }
{
    match head {
        Head::Call(word) => call(alloc, word, tokens, depth),
        Head::Read => memory_read(alloc, tokens, depth),
        Head::Op(name) => operation(alloc, name, tokens, depth),
    }
}

/// What stands in one more bracket.
#[cycle(signal)]
fn enclosed(
    alloc: Global,
    head: Head,
    tokens: &[Token],
    depth: usize,
) -> Result<(Sig, &[Token]), Stop>
    ensures { Returns (λ x. (x.0, x.1.now)) result (r.bodies_at depth head tokens.now) }
{
    if depth == 0 {
        return Err(Stop::Syntax);
    }
    body(alloc, head, tokens, depth - 1)
}

fn close_sig(sig: Sig, tokens: &[Token]) -> Result<(Sig, &[Token]), Stop>
    ensures { Returns (λ x. (x.0, x.1.now)) result (r.close_sig sig tokens.now) }
{
    let rest = past_round(tokens)?;
    Ok((sig, rest))
}

#[cycle(signal)]
fn bracketed(
    alloc: Global,
    head: Head,
    tokens: &[Token],
    depth: usize,
) -> Result<(Sig, &[Token]), Stop>
    ensures { Returns (λ x. (x.0, x.1.now)) result (r.bracketed (r.bodies_at depth) (reading.inside depth) head tokens.now) }
{
    match tokens {
        [Token::Mark(Mark::OpenRound), rest @ ..] => {
            let (sig, rest) = enclosed(alloc, head, rest, depth)?;
            close_sig(sig, rest)
        }
        _ => Err(Stop::Syntax),
    }
}

fn port_name(alloc: Global, inst: IdentText, tokens: &[Token]) -> Result<(Sig, &[Token]), Stop>
    ensures { Returns (λ x. (x.0, x.1.now)) result (r.port_name inst tokens.now) }
{
    match tokens {
        [Token::Word(word), rest @ ..] => {
            if is_name(word.bytes()) {
                let port = Name::new(alloc, word.bytes())?;
                Ok((Sig::Port { inst, port }, rest))
            } else {
                Err(Stop::Syntax)
            }
        }
        _ => Err(Stop::Syntax),
    }
}

/// A name, or a port where a dot follows.
fn port(alloc: Global, ident: IdentText, tokens: &[Token]) -> Result<(Sig, &[Token]), Stop>
    ensures { Returns (λ x. (x.0, x.1.now)) result (r.port ident tokens.now) }
{
    match tokens {
        [Token::Mark(Mark::Dot), rest @ ..] => port_name(alloc, ident, rest),
        _ => Ok((Sig::Name { ident }, tokens)),
    }
}

#[cycle(signal)]
fn word_sig<'a>(
    alloc: Global,
    word: &Name,
    tokens: &'a [Token],
    depth: usize,
) -> Result<(Sig, &'a [Token]), Stop>
    ensures { Returns (λ x. (x.0, x.1.now)) result (r.word_sig (r.bodies_at depth) (reading.inside depth) (words.is_name word.now) word.now tokens.now) }
{
    if is_name(word.bytes()) {
        let name = Name::new(alloc, word.bytes())?;
        let (ident, rest) = ident_by(alloc, name, tokens, depth)?;
        port(alloc, ident, rest)
    } else {
        let (head, rest) = head_of(alloc, word.bytes(), tokens)?;
        bracketed(alloc, head, rest, depth)
    }
}

/// A signal at the front of the tokens, with at most `depth` brackets open, and the tokens after it. `Syntax` where none stands
/// there, `Memory` where memory runs out.
#[cycle(signal)]
#[tactic(auto, unfolding(crate::specs::SigReading::signal))]
pub fn signal(alloc: Global, tokens: &[Token], depth: usize) -> Result<(Sig, &[Token]), Stop>
    ensures { Returns (λ x. (x.0, x.1.now)) result (r.signal_at depth tokens.now) }
{
    match tokens {
        [Token::Sized(width, value), rest @ ..] => Ok((
            Sig::Sized {
                width: *width,
                value: *value,
            },
            rest,
        )),
        [Token::Word(word), rest @ ..] => word_sig(alloc, word, rest, depth),
        _ => Err(Stop::Syntax),
    }
}
