ghost use Rattle.std.specs.Prelude.{◌≡◌, ◌<◌, codes, map, [], true, false};
ghost use Rattle.std.specs.Option.{option_map};
ghost use Rattle.hc_tokens.specs.Returns.{Returns};
ghost use Rattle.hc_tokens.specs.Tokens.{same_bytes};
ghost use Rattle.hc_tokens.specs.Reading as reading;
ghost use Rattle.hc_sigtext.specs.SigReading as signals;
ghost use Rattle.hc_lines.specs.LineReading as r;
ghost use Rattle.hc_lines.specs.Grammar as g;
ghost use Rattle.hc_lines.specs.declared.tree.BenchWhat.TheVariants as bench_step;

use crate::tree::{BenchValue, BenchWhat, What};
use hc_fault::{ItemList, Name};
use hc_sigtext::{Sig, ident, signal};
use hc_tokens::{Mark, Num, NumOp, Stop, Token, atom, is_name, number};
use sqlite_items::Boxed;
use std::alloc::Global;

/// What a line says.
#[derive(Drop)]
pub enum Line {
    Circuit {
        name: Name,
        params: ItemList<Name>,
    },
    Port {
        is_input: bool,
        name: Name,
        width: Num,
    },
    Simple(What),
    For {
        var: Name,
        from: Num,
        upto: Num,
    },
    If(Num),
    Else,
    End,
    Top {
        name: Name,
        args: ItemList<Num>,
    },
    Bench,
    Step(BenchWhat),
}

/// The first words of lines.
#[derive(Clone, Copy, Debug, PartialEq, Eq, Drop)]
pub enum Keyword {
    Circuit,
    Input,
    Output,
    Let,
    Wire,
    Assign,
    Label,
    Reg,
    Memory,
    Write,
    Inst,
    For,
    If,
    Else,
    End,
    Top,
    Bench,
    Set,
    Cycle,
    Reset,
}

/// All of them.
const KEYWORDS: [Keyword; 20] = [
    Keyword::Circuit,
    Keyword::Input,
    Keyword::Output,
    Keyword::Let,
    Keyword::Wire,
    Keyword::Assign,
    Keyword::Label,
    Keyword::Reg,
    Keyword::Memory,
    Keyword::Write,
    Keyword::Inst,
    Keyword::For,
    Keyword::If,
    Keyword::Else,
    Keyword::End,
    Keyword::Top,
    Keyword::Bench,
    Keyword::Set,
    Keyword::Cycle,
    Keyword::Reset,
];

fn written(keyword: Keyword) -> &'static [u8]
    ensures { result.now ≡ r.written keyword }
{
    match keyword {
        Keyword::Circuit => b"circuit",
        Keyword::Input => b"input",
        Keyword::Output => b"output",
        Keyword::Let => b"let",
        Keyword::Wire => b"wire",
        Keyword::Assign => b"assign",
        Keyword::Label => b"label",
        Keyword::Reg => b"reg",
        Keyword::Memory => b"memory",
        Keyword::Write => b"write",
        Keyword::Inst => b"inst",
        Keyword::For => b"for",
        Keyword::If => b"if",
        Keyword::Else => b"else",
        Keyword::End => b"end",
        Keyword::Top => b"top",
        Keyword::Bench => b"bench",
        Keyword::Set => b"set",
        Keyword::Cycle => b"cycle",
        Keyword::Reset => b"reset",
    }
}

fn keyword_among(bytes: &[u8], list: &[Keyword]) -> Option<Keyword>
    ensures { result ≡ r.keyword_among bytes.now list.now }
{
    'word: for word in list {
        if bytes == written(*word) {
            return Some(*word);
        }
    }
    None
}

#[tactic(auto, unfolding(crate::specs::LineReading::keyword_of))]
fn keyword_of(bytes: &[u8]) -> Option<Keyword>
    ensures { result ≡ r.keyword_of bytes.now }
{
    keyword_among(bytes, &KEYWORDS)
}

fn name(alloc: Global, tokens: &[Token]) -> Result<(Name, &[Token]), Stop>
    ensures { Returns (λ x. (x.0, x.1.now)) result (r.name tokens.now) }
{
    match tokens {
        [Token::Word(word), rest @ ..] => {
            if is_name(word.bytes()) {
                Ok((Name::new(alloc, word.bytes())?, rest))
            } else {
                Err(Stop::Syntax)
            }
        }
        _ => Err(Stop::Syntax),
    }
}

fn past_equals(tokens: &[Token]) -> Result<&[Token], Stop>
    ensures { Returns (λ x. x.now) result (r.past_equals tokens.now) }
{
    match tokens {
        [Token::Mark(Mark::Equals), rest @ ..] => Ok(rest),
        _ => Err(Stop::Syntax),
    }
}

/// The tokens after a colon, where one comes next.
fn next_colon(tokens: &[Token]) -> Option<&[Token]>
    ensures { option_map (λ q. q.now) result ≡ r.past_colon tokens.now }
{
    match tokens {
        [Token::Mark(Mark::Colon), rest @ ..] => Some(rest),
        _ => None,
    }
}

/// The end, where it comes next.
fn next_end(tokens: &[Token]) -> Option<&[Token]>
    ensures { option_map (λ q. q.now) result ≡ r.past_end tokens.now }
{
    match tokens {
        [] => Some(tokens),
        _ => None,
    }
}

fn is_end(tokens: &[Token]) -> bool
    ensures { result ≡ r.is_end tokens.now }
{
    match tokens {
        [] => true,
        _ => false,
    }
}

/// What was read, where the tokens end here.
fn whole<T: Drop>(read: T, rest: &[Token]) -> Result<T, Stop>
    ensures { Returns (λ x. x) result (r.at_end read rest.now) }
{
    if is_end(rest) {
        Ok(read)
    } else {
        Err(Stop::Syntax)
    }
}

/// A connection of an instance.
fn conn(alloc: Global, tokens: &[Token], depth: usize) -> Result<((Name, Sig), &[Token]), Stop>
    ensures { Returns (λ x. (x.0, x.1.now)) result (r.conn depth tokens.now) }
{
    let (port, rest) = name(alloc, tokens)?;
    let rest = past_equals(rest)?;
    let (sig, rest) = signal(alloc, rest, depth)?;
    Ok(((port, sig), rest))
}

/// Names up to the end.
#[tactic(auto, unfolding(crate::specs::LineReading::all_items, crate::specs::LineReading::items))]
fn names(alloc: Global, tokens: &[Token]) -> Result<(ItemList<Name>, &[Token]), Stop>
    ensures { Returns (λ x. (x.0, x.1.now)) result (r.all_items r.past_end r.name tokens.now) }
{
    let mut items = ItemList::new(alloc);
    let mut rest = tokens;
    let mut left = tokens.len();
    'more: loop {
        match next_end(rest) {
            Some(end) => return Ok((items, end)),
            None => {}
        }
        if left == 0 {
            return Err(Stop::Syntax);
        }
        let (item, more) = name(alloc, rest)?;
        items.push(item)?;
        rest = more;
        left -= 1;
    }
}

/// Atoms up to a colon.
#[tactic(auto, unfolding(crate::specs::LineReading::all_items, crate::specs::LineReading::items))]
fn args(alloc: Global, tokens: &[Token], depth: usize) -> Result<(ItemList<Num>, &[Token]), Stop>
    ensures { Returns (λ x. (x.0, x.1.now)) result (r.all_items r.past_colon (r.atom_at depth) tokens.now) }
{
    let mut items = ItemList::new(alloc);
    let mut rest = tokens;
    let mut left = tokens.len();
    'more: loop {
        match next_colon(rest) {
            Some(end) => return Ok((items, end)),
            None => {}
        }
        if left == 0 {
            return Err(Stop::Syntax);
        }
        let (item, more) = atom(alloc, rest, depth)?;
        items.push(item)?;
        rest = more;
        left -= 1;
    }
}

/// Atoms up to the end.
#[tactic(auto, unfolding(crate::specs::LineReading::all_items, crate::specs::LineReading::items))]
fn top_args(
    alloc: Global,
    tokens: &[Token],
    depth: usize,
) -> Result<(ItemList<Num>, &[Token]), Stop>
    ensures { Returns (λ x. (x.0, x.1.now)) result (r.all_items r.past_end (r.atom_at depth) tokens.now) }
{
    let mut items = ItemList::new(alloc);
    let mut rest = tokens;
    let mut left = tokens.len();
    'more: loop {
        match next_end(rest) {
            Some(end) => return Ok((items, end)),
            None => {}
        }
        if left == 0 {
            return Err(Stop::Syntax);
        }
        let (item, more) = atom(alloc, rest, depth)?;
        items.push(item)?;
        rest = more;
        left -= 1;
    }
}

/// Connections up to the end.
#[tactic(auto, unfolding(crate::specs::LineReading::all_items, crate::specs::LineReading::items))]
fn conns(
    alloc: Global,
    tokens: &[Token],
    depth: usize,
) -> Result<(ItemList<(Name, Sig)>, &[Token]), Stop>
    ensures { Returns (λ x. (x.0, x.1.now)) result (r.all_items r.past_end (r.conn depth) tokens.now) }
{
    let mut items = ItemList::new(alloc);
    let mut rest = tokens;
    let mut left = tokens.len();
    'more: loop {
        match next_end(rest) {
            Some(end) => return Ok((items, end)),
            None => {}
        }
        if left == 0 {
            return Err(Stop::Syntax);
        }
        let (item, more) = conn(alloc, rest, depth)?;
        items.push(item)?;
        rest = more;
        left -= 1;
    }
}

fn is_enable(word: &[u8]) -> bool
    ensures { result ≡ same_bytes word.now (codes "enable") }
{
    word == b"enable".as_slice()
}

fn is_clear(word: &[u8]) -> bool
    ensures { result ≡ same_bytes word.now (codes "clear") }
{
    word == b"clear".as_slice()
}

fn is_init(word: &[u8]) -> bool
    ensures { result ≡ same_bytes word.now (codes "init") }
{
    word == b"init".as_slice()
}

/// A signal in a box, for a line that holds several.
fn boxed_signal(
    alloc: Global,
    tokens: &[Token],
    depth: usize,
) -> Result<(Boxed<Sig>, &[Token]), Stop>
    ensures { Returns (λ x. (x.0, x.1.now)) result (signals.signal_at depth tokens.now) }
{
    let (sig, rest) = signal(alloc, tokens, depth)?;
    Ok((Boxed::new(alloc, sig)?, rest))
}

fn enable(
    alloc: Global,
    tokens: &[Token],
    depth: usize,
) -> Result<(Option<Boxed<Sig>>, &[Token]), Stop>
    ensures { Returns (λ x. (x.0, x.1.now)) result (r.optional (codes "enable") (signals.signal_at depth) tokens.now) }
{
    match tokens {
        [Token::Word(word), rest @ ..] => {
            if is_enable(word.bytes()) {
                let (sig, rest) = boxed_signal(alloc, rest, depth)?;
                Ok((Some(sig), rest))
            } else {
                Ok((None, tokens))
            }
        }
        _ => Ok((None, tokens)),
    }
}

fn sig_atom(
    alloc: Global,
    tokens: &[Token],
    depth: usize,
) -> Result<(Boxed<(Sig, Num)>, &[Token]), Stop>
    ensures { Returns (λ x. (x.0, x.1.now)) result (r.seq (signals.signal_at depth) (r.atom_at depth) tokens.now) }
{
    let (sig, rest) = signal(alloc, tokens, depth)?;
    let (number, rest) = atom(alloc, rest, depth)?;
    Ok((Boxed::new(alloc, (sig, number))?, rest))
}

fn clear(
    alloc: Global,
    tokens: &[Token],
    depth: usize,
) -> Result<(Option<Boxed<(Sig, Num)>>, &[Token]), Stop>
    ensures { Returns (λ x. (x.0, x.1.now)) result (r.optional (codes "clear") (r.seq (signals.signal_at depth) (r.atom_at depth)) tokens.now) }
{
    match tokens {
        [Token::Word(word), rest @ ..] => {
            if is_clear(word.bytes()) {
                let (pair, rest) = sig_atom(alloc, rest, depth)?;
                Ok((Some(pair), rest))
            } else {
                Ok((None, tokens))
            }
        }
        _ => Ok((None, tokens)),
    }
}

fn init(alloc: Global, tokens: &[Token], depth: usize) -> Result<(Option<Num>, &[Token]), Stop>
    ensures { Returns (λ x. (x.0, x.1.now)) result (r.optional (codes "init") (r.atom_at depth) tokens.now) }
{
    match tokens {
        [Token::Word(word), rest @ ..] => {
            if is_init(word.bytes()) {
                let (number, rest) = atom(alloc, rest, depth)?;
                Ok((Some(number), rest))
            } else {
                Ok((None, tokens))
            }
        }
        _ => Ok((None, tokens)),
    }
}

fn negated(value: i64, tokens: &[Token]) -> Result<(BenchValue, &[Token]), Stop>
    ensures { Returns (λ x. (x.0, x.1.now)) result (r.negated value tokens.now) }
{
    if 0 <= value {
        Ok((BenchValue::Plain(-value), tokens))
    } else {
        Err(Stop::Syntax)
    }
}

fn minus_value(tokens: &[Token]) -> Result<(BenchValue, &[Token]), Stop>
    ensures { Returns (λ x. (x.0, x.1.now)) result (r.minus_value tokens.now) }
{
    match tokens {
        [Token::Int(value), rest @ ..] => negated(*value, rest),
        _ => Err(Stop::Syntax),
    }
}

fn value_of(tokens: &[Token]) -> Result<(BenchValue, &[Token]), Stop>
    ensures { Returns (λ x. (x.0, x.1.now)) result (r.value_of tokens.now) }
{
    match tokens {
        [Token::Int(value), rest @ ..] => Ok((BenchValue::Plain(*value), rest)),
        [Token::Sized(width, value), rest @ ..] => Ok((
            BenchValue::Sized {
                width: *width,
                value: *value,
            },
            rest,
        )),
        [Token::Operator(NumOp::Sub), rest @ ..] => minus_value(rest),
        _ => Err(Stop::Syntax),
    }
}

#[tactic(auto, unfolding(crate::specs::LineReading::circuit_line))]
fn circuit_line(alloc: Global, tokens: &[Token]) -> Result<Line, Stop>
    ensures { Returns (λ x. x) result (r.circuit_line tokens.now) }
{
    let (name, rest) = name(alloc, tokens)?;
    let (params, rest) = names(alloc, rest)?;
    whole(Line::Circuit { name, params }, rest)
}

#[tactic(auto, unfolding(crate::specs::LineReading::port_line))]
fn port_line(alloc: Global, is_input: bool, tokens: &[Token], depth: usize) -> Result<Line, Stop>
    ensures { Returns (λ x. x) result (r.port_line is_input depth tokens.now) }
{
    let (name, rest) = name(alloc, tokens)?;
    let (width, rest) = number(alloc, rest, depth)?;
    whole(
        Line::Port {
            is_input,
            name,
            width,
        },
        rest,
    )
}

#[tactic(auto, unfolding(crate::specs::LineReading::let_line))]
fn let_line(alloc: Global, tokens: &[Token], depth: usize) -> Result<Line, Stop>
    ensures { Returns (λ x. x) result (r.let_line depth tokens.now) }
{
    let (to, rest) = ident(alloc, tokens, depth)?;
    let (sig, rest) = signal(alloc, rest, depth)?;
    whole(Line::Simple(What::Let { to, sig }), rest)
}

#[tactic(auto, unfolding(crate::specs::LineReading::wire_line))]
fn wire_line(alloc: Global, tokens: &[Token], depth: usize) -> Result<Line, Stop>
    ensures { Returns (λ x. x) result (r.wire_line depth tokens.now) }
{
    let (to, rest) = ident(alloc, tokens, depth)?;
    let (width, rest) = number(alloc, rest, depth)?;
    whole(Line::Simple(What::Wire { to, width }), rest)
}

#[tactic(auto, unfolding(crate::specs::LineReading::assign_line))]
fn assign_line(alloc: Global, tokens: &[Token], depth: usize) -> Result<Line, Stop>
    ensures { Returns (λ x. x) result (r.assign_line depth tokens.now) }
{
    let (to, rest) = ident(alloc, tokens, depth)?;
    let (sig, rest) = signal(alloc, rest, depth)?;
    whole(Line::Simple(What::Assign { to, sig }), rest)
}

#[tactic(auto, unfolding(crate::specs::LineReading::label_line))]
fn label_line(alloc: Global, tokens: &[Token], depth: usize) -> Result<Line, Stop>
    ensures { Returns (λ x. x) result (r.label_line depth tokens.now) }
{
    let (to, rest) = ident(alloc, tokens, depth)?;
    let (label, rest) = name(alloc, rest)?;
    whole(Line::Simple(What::Label { to, label }), rest)
}

#[tactic(auto, unfolding(crate::specs::LineReading::clear_parts))]
fn clear_parts(
    alloc: Global,
    tokens: &[Token],
    depth: usize,
) -> Result<((Option<Boxed<(Sig, Num)>>, Option<Num>), &[Token]), Stop>
    ensures { Returns (λ x. (x.0, x.1.now)) result (r.clear_parts depth tokens.now) }
{
    let (clear, rest) = clear(alloc, tokens, depth)?;
    let (init, rest) = init(alloc, rest, depth)?;
    Ok(((clear, init), rest))
}

#[tactic(auto, unfolding(crate::specs::LineReading::reg_parts))]
fn reg_parts(
    alloc: Global,
    tokens: &[Token],
    depth: usize,
) -> Result<
    (
        (Option<Boxed<Sig>>, (Option<Boxed<(Sig, Num)>>, Option<Num>)),
        &[Token],
    ),
    Stop,
>
    ensures { Returns (λ x. (x.0, x.1.now)) result (r.reg_parts depth tokens.now) }
{
    let (enable, rest) = enable(alloc, tokens, depth)?;
    let (parts, rest) = clear_parts(alloc, rest, depth)?;
    Ok(((enable, parts), rest))
}

#[tactic(auto, unfolding(crate::specs::LineReading::reg_line))]
fn reg_line(alloc: Global, tokens: &[Token], depth: usize) -> Result<Line, Stop>
    ensures { Returns (λ x. x) result (r.reg_line depth tokens.now) }
{
    let (to, rest) = ident(alloc, tokens, depth)?;
    let (next, rest) = boxed_signal(alloc, rest, depth)?;
    let ((enable, (clear, init)), rest) = reg_parts(alloc, rest, depth)?;
    whole(
        Line::Simple(What::Reg {
            to,
            next,
            enable,
            clear,
            init,
        }),
        rest,
    )
}

#[tactic(auto, unfolding(crate::specs::LineReading::memory_line))]
fn memory_line(alloc: Global, tokens: &[Token], depth: usize) -> Result<Line, Stop>
    ensures { Returns (λ x. x) result (r.memory_line depth tokens.now) }
{
    let (to, rest) = ident(alloc, tokens, depth)?;
    let (size, rest) = atom(alloc, rest, depth)?;
    let (width, rest) = atom(alloc, rest, depth)?;
    whole(Line::Simple(What::Memory { to, size, width }), rest)
}

#[tactic(auto, unfolding(crate::specs::LineReading::two_signals))]
fn two_signals(
    alloc: Global,
    tokens: &[Token],
    depth: usize,
) -> Result<((Boxed<Sig>, Boxed<Sig>), &[Token]), Stop>
    ensures { Returns (λ x. (x.0, x.1.now)) result (r.two_signals depth tokens.now) }
{
    let (first, rest) = boxed_signal(alloc, tokens, depth)?;
    let (second, rest) = boxed_signal(alloc, rest, depth)?;
    Ok(((first, second), rest))
}

/// Enable, address and value of a write port.
#[tactic(auto, unfolding(crate::specs::LineReading::write_parts))]
fn write_parts(
    alloc: Global,
    tokens: &[Token],
    depth: usize,
) -> Result<((Boxed<Sig>, (Boxed<Sig>, Boxed<Sig>)), &[Token]), Stop>
    ensures { Returns (λ x. (x.0, x.1.now)) result (r.write_parts depth tokens.now) }
{
    let (enable, rest) = boxed_signal(alloc, tokens, depth)?;
    let (parts, rest) = two_signals(alloc, rest, depth)?;
    Ok(((enable, parts), rest))
}

#[tactic(auto, unfolding(crate::specs::LineReading::write_line))]
fn write_line(alloc: Global, tokens: &[Token], depth: usize) -> Result<Line, Stop>
    ensures { Returns (λ x. x) result (r.write_line depth tokens.now) }
{
    let (to, rest) = ident(alloc, tokens, depth)?;
    let ((enable, (addr, value)), rest) = write_parts(alloc, rest, depth)?;
    whole(
        Line::Simple(What::Write {
            to,
            enable,
            addr,
            value,
        }),
        rest,
    )
}

#[tactic(auto, unfolding(crate::specs::LineReading::inst_line))]
fn inst_line(alloc: Global, tokens: &[Token], depth: usize) -> Result<Line, Stop>
    ensures { Returns (λ x. x) result (r.inst_line depth tokens.now) }
{
    let (to, rest) = ident(alloc, tokens, depth)?;
    let (of, rest) = name(alloc, rest)?;
    let (args, rest) = args(alloc, rest, depth)?;
    let (conns, rest) = conns(alloc, rest, depth)?;
    whole(
        Line::Simple(What::Inst {
            to,
            of,
            args,
            conns,
        }),
        rest,
    )
}

#[tactic(auto, unfolding(crate::specs::LineReading::for_line))]
fn for_line(alloc: Global, tokens: &[Token], depth: usize) -> Result<Line, Stop>
    ensures { Returns (λ x. x) result (r.for_line depth tokens.now) }
{
    let (var, rest) = name(alloc, tokens)?;
    let (from, rest) = atom(alloc, rest, depth)?;
    let (upto, rest) = atom(alloc, rest, depth)?;
    whole(Line::For { var, from, upto }, rest)
}

#[tactic(auto, unfolding(crate::specs::LineReading::if_line))]
fn if_line(alloc: Global, tokens: &[Token], depth: usize) -> Result<Line, Stop>
    ensures { Returns (λ x. x) result (r.if_line depth tokens.now) }
{
    let (cond, rest) = number(alloc, tokens, depth)?;
    whole(Line::If(cond), rest)
}

#[tactic(auto, unfolding(crate::specs::LineReading::top_line))]
fn top_line(alloc: Global, tokens: &[Token], depth: usize) -> Result<Line, Stop>
    ensures { Returns (λ x. x) result (r.top_line depth tokens.now) }
{
    let (name, rest) = name(alloc, tokens)?;
    let (args, rest) = top_args(alloc, rest, depth)?;
    whole(Line::Top { name, args }, rest)
}

#[tactic(auto, unfolding(crate::specs::LineReading::set_line))]
fn set_line(alloc: Global, tokens: &[Token]) -> Result<Line, Stop>
    ensures { Returns (λ x. x) result (r.set_line tokens.now) }
{
    let (port, rest) = name(alloc, tokens)?;
    let (value, rest) = value_of(rest)?;
    whole(Line::Step(BenchWhat::Set { port, value }), rest)
}

fn cycle_line(tokens: &[Token]) -> Result<Line, Stop>
    ensures { Returns (λ x. x) result (r.cycle_line tokens.now) }
{
    match tokens {
        [] => Ok(Line::Step(BenchWhat::Cycle { times: 1 })),
        [Token::Int(times), rest @ ..] => {
            if !is_end(rest) {
                return Err(Stop::Syntax);
            }
            Ok(Line::Step(BenchWhat::Cycle { times: *times }))
        }
        _ => Err(Stop::Syntax),
    }
}

fn else_line(tokens: &[Token]) -> Result<Line, Stop>
    ensures { Returns (λ x. x) result (r.at_end g.Else tokens.now) }
{
    if !is_end(tokens) {
        return Err(Stop::Syntax);
    }
    Ok(Line::Else)
}

fn end_line(tokens: &[Token]) -> Result<Line, Stop>
    ensures { Returns (λ x. x) result (r.at_end g.End tokens.now) }
{
    if !is_end(tokens) {
        return Err(Stop::Syntax);
    }
    Ok(Line::End)
}

fn bench_line(tokens: &[Token]) -> Result<Line, Stop>
    ensures { Returns (λ x. x) result (r.at_end g.Bench tokens.now) }
{
    if !is_end(tokens) {
        return Err(Stop::Syntax);
    }
    Ok(Line::Bench)
}

fn reset_line(tokens: &[Token]) -> Result<Line, Stop>
    ensures { Returns (λ x. x) result (r.at_end (g.Step bench_step.Reset) tokens.now) }
{
    if !is_end(tokens) {
        return Err(Stop::Syntax);
    }
    Ok(Line::Step(BenchWhat::Reset))
}

#[tactic(auto, unfolding(crate::specs::LineReading::line_by))]
fn line_by(alloc: Global, keyword: Keyword, tokens: &[Token], depth: usize) -> Result<Line, Stop>
    ensures { Returns (λ x. x) result (r.line_by keyword depth tokens.now) }
{
    match keyword {
        Keyword::Circuit => circuit_line(alloc, tokens),
        Keyword::Input => port_line(alloc, true, tokens, depth),
        Keyword::Output => port_line(alloc, false, tokens, depth),
        Keyword::Let => let_line(alloc, tokens, depth),
        Keyword::Wire => wire_line(alloc, tokens, depth),
        Keyword::Assign => assign_line(alloc, tokens, depth),
        Keyword::Label => label_line(alloc, tokens, depth),
        Keyword::Reg => reg_line(alloc, tokens, depth),
        Keyword::Memory => memory_line(alloc, tokens, depth),
        Keyword::Write => write_line(alloc, tokens, depth),
        Keyword::Inst => inst_line(alloc, tokens, depth),
        Keyword::For => for_line(alloc, tokens, depth),
        Keyword::If => if_line(alloc, tokens, depth),
        Keyword::Else => else_line(tokens),
        Keyword::End => end_line(tokens),
        Keyword::Top => top_line(alloc, tokens, depth),
        Keyword::Bench => bench_line(tokens),
        Keyword::Set => set_line(alloc, tokens),
        Keyword::Cycle => cycle_line(tokens),
        Keyword::Reset => reset_line(tokens),
    }
}

/// The line that the tokens are, with at most `depth` brackets open. `Syntax` where they are none,
/// `Memory` where memory runs out.
pub fn read_line(alloc: Global, tokens: &[Token], depth: usize) -> Result<Line, Stop>
    ensures { Returns (λ x. x) result (r.line_at depth tokens.now) }
{
    match tokens {
        [Token::Word(word), rest @ ..] => match keyword_of(word.bytes()) {
            Some(keyword) => line_by(alloc, keyword, rest, depth),
            None => Err(Stop::Syntax),
        },
        _ => Err(Stop::Syntax),
    }
}
