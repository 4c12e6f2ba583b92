//! The listing of a simulation.
ghost use Rattle.std.specs.Prelude.{◌≡◌, ◌≤◌, ◌<◌, ◌+◌, ◌/◌, ◌++◌, ◌∷◌, [], length, drop, codes, decimal};
ghost use Rattle.hc_bits.specs.Digits.{digit, hex, hex_of};
ghost use Rattle.hc_bench.specs.Listing.{CycleRow, value_text, values_text, row_text};
ghost use Rattle.hc_bench.specs.Queued.{IsQueued};
ghost use Rattle.hc_signal.specs.Tree.{graph};

use crate::buffer::WriteBuffer;
use crate::sends::{write, write_pieces};
use crate::sim::Sim;
use hc_bits::Bits;
use hc_outside::{Failed, Sink};
use hc_signal::Port;
use itoa::Buffer;

/// A lower-case hexadecimal digit.
fn digit_of(value: u8) -> u8
    requires { value < 16 }
    ensures { result ≡ digit value }
{
    if value < 10 {
        b'0' + value
    } else {
        b'a' - 10 + value
    }
}

/// Puts this many hexadecimal digits to the front, the lowest ones of the value.
fn put_hex(digits: &mut [u8], count: usize, value: u128)
    requires { count ≤ length digits.old }
    ensures { digits.new ≡ hex count value ++ drop count digits.old }
{
    if count > 0 {
        digits[count - 1] = digit_of((value % 16) as u8);
        put_hex(digits, count - 1, value / 16);
    }
}

/// Writes an output and its value.
fn write_value<K: Sink>(
    to: &mut K,
    waiting: &mut WriteBuffer,
    port: &Port,
    value: Bits,
) -> Result<(), Failed>
    requires { value.width ≡ port.now.width }
    ensures { IsQueued (K.taken to.old) (K.taken to.new) (K.faults to.old) (K.faults to.new) waiting.old waiting.new result (value_text (port.now, value.value)) }
{
    let mut digits = [0u8; 32];
    let count = value.width().div_ceil(4) as usize;
    put_hex(&mut digits, count, value.value());
    write_pieces(
        to,
        waiting,
        &[b" ", port.name.bytes(), b"=", digits.split_at(count).0],
    )
}

/// Writes a number in decimal digits.
fn write_number<K: Sink>(to: &mut K, waiting: &mut WriteBuffer, number: u32) -> Result<(), Failed>
    ensures { IsQueued (K.taken to.old) (K.taken to.new) (K.faults to.old) (K.faults to.new) waiting.old waiting.new result (decimal number) }
{
    let mut digits = Buffer::new();
    write(to, waiting, digits.format(number).as_bytes())
}

/// Writes the outputs before the last clock edge.
fn write_before<S: Sim, K: Sink>(
    to: &mut K,
    waiting: &mut WriteBuffer,
    sim: &S,
    outputs: &[Port],
) -> Result<(), Failed>
    requires { (graph (S.runs sim.now).tree).ports.outputs ≡ outputs.now }
    ensures { IsQueued (K.taken to.old) (K.taken to.new) (K.faults to.old) (K.faults to.new) waiting.old waiting.new result (values_text outputs.now (S.runs sim.now).before) }
{
    sim.lawful();
    'outputs: for (place, port) in outputs.iter().enumerate() {
        write_value(to, waiting, port, sim.before(place as u32))?;
    }
    Ok(())
}

/// Writes the outputs after the last clock edge.
fn write_after<S: Sim, K: Sink>(
    to: &mut K,
    waiting: &mut WriteBuffer,
    sim: &S,
    outputs: &[Port],
) -> Result<(), Failed>
    requires { (graph (S.runs sim.now).tree).ports.outputs ≡ outputs.now }
    ensures { IsQueued (K.taken to.old) (K.taken to.new) (K.faults to.old) (K.faults to.new) waiting.old waiting.new result (values_text outputs.now (S.runs sim.now).after) }
{
    sim.lawful();
    'outputs: for (place, port) in outputs.iter().enumerate() {
        write_value(to, waiting, port, sim.after(place as u32))?;
    }
    Ok(())
}

/// Writes the line of the last cycle, which has this number.
pub(crate) fn write_row<S: Sim, K: Sink>(
    to: &mut K,
    waiting: &mut WriteBuffer,
    sim: &S,
    outputs: &[Port],
    cycle: u32,
) -> Result<(), Failed>
    requires { (graph (S.runs sim.now).tree).ports.outputs ≡ outputs.now }
    ensures { let row : CycleRow = record {
      cycle = cycle;
      before = (S.runs sim.now).before;
      after = (S.runs sim.now).after;
    } in IsQueued (K.taken to.old) (K.taken to.new) (K.faults to.old) (K.faults to.new) waiting.old waiting.new result (row_text outputs.now row ++ 10 ∷ []) }
{
    write_number(to, waiting, cycle)?;
    write_before(to, waiting, sim, outputs)?;
    write(to, waiting, b" |")?;
    write_after(to, waiting, sim, outputs)?;
    write(to, waiting, b"\n")
}
