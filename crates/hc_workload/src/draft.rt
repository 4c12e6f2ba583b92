//! A text under way, and the pseudo-random numbers that are drawn for it.
ghost use Rattle.std.specs.Prelude.{◌≡◌, ◌<◌, ◌∷◌, [], length, map, codes, decimal, OnOk};
ghost use Rattle.hc_workload.specs.Fills.{Fills};
ghost use Rattle.hc_workload.specs.Generator.{next_state as next_state_of, number_below};
ghost use Rattle.hc_workload.specs.Template.{below, number, one_of, said};

use hc_fault::NoMemory;
use itoa::Buffer;

const MULTIPLIER: u64 = 6_364_136_223_846_793_005;

const INCREMENT: u64 = 1_442_695_040_888_963_407;

/// A text under way, and the state of the generator of its numbers.
#[derive(Drop)]
pub(crate) struct Draft {
    pub(crate) text: Vec<u8>,
    pub(crate) state: u64,
}

/// The state after one more draw.
fn next_state(state: u64) -> u64
    ensures { result ≡ next_state_of state }
{
    state.wrapping_mul(MULTIPLIER).wrapping_add(INCREMENT)
}

impl Draft {
    /// Draws a number below a limit.
    fn draw(&mut self, limit: u64) -> u64
        requires { 0 < limit }
        ensures text { self.new.text ≡ self.old.text }
        ensures state { self.new.state ≡ next_state_of self.old.state }
        ensures number { result ≡ number_below limit (next_state_of self.old.state) }
        ensures range { result < limit }
    {
        self.state = next_state(self.state);
        (self.state >> 33) % limit
    }

    /// Adds a text.
    pub(crate) fn push(&mut self, text: &[u8]) -> Result<(), NoMemory>
        ensures { OnOk result (Fills (said text.now) self.old self.new) }
    {
        self.text.extend_from_slice(text)?;
        Ok(())
    }

    /// Adds a number in decimal digits.
    pub(crate) fn push_number(&mut self, value: u64) -> Result<(), NoMemory>
        ensures { OnOk result (Fills (number value) self.old self.new) }
    {
        let mut digits = Buffer::new();
        self.push(digits.format(value).as_bytes())
    }

    /// Adds a number that is drawn below a limit.
    pub(crate) fn push_below(&mut self, limit: u64) -> Result<(), NoMemory>
        requires { 0 < limit }
        ensures { OnOk result (Fills (below limit) self.old self.new) }
    {
        let drawn = self.draw(limit);
        let mut digits = Buffer::new();
        self.text
            .extend_from_slice(digits.format(drawn).as_bytes())?;
        Ok(())
    }

    /// Adds one of some texts, which is drawn.
    pub(crate) fn push_one_of(&mut self, texts: &[&[u8]]) -> Result<(), NoMemory>
        requires { 0 < length texts.now }
        ensures { OnOk result (Fills (one_of (map (λ t. t.now) texts.now)) self.old self.new) }
    {
        let place = self.draw(texts.len() as u64);
        self.text.extend_from_slice(texts[place as usize])?;
        Ok(())
    }
}
