ghost use Rattle.std.specs.Prelude.{◌≡◌, false, replicate, slice_get, slice_set, IfOk};
ghost use Rattle.hc_bits.specs.BitVector.{BitVector, IsWidth};

use hc_bits::Bits;
use hc_fault::NoMemory;
use std::alloc::Global;
use std::marker::Model;

/// The value 0 in this width.
pub fn zero(width: u32) -> Bits
    requires { IsWidth width }
    ensures { result ≡ record { width = width; value = 0 } }
{
    match Bits::new(width, 0) {
        Some(zero) => zero,
        None => unreachable!(),
    }
}

/// The words of a memory.
#[derive(Drop)]
pub struct Words {
    words: Vec<Bits>,
}

impl Model for Words {
    ghost use Rattle.std.specs.Prelude.{List};
    ghost use Rattle.hc_bits.specs.BitVector.{BitVector};

    ghost Value = { List BitVector };

    ghost view = { λ words. words.words.items };
}

impl Words {
    /// So many words of this width, all 0.
    pub fn zeros(alloc: Global, size: u32, width: u32) -> Result<Words, NoMemory>
        requires { IsWidth width }
        ensures { IfOk result (λ words. words ≡ replicate size (let word : BitVector = record { width = width; value = 0 } in word)) }
    {
        let words = vec![in alloc; zero(width); size as usize]?;
        Ok(Words { words })
    }

    /// The word at a place, none past the end.
    pub fn word(&self, place: u128) -> Option<Bits>
        ensures { result ≡ slice_get self.now place }
    {
        if place < self.words.len() as u128 {
            Some(self.words[place as usize])
        } else {
            None
        }
    }

    /// Replaces the word at a place, and tells whether it was another. Nothing changes past the
    /// end.
    #[tactic(auto, using(std::proofs::lemmas::List::set_past))]
    pub fn write(&mut self, place: u128, word: Bits) -> bool
        ensures value { self.new ≡ slice_set self.old place word }
        ensures told { result ≡ false → self.new ≡ self.old }
    {
        if place < self.words.len() as u128 {
            let changed = self.words[place as usize] != word;
            self.words[place as usize] = word;
            changed
        } else {
            false
        }
    }
}
