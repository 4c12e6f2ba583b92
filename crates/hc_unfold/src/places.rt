//! Numbers and the names that they stand in.
ghost use Rattle.std.specs.Prelude.{◌≡◌, ◌++◌, ◌∷◌, [], map, IfErr, OnOk};
ghost use Rattle.hc_signal.specs.declared.stop.BuildStop.TheVariants as stop;
ghost use Rattle.hc_unfold.specs.Gives.{Gives};
ghost use Rattle.hc_unfold.specs.Signals as written;
ghost use Rattle.hc_unfold.specs.Places as spec;

use crate::names::Key;
use hc_fault::Name;
use hc_lang::{IdentText, Num};
use hc_num::{Env, eval};
use hc_signal::BuildStop;
use std::alloc::Global;

/// The name that is meant. F11 or F13 where its index has no value.
pub fn key(alloc: Global, ident: &IdentText, env: &Env) -> Result<Key, BuildStop>
    ensures { Gives (λ key. key) result (spec.key (written.place env.now ident.now)) }
{
    let index = match &ident.index {
        Some(num) => Some(eval(num, env)?),
        None => None,
    };
    let name = Name::new(alloc, ident.name.bytes())?;
    Ok((name, index))
}

/// The values of numbers, or the first fault.
#[tactic(auto, using(crate::proofs::Lists::onto_none, crate::proofs::Lists::onto_more))]
pub fn numbers(alloc: Global, nums: &[Num], env: &Env) -> Result<Vec<i64>, BuildStop>
    ensures { Gives (λ values. values.items) result (spec.numbers (map (written.number env.now) nums.now)) }
{
    let mut values = Vec::new(alloc);
    'nums: for num in nums {
        let value = eval(num, env)?;
        push(&mut values, value)?;
    }
    Ok(values)
}

/// Adds a value at the end.
fn push(values: &mut Vec<i64>, value: i64) -> Result<(), BuildStop>
    ensures ok { OnOk result (values.new.items ≡ values.old.items ++ value ∷ []) }
    ensures memory { IfErr result (λ e. e ≡ stop.NoMemory) }
{
    match values.push(value) {
        Ok(()) => Ok(()),
        Err(_) => Err(BuildStop::NoMemory),
    }
}
