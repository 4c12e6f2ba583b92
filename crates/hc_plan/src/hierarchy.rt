//! The hierarchy of a plan whose rows are finished.
ghost use Rattle.std.specs.Prelude.{◌≡◌, ◌<◌, ◌≤◌, ◌++◌, ◌∷◌, [], ℕ, suc, None, Some, IfOk, OnOk, length, map, slice_get};
ghost use Rattle.std.specs.Arc.{arc_value};
ghost use Rattle.hc_dbstate.specs.Elaboration.{CallRow, hier_view};
ghost use Rattle.hc_plan.specs.Hierarchies.{AreFirstHiers, IsHierAt, row_of_call, view_over, views_of};
ghost use Rattle.hc_plan.specs.Plan.{IsPlanOf};
ghost use Rattle.hc_plan.specs.Stepping.{dones_of};
ghost use Rattle.hc_signal.specs.Member.{Has};

use crate::depth_first::circuit_of;
use crate::kinds::{Plan, PlanRow};
use crate::step::copy_of;
use hc_canon::EntryId;
use hc_dbstate::Hier;
use hc_fault::{ItemList, Name, NoMemory};
use hc_lang::{CircuitText, Design};
use hc_paths::kinds::Paths;
use std::alloc::Global;
use std::sync::Arc;

/// A hierarchy with the sums of a row, over those of its children.
fn hier(name: Name, entry: EntryId, paths: Paths, row: &PlanRow, kids: ItemList<Arc<Hier>>) -> Hier
    ensures { let own : CallRow = record {
      name = name;
      entry = entry;
      masks = paths.masks;
      instances = row.now.instances;
      weight = row.now.weight;
      words = row.now.words;
    } in hier_view result ≡ view_over own (views_of kids) }
{
    Hier {
        name,
        entry,
        paths,
        instances: row.instances,
        weight: row.weight,
        words: row.words,
        kids,
    }
}

/// The hierarchy of a row with its entry and its paths, over those of its children.
fn hier_over(
    alloc: Global,
    circuit: &CircuitText,
    row: &PlanRow,
    entry: EntryId,
    paths: &Paths,
    kids: ItemList<Arc<Hier>>,
) -> Result<Hier, NoMemory>
    ensures { let own = row_of_call circuit.now row.now (entry, paths.now.masks) in
        IfOk result (λ h. hier_view h ≡ view_over own (views_of kids)) }
{
    let name = Name::new(alloc, circuit.name.bytes())?;
    let paths = copy_of(alloc, paths)?;
    Ok(hier(name, entry, paths, row, kids))
}

/// Adds a hierarchy at the end.
fn add(hiers: &mut ItemList<Arc<Hier>>, hier: Arc<Hier>) -> Result<(), NoMemory>
    ensures { OnOk result (hiers.new ≡ hiers.old ++ hier ∷ []) }
{
    match hiers.push(hier) {
        Ok(()) => Ok(()),
        Err((_, refused)) => Err(refused),
    }
}

/// One more owner of the hierarchy at a place.
fn shared_at(hiers: &[Arc<Hier>], place: usize) -> Result<Arc<Hier>, NoMemory>
    requires { place < length hiers.now }
    ensures { IfOk result (λ hier. slice_get (views_of hiers.now) place ≡ Some (hier_view (arc_value hier))) }
{
    let shared = Arc::try_clone(&hiers[place])?;
    Ok(shared)
}

/// The hierarchies of these rows, in order, shared with all others that have them.
fn hiers_of(
    alloc: Global,
    hiers: &[Arc<Hier>],
    kids: &[u32],
) -> Result<ItemList<Arc<Hier>>, NoMemory>
    requires { (k : ℕ) → Has kids.now k → k < length hiers.now }
    ensures { IfOk result (λ found. map Some (views_of found) ≡ map (slice_get (views_of hiers.now)) kids.now) }
{
    let mut found = ItemList::with_capacity(alloc, kids.len())?;
    'kids: for kid in kids {
        let hier = shared_at(hiers, *kid as usize)?;
        add(&mut found, hier)?;
    }
    Ok(found)
}

/// The hierarchy of the row at a place, over those of the rows below it.
fn hier_at(
    alloc: Global,
    design: &Design,
    plan: &Plan,
    done: &[(EntryId, Paths)],
    below: &[Arc<Hier>],
    place: usize,
) -> Result<Hier, NoMemory>
    requires plan { IsPlanOf design.now plan.now.rows plan.now.stop }
    requires many { length done.now ≡ length plan.now.rows }
    requires place { place < length plan.now.rows }
    requires below { AreFirstHiers design.now plan.now.rows (dones_of done.now) place (views_of below.now) }
    ensures { IfOk result (λ h. IsHierAt design.now plan.now.rows (dones_of done.now) place (hier_view h)) }
{
    let row = &plan.rows.as_slice()[place];
    let circuit = circuit_of(design, &row.call);
    let kids = hiers_of(alloc, below, row.kids.as_slice())?;
    let (entry, paths) = &done[place];
    hier_over(alloc, circuit, row, *entry, paths, kids)
}

/// Adds a hierarchy at the end, for calls to share.
fn share(alloc: Global, hiers: &mut Vec<Arc<Hier>>, hier: Hier) -> Result<(), NoMemory>
    ensures { OnOk result (views_of hiers.new.items ≡ views_of hiers.old.items ++ hier_view hier ∷ []) }
{
    match Arc::new(alloc, hier) {
        Ok(shared) => {
            hiers.push(shared)?;
            Ok(())
        }
        Err(_) => Err(NoMemory),
    }
}

/// The hierarchies of the first rows, so many, in order.
fn first_hiers(
    alloc: Global,
    design: &Design,
    plan: &Plan,
    done: &[(EntryId, Paths)],
    count: usize,
) -> Result<Vec<Arc<Hier>>, NoMemory>
    requires plan { IsPlanOf design.now plan.now.rows plan.now.stop }
    requires many { length done.now ≡ length plan.now.rows }
    requires count { count ≤ length plan.now.rows }
    ensures { IfOk result (λ hiers. AreFirstHiers design.now plan.now.rows (dones_of done.now) count (views_of hiers.items)) }
{
    let mut hiers = Vec::new(alloc);
    'places: for place in 0..count {
        let hier = hier_at(alloc, design, plan, done, hiers.as_slice(), place)?;
        share(alloc, &mut hiers, hier)?;
    }
    Ok(hiers)
}

/// The hierarchy of the design of a plan without a stop, with the entry and the paths of each row. Each row has one hierarchy, which
/// all of its calls share.
pub fn hier_of(
    alloc: Global,
    design: &Design,
    plan: &Plan,
    done: &[(EntryId, Paths)],
) -> Result<Hier, NoMemory>
    requires plan { IsPlanOf design.now plan.now.rows plan.now.stop }
    requires whole { plan.now.stop ≡ None }
    requires many { length done.now ≡ length plan.now.rows }
    ensures { IfOk result (λ h. (k : ℕ) → suc k ≡ length plan.now.rows → IsHierAt design.now plan.now.rows (dones_of done.now) k (hier_view h)) }
{
    let last = plan.rows.as_slice().len() - 1;
    let below = first_hiers(alloc, design, plan, done, last)?;
    hier_at(alloc, design, plan, done, below.as_slice(), last)
}
