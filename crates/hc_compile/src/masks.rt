//! The masks of used entries, and which are run output by output. Nothing rests on it: plans are checked.
use hc_canon::{EntryId, Form};
use hc_dbstate::{DbState, is_marked};
use hc_draft::flag_at;
use hc_fault::{ItemList, NoMemory};
use hc_paths::kinds::{PathStop, Paths};
use hc_paths::make::paths;
use hc_signal::Circuit;
use hc_steps::all_of;
use std::alloc::Global;

/// Of each entry its masks; its coarse masks, no input or all, where its instances have coarse masks if there is an order
/// then; and whether there is.
#[derive(Drop)]
pub(crate) struct Masks {
    pub(crate) own: Vec<Paths>,
    pub(crate) coarse: Vec<Paths>,
    pub(crate) whole: Vec<bool>,
}

/// Of each entry whether its outputs are needed one by one, and whether those of its instances are.
#[derive(Drop)]
pub(crate) struct Splits {
    pub(crate) own: Vec<bool>,
    pub(crate) kids: Vec<bool>,
}

/// The same masks.
fn copy_of(alloc: Global, it: &Paths) -> Result<Paths, NoMemory> {
    let mut masks = Vec::new(alloc);
    masks.extend_from_slice(it.masks.as_slice())?;
    Ok(Paths {
        masks: ItemList::from_vec(masks),
    })
}

/// No masks.
fn no_masks(alloc: Global) -> Paths {
    Paths {
        masks: ItemList::new(alloc),
    }
}

/// No input or all.
pub(crate) fn coarse_of(alloc: Global, it: &Paths, every: u128) -> Result<Paths, NoMemory> {
    let mut masks = Vec::new(alloc);
    for mask in it.masks.as_slice() {
        masks.push(if *mask == 0 { 0 } else { every })?;
    }
    Ok(Paths {
        masks: ItemList::from_vec(masks),
    })
}

/// The masks of an entry.
pub(crate) fn masks_at(alloc: Global, masks: &[Paths], id: EntryId) -> Result<Paths, NoMemory> {
    match masks.get(id.0) {
        None => Ok(no_masks(alloc)),
        Some(it) => copy_of(alloc, it),
    }
}

/// The masks of the instances of a form.
pub(crate) fn kid_masks(
    alloc: Global,
    masks: &[Paths],
    kids: &[EntryId],
) -> Result<Vec<Paths>, NoMemory> {
    let mut list = Vec::new(alloc);
    for id in kids {
        list.push(masks_at(alloc, masks, *id)?)?;
    }
    Ok(list)
}

/// The masks of a circuit over those of its instances.
fn paths_of(alloc: Global, circuit: &Circuit, kids: &[Paths]) -> Result<Paths, PathStop> {
    if circuit.ports().inputs.as_slice().len() > 128 {
        return Err(PathStop::NoMemory);
    }
    paths(alloc, circuit, kids)
}

/// The mask of all inputs of a form.
pub(crate) fn every_of(form: &Form) -> u128 {
    all_of(form.circuit().ports().inputs.as_slice().len())
}

/// The masks of a form, where there is no loop.
fn own_masks(alloc: Global, masks: &Masks, form: &Form) -> Result<Paths, NoMemory> {
    let kids = kid_masks(alloc, masks.own.as_slice(), form.kids())?;
    match paths_of(alloc, form.circuit(), kids.as_slice()) {
        Ok(own) => Ok(own),
        Err(_) => Err(NoMemory),
    }
}

/// The coarse masks of a form that has these masks, and whether there is an order where its instances have coarse masks.
fn coarse_masks(
    alloc: Global,
    masks: &Masks,
    form: &Form,
    own: &Paths,
) -> Result<(Paths, bool), NoMemory> {
    let kids = kid_masks(alloc, masks.coarse.as_slice(), form.kids())?;
    match paths_of(alloc, form.circuit(), kids.as_slice()) {
        Ok(it) => Ok((coarse_of(alloc, &it, every_of(form))?, true)),
        Err(PathStop::Loop) => Ok((coarse_of(alloc, own, every_of(form))?, false)),
        Err(PathStop::NoMemory) => Err(NoMemory),
    }
}

/// Adds the masks of a form.
fn add_masks(alloc: Global, masks: &mut Masks, form: &Form) -> Result<(), NoMemory> {
    let own = own_masks(alloc, masks, form)?;
    let (coarse, whole) = coarse_masks(alloc, masks, form, &own)?;
    masks.own.push(own)?;
    masks.coarse.push(coarse)?;
    masks.whole.push(whole)?;
    Ok(())
}

/// Adds no masks.
fn skip_masks(alloc: Global, masks: &mut Masks) -> Result<(), NoMemory> {
    masks.own.push(no_masks(alloc))?;
    masks.coarse.push(no_masks(alloc))?;
    masks.whole.push(false)?;
    Ok(())
}

/// The masks of the marked entries, kids first.
pub(crate) fn masks_of_all(alloc: Global, db: &DbState, marks: &[bool]) -> Result<Masks, NoMemory> {
    let mut masks = Masks {
        own: Vec::new(alloc),
        coarse: Vec::new(alloc),
        whole: Vec::new(alloc),
    };
    for place in 0..db.len() {
        let id = EntryId(place);
        if is_marked(marks, id) {
            add_masks(alloc, &mut masks, db.get(id))?;
        } else {
            skip_masks(alloc, &mut masks)?;
        }
    }
    Ok(masks)
}

fn set_flag(flags: &mut Vec<bool>, at: usize) {
    if let Some(flag) = flags.get_mut(at) {
        *flag = true;
    }
}

/// The kids of a form are needed output by output.
fn split_kids(splits: &mut Splits, kids: &[EntryId]) {
    for id in kids {
        set_flag(&mut splits.own, id.0);
    }
}

/// Which of the marked entries are needed output by output, parents first.
pub(crate) fn splits_of_all(
    alloc: Global,
    db: &DbState,
    marks: &[bool],
    masks: &Masks,
) -> Result<Splits, NoMemory> {
    let mut splits = Splits {
        own: vec![in alloc; false; db.len()]?,
        kids: vec![in alloc; false; db.len()]?,
    };
    let count = db.len();
    for below in 0..count {
        let place = count - 1 - below;
        let id = EntryId(place);
        if is_marked(marks, id) {
            let own = flag_at(splits.own.as_slice(), place);
            if own || !flag_at(masks.whole.as_slice(), place) {
                set_flag(&mut splits.kids, place);
                split_kids(&mut splits, db.get(id).kids());
            }
        }
    }
    Ok(splits)
}
