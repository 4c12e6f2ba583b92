//! The steps of a plan, part by part. Nothing rests on it: plans are checked.
use crate::needs::{Needs, kid_parts, output_at};
use crate::through::{connection, mask_of_output};
use hc_canon::Form;
use hc_fault::NoMemory;
use hc_paths::kinds::Paths;
use hc_signal::{Circuit, InstId, Node, NodeId};
use hc_steps::{NOWHERE, Part, Plan, Spot, Step, is_bit, narrow, starts_of_inputs};
use std::alloc::Global;

/// The parts so far, the part under way, and of each input and each part of each instance the mask of the part that passes
/// or runs it.
#[derive(Drop)]
pub(crate) struct Writer {
    pub(crate) parts: Vec<Part>,
    pub(crate) part_moves: Vec<bool>,
    pub(crate) spots: Vec<Spot>,
    pub(crate) first_input: Vec<u32>,
    pub(crate) first_part: Vec<u32>,
    passed: Vec<Option<u128>>,
    ran: Vec<Option<u128>>,
    steps: Vec<Step>,
    mask: u128,
    moves: bool,
}

/// Nothing is written yet.
pub(crate) fn make_writer(
    alloc: Global,
    circuit: &Circuit,
    needs: &Needs,
) -> Result<Writer, NoMemory> {
    let (first_input, inputs) = starts_of_inputs(alloc, circuit)?;
    let mut first_part = Vec::new(alloc);
    first_part.extend_from_slice(needs.first_part.as_slice())?;
    Ok(Writer {
        parts: Vec::new(alloc),
        part_moves: Vec::new(alloc),
        spots: vec![in alloc; NOWHERE; circuit.nodes().len()]?,
        first_input,
        first_part,
        passed: vec![in alloc; None; inputs as usize]?,
        ran: vec![in alloc; None; needs.runs.len()]?,
        steps: Vec::new(alloc),
        mask: 0,
        moves: false,
    })
}

/// Whether a mask lies within the one of the part under way.
fn is_met(noted: Option<u128>, mask: u128) -> bool {
    match noted {
        None => false,
        Some(own) => own & !mask == 0,
    }
}

/// The place of a row.
fn place_in(starts: &[u32], inst: InstId, at: usize) -> usize {
    match starts.get(inst.0 as usize) {
        None => usize::MAX,
        Some(start) => match (*start as usize).checked_add(at) {
            None => usize::MAX,
            Some(place) => place,
        },
    }
}

fn noted_at(noted: &[Option<u128>], at: usize) -> Option<u128> {
    match noted.get(at) {
        None => None,
        Some(it) => *it,
    }
}

fn note_at(noted: &mut Vec<Option<u128>>, at: usize, mask: u128) {
    if let Some(it) = noted.get_mut(at) {
        *it = Some(mask);
    }
}

impl Writer {
    /// What was written.
    pub(crate) fn into_parts(self) -> (Vec<Part>, Vec<bool>, Vec<Spot>, Vec<u32>) {
        let Writer {
            parts,
            part_moves,
            spots,
            first_input: _,
            first_part,
            passed: _,
            ran: _,
            steps: _,
            mask: _,
            moves: _,
        } = self;
        (parts, part_moves, spots, first_part)
    }

    /// Passes an input of an instance, if no part within this one does.
    fn pass(&mut self, circuit: &Circuit, inst: InstId, port: u32) -> Result<(), NoMemory> {
        let at = place_in(self.first_input.as_slice(), inst, port as usize);
        if is_met(noted_at(self.passed.as_slice(), at), self.mask) {
            return Ok(());
        }
        match connection(circuit, inst, port) {
            None => Err(NoMemory),
            Some(node) => {
                self.steps.push(Step::Pass { node, inst, port })?;
                note_at(&mut self.passed, at, self.mask);
                Ok(())
            }
        }
    }

    /// Passes the inputs of an instance that a mask names.
    fn pass_all(&mut self, circuit: &Circuit, inst: InstId, needs: u128) -> Result<(), NoMemory> {
        if needs == 0 {
            return Ok(());
        }
        for port in 0..128 {
            if is_bit(needs, port) {
                self.pass(circuit, inst, port)?;
            }
        }
        Ok(())
    }

    /// Runs a part of an instance, if no part within this one does.
    fn run(
        &mut self,
        circuit: &Circuit,
        inst: InstId,
        part: usize,
        needs: u128,
    ) -> Result<(), NoMemory> {
        let at = place_in(self.first_part.as_slice(), inst, part);
        if is_met(noted_at(self.ran.as_slice(), at), self.mask) {
            return Ok(());
        }
        self.pass_all(circuit, inst, needs)?;
        let part = narrow(part)?;
        self.steps.push(Step::Run { inst, part })?;
        note_at(&mut self.ran, at, self.mask);
        Ok(())
    }

    /// Runs the parts of an instance up to one that lie within a mask.
    fn run_within(
        &mut self,
        circuit: &Circuit,
        inst: InstId,
        parts: &[Part],
        end: usize,
        mask: u128,
    ) -> Result<(), NoMemory> {
        for b in 0..parts.len() {
            if b <= end {
                let needs = parts[b].needs();
                if needs & !mask == 0 {
                    self.run(circuit, inst, b, needs)?;
                }
            }
        }
        Ok(())
    }

    /// Notes where the step of a node stands, and adds it.
    fn compute(&mut self, node: NodeId, step: Step) -> Result<(), NoMemory> {
        let spot = Spot {
            part: narrow(self.parts.len())?,
            step: narrow(self.steps.len())?,
        };
        if let Some(own) = self.spots.get_mut(node.0 as usize) {
            *own = spot;
        }
        self.steps.push(step)?;
        Ok(())
    }

    /// Adds the step of a node, after those that it needs of its instance.
    pub(crate) fn node(
        &mut self,
        form: &Form,
        plans: &[Plan],
        kids: &[Paths],
        id: NodeId,
    ) -> Result<(), NoMemory> {
        let circuit = form.circuit();
        match output_at(circuit, id) {
            Some((inst, port)) => {
                let parts = kid_parts(plans, form, inst);
                let mask = mask_of_output(kids, inst, port);
                self.run_within(circuit, inst, parts, parts.len(), mask)?;
                self.compute(
                    id,
                    Step::Take {
                        node: id,
                        inst,
                        port,
                    },
                )
            }
            None => {
                if has_step(circuit, id) {
                    self.compute(id, Step::Make { node: id })
                } else {
                    Ok(())
                }
            }
        }
    }

    /// Runs a part of an instance, after those that come before it.
    pub(crate) fn part(
        &mut self,
        form: &Form,
        plans: &[Plan],
        inst: InstId,
        part: usize,
    ) -> Result<(), NoMemory> {
        let parts = kid_parts(plans, form, inst);
        match parts.get(part) {
            None => Ok(()),
            Some(it) => self.run_within(form.circuit(), inst, parts, part, it.needs()),
        }
    }

    /// Ends the part under way, if it has steps, and begins one.
    pub(crate) fn next_part(
        &mut self,
        alloc: Global,
        mask: u128,
        moves: bool,
    ) -> Result<(), NoMemory> {
        if self.steps.len() > 0 {
            let steps = std::mem::replace(&mut self.steps, Vec::new(alloc));
            self.parts.push(Part {
                needs: self.mask,
                steps,
            })?;
            self.part_moves.push(self.moves)?;
        }
        self.mask = mask;
        self.moves = moves;
        Ok(())
    }
}

/// Whether a node of the circuit itself has a step.
fn has_step(circuit: &Circuit, id: NodeId) -> bool {
    match circuit.nodes().get(id.0 as usize) {
        None => false,
        Some(row) => match &row.node {
            Node::Input { .. } | Node::Const { .. } => false,
            _ => true,
        },
    }
}
