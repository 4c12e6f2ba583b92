//! One statement.
ghost use Rattle.std.specs.Prelude.{OnOk};
ghost use Rattle.hc_unfold.specs.Names.{AreKnown};
ghost use Rattle.hc_statements.specs.Gives.{PerformsInst};
ghost use Rattle.hc_statements.specs.Unrolled.{events_of};
ghost use Rattle.hc_statements.specs.Elaborated.{first_step};

use crate::instances::{InstStop, inst_line};
use crate::lines::{assign_line, label_line, let_line, wire_line};
use crate::state::Elaborating;
use crate::storage::{memory_line, reg_line, write_line};
use hc_lang::{Design, Stmt, What};
use hc_num::Env;
use std::alloc::Global;

/// What a plain statement does; a block does nothing here.
pub fn statement(
    alloc: Global,
    design: &Design,
    state: &mut Elaborating,
    env: &Env,
    stmt: &Stmt,
) -> Result<(), InstStop>
    requires { AreKnown state.old.graph state.old.names }
    ensures done { PerformsInst (λ x. (state.new, x)) result (first_step design.now (events_of stmt.now env.now) state.old) }
    ensures known { OnOk result (AreKnown state.new.graph state.new.names) }
{
    match &stmt.what {
        What::Let { to, sig } => Ok(let_line(alloc, state, env, to, sig)?),
        What::Wire { to, width } => Ok(wire_line(alloc, state, env, stmt.line, to, width)?),
        What::Assign { to, sig } => Ok(assign_line(alloc, state, env, to, sig)?),
        What::Label { to, label } => Ok(label_line(alloc, state, env, to, label)?),
        What::Reg {
            to,
            next,
            enable,
            clear,
            init,
        } => Ok(reg_line(alloc, state, env, to, next.get(), enable, clear, init)?),
        What::Memory { to, size, width } => Ok(memory_line(alloc, state, env, to, size, width)?),
        What::Write {
            to,
            enable,
            addr,
            value,
        } => Ok(write_line(alloc, state, env, to, enable.get(), addr.get(), value.get())?),
        What::Inst {
            to,
            of,
            args,
            conns,
        } => inst_line(
            alloc,
            design,
            state,
            env,
            stmt.line,
            to,
            of,
            args.as_slice(),
            conns.as_slice(),
        ),
        What::For { .. } | What::If { .. } => Ok(()),
    }
}
