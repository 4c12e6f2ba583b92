ghost use Rattle.std.specs.Prelude.{◌≡◌, ◌+◌, ◌<◌, ◌≤◌, ◌==◌, None, Some, IfOk, OnErr, length, sum, nat_abs};
ghost use Rattle.std.specs.List.{list_all};
ghost use Rattle.hc_bits.specs.BitVector.{IsWidth};
ghost use Rattle.hc_bits.specs.Catalogue.{arity};
ghost use Rattle.hc_signal.specs.declared.signal.Node.TheVariants as node;
ghost use Rattle.hc_signal.specs.Rules.{IsVerdict, two_rule, two_width, mux_rule, first_width, cat_rule, select_rule, select_width, op_rule, op_width};
ghost use Rattle.hc_signal.specs.Builds.{IsNode, AreNodes, HasRoomForNode, Obeys, AddsNode, width_at, widths_at};

use super::Builder;
use crate::rules::{fits_selector, range_of_select, width_of_two};
use crate::signal::{Ids, Node, NodeId, Op2};
use crate::stop::BuildStop;
use hc_bits::OpKind;
use hc_fault::FaultKind;

impl Builder {
    /// Adds an operator over two nodes. F12 where a product is wider than 128 bits; F15 where the operands of another
    /// operator differ in width.
    pub fn two(&mut self, op: Op2, a: NodeId, b: NodeId) -> Result<NodeId, BuildStop>
        requires room { HasRoomForNode self.old 2 }
        requires a_node { IsNode self.old a }
        requires b_node { IsNode self.old b }
        ensures made { let width = two_width op (width_at self.old a) (width_at self.old b) in
            IfOk result (AddsNode self.old width (node.Two op a b) self.new) }
        ensures rule { Obeys result (two_rule op (width_at self.old a) (width_at self.old b)) }
        ensures same { OnErr result (self.new ≡ self.old) }
    {
        let width = width_of_two(op, self.width(a), self.width(b))?;
        Ok(self.add(width, Node::Two { op, a, b })?)
    }

    /// Adds the complement of a node.
    pub fn not(&mut self, a: NodeId) -> Result<NodeId, BuildStop>
        requires room { HasRoomForNode self.old 1 }
        requires node { IsNode self.old a }
        ensures made { IfOk result (AddsNode self.old (width_at self.old a) (node.Not a) self.new) }
        ensures rule { Obeys result None }
        ensures same { OnErr result (self.new ≡ self.old) }
    {
        let width = self.width(a);
        Ok(self.add(width, Node::Not { a })?)
    }

    /// Adds a choice among two or more cases by the number of the selector, the last one past the end. F15 where the
    /// cases differ in width, else F17 where they are more than the selector has numbers.
    pub fn mux(&mut self, sel: NodeId, cases: &[NodeId]) -> Result<NodeId, BuildStop>
        requires room { HasRoomForNode self.old (1 + length cases.now) }
        requires sel_node { IsNode self.old sel }
        requires case_nodes { AreNodes self.old cases.now }
        requires two { 2 ≤ length cases.now }
        ensures made { let width = first_width (widths_at self.old cases.now) in
            IfOk result (AddsNode self.old width (node.Mux sel cases.now) self.new) }
        ensures rule { Obeys result (mux_rule (width_at self.old sel) (widths_at self.old cases.now)) }
        ensures same { OnErr result (self.new ≡ self.old) }
    {
        let width = self.mux_width(sel, cases)?;
        let cases = Ids::from_slice(self.alloc, cases)?;
        Ok(self.add(width, Node::Mux { sel, cases })?)
    }

    /// Adds two or more nodes side by side, the most significant first. F12 where they are wider than 128 bits.
    pub fn cat(&mut self, parts: &[NodeId]) -> Result<NodeId, BuildStop>
        requires room { HasRoomForNode self.old (length parts.now) }
        requires part_nodes { AreNodes self.old parts.now }
        requires two { 2 ≤ length parts.now }
        ensures made { let width = sum (widths_at self.old parts.now) in
            IfOk result (AddsNode self.old width (node.Cat parts.now) self.new) }
        ensures rule { Obeys result (cat_rule (widths_at self.old parts.now)) }
        ensures same { OnErr result (self.new ≡ self.old) }
    {
        let width = self.cat_width(parts)?;
        let parts = Ids::from_slice(self.alloc, parts)?;
        Ok(self.add(width, Node::Cat { parts })?)
    }

    /// Adds the bits from `hi` down to `lo` of a node. F16 unless `0 <= lo <= hi` and `hi` is below its width.
    pub fn select(&mut self, a: NodeId, hi: i64, lo: i64) -> Result<NodeId, BuildStop>
        requires room { HasRoomForNode self.old 1 }
        requires node { IsNode self.old a }
        ensures made { let high = nat_abs hi in
            let low = nat_abs lo in
            IfOk result (AddsNode self.old (select_width high low) (node.Select a high low) self.new) }
        ensures rule { Obeys result (select_rule (width_at self.old a) hi lo) }
        ensures same { OnErr result (self.new ≡ self.old) }
    {
        let (hi, lo) = range_of_select(self.width(a), hi, lo)?;
        Ok(self.add(hi - lo + 1, Node::Select { a, hi, lo })?)
    }

    /// Adds an operation of the catalogue over as many nodes as its kind takes. F15 where they differ in width.
    pub fn op(&mut self, kind: OpKind, args: &[NodeId]) -> Result<NodeId, BuildStop>
        requires room { HasRoomForNode self.old (length args.now) }
        requires arg_nodes { AreNodes self.old args.now }
        requires arity { length args.now ≡ arity kind }
        ensures made { let width = op_width kind (widths_at self.old args.now) in
            IfOk result (AddsNode self.old width (node.Op kind args.now) self.new) }
        ensures rule { Obeys result (op_rule (widths_at self.old args.now)) }
        ensures same { OnErr result (self.new ≡ self.old) }
    {
        let width = self.width(args[0]);
        if !self.have_width(args, width) {
            return Err(BuildStop::Fault(FaultKind::WidthMismatch));
        }
        let args = Ids::from_slice(self.alloc, args)?;
        Ok(self.add(kind.result_width(width), Node::Op { kind, args })?)
    }

    /// The width of a choice, or its fault.
    fn mux_width(&self, sel: NodeId, cases: &[NodeId]) -> Result<u32, FaultKind>
        requires sel_node { IsNode self.now sel }
        requires case_nodes { AreNodes self.now cases.now }
        requires two { 2 ≤ length cases.now }
        ensures value { IfOk result (λ w. (w ≡ first_width (widths_at self.now cases.now)) × IsWidth w) }
        ensures rule { IsVerdict result (mux_rule (width_at self.now sel) (widths_at self.now cases.now)) }
    {
        let width = self.width(cases[0]);
        if !self.have_width(cases, width) {
            return Err(FaultKind::WidthMismatch);
        }
        if !fits_selector(cases.len(), self.width(sel)) {
            return Err(FaultKind::MuxCount);
        }
        Ok(width)
    }

    /// The sum of the widths, or the fault.
    fn cat_width(&self, parts: &[NodeId]) -> Result<u32, FaultKind>
        requires part_nodes { AreNodes self.now parts.now }
        requires some { 1 ≤ length parts.now }
        ensures value { IfOk result (λ w. (w ≡ sum (widths_at self.now parts.now)) × IsWidth w) }
        ensures rule { IsVerdict result (cat_rule (widths_at self.now parts.now)) }
    {
        let mut width = 0;
        for part in parts {
            width += self.width(*part);
            if width > 128 {
                return Err(FaultKind::Width);
            }
        }
        Ok(width)
    }

    /// Whether each node has this width.
    fn have_width(&self, ids: &[NodeId], width: u32) -> bool
        requires { AreNodes self.now ids.now }
        ensures { result ≡ list_all (λ w. w == width) (widths_at self.now ids.now) }
    {
        for id in ids {
            if self.width(*id) != width {
                return false;
            }
        }
        true
    }
}
