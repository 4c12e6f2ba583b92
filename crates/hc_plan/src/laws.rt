ghost use Rattle.std.specs.Prelude.{◌≡◌, suc, ◌+◌, ◌<◌, ◌≤◌, ◌++◌, ◌∷◌, [], max, ℕ, List, Option, Some, None, Result, Ok, Err, length, map, slice_get, ℤ};
ghost use Rattle.hc_body.specs.declared.kinds.Body.{Body};
ghost use Rattle.hc_body.specs.BodyOf.{BodyOf, IsCallOf};
ghost use Rattle.hc_dbstate.specs.declared.hier.Hier.{Hier};
ghost use Rattle.hc_dbstate.specs.Elaboration.{hier_view};
ghost use Rattle.hc_dbstate.specs.History.{History, IsLegal};
ghost use Rattle.hc_fault.specs.declared.fault.Fault.{Fault};
ghost use Rattle.hc_fault.specs.declared.fault.FaultKind.{FaultKind};
ghost use Rattle.hc_fault.specs.declared.fault.Path.{Path};
ghost use Rattle.hc_lang.specs.declared.tree.CircuitText.{CircuitText};
ghost use Rattle.hc_lang.specs.declared.tree.Design.{Design};
ghost use Rattle.hc_plan.specs.Distinct.{AreDistinct, AreFirstFinishes};
ghost use Rattle.hc_plan.specs.Elaborates.{DesignElaborates, ElaborateChildren, Elaborated, ElaboratedCall, Elaborates, FinishedCall, Sums, TreeFinishes, limit_passed, most_words, never, own_sums, plus};
ghost use Rattle.hc_plan.specs.Loops.{AreFree, IsFirstLoop};
ghost use Rattle.hc_plan.specs.Finishing.{AreOutcomes, Outcome, any_form, ids_of};
ghost use Rattle.hc_plan.specs.Hierarchies.{AreEntriesOf, Done, ElaboratesIn, IsHierAt};
ghost use Rattle.hc_plan.specs.Plan.{Adds, AreRows, IsPlanOf, calls_of, row_sums};
ghost use Rattle.hc_plan.specs.Planning.{ArePlanned, IsPlanned};
ghost use Rattle.hc_plan.specs.declared.kinds.PlanRow.{PlanRow};
ghost use Rattle.hc_signal.specs.Lawful.{IsLawful};
ghost use Rattle.hc_signal.specs.Member.{Has};
ghost use Rattle.hc_signal.specs.Occurrences.{HasCombLoop};
ghost use Rattle.hc_statements.specs.declared.kinds.Call.{Call};
ghost use Rattle.hc_statements.specs.declared.kinds.Child.{Child};
ghost use Rattle.hc_statements.specs.Elaborated.{child_path, fault_at};

use hc_body::laws::{
    bodies_are_single, bodies_have_their_children, bodies_have_their_ports, bodies_stay,
};

/// The calls that a design finishes before its tree fault, and that fault or the whole, are single.
pub fn tree_faults_are_single()
    ensures { (d : Design) (done other : List FinishedCall) (r s : Result Elaborated Fault) → TreeFinishes d done r → TreeFinishes d other s → (done ≡ other) × (r ≡ s) }
{
    bodies_are_single();
}

/// A design elaborates to one hierarchy or one fault, and not to another.
pub fn designs_elaborate_once()
    ensures { (d : Design) (r s : Result Elaborated Fault) → DesignElaborates d r → DesignElaborates d s → r ≡ s }
{
    bodies_are_single();
}

/// The fault of a design is the loop of the first finished call that has one, at its path; else it is the tree fault, if there is
/// one; else the design is whole.
pub fn loops_come_first()
    ensures free { (d : Design) (done : List FinishedCall) (r : Result Elaborated Fault) → TreeFinishes d done r → AreFree HasCombLoop done → DesignElaborates d r }
    ensures loops { (d : Design) (done before : List FinishedCall) (r : Result Elaborated Fault) (x : FinishedCall) → TreeFinishes d done r → IsFirstLoop HasCombLoop done before x → DesignElaborates d (Err (fault_at x.path FaultKind.CombLoop 0)) }
{}

/// Equal calls that are finished have equal trees, names, sums and heights. So the first finished call that loops is the first of
/// its distinct call.
pub fn equal_calls_are_alike()
    ensures alike { (d : Design) (done : List FinishedCall) (r : Result Elaborated Fault) (x y : FinishedCall) → TreeFinishes d done r → Has done x → Has done y → x.own.call ≡ y.own.call → x.own ≡ y.own }
    ensures first { (d : Design) (done before : List FinishedCall) (r : Result Elaborated Fault) (x y : FinishedCall) → TreeFinishes d done r → IsFirstLoop HasCombLoop done before x → Has before y → ¬ (y.own.call ≡ x.own.call) }
{
    bodies_are_single();
    bodies_stay();
}

/// The distinct calls decide what a design elaborates to: the loop of the first of them that has one, at its first place; else the
/// tree fault, or the whole.
pub fn distinct_calls_decide()
    ensures free { (d : Design) (done firsts : List FinishedCall) (r : Result Elaborated Fault) → TreeFinishes d done r → AreFirstFinishes done firsts → AreFree HasCombLoop firsts → DesignElaborates d r }
    ensures loops { (d : Design) (done firsts before : List FinishedCall) (r : Result Elaborated Fault) (x : FinishedCall) → TreeFinishes d done r → AreFirstFinishes done firsts → IsFirstLoop HasCombLoop firsts before x → DesignElaborates d (Err (fault_at x.path FaultKind.CombLoop 0)) }
{
    bodies_are_single();
    bodies_stay();
}

/// A finished call, met again: where its height fits below that level it gives the same there, and else a fault, before which
/// nothing is finished that was not finished before.
pub fn calls_met_again()
    ensures fits { (d : Design) (level to : ℕ) (p q : Path) (call : Call) (done : List FinishedCall) (e : Elaborated) → Elaborates never d level p call done (Ok e) → to + e.height ≤ 65 → (there : List FinishedCall) × Elaborates never d to q call there (Ok e) × (map (λ (x : FinishedCall). x.own) there ≡ map (λ (x : FinishedCall). x.own) done) }
    ensures deep { (d : Design) (level to : ℕ) (p q : Path) (call : Call) (done : List FinishedCall) (e : Elaborated) → Elaborates never d level p call done (Ok e) → to ≤ 64 → 65 < to + e.height
        → (there : List FinishedCall) × (f : Fault) × Elaborates never d to q call there (Err f) × ((x : FinishedCall) → Has there x → Has (map (λ (y : FinishedCall). y.own) done) x.own) }
{
    bodies_stay();
}

/// The distinct calls of a design are those of its finished calls, each at its first place in the walk.
pub fn walks_are_finishes()
    ensures { (d : Design) (done firsts : List FinishedCall) (e : Elaborated) → TreeFinishes d done (Ok e) → AreFirstFinishes done firsts → (e.calls ≡ map (λ (x : FinishedCall). x.own) done) × AreDistinct e.calls (map (λ (x : FinishedCall). x.own) firsts) }
{}

/// The plan of a design, and what became of its rows, decide what it elaborates to. The first row that is not finished looped, and
/// its loop is the fault; where all are finished, the stop is the fault, if there is one; else the design is whole.
pub fn plans_decide()
    ensures loops { (d : Design) (rows : List PlanRow) (stop : Option Fault) (outs : List Outcome) → IsPlanOf d rows stop → AreOutcomes any_form rows outs
        → (k : ℕ) (row : PlanRow) → slice_get rows k ≡ Some row → slice_get outs k ≡ Some None → ((j : ℕ) → j < k → (y : Done) × (slice_get outs j ≡ Some (Some y))) → DesignElaborates d (Err (fault_at row.first FaultKind.CombLoop 0)) }
    ensures finished { (d : Design) (rows : List PlanRow) (stop : Option Fault) (outs : List Outcome) (plan : IsPlanOf d rows stop) → AreOutcomes any_form rows outs
        → ((j : ℕ) → j < length rows → (y : Done) × (slice_get outs j ≡ Some (Some y))) → DesignElaborates d plan.result }
{
    bodies_are_single();
    bodies_stay();
    bodies_have_their_ports();
    bodies_have_their_children();
}

/// The hierarchy of a plan without a stop whose rows are all finished in a legal database: it stands for what the design
/// elaborates to.
pub fn plans_elaborate()
    ensures hierarchy { (d : Design) (h : History) (rows : List PlanRow) (outs : List Outcome) (done : List Done) (hier : Hier) (k : ℕ) → IsLegal h → IsPlanOf d rows None → AreOutcomes (λ id form. slice_get h.entries id.0 ≡ Some form) rows outs
        → ((j : ℕ) → j < length rows → (y : Done) × (slice_get outs j ≡ Some (Some y))) → ((j : ℕ) (x : Done) → slice_get done j ≡ Some x → slice_get outs j ≡ Some (Some x)) → suc k ≡ length rows → IsHierAt d rows done k (hier_view hier) → ElaboratesIn d h.entries hier }
    ensures turns { (d : Design) (h : History) (rows : List PlanRow) (outs : List Outcome) (done : List Done) → IsLegal h → IsPlanOf d rows None → AreOutcomes (λ id form. slice_get h.entries id.0 ≡ Some form) rows outs
        → ((j : ℕ) → j < length rows → (y : Done) × (slice_get outs j ≡ Some (Some y))) → ((j : ℕ) (x : Done) → slice_get done j ≡ Some x → slice_get outs j ≡ Some (Some x)) → length done ≡ length rows
        → (e : Elaborated) × DesignElaborates d (Ok e) × (firsts : List ElaboratedCall) × AreDistinct e.calls firsts × AreEntriesOf h.entries (ids_of done) firsts }
{
    bodies_are_single();
    bodies_stay();
    bodies_have_their_ports();
    bodies_have_their_children();
}

/// A call whose children ended without a fault is none of the calls that ended below it: each of those has fewer instances.
pub fn calls_are_not_below_themselves()
    ensures { (d : Design) (level : ℕ) (path : Path) (call : Call) (c : CircuitText) (b : Body) (sums : Sums) (kids : List Elaborated) (inner : List FinishedCall) → IsCallOf d call c → BodyOf d c call.args path (Ok b) → b.words ≤ most_words
        → ElaborateChildren never d level path (own_sums b) b.children inner (Ok (sums, kids)) → (x : FinishedCall) → Has inner x → ¬ (x.own.call ≡ call) }
{
    bodies_are_single();
    bodies_stay();
}

/// What the steps of a plan add: rows of one elaboration after those of another; nothing where a call that has a row is met again
/// on a level where it fits.
pub fn rows_add_up()
    ensures then_more { (d : Design) (old mid new : List PlanRow) (xs ys : List FinishedCall) → Adds d old xs mid → Adds d mid ys new → Adds d old (xs ++ ys) new }
    ensures again { (d : Design) (rows : List PlanRow) (k to : ℕ) (row : PlanRow) (at : Path) → AreRows d rows → slice_get rows k ≡ Some row → to + row.height ≤ 65 → IsPlanned d to at row.call rows rows k }
    ensures child { (d : Design) (level : ℕ) (path : Path) (own before : Sums) (children : List Child) (child : Child) (old mid new : List PlanRow) (kids : List ℕ) (height k : ℕ) (p : IsPlanned d (suc level) (child_path path child.ident) child.call mid new k) → level < 64
        → limit_passed (plus before p.e.sums) ≡ None → ArePlanned d level path own children old mid before kids height → ArePlanned d level path own (children ++ child ∷ []) old new (plus before p.e.sums) (kids ++ k ∷ []) (max height p.e.height) }
    ensures call { (d : Design) (level : ℕ) (path : Path) (call : Call) (c : CircuitText) (old mid : List PlanRow) (sums : Sums) (height : ℕ) (row : PlanRow) → IsCallOf d call c → BodyOf d c call.args path (Ok row.body) → IsLawful row.body.circuit → row.body.words ≤ most_words
        → ArePlanned d level path (own_sums row.body) row.body.children old mid sums row.kids height → ¬ Has (calls_of old) call → row.call ≡ call → row.first ≡ path → row.height ≡ suc height → row_sums row ≡ sums → (¬ Has (calls_of mid) call) × IsPlanned d level path call old (mid ++ row ∷ []) (length mid) }
{
    bodies_are_single();
    bodies_stay();
}

/// A call that ended without a fault, met again on a level where it does not fit: its first child that does not fit stops it, with
/// that child's fault; on the last level the first child stops it, as too deep.
pub fn deep_calls_stop()
    ensures last { (d : Design) (level : ℕ) (p q : Path) (call : Call) (done : List FinishedCall) (e : Elaborated) (c : CircuitText) (b : Body) (child : Child) (more : List Child) → Elaborates never d level p call done (Ok e) → IsCallOf d call c → BodyOf d c call.args p (Ok b) → b.children ≡ child ∷ more
        → Elaborates never d 64 q call [] (Err (fault_at q FaultKind.TooDeep child.line)) }
    ensures child { (d : Design) (level to i : ℕ) (path at : Path) (s all : Sums) (children : List Child) (done there : List FinishedCall) (es : List Elaborated) (child : Child) (f : Fault) → ElaborateChildren never d level path s children done (Ok (all, es)) → to < 64 → slice_get children i ≡ Some child
        → ((j : ℕ) (e : Elaborated) → j < i → slice_get es j ≡ Some e → suc to + e.height ≤ 65) → Elaborates never d (suc to) (child_path at child.ident) child.call there (Err f) → (rest : List FinishedCall) × ElaborateChildren never d to at s children rest (Err f) }
{
    bodies_are_single();
    bodies_stay();
}

/// The tree of an elaborated design has no combinational loop. It and the sums are those of the last call.
pub fn elaborated_trees()
    ensures free { (d : Design) (e : Elaborated) → DesignElaborates d (Ok e) → ¬ HasCombLoop e.tree }
    ensures last { (d : Design) (e : Elaborated) → DesignElaborates d (Ok e) → (calls : List ElaboratedCall) × (last : ElaboratedCall) × (e.calls ≡ calls ++ last ∷ []) × (last.tree ≡ e.tree) × (last.sums ≡ e.sums) }
{}
