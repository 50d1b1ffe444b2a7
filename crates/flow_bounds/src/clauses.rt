// The rules that tell the clauses of a frame.
ghost use Rattle.std.specs.Prelude.{◌≡◌, ◌<◌, ◌&&◌, ℕ, true, length, slice_index, OnOk};
ghost use Rattle.bit_rows.specs.Words.{has_bit};
ghost use Rattle.flow_graph.specs.declared.edge.Edge.TheVariants.{Step};
ghost use Rattle.flow_graph.specs.Paths.{IsEdge};
ghost use Rattle.flow_graph.specs.Points.{point_count};
ghost use Rattle.flow_bounds.specs.Clauses.{Clause, InnerClause, IsPointInside, OuterClause, ProcedureClause, RootClause, StepClause};
ghost use Rattle.flow_links.specs.LinkLists.{IsCallLink};
ghost use Rattle.flow_bounds.specs.Clauses.{cell_count, is_inside, shape_in};
ghost use Rattle.flow_bounds.specs.code.Frames.{Adds, BelowClause, CallsClause, InsideClause, IsFrame, LinkClause, PointClause, RuleClause, StepsClause};

use crate::OutOfMemory;
use crate::frame::Frame;
use crate::rule::Rule;
use flow_links::CallLink;

// Puts the rule by which a cell has those bits of a mask that two others have, if there are any.
fn put(
    frame: &Frame<'_>,
    rules: &mut Vec<Rule>,
    to: u32,
    first: u32,
    second: u32,
    mask: u64,
) -> Result<(), OutOfMemory>
    requires to { to < cell_count frame.now }
    requires first { first < cell_count frame.now }
    requires second { second < cell_count frame.now }
    ensures { OnOk result (Adds (cell_count frame.now) (RuleClause (record { to = to; first = first; second = second; mask = mask }))
        rules.old.items rules.new.items) }
{
    if mask == 0 {
        return Ok(());
    }
    put_rule(frame, rules, to, first, second, mask)
}

// Puts a rule.
fn put_rule(
    frame: &Frame<'_>,
    rules: &mut Vec<Rule>,
    to: u32,
    first: u32,
    second: u32,
    mask: u64,
) -> Result<(), OutOfMemory>
    requires to { to < cell_count frame.now }
    requires first { first < cell_count frame.now }
    requires second { second < cell_count frame.now }
    ensures { OnOk result (Adds (cell_count frame.now) (RuleClause (record { to = to; first = first; second = second; mask = mask }))
        rules.old.items rules.new.items) }
{
    let _ = frame;
    rules.push(Rule {
        to,
        first,
        second,
        mask,
    })?;
    Ok(())
}

// The rules of a step at a point inside.
fn put_step(frame: &Frame<'_>, rules: &mut Vec<Rule>, x: u32, y: u32) -> Result<(), OutOfMemory>
    requires frame { IsFrame frame.now }
    requires there { IsEdge (shape_in frame.now) (Step x y) }
    requires inside { IsPointInside frame.now x }
    ensures { OnOk result (Adds (cell_count frame.now) (StepClause frame.now x y) rules.old.items rules.new.items) }
{
    let always = frame.always();
    let preserves = frame.preserves(x, y);
    let generates = frame.generates(x, y);
    let kept = frame.preserved(x);
    let made = frame.generated(x);
    let still_kept = frame.preserved(y);
    let still_made = frame.generated(y);
    put(frame, rules, still_kept, kept, always, preserves)?;
    put(frame, rules, still_made, made, always, preserves)?;
    put(frame, rules, still_made, always, always, generates)
}

// Those of a call of a procedure inside.
fn put_inner(
    frame: &Frame<'_>,
    rules: &mut Vec<Rule>,
    x: u32,
    callee: u32,
    z: u32,
) -> Result<(), OutOfMemory>
    requires frame { IsFrame frame.now }
    requires point { (x < point_count frame.now.links.now.program) × IsPointInside frame.now x }
    requires after { (z < point_count frame.now.links.now.program) × IsPointInside frame.now z }
    requires callee { (callee < (shape_in frame.now).procedures) × (is_inside frame.now callee ≡ true) }
    ensures { OnOk result (Adds (cell_count frame.now) (InnerClause frame.now x callee z) rules.old.items rules.new.items) }
{
    let always = frame.always();
    let exit = frame.links.exit(callee);
    let procedure = frame.links.procedure_of(x);
    let kept = frame.preserved(x);
    let made = frame.generated(x);
    let kept_through = frame.preserved(exit);
    let made_through = frame.generated(exit);
    let still_kept = frame.preserved(z);
    let still_made = frame.generated(z);
    let brought = frame.brought(procedure);
    let still_brought = frame.brought(callee);
    put(frame, rules, still_kept, kept, kept_through, u64::MAX)?;
    put(frame, rules, still_made, made, kept_through, u64::MAX)?;
    put(frame, rules, still_made, made_through, always, u64::MAX)?;
    put(frame, rules, still_brought, made, always, u64::MAX)?;
    put(frame, rules, still_brought, brought, kept, u64::MAX)
}

// All bits, or none.
fn all_if(test: bool) -> u64
    ensures { (bit : ℕ) → bit < 64 → has_bit result bit ≡ test }
{
    if test { u64::MAX } else { 0 }
}

// Those of a call of a procedure outside.
fn put_outer(
    frame: &Frame<'_>,
    rules: &mut Vec<Rule>,
    x: u32,
    callee: u32,
    z: u32,
) -> Result<(), OutOfMemory>
    requires frame { IsFrame frame.now }
    requires point { (x < point_count frame.now.links.now.program) × IsPointInside frame.now x }
    requires after { (z < point_count frame.now.links.now.program) × IsPointInside frame.now z }
    requires callee { callee < (shape_in frame.now).procedures }
    ensures { OnOk result (Adds (cell_count frame.now) (OuterClause frame.now x callee z) rules.old.items rules.new.items) }
{
    let always = frame.always();
    let through = frame.through[callee as usize];
    let back = all_if(frame.leads[callee as usize]);
    let procedure = frame.links.procedure_of(x);
    let kept = frame.preserved(x);
    let made = frame.generated(x);
    let still_kept = frame.preserved(z);
    let still_made = frame.generated(z);
    let brought = frame.brought(procedure);
    let made_outside = frame.outside_generated();
    let brought_outside = frame.outside_brought();
    put(frame, rules, still_kept, kept, always, through)?;
    put(frame, rules, still_made, made, always, through)?;
    put(frame, rules, still_made, made_outside, always, back)?;
    put(frame, rules, brought_outside, made, always, back)?;
    put(frame, rules, brought_outside, brought, kept, back)
}

// Those of a call.
fn put_call(
    frame: &Frame<'_>,
    rules: &mut Vec<Rule>,
    x: u32,
    link: CallLink,
) -> Result<(), OutOfMemory>
    requires frame { IsFrame frame.now }
    requires point { (x < point_count frame.now.links.now.program) × IsPointInside frame.now x }
    requires link { IsCallLink (shape_in frame.now) frame.now.links.now.backward x link }
    ensures { OnOk result (Adds (cell_count frame.now)
        (LinkClause frame.now x ((shape_in frame.now).procedure_of link.exit) link.after) rules.old.items rules.new.items) }
{
    let callee = frame.links.procedure_of(link.exit);
    if frame.inside[callee as usize] {
        return put_inner(frame, rules, x, callee, link.after);
    }
    put_outer(frame, rules, x, callee, link.after)
}

// Those of all steps from a point.
fn put_steps(frame: &Frame<'_>, rules: &mut Vec<Rule>, x: u32) -> Result<(), OutOfMemory>
    requires frame { IsFrame frame.now }
    requires point { (x < point_count frame.now.links.now.program) × IsPointInside frame.now x }
    ensures { OnOk result (Adds (cell_count frame.now) (StepsClause frame.now x) rules.old.items rules.new.items) }
{
    let steps = frame.links.steps_from(x);
    for to in steps {
        put_step(frame, rules, x, *to)?;
    }
    Ok(())
}

// Those of all calls from a point.
fn put_calls(frame: &Frame<'_>, rules: &mut Vec<Rule>, x: u32) -> Result<(), OutOfMemory>
    requires frame { IsFrame frame.now }
    requires point { (x < point_count frame.now.links.now.program) × IsPointInside frame.now x }
    ensures { OnOk result (Adds (cell_count frame.now) (CallsClause frame.now x) rules.old.items rules.new.items) }
{
    let calls = frame.links.calls_from(x);
    for link in calls {
        put_call(frame, rules, x, *link)?;
    }
    Ok(())
}

// Those of a point.
fn put_point(frame: &Frame<'_>, rules: &mut Vec<Rule>, x: u32) -> Result<(), OutOfMemory>
    requires frame { IsFrame frame.now }
    requires point { (x < point_count frame.now.links.now.program) × IsPointInside frame.now x }
    ensures { OnOk result (Adds (cell_count frame.now) (PointClause frame.now x) rules.old.items rules.new.items) }
{
    if !frame.taken[x as usize] {
        return Ok(());
    }
    put_steps(frame, rules, x)?;
    put_calls(frame, rules, x)
}

// Those of a procedure.
fn put_procedure(
    frame: &Frame<'_>,
    rules: &mut Vec<Rule>,
    procedure: u32,
) -> Result<(), OutOfMemory>
    requires frame { IsFrame frame.now }
    requires there { procedure < (shape_in frame.now).procedures }
    ensures { OnOk result (Adds (cell_count frame.now) (InsideClause frame.now procedure) rules.old.items rules.new.items) }
{
    if !frame.inside[procedure as usize] {
        return Ok(());
    }
    put_ends(frame, rules, procedure)
}

// Those of a procedure inside.
fn put_ends(frame: &Frame<'_>, rules: &mut Vec<Rule>, procedure: u32) -> Result<(), OutOfMemory>
    requires frame { IsFrame frame.now }
    requires there { procedure < (shape_in frame.now).procedures }
    requires inside { is_inside frame.now procedure ≡ true }
    ensures { OnOk result (Adds (cell_count frame.now) (ProcedureClause frame.now procedure) rules.old.items rules.new.items) }
{
    let always = frame.always();
    let entry = frame.links.entry(procedure);
    let exit = frame.links.exit(procedure);
    let kept = frame.preserved(entry);
    let made = frame.generated(exit);
    let brought = frame.brought(procedure);
    let made_outside = frame.outside_generated();
    let brought_outside = frame.outside_brought();
    let hung = frame.hung[procedure as usize];
    let called = all_if(frame.called[procedure as usize]);
    put(frame, rules, kept, always, always, u64::MAX)?;
    put(frame, rules, brought, always, always, hung)?;
    put(frame, rules, made_outside, made, always, called)?;
    put(frame, rules, brought, brought_outside, always, called)
}

// A word, or none of its bits.
fn word_if(test: bool, word: u64) -> u64
    ensures { (bit : ℕ) → has_bit result bit ≡ (test && has_bit word bit) }
{
    if test { word } else { 0 }
}

// Those of the root, and of the procedures outside.
fn put_root(frame: &Frame<'_>, rules: &mut Vec<Rule>) -> Result<(), OutOfMemory>
    requires { IsFrame frame.now }
    ensures { OnOk result (Adds (cell_count frame.now) (RootClause frame.now) rules.old.items rules.new.items) }
{
    let always = frame.always();
    let root = frame.links.root();
    let brought = frame.brought(root);
    let made_outside = frame.outside_generated();
    let brought_outside = frame.outside_brought();
    let inner = word_if(frame.inside[root as usize], frame.boundary);
    let outer = word_if(frame.joined, frame.boundary);
    let joined = all_if(frame.joined);
    put(frame, rules, brought, always, always, inner)?;
    put(frame, rules, brought_outside, always, always, outer)?;
    put(frame, rules, brought_outside, made_outside, always, joined)
}

// Those of all points inside.
fn put_points(frame: &Frame<'_>, rules: &mut Vec<Rule>) -> Result<(), OutOfMemory>
    requires { IsFrame frame.now }
    ensures { OnOk result (Adds (cell_count frame.now)
        (BelowClause (λ i. PointClause frame.now (slice_index frame.now.points.now i)) (length frame.now.points.now)) rules.old.items rules.new.items) }
{
    for point in frame.points {
        put_point(frame, rules, *point)?;
    }
    Ok(())
}

// Those of all procedures inside.
fn put_procedures(frame: &Frame<'_>, rules: &mut Vec<Rule>) -> Result<(), OutOfMemory>
    requires { IsFrame frame.now }
    ensures { OnOk result (Adds (cell_count frame.now) (BelowClause (InsideClause frame.now) (shape_in frame.now).procedures)
        rules.old.items rules.new.items) }
{
    for procedure in 0..frame.links.procedures() {
        put_procedure(frame, rules, procedure)?;
    }
    Ok(())
}

/// Puts the rules that tell the clauses of a frame. Fails only where memory runs out.
pub(crate) fn put_clauses(frame: &Frame<'_>, rules: &mut Vec<Rule>) -> Result<(), OutOfMemory>
    requires { IsFrame frame.now }
    ensures { OnOk result (Adds (cell_count frame.now) (Clause frame.now) rules.old.items rules.new.items) }
{
    put_root(frame, rules)?;
    put_procedures(frame, rules)?;
    put_points(frame, rules)
}
