// The picture of a run, put row by row (docs/FORMATS.md, "Pictures").
ghost use Rattle.std.specs.Prelude.{◌≡◌, ◌+◌, ◌<◌, ℕ, List, [], ◌∷◌, ◌++◌, length, map, IfOk, OnOk, All, IsAscii, IsErrOf};
ghost use Rattle.std.specs.List.{flat_map};
ghost use Rattle.circus_outside.specs.Faults.{Rose};
ghost use Rattle.circus_record.specs.Naming.{host_name, names_of};
ghost use Rattle.circus_report.specs.Run.{IsPut};
ghost use Rattle.circus_schedule.specs.declared.line.Line.{Line as Stepped};
ghost use Rattle.circus_picture.specs.Deeds.{Deed as Done};
ghost use Rattle.circus_picture.specs.Rows as rows;
ghost use Rattle.circus_picture.specs.Picture as spec;
ghost use Rattle.circus_picture.specs.Seen.Drawing.{scene_of, AreMarked};
ghost use Rattle.circus_picture.specs.Seen.Kept.{deed_at, AreKept};

use crate::deeds::{Deed, Steps, deeds_of};
use crate::procedures::ModuleProcedures;
use crate::row::{Columns, names_row};
use crate::rows::Scene;
use circus_collate::Host;
use circus_model::Module;
use circus_outside::Sink;
use circus_record::{Naming, ProgramNames};
use circus_report::{RunFault, put_lines};
use circus_value::{ListOf, Name, NoMemory, Octets};
use circus_world::{Line, World};
use std::alloc::Global;

// What a picture is made of, beside the scene.
#[derive(Drop)]
struct Parts<'a> {
    hosts: &'a [Host],
    lines: &'a [Line],
    /// What members did, step by step.
    steps: Steps<'a>,
    /// The numbers of the datagrams that no line delivers.
    left: ListOf<u64>,
}

/// Puts the picture of lines, from boot on, which led to this world (docs/FORMATS.md, "Pictures"), by the names of the modules
/// in module order and by the procedures of each. It takes time in proportion to the text, to the records of the members and to
/// what was sent.
///
/// `SinkFailed` only where the sink's count of faults rose, and `NoMemory`; after both, what was put is a beginning of the
/// picture.
pub fn put_picture<M: Module, K: Sink>(
    alloc: Global,
    world: &World<M>,
    lines: &[Line],
    names: &ListOf<Name>,
    procedures: &ModuleProcedures,
    sink: &mut K,
) -> Result<(), RunFault>
    requires nodes { All (λ h. IsAscii (host_name h)) world.now.deployment.nodes }
    requires modules { All IsAscii names.now }
    ensures put { IsPut
        (spec.picture_text
        (names_of world.now.deployment.nodes names.now) procedures.now lines.now world.now)
        (K.written sink.old) (K.written sink.new) result }
    ensures rose { IsErrOf result RunFault.SinkFailed
        → Rose (K.faults sink.old) (K.faults sink.new) }
    ensures count { OnOk result (K.faults sink.new ≡ K.faults sink.old) }
{
    let hosts = world.deployment().nodes.as_slice();
    let names = ProgramNames::new(hosts, names.as_slice());
    let columns = Columns::new(alloc, world)?;
    let parts = Parts {
        hosts,
        lines,
        steps: deeds_of(alloc, world, lines.len() + 1)?,
        left: left_below(alloc, world.sent().len(), lines)?,
    };
    let scene = Scene {
        alloc,
        names: &names,
        procedures: procedures.as_slice(),
        columns: &columns,
        sent: world.sent(),
    };
    put_parts(&scene, &parts, sink)
}

// Puts a picture of these parts.
fn put_parts<N: Naming, K: Sink>(
    scene: &Scene<'_, N>,
    parts: &Parts<'_>,
    sink: &mut K,
) -> Result<(), RunFault>
    ensures put { (deeds : List Done)
        → AreKept (length parts.now.lines.now + 1) deeds
        (map (λ own. own.items) parts.now.steps.items)
        → IsPut (spec.beginning parts.now.hosts.now
        ++ spec.middle (scene_of N.names scene.now) deeds parts.now.lines.now
        ++ rows.left_rows (scene_of N.names scene.now) (length parts.now.lines.now) parts.now.left)
        (K.written sink.old) (K.written sink.new) result }
    ensures rose { IsErrOf result RunFault.SinkFailed
        → Rose (K.faults sink.old) (K.faults sink.new) }
    ensures count { OnOk result (K.faults sink.new ≡ K.faults sink.old) }
{
    match put_beginning(scene.alloc, parts.hosts, sink) {
        Ok(()) => {}
        Err(fault) => return Err(fault),
    }
    match put_middle(scene, parts.steps.as_slice(), parts.lines, sink) {
        Ok(()) => {}
        Err(fault) => return Err(fault),
    }
    put_left(scene, parts.lines.len() as u64, parts.left.as_slice(), sink)
}

// Puts the first line and the row of names.
fn put_beginning<K: Sink>(alloc: Global, hosts: &[Host], sink: &mut K) -> Result<(), RunFault>
    ensures put { IsPut (spec.beginning hosts.now) (K.written sink.old)
        (K.written sink.new) result }
    ensures rose { IsErrOf result RunFault.SinkFailed
        → Rose (K.faults sink.old) (K.faults sink.new) }
    ensures count { OnOk result (K.faults sink.new ≡ K.faults sink.old) }
{
    match put_row(ListOf::from_text(alloc, "circus picture 1\n"), sink) {
        Ok(()) => put_row(names_row(alloc, hosts), sink),
        Err(fault) => Err(fault),
    }
}

// Puts what members did at boot, and the rows of all lines.
fn put_middle<N: Naming, K: Sink>(
    scene: &Scene<'_, N>,
    steps: &[Vec<Deed<'_>>],
    lines: &[Line],
    sink: &mut K,
) -> Result<(), RunFault>
    ensures put { (deeds : List Done)
        → AreKept (length lines.now + 1) deeds (map (λ own. own.items) steps.now)
        → IsPut (spec.middle (scene_of N.names scene.now) deeds lines.now) (K.written sink.old)
        (K.written sink.new) result }
    ensures rose { IsErrOf result RunFault.SinkFailed
        → Rose (K.faults sink.old) (K.faults sink.new) }
    ensures count { OnOk result (K.faults sink.new ≡ K.faults sink.old) }
{
    match put_deeds(scene, 0, steps, sink) {
        Ok(()) => put_steps(scene, steps, lines, sink),
        Err(fault) => Err(fault),
    }
}

// Puts the rows of lines, with what members did in the step of each.
fn put_steps<N: Naming, K: Sink>(
    scene: &Scene<'_, N>,
    steps: &[Vec<Deed<'_>>],
    lines: &[Line],
    sink: &mut K,
) -> Result<(), RunFault>
    ensures put { (deeds : List Done)
        → AreKept (length lines.now + 1) deeds (map (λ own. own.items) steps.now)
        → IsPut (spec.steps_rows (scene_of N.names scene.now) deeds 1 lines.now)
        (K.written sink.old) (K.written sink.new) result }
    ensures rose { IsErrOf result RunFault.SinkFailed
        → Rose (K.faults sink.old) (K.faults sink.new) }
    ensures count { OnOk result (K.faults sink.new ≡ K.faults sink.old) }
{
    for (place, line) in lines.iter().enumerate() {
        match put_step(scene, place as u64 + 1, steps, line, sink) {
            Ok(()) => {}
            Err(fault) => return Err(fault),
        }
    }
    Ok(())
}

// Puts the row of a line, and what members did in its step.
fn put_step<N: Naming, K: Sink>(
    scene: &Scene<'_, N>,
    step: u64,
    steps: &[Vec<Deed<'_>>],
    line: &Line,
    sink: &mut K,
) -> Result<(), RunFault>
    ensures put { (count : ℕ) (deeds : List Done)
        → AreKept count deeds (map (λ own. own.items) steps.now) → step < count
        → IsPut (spec.step_rows (scene_of N.names scene.now) deeds step line.now)
        (K.written sink.old) (K.written sink.new) result }
    ensures rose { IsErrOf result RunFault.SinkFailed
        → Rose (K.faults sink.old) (K.faults sink.new) }
    ensures count { OnOk result (K.faults sink.new ≡ K.faults sink.old) }
{
    match put_row(scene.line_row(step, line), sink) {
        Ok(()) => put_deeds(scene, step, steps, sink),
        Err(fault) => Err(fault),
    }
}

// Puts what members did in a step.
fn put_deeds<N: Naming, K: Sink>(
    scene: &Scene<'_, N>,
    step: u64,
    steps: &[Vec<Deed<'_>>],
    sink: &mut K,
) -> Result<(), RunFault>
    ensures put { (count : ℕ) (deeds : List Done)
        → AreKept count deeds (map (λ own. own.items) steps.now) → step < count
        → IsPut (spec.deed_rows (scene_of N.names scene.now) deeds step) (K.written sink.old)
        (K.written sink.new) result }
    ensures rose { IsErrOf result RunFault.SinkFailed
        → Rose (K.faults sink.old) (K.faults sink.new) }
    ensures count { OnOk result (K.faults sink.new ≡ K.faults sink.old) }
{
    match steps.get(step as usize) {
        Some(deeds) => put_each(scene, step, deeds.as_slice(), sink),
        None => Ok(()),
    }
}

// Puts the rows of what members did in a step, one by one.
fn put_each<N: Naming, K: Sink>(
    scene: &Scene<'_, N>,
    step: u64,
    deeds: &[Deed<'_>],
    sink: &mut K,
) -> Result<(), RunFault>
    ensures put { IsPut
        (flat_map (rows.deed_row (scene_of N.names scene.now)) (map (deed_at step) deeds.now))
        (K.written sink.old) (K.written sink.new) result }
    ensures rose { IsErrOf result RunFault.SinkFailed
        → Rose (K.faults sink.old) (K.faults sink.new) }
    ensures count { OnOk result (K.faults sink.new ≡ K.faults sink.old) }
{
    for deed in deeds {
        match put_row(scene.deed_row(step, deed), sink) {
            Ok(()) => {}
            Err(fault) => return Err(fault),
        }
    }
    Ok(())
}

// Puts the rows of the datagrams that were never delivered, by their numbers.
fn put_left<N: Naming, K: Sink>(
    scene: &Scene<'_, N>,
    step: u64,
    left: &[u64],
    sink: &mut K,
) -> Result<(), RunFault>
    ensures put { IsPut (rows.left_rows (scene_of N.names scene.now) step left.now)
        (K.written sink.old) (K.written sink.new) result }
    ensures rose { IsErrOf result RunFault.SinkFailed
        → Rose (K.faults sink.old) (K.faults sink.new) }
    ensures count { OnOk result (K.faults sink.new ≡ K.faults sink.old) }
{
    if left.is_empty() {
        return Ok(());
    }
    match put_row(scene.count_row(step, left.len()), sink) {
        Ok(()) => put_each_left(scene, step, left, sink),
        Err(fault) => Err(fault),
    }
}

// Puts them one by one.
fn put_each_left<N: Naming, K: Sink>(
    scene: &Scene<'_, N>,
    step: u64,
    left: &[u64],
    sink: &mut K,
) -> Result<(), RunFault>
    ensures put { IsPut (flat_map (rows.left_row (scene_of N.names scene.now) step) left.now)
        (K.written sink.old) (K.written sink.new) result }
    ensures rose { IsErrOf result RunFault.SinkFailed
        → Rose (K.faults sink.old) (K.faults sink.new) }
    ensures count { OnOk result (K.faults sink.new ≡ K.faults sink.old) }
{
    for number in left {
        match put_row(scene.left_row(step, *number), sink) {
            Ok(()) => {}
            Err(fault) => return Err(fault),
        }
    }
    Ok(())
}

// Puts a row, if there was memory for it.
fn put_row<K: Sink>(row: Result<Octets, NoMemory>, sink: &mut K) -> Result<(), RunFault>
    ensures put { (text : List ℕ) → IfOk row (λ made. made ≡ text)
        → IsPut text (K.written sink.old) (K.written sink.new) result }
    ensures rose { IsErrOf result RunFault.SinkFailed
        → Rose (K.faults sink.old) (K.faults sink.new) }
    ensures count { OnOk result (K.faults sink.new ≡ K.faults sink.old) }
{
    let row = row?;
    put_lines(sink, row.as_slice())?;
    Ok(())
}

// The numbers, below this one, of the datagrams that no line delivers.
fn left_below(alloc: Global, count: usize, lines: &[Line]) -> Result<ListOf<u64>, NoMemory>
    ensures { IfOk result (λ left. left ≡ rows.left_below lines.now count) }
{
    let marks = mark_delivered(alloc, count, lines)?;
    let mut left = ListOf::new(alloc);
    for number in 0..count {
        if marks.get(number) != Some(&true) {
            left.push(number as u64)?;
        }
    }
    Ok(left)
}

// Of each of so many datagrams, whether a line delivers it.
fn mark_delivered(alloc: Global, count: usize, lines: &[Line]) -> Result<ListOf<bool>, NoMemory>
    ensures { IfOk result (λ marks. AreMarked count lines.now marks) }
{
    let mut marks = no_marks(alloc, count)?;
    for line in lines {
        if let Line::Deliver(number) = *line {
            mark(&mut marks, number as usize);
        }
    }
    Ok(marks)
}

// So many datagrams that no line delivers.
fn no_marks(alloc: Global, count: usize) -> Result<ListOf<bool>, NoMemory>
    ensures { IfOk result (λ marks. AreMarked count [] marks) }
{
    let mut marks = ListOf::new(alloc);
    for _each in 0..count {
        marks.push(false)?;
    }
    Ok(marks)
}

// Marks the datagram of a number, if there is one.
fn mark(marks: &mut ListOf<bool>, number: usize)
    ensures { (count : ℕ) (before : List Stepped) → AreMarked count before marks.old
        → AreMarked count (before ++ Line.Deliver number ∷ []) marks.new }
{
    if number < marks.len() {
        marks.set(number, true);
    }
}
