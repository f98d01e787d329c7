// A world in which a tally stands for a text.
ghost use Rattle.std.specs.Prelude.{◌≡◌, map, All, IsAscii, IsTrue, IfOk, length, vec_len};
ghost use Rattle.circus_collate.specs.Deployment.{IsDeployment};
ghost use Rattle.circus_machine.specs.Tally.{tally_signature};
ghost use Rattle.circus_node.specs.Booting.{AreOfTroupes, IsOfTroupe};

use crate::Either;
use circus_collate::Deployment;
use circus_config::{ModuleNames, read_program};
use circus_machine::{Tally, TextModule};
use circus_model::Module;
use circus_outside::{Failing, MemSink};
use circus_plan_modules::{Loaded, load};
use circus_report::Running;
use circus_value::NoMemory;
use circus_world::{Line, World};
use std::alloc::Global;
use std::str;
use std::test::Fail;

// A counter of the signature of a tally, whose sum is a LONG CARDINAL, and a root that adds once.
const PROGRAM: &[u8] = b"CIRCUS 1;
Count: PROGRAM 1 VERSION 1 =
BEGIN
  Add: PROCEDURE [n: CARDINAL] RETURNS [sum: LONG CARDINAL] = 1;
END.
MODULE Counter IMPLEMENTS Count;
BEGIN
  VAR total: LONG CARDINAL;
  PROCEDURE Add BEGIN
    total := total + n;
    RETURN [total];
  END;
END.
ROOT Main IMPORTS Counter;
BEGIN
  VAR got: LONG CARDINAL;
  MAIN BEGIN
    CALL Counter.Add [5] INTO [got];
    RETURN [];
  END;
END.
RINGMASTER ring PORT 9000;
TROUPE Counter CALLS FIRST REPLIES FIRST MEMBERS s1 PORT 9001;
TROUPE Main CALLS FIRST REPLIES FIRST MEMBERS m1 PORT 9002;
";

const REPORT: &str = "circus report 1
datagram 0 step 0 from m1 to s1 00000101000000000000000100010000000100000001000000000000000000010001000200000000000000000005
datagram 1 step 1 from s1 to m1 0001010100000000
datagram 2 step 1 from s1 to m1 0100010100000000000000020000000100000000000000000005
datagram 3 step 3 from m1 to s1 0101010100000000
ringmaster ring live
view Counter 1 s1=0
view Main 1 m1=0
member s1 Counter live from 0 at 0 count 1
run 0 step 1 path Main.0 procedure 1 clock 1,0 arguments [5]
end 0 step 1 clock 1,0 returned [5] state [5]
now idle state [5]
member m1 Main live from 0 at 0 count 1
run 0 step 0 path Main procedure 0 clock 0,0 arguments []
ask 0 step 0 to Counter index 0 procedure 1 arguments [5] state [0]
reply 0 step 3 clock 1,0 returned [5]
end 0 step 3 clock 1,0 returned [] state [5]
now idle state [5]
";

// A module that is a text or a tally.
type Mixed = Either<TextModule, Tally>;

// Texts, as modules of the first kind.
fn as_texts(alloc: Global, texts: Vec<TextModule>) -> Result<Vec<Mixed>, NoMemory>
    ensures { IfOk result (λ modules.
        map ⟦<Mixed as Module>⟧.declared modules.items
        ≡ map ⟦<TextModule as Module>⟧.declared texts.items) }
{
    texts.into_iter().map(Either::First).collect(alloc)
}

// Whether the first troupe is that of a module that is no root.
#[tactic(auto, using(crate::proofs::Proper::tally_proper))]
fn is_no_root(deployment: &Deployment) -> bool
    requires { IsDeployment deployment.now }
    ensures { IsTrue result → IsOfTroupe deployment.now 0 tally_signature }
{
    match deployment.troupes.get(0) {
        Some(troupe) => !troupe.root,
        None => false,
    }
}

// A tally stands for the first module.
fn put_tally(
    deployment: &Deployment,
    mut modules: Vec<Mixed>,
    tally: Tally,
) -> Result<Vec<Mixed>, Fail>
    requires deployment { IsDeployment deployment.now }
    requires modules { AreOfTroupes deployment.now
        (map ⟦<Mixed as Module>⟧.declared modules.items) }
    ensures { IfOk result (λ modules.
        AreOfTroupes deployment.now (map ⟦<Mixed as Module>⟧.declared modules.items)) }
{
    if modules.is_empty() || !is_no_root(deployment) {
        return Err("no module to stand for".into());
    }
    modules[0] = Either::Second(tally);
    Ok(modules)
}

// The modules of texts, the first of which a tally may stand for.
fn modules_of(
    alloc: Global,
    deployment: &Deployment,
    texts: Vec<TextModule>,
    with_tally: bool,
) -> Result<Vec<Mixed>, Fail>
    requires deployment { IsDeployment deployment.now }
    requires modules { AreOfTroupes deployment.now
        (map ⟦<TextModule as Module>⟧.declared texts.items) }
    ensures { IfOk result (λ modules.
        AreOfTroupes deployment.now (map ⟦<Mixed as Module>⟧.declared modules.items)) }
{
    let modules = as_texts(alloc, texts)?;
    if with_tally {
        put_tally(deployment, modules, Tally::new(alloc)?)
    } else {
        Ok(modules)
    }
}

// Writes the report of the modules' world, to which what is sent is delivered in its order.
fn replay<M: Module>(
    alloc: Global,
    deployment: Deployment,
    names: &ModuleNames,
    modules: Vec<M>,
    sink: &mut MemSink,
) -> Result<(), Fail>
    requires deployment { IsDeployment deployment }
    requires modules { AreOfTroupes deployment (map M.declared modules.items) }
    requires named { All IsAscii names.now }
{
    let world = World::boot(alloc, deployment, modules)?;
    let mut running = Running::begin(alloc, world, sink)?;
    for number in 0..4 {
        running = running.line(&Line::Deliver(number), sink)?;
    }
    running.finish(alloc, names, sink)?;
    Ok(())
}

// The report of the program, with a tally for its counter or with texts alone.
fn report(alloc: Global, with_tally: bool) -> Result<MemSink, Fail> {
    let Loaded {
        deployment,
        names,
        modules,
        ..
    } = load(alloc, read_program(alloc, PROGRAM)?)?;
    let modules = modules_of(alloc, &deployment, modules, with_tally)?;
    let mut sink = MemSink::new(alloc, Failing::new(alloc));
    replay(alloc, deployment, &names, modules, &mut sink)?;
    Ok(sink)
}

#[test]
fn a_tally_stands_for_a_text(rt: HostRuntime) -> Result<(), Fail> {
    let alloc = rt.alloc();
    for with_tally in [false, true] {
        let sink = report(alloc, with_tally)?;
        let text = str::from_utf8(sink.written().as_slice())?;
        assert_eq!(rt; text, REPORT, "with a tally: {with_tally}");
    }
    Ok(())
}
