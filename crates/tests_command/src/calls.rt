// Calls of the library that nothing else makes.
ghost use Rattle.std.specs.Prelude.{All, IsAscii, IsTrue};
ghost use Rattle.circus_collate.specs.Deployment.{IsDeployment};
ghost use Rattle.circus_record.specs.MemberText.{IsHosted};

use crate::fails::ONE_CALL;
use crate::hostile::server;
use circus_collate::Deployment;
use circus_config::{ModuleNames, read_program};
use circus_header::{Call, Request, ReturnHeader, read_call, read_return};
use circus_lang::read_module;
use circus_plan_modules::{Loaded, load};
use circus_record::{MemberRecord, show_member};
use circus_text::tokens;
use circus_troupe::read_deployment_text;
use circus_value::Octets;
use std::alloc::Global;
use std::test::Fail;

#[test]
fn a_deployment_stands_behind_modules(rt: HostRuntime) -> Result<(), Fail> {
    let text = b"MODULE M IMPLEMENTS I; BEGIN END. RINGMASTER r PORT 1;";
    let found = tokens(rt.alloc(), text)?;
    let (_, next) = read_module(rt.alloc(), text, &found, 0)?;
    assert!(rt; next < found.len());
    let read = read_deployment_text(rt.alloc(), text, &found, next)?;
    assert!(rt; read.stop.is_none() && read.next == found.len());
    assert_eq!(rt; read.deployment.ringmaster.name.at, 45);
    Ok(())
}

#[test]
fn headers_are_read(rt: HostRuntime) -> Result<(), Fail> {
    let call = read_call(rt.alloc(), &[0, 1, 0, 1, 0, 0, 0, 2, 0, 0, 0, 0])?;
    assert!(rt; matches!(call, (Call::Ring(Request::Join(0, 2)), 12)));
    let answer = read_return(rt.alloc(), &[0, 1, 0, 0, 0, 2])?;
    assert!(rt; matches!(answer, (ReturnHeader::Stale(2), 6)));
    Ok(())
}

// Whether a node hosts a member.
fn is_hosted(deployment: &Deployment, node: u16) -> bool
    ensures { IsTrue result → IsHosted deployment.now node }
{
    match deployment.nodes.get(usize::from(node)) {
        Some(host) => host.module.is_some(),
        None => false,
    }
}

// The lines of the member at node 1.
fn lines(
    alloc: Global,
    deployment: &Deployment,
    names: &ModuleNames,
    record: &MemberRecord,
) -> Result<Octets, Fail>
    requires deployment { IsDeployment deployment.now }
    requires names { All IsAscii names.now }
{
    if !is_hosted(deployment, 1) {
        return Err(Fail::new("no member"));
    }
    Ok(show_member(alloc, deployment, names, 1, None, record)?)
}

// The lines of the server of one call.
fn show_record(alloc: Global, record: &MemberRecord) -> Result<Octets, Fail> {
    let Loaded {
        deployment,
        names,
        ..
    } = load(alloc, read_program(alloc, ONE_CALL.as_bytes())?)?;
    lines(alloc, &deployment, &names, record)
}

#[test]
fn a_member_is_shown(rt: HostRuntime) -> Result<(), Fail> {
    let server = server(rt.alloc(), "1")?;
    let text = show_record(rt.alloc(), server.record().ok_or("no record")?)?;
    let lines = "member s1 Counter live from 0 at 0 count 0\nnow idle state [0]\n";
    assert_eq!(rt; text.as_slice(), lines.as_bytes());
    Ok(())
}
