// Reading the Ringmaster and the troupes.
ghost use Rattle.std.specs.Prelude.{◌≡◌, IfOk};
ghost use Rattle.circus_troupe.specs.DeploymentReading.{deployment, ringmaster, troupes, troupe, call_kind, reply_kind, at_least, hosts, host, spares, text_end};

use crate::{
    DeploymentText, HostText, HostTexts, KindText, RingmasterText, TroupeText, TroupeTexts,
    WrittenKind,
};
use circus_syntax::{Reader, StopCause};
use circus_value::NoMemory;

/// Reads the Ringmaster and the troupes, up to the last token, or stops (docs/LANGUAGE.md, "Deployments").
pub fn deployment(reader: &mut Reader<'_>) -> Result<DeploymentText, NoMemory>
    ensures { IfOk result (λ read. deployment reader.old ≡ (read, reader.new)) }
{
    let ringmaster = ringmaster(reader)?;
    let troupes = troupes(reader)?;
    text_end(reader);
    Ok(DeploymentText {
        ringmaster,
        troupes,
    })
}

fn ringmaster(reader: &mut Reader<'_>) -> Result<RingmasterText, NoMemory>
    ensures { IfOk result (λ read. ringmaster reader.old ≡ (read, reader.new)) }
{
    reader.word(b"RINGMASTER");
    let name = reader.name()?;
    reader.word(b"PORT");
    let port = reader.number();
    reader.sign(b";");
    Ok(RingmasterText { name, port })
}

fn troupes(reader: &mut Reader<'_>) -> Result<TroupeTexts, NoMemory>
    ensures { IfOk result (λ read. troupes reader.old ≡ (read, reader.new)) }
{
    let mut troupes = TroupeTexts::new(reader.alloc());
    while reader.sees_word(b"TROUPE") {
        troupes.push(troupe(reader)?)?;
    }
    Ok(troupes)
}

fn troupe(reader: &mut Reader<'_>) -> Result<TroupeText, NoMemory>
    ensures { IfOk result (λ read. troupe reader.old ≡ (read, reader.new)) }
{
    reader.word(b"TROUPE");
    let name = reader.name()?;
    reader.word(b"CALLS");
    let calls = call_kind(reader);
    reader.word(b"REPLIES");
    let replies = reply_kind(reader);
    reader.word(b"MEMBERS");
    let members = hosts(reader)?;
    let spares = spares(reader)?;
    reader.sign(b";");
    Ok(TroupeText {
        name,
        calls,
        replies,
        members,
        spares,
    })
}

// A kind that calls and replies may have.
fn call_kind(reader: &mut Reader<'_>) -> KindText
    ensures { call_kind reader.old ≡ (result, reader.new) }
{
    let at = reader.place();
    if reader.sees_word(b"AT") {
        return at_least(reader);
    }
    let kind = if reader.sees_word(b"MAJORITY") {
        reader.word(b"MAJORITY");
        WrittenKind::Majority
    } else if reader.sees_word(b"UNANIMOUS") {
        reader.word(b"UNANIMOUS");
        WrittenKind::Unanimous
    } else {
        reader.word(b"FIRST");
        WrittenKind::First
    };
    KindText { at, kind }
}

fn at_least(reader: &mut Reader<'_>) -> KindText
    ensures { at_least reader.old ≡ (result, reader.new) }
{
    let at = reader.place();
    reader.word(b"AT");
    reader.word(b"LEAST");
    let least = reader.number();
    KindText {
        at,
        kind: WrittenKind::AtLeast(least),
    }
}

fn reply_kind(reader: &mut Reader<'_>) -> KindText
    ensures { reply_kind reader.old ≡ (result, reader.new) }
{
    if reader.sees_word(b"WATCHDOG") {
        let at = reader.place();
        reader.word(b"WATCHDOG");
        KindText {
            at,
            kind: WrittenKind::Watchdog,
        }
    } else {
        call_kind(reader)
    }
}

fn spares(reader: &mut Reader<'_>) -> Result<Option<HostTexts>, NoMemory>
    ensures { IfOk result (λ read. spares reader.old ≡ (read, reader.new)) }
{
    if reader.sees_word(b"SPARES") {
        reader.word(b"SPARES");
        Ok(Some(hosts(reader)?))
    } else {
        Ok(None)
    }
}

fn hosts(reader: &mut Reader<'_>) -> Result<HostTexts, NoMemory>
    ensures { IfOk result (λ read. hosts reader.old ≡ (read, reader.new)) }
{
    let mut hosts = HostTexts::new(reader.alloc());
    hosts.push(host(reader)?)?;
    while reader.sees_sign(b",") {
        reader.sign(b",");
        hosts.push(host(reader)?)?;
    }
    Ok(hosts)
}

fn host(reader: &mut Reader<'_>) -> Result<HostText, NoMemory>
    ensures { IfOk result (λ read. host reader.old ≡ (read, reader.new)) }
{
    let name = reader.name()?;
    reader.word(b"PORT");
    let port = reader.number();
    Ok(HostText { name, port })
}

// Stops where a token is left.
fn text_end(reader: &mut Reader<'_>)
    ensures { text_end reader.old ≡ (tt, reader.new) }
{
    if reader.tokens_left() > 0 {
        reader.stop_here(StopCause::Unexpected);
    }
}
