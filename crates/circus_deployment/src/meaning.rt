// What a deployment means.
ghost use Rattle.std.specs.Prelude.{◌≡◌, ℕ, ◌+◌, ◌≤◌, ◌<◌, ◌++◌, [], map, length, unwrap_or, option_map, option_copied, OnOk, IfOk, IfSome};
ghost use Rattle.std.specs.List.{flat_map, AllByRecursion};
ghost use Rattle.circus_fault.specs.Seen.Tables.{known_of};
ghost use Rattle.circus_lang.specs.ModuleTree.{module_of};
ghost use Rattle.circus_limits.specs.Limits.{most_nodes};
ghost use Rattle.circus_deployment.specs.Nodes.{spares_of, hosts_of, number_troupes};
ghost use Rattle.circus_type.specs.InRange.{IsOneWord};
ghost use Rattle.circus_deployment.specs.InRange.{IsKindInRange, AreHostsInRange, IsTroupeInRange, IsInRange};
ghost use Rattle.circus_deployment.specs.Meaning.{kind_of, host_meant, module_of_troupe, hosts_meant, nodes_meant, numbers_from, troupe_meant, troupe_at, troupes_meant};
ghost use Rattle.circus_deployment.specs.declared.meaning.NumberedTroupe.{NumberedTroupe};
ghost use Rattle.circus_deployment.specs.Seen.{numbered_as, as_words};

use circus_collate::{Host, Hosts, Kind, Troupe, Troupes};
use circus_fault::Names;
use circus_lang::ModuleText;
use circus_syntax::{Named, Numeral};
use circus_troupe::{DeploymentText, HostText, HostTexts, KindText, TroupeText, WrittenKind};
use circus_type::word;
use circus_value::{Duplicate, NoMemory, Nodes};
use std::alloc::Global;

fn kind(text: KindText) -> Kind
    requires { IsKindInRange text.kind }
    ensures { result ≡ kind_of text.kind }
{
    match text.kind {
        WrittenKind::First => Kind::First,
        WrittenKind::Majority => Kind::Majority,
        WrittenKind::Unanimous => Kind::Unanimous,
        WrittenKind::AtLeast(number) => Kind::AtLeast(word(number)),
        WrittenKind::Watchdog => Kind::Watchdog,
    }
}

// A node that hosts a member of this module.
fn host(name: &Named, port: Numeral, hosted: Option<u16>) -> Result<Host, NoMemory>
    requires { IsOneWord port }
    ensures { IfOk result (λ host.
        host ≡ host_meant hosted (record { name = name.now; port = port })) }
{
    Ok(Host {
        name: name.name.copy()?,
        port: word(port),
        module: hosted,
    })
}

// Its number, which stops at the greatest word.
fn module_of_troupe(modules: &Names, troupe: &TroupeText) -> Option<u16>
    ensures { result ≡ module_of_troupe (as_words (known_of modules.now)) troupe.now }
{
    modules
        .get(troupe.name.name.as_slice())
        .map(|number| number.min(65_535) as u16)
}

fn add_hosts(nodes: &mut Hosts, hosts: &[HostText], hosted: Option<u16>) -> Result<(), NoMemory>
    requires { AreHostsInRange hosts.now }
    ensures { OnOk result (nodes.new ≡ nodes.old ++ map (host_meant hosted) hosts.now) }
{
    for text in hosts {
        nodes.push(host(&text.name, text.port, hosted)?)?;
    }
    Ok(())
}

fn add_spares(
    nodes: &mut Hosts,
    spares: &Option<HostTexts>,
    hosted: Option<u16>,
) -> Result<(), NoMemory>
    requires { AreHostsInRange (unwrap_or spares.now []) }
    ensures { OnOk result
        (nodes.new ≡ nodes.old ++ map (host_meant hosted) (unwrap_or spares.now [])) }
{
    match spares {
        Some(hosts) => add_hosts(nodes, hosts.as_slice(), hosted),
        None => Ok(()),
    }
}

// The nodes of a troupe.
fn add_troupe(nodes: &mut Hosts, modules: &Names, troupe: &TroupeText) -> Result<(), NoMemory>
    requires { IsTroupeInRange troupe.now }
    ensures { OnOk result
        (nodes.new ≡ nodes.old ++ hosts_meant (as_words (known_of modules.now)) troupe.now) }
{
    let hosted = module_of_troupe(modules, troupe);
    add_hosts(nodes, troupe.members.as_slice(), hosted)?;
    add_spares(nodes, &troupe.spares, hosted)?;
    Ok(())
}

fn add_troupes(nodes: &mut Hosts, modules: &Names, troupes: &[TroupeText]) -> Result<(), NoMemory>
    requires { AllByRecursion IsTroupeInRange troupes.now }
    ensures { OnOk result
        (nodes.new
        ≡ nodes.old ++ flat_map (hosts_meant (as_words (known_of modules.now))) troupes.now) }
{
    for troupe in troupes {
        add_troupe(nodes, modules, troupe)?;
    }
    Ok(())
}

/// The nodes, in the order of the text.
pub fn nodes(alloc: Global, modules: &Names, text: &DeploymentText) -> Result<Hosts, NoMemory>
    requires { IsInRange text.now }
    ensures { IfOk result (λ nodes.
        nodes ≡ nodes_meant (as_words (known_of modules.now)) text.now) }
{
    let mut nodes = Hosts::new(alloc);
    nodes.push(host(&text.ringmaster.name, text.ringmaster.port, None)?)?;
    add_troupes(&mut nodes, modules, text.troupes.as_slice())?;
    Ok(nodes)
}

/// A troupe with the number of its first node.
#[derive(Drop)]
pub struct NumberedTroupe<'a> {
    troupe: &'a TroupeText,
    first: u16,
}

// How many spares a troupe has.
fn spares_len(troupe: &TroupeText) -> usize
    ensures { result ≡ length (spares_of troupe.now) }
{
    match &troupe.spares {
        Some(spares) => spares.len(),
        None => 0,
    }
}

/// Troupes with the numbers of their first nodes, where the Ringmaster's node is 0.
pub fn number_troupes(
    alloc: Global,
    texts: &[TroupeText],
) -> Result<Vec<NumberedTroupe<'_>>, NoMemory>
    requires { length (flat_map hosts_of texts.now) < most_nodes }
    ensures { IfOk result (λ made. map numbered_as made.items ≡ number_troupes texts.now) }
{
    let mut numbered = Vec::new(alloc);
    let mut first: u16 = 1;
    for troupe in texts {
        numbered.push(NumberedTroupe { troupe, first })?;
        first += troupe.members.len() as u16 + spares_len(troupe) as u16;
    }
    Ok(numbered)
}

// So many numbers from the first one on.
fn numbers_from(alloc: Global, first: u16, count: usize) -> Result<Nodes, NoMemory>
    requires { first + count ≤ most_nodes }
    ensures { IfOk result (λ numbers. numbers ≡ numbers_from first count) }
{
    let mut numbers = Nodes::new(alloc);
    for place in 0..count {
        numbers.push(first + place as u16)?;
    }
    Ok(numbers)
}

fn troupe(alloc: Global, text: &ModuleText, found: &NumberedTroupe) -> Result<Troupe, NoMemory>
    requires few { found.now.first + length (hosts_of found.now.troupe.now) ≤ most_nodes }
    requires in_range { IsTroupeInRange found.now.troupe.now }
    ensures { IfOk result (λ made.
        made ≡ troupe_meant (module_of text.now) (numbered_as found.now)) }
{
    let troupe = found.troupe;
    let members = troupe.members.len();
    Ok(Troupe {
        root: text.root,
        calls: kind(troupe.calls),
        replies: kind(troupe.replies),
        founders: numbers_from(alloc, found.first, members)?,
        spares: numbers_from(alloc, found.first + members as u16, spares_len(troupe))?,
    })
}

// The troupe of a module.
fn troupe_at<'n, 't>(
    numbers: &Names,
    numbered: &'n [NumberedTroupe<'t>],
    text: &ModuleText,
) -> Option<&'n NumberedTroupe<'t>>
    requires few { AllByRecursion (λ (n : NumberedTroupe).
        n.first + length (hosts_of n.troupe.now) ≤ most_nodes) numbered.now }
    requires in_range { AllByRecursion (λ (n : NumberedTroupe).
        IsTroupeInRange n.troupe.now) numbered.now }
    ensures found { option_map numbered_as (option_copied result)
        ≡ troupe_at (map numbered_as numbered.now) (known_of numbers.now text.now.name.name) }
    ensures few { IfSome result (λ n.
        n.now.first + length (hosts_of n.now.troupe.now) ≤ most_nodes) }
    ensures in_range { IfSome result (λ n. IsTroupeInRange n.now.troupe.now) }
{
    match numbers.get(text.name.name.as_slice()) {
        Some(number) => numbered.get(number),
        None => None,
    }
}

/// The troupes of modules, in the order of these.
pub fn troupes(
    alloc: Global,
    modules: &[ModuleText],
    numbers: &Names,
    numbered: &[NumberedTroupe],
) -> Result<Troupes, NoMemory>
    requires few { AllByRecursion (λ (n : NumberedTroupe).
        n.first + length (hosts_of n.troupe.now) ≤ most_nodes) numbered.now }
    requires in_range { AllByRecursion (λ (n : NumberedTroupe).
        IsTroupeInRange n.troupe.now) numbered.now }
    ensures { IfOk result (λ made.
        made ≡ troupes_meant (map numbered_as numbered.now) (known_of numbers.now)
        (map module_of modules.now)) }
{
    let mut troupes = Troupes::new(alloc);
    for text in modules {
        if let Some(found) = troupe_at(numbers, numbered, text) {
            troupes.push(troupe(alloc, text, found)?)?;
        }
    }
    Ok(troupes)
}
