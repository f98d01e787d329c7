// Names in lines, and their ends.
ghost use Rattle.std.specs.Prelude.{◌≡◌, ◌≤◌, ◌^◌, length, map, drop, not, position, bytes_eq};
ghost use Rattle.circus_collate.specs.declared.deployment.Host.{Host};
ghost use Rattle.std.specs.Char.{is_ascii_alphanumeric};
ghost use Rattle.circus_record.specs.Naming.{host_name};
ghost use Rattle.circus_value_text.specs.Reading.{is_empty};
ghost use Rattle.circus_value_text.specs.Seen.Given.{Gives, GivesAt};
ghost use Rattle.circus_audit.specs.Seen.Answers.{Ends};
ghost use Rattle.circus_audit.specs.Seen.Names as names;

use circus_collate::Host;
use circus_value::Name;
use circus_value_text::Unread;

// The first byte that is neither a letter nor a digit.
fn first_other(text: &[u8]) -> Option<usize>
    ensures { result ≡ position (λ b. not (is_ascii_alphanumeric b)) text.now }
{
    text.iter().position(|byte| !byte.is_ascii_alphanumeric())
}

// How many letters and digits stand in front.
fn name_length(text: &[u8]) -> usize
    ensures value { result ≡ names.name_length text.now }
    ensures within { result ≤ length text.now }
{
    match first_other(text) {
        Some(len) => len,
        None => text.len(),
    }
}

/// What stands from a place on. It takes no memory.
#[tactic(auto, using(std::proofs::lemmas::List::take_all))]
pub(crate) fn rest_at(text: &[u8], at: usize) -> &[u8]
    requires { at ≤ length text.now }
    ensures { result.now ≡ drop at text.now }
{
    &text[at..]
}

// The number of the node that has a name.
fn node_named(nodes: &[Host], name: &[u8]) -> Option<usize>
    ensures { result ≡ position (λ (h : Host). bytes_eq h.name name.now) nodes.now }
{
    nodes.iter().position(|host| host.name.as_slice() == name)
}

// The number of the module that has a name.
fn module_named(modules: &[Name], name: &[u8]) -> Option<usize>
    ensures { result ≡ names.place_of modules.now name.now }
{
    modules.iter().position(|each| each.as_slice() == name)
}

/// The number of the node whose name stands at a place, and the place behind it. It takes no memory.
pub(crate) fn read_node(text: &[u8], at: usize, nodes: &[Host]) -> Result<(u16, usize), Unread>
    requires at { at ≤ length text.now }
    requires nodes { length nodes.now ≤ 2 ^ 16 }
    ensures { GivesAt text.now at result (names.number_of_name (map host_name nodes.now)) }
{
    let rest = rest_at(text, at);
    let len = name_length(rest);
    match node_named(nodes, &rest[..len]) {
        Some(node) => Ok((node as u16, at + len)),
        None => Err(Unread::Unlike),
    }
}

/// The number of the node other than this one whose name stands at a place, and the place behind it. It takes no memory.
pub(crate) fn read_other(
    text: &[u8],
    at: usize,
    nodes: &[Host],
    own: u16,
) -> Result<(u16, usize), Unread>
    requires at { at ≤ length text.now }
    requires nodes { length nodes.now ≤ 2 ^ 16 }
    ensures { Gives (λ n.
        n) text.now result
        (names.other own (names.number_of_name (map host_name nodes.now) (drop at text.now))) }
{
    let (node, next) = read_node(text, at, nodes)?;
    if node == own {
        Err(Unread::Unlike)
    } else {
        Ok((node, next))
    }
}

/// The number of the module whose name stands at a place, and the place behind it. It takes no memory.
pub(crate) fn read_module(text: &[u8], at: usize, modules: &[Name]) -> Result<(u16, usize), Unread>
    requires at { at ≤ length text.now }
    requires modules { length modules.now ≤ 2 ^ 16 }
    ensures { GivesAt text.now at result (names.number_of_name modules.now) }
{
    let rest = rest_at(text, at);
    let len = name_length(rest);
    match module_named(modules, &rest[..len]) {
        Some(module) => Ok((module as u16, at + len)),
        None => Err(Unread::Unlike),
    }
}

/// Whether nothing stands at a place but the end of the line.
pub(crate) fn is_end(text: &[u8], at: usize) -> bool
    requires { at ≤ length text.now }
    ensures { result ≡ is_empty (drop at text.now) }
{
    at == text.len()
}

/// Nothing stands at a place but the end of the line.
pub(crate) fn end(text: &[u8], at: usize) -> Result<(), Unread>
    requires { at ≤ length text.now }
    ensures { Ends (drop at text.now) result }
{
    if is_end(text, at) {
        Ok(())
    } else {
        Err(Unread::Unlike)
    }
}
