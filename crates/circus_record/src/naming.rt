// What nodes and modules are called.
ghost use Rattle.std.specs.Prelude.{◌≡◌, [], All, IsAscii};
ghost use Rattle.circus_record.specs.Naming.{Names, host_name, names_of};

use circus_collate::Host;
use circus_value::{Name, name_text};
use std::marker::Model;
use std::str;

/// Names of nodes and modules by their numbers.
pub trait Naming {
    ghost names: { Self → Names };

    /// What a node is called.
    fn node(&self, number: usize) -> &str
        ensures { result.now ≡ (names self.now).node number };

    /// What a module and its troupe are called.
    fn troupe(&self, number: usize) -> &str
        ensures { result.now ≡ (names self.now).troupe number };
}

/// What a node is called, as bytes. A number that none has is called nothing. It takes no memory.
pub fn node_name(nodes: &[Host], number: usize) -> &[u8]
    ensures { result.now ≡ (names_of nodes.now []).node number }
{
    match nodes.get(number) {
        Some(host) => host.name.as_slice(),
        None => b"",
    }
}

/// The names of a program's nodes and modules, which are ASCII. A number that none has is called nothing.
#[derive(Drop)]
pub struct ProgramNames<'a> {
    nodes: &'a [Host],
    modules: &'a [Name],
}

impl<'a> Model for ProgramNames<'a> {
    ghost use Rattle.std.specs.Prelude.{List, ℕ, All, IsAscii};
    ghost use Rattle.circus_collate.specs.declared.deployment.Host.{Host};
    ghost use Rattle.circus_record.specs.Naming.{host_name};

    ghost Value = { List Host × List (List ℕ) };

    ghost view = { λ p. (p.nodes.now, p.modules.now) };

    ghost invariant = { λ p. All (λ h. IsAscii (host_name h)) p.nodes.now × All IsAscii p.modules.now };
}

impl<'a> ProgramNames<'a> {
    /// Names of these nodes and modules, in the order of their numbers.
    pub fn new(nodes: &'a [Host], modules: &'a [Name]) -> Self
        requires nodes { All (λ h. IsAscii (host_name h)) nodes.now }
        requires modules { All IsAscii modules.now }
        ensures { result ≡ (nodes.now, modules.now) }
    {
        ProgramNames { nodes, modules }
    }
}

impl<'a> Naming for ProgramNames<'a> {
    ghost names = { λ p. names_of p.0 p.1 };

    fn node(&self, number: usize) -> &str {
        ascii_text(node_name(self.nodes, number))
    }

    fn troupe(&self, number: usize) -> &str {
        match self.modules.get(number) {
            Some(name) => name_text(name),
            None => "",
        }
    }
}

// Bytes as text.
fn ascii_text(bytes: &[u8]) -> &str
    requires { IsAscii bytes.now }
    ensures { result.now ≡ bytes.now }
{
    str::from_utf8(bytes).unwrap()
}
