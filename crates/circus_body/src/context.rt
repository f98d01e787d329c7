// What a body may name besides variables and types.
ghost use Rattle.std.specs.Prelude.{◌≡◌, option_map};
ghost use Rattle.circus_body.specs.Seen.Named.{reported_as, offered_as, offered_in, known_offer};

use circus_resolve::Scope;
use circus_value::Fields;
use std::collections::BTreeMap;

/// An error that a procedure reports.
#[derive(Clone, Copy)]
pub struct Reported<'s> {
    pub number: u16,
    pub values: &'s Fields,
}

/// A procedure as those know it who call it.
#[derive(Drop)]
pub struct Offered<'s> {
    pub number: u16,
    pub arguments: &'s Fields,
    pub results: &'s Fields,
    /// The errors that it reports, by their names.
    pub reported: BTreeMap<&'s [u8], Reported<'s>>,
}

/// The procedures of an interface, by their names.
#[derive(Drop)]
pub struct OfferedProcedures<'s> {
    pub table: BTreeMap<&'s [u8], Offered<'s>>,
}

/// A module that may be called: its number, and its procedures where what it implements is known.
#[derive(Clone, Copy)]
pub struct Callee<'m, 't> {
    pub number: u16,
    pub procedures: Option<&'m OfferedProcedures<'t>>,
}

/// What the statements of a body may name.
#[derive(Drop)]
pub struct Context<'c, 's, 'm, 't> {
    pub scope: &'c Scope<'s, 'm, 't>,
    /// The modules that the body's own module imports.
    pub imported: &'c BTreeMap<&'m [u8], Callee<'m, 't>>,
    /// What the procedure itself gives and reports.
    pub own: &'c Offered<'t>,
}

impl<'s> Offered<'s> {
    /// The error of this name that it reports.
    pub fn error_named(&self, name: &[u8]) -> Option<Reported<'s>>
        ensures { option_map reported_as result ≡ (offered_as self.now).reported name.now }
    {
        self.reported.get(name).copied()
    }
}

impl<'s> OfferedProcedures<'s> {
    /// The procedure of this name.
    pub fn get(&self, name: &[u8]) -> Option<&Offered<'s>>
        ensures { known_offer result ≡ offered_in self.now name.now }
    {
        self.table.get(name)
    }
}
