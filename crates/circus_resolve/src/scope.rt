// What names mean where an expression stands.
ghost use Rattle.std.specs.Prelude.{◌≡◌, option_map};
ghost use Rattle.circus_resolve.specs.Scope.{standing_of};
ghost use Rattle.circus_resolve.specs.Seen.Scoped.{standing_as, variable_as, type_in, known_types, standing_among, scope_as};

use circus_syntax::TypeName;
use circus_value::Shape;
use std::collections::BTreeMap;

/// A variable: its place among the state variables, the parameters and the locals, in this order, and its shape.
#[derive(Clone, Copy)]
pub struct Variable<'s> {
    pub place: u16,
    pub shape: &'s Shape,
}

/// What the name of a type stands for.
#[derive(Clone, Copy)]
pub enum Standing<'s> {
    Type(&'s Shape),
    /// The module before it isn't imported.
    NoModule,
    /// There is no type of this name.
    NoType,
    /// What the module before it implements isn't known.
    Unsaid,
}

/// The types of an interface, by their names.
#[derive(Drop)]
pub struct Types<'t> {
    pub table: BTreeMap<&'t [u8], &'t Shape>,
}

/// What every body of a module may name.
#[derive(Drop)]
pub struct ModuleScope<'m, 't> {
    /// The variables of its state.
    pub state: BTreeMap<&'m [u8], Variable<'m>>,
    /// The types of the module's own interface, where that is known.
    pub own: Option<&'m Types<'t>>,
    /// Those of the modules that it imports, where these are known.
    pub imported: BTreeMap<&'m [u8], Option<&'m Types<'t>>>,
}

/// The variables and types that an expression may name.
#[derive(Drop)]
pub struct Scope<'s, 'm, 't> {
    /// The parameters and locals of the body.
    pub variables: BTreeMap<&'s [u8], Variable<'s>>,
    /// What its module has besides; of two variables of one name the body's own is meant.
    pub outer: &'s ModuleScope<'m, 't>,
}

impl<'t> Types<'t> {
    fn standing_of(&self, name: &[u8]) -> Standing<'t>
        ensures { standing_as result ≡ type_in self.now name.now }
    {
        match self.table.get(name) {
            Some(shape) => Standing::Type(shape),
            None => Standing::NoType,
        }
    }
}

impl<'m, 't> ModuleScope<'m, 't> {
    fn standing_of(&self, name: &TypeName) -> Standing<'m>
        ensures { standing_as result ≡ standing_among self.now name.now }
    {
        let own = name.name.name.as_slice();
        match &name.module {
            None => standing_in(self.own, own),
            Some(module) => match self.imported.get(module.name.as_slice()) {
                Some(types) => standing_in(*types, own),
                None => Standing::NoModule,
            },
        }
    }
}

impl<'s, 'm, 't> Scope<'s, 'm, 't> {
    /// The variable of this name.
    pub fn variable(&self, name: &[u8]) -> Option<Variable<'s>>
        ensures { option_map variable_as result ≡ (scope_as self.now).variable name.now }
    {
        match self.variables.get(name).copied() {
            Some(variable) => Some(variable),
            None => self.outer.state.get(name).copied(),
        }
    }

    /// What the name of a type stands for.
    pub fn standing_of(&self, name: &TypeName) -> Standing<'s>
        ensures { standing_as result ≡ standing_of (scope_as self.now) name.now }
    {
        self.outer.standing_of(name)
    }
}

// What a name stands for among types that may be unknown.
fn standing_in<'s, 't>(types: Option<&'s Types<'t>>, name: &[u8]) -> Standing<'s>
    ensures { standing_as result
        ≡ known_types (option_map (λ known. type_in known.now) types.entry) name.now }
{
    match types {
        Some(types) => types.standing_of(name),
        None => Standing::Unsaid,
    }
}
