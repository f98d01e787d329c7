// What names of interfaces and modules stand for.
ghost use Rattle.std.specs.Prelude.{◌≡◌, ℕ, List, map, IfOk, OnOk};
ghost use Rattle.circus_fault.specs.Seen.Tables.{known_of};
ghost use Rattle.circus_lang.specs.ModuleTree.{module_of};
ghost use Rattle.circus_check.specs.Naming.{interface_named, module_named, import_of};
ghost use Rattle.circus_check.specs.Seen.Known.{import_as};
ghost use Rattle.circus_check.specs.Seen.Tables.{also_first};

use circus_fault::Names;
use circus_idl::Interface;
use circus_lang::ModuleText;
use circus_syntax::Named;
use circus_value::{Name, NoMemory};
use std::alloc::Global;

/// What the name of an import stands for.
#[derive(Clone, Copy, Debug, PartialEq, Eq)]
pub enum Import {
    /// The earlier module of this number, which is no root.
    Good(usize),
    /// The importing module itself, or a later one.
    Forward,
    /// A root, or no module.
    NoModule,
}

/// The modules and interfaces of a program by their names.
#[derive(Drop)]
pub struct Naming<'s> {
    pub modules: &'s [ModuleText],
    pub interfaces: &'s [Interface],
    /// The number of the first module of each name.
    module_numbers: Names<'s>,
    interface_numbers: Names<'s>,
    ghost modules_found: { (name : List ℕ) → known_of module_numbers name ≡ module_named (map module_of modules.now) name },
    ghost interfaces_found: { (name : List ℕ) → known_of interface_numbers name ≡ interface_named interfaces.now name },
}

impl<'s> Naming<'s> {
    /// The modules and interfaces of a program, with their names, or `NoMemory`.
    pub fn new(
        alloc: Global,
        interfaces: &'s [Interface],
        modules: &'s [ModuleText],
    ) -> Result<Self, NoMemory>
        ensures modules { IfOk result (λ naming. naming.modules.now ≡ modules.now) }
        ensures interfaces { IfOk result (λ naming. naming.interfaces.now ≡ interfaces.now) }
    {
        Ok(Naming {
            modules,
            interfaces,
            module_numbers: module_numbers(alloc, modules)?,
            interface_numbers: interface_numbers(alloc, interfaces)?,
        })
    }

    /// The number of the interface of this name.
    pub fn interface(&self, name: &Named) -> Option<usize>
        ensures { result ≡ interface_named self.now.interfaces.now name.now.name }
    {
        self.interface_numbers.get(name.name.as_slice())
    }

    /// The number of the first module of this name.
    pub fn module(&self, name: &Named) -> Option<usize>
        ensures { result ≡ module_named (map module_of self.now.modules.now) name.now.name }
    {
        self.module_numbers.get(name.name.as_slice())
    }

    /// What the name of an import stands for where the module of this number imports it.
    pub fn import(&self, importing: usize, name: &Named) -> Import
        ensures { import_as result
            ≡ import_of (map module_of self.now.modules.now) importing name.now }
    {
        let Some(number) = self.module(name) else {
            return Import::NoModule;
        };
        match self.modules.get(number) {
            Some(module) if module.root => Import::NoModule,
            _ if number < importing => Import::Good(number),
            _ => Import::Forward,
        }
    }
}

/// Gives a name a place where it has none.
pub fn first_place<'a>(names: &mut Names<'a>, name: &'a Name, place: usize) -> Result<(), NoMemory>
    ensures { OnOk result (known_of names.new ≡ also_first name.now place (known_of names.old)) }
{
    let bytes = name.as_slice();
    match names.get(bytes) {
        Some(_) => Ok(()),
        None => {
            names.insert(bytes, place)?;
            Ok(())
        }
    }
}

fn module_numbers(alloc: Global, modules: &[ModuleText]) -> Result<Names<'_>, NoMemory>
    ensures { IfOk result (λ numbers.
        (name : List ℕ) → known_of numbers name ≡ module_named (map module_of modules.now) name) }
{
    let mut numbers = Names::new(alloc);
    for (number, module) in modules.iter().enumerate() {
        first_place(&mut numbers, &module.name.name, number)?;
    }
    Ok(numbers)
}

fn interface_numbers(alloc: Global, interfaces: &[Interface]) -> Result<Names<'_>, NoMemory>
    ensures { IfOk result (λ numbers.
        (name : List ℕ) → known_of numbers name ≡ interface_named interfaces.now name) }
{
    let mut numbers = Names::new(alloc);
    for (number, interface) in interfaces.iter().enumerate() {
        first_place(&mut numbers, &interface.name, number)?;
    }
    Ok(numbers)
}
