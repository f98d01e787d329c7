// Which modules each module reaches, and which of them two roots reach.
ghost use Rattle.std.specs.Prelude.{◌≡◌, ◌==◌, ◌||◌, ◌&&◌, ℕ, ◌+◌, ◌<◌, ◌≤◌, nat_lt, [], map, length, option_map, slice_get, Some, IfOk, OnOk};
ghost use Rattle.circus_lang.specs.ModuleTree.{module_of};
ghost use Rattle.circus_check.specs.Naming.{is_root};
ghost use Rattle.std.specs.List.{list_any};
ghost use Rattle.circus_check.specs.Meaning.{import_numbers};
ghost use Rattle.circus_check.specs.Reach.{imports_of, only, roots_below, shared_at};
ghost use Rattle.circus_check.specs.Seen.Rows.{says, row_says, Tells, shared_as};

use crate::naming::{Import, Naming};
use circus_syntax::Named;
use circus_value::{ListOf, NoMemory};
use std::alloc::Global;

/// A module that two roots reach, with the first of these.
#[derive(Clone, Copy, Debug, PartialEq, Eq)]
pub struct Shared {
    pub module: u16,
    pub first: u16,
}

/// For each module so far, whether it reaches the module of each number up to its own.
#[derive(Drop)]
pub struct Reach {
    pub rows: ListOf<ListOf<bool>>,
}

// The numbers of the good ones among the imports of a module.
fn good_imports(
    alloc: Global,
    naming: &Naming<'_>,
    importing: usize,
    imports: &[Named],
) -> Result<ListOf<usize>, NoMemory>
    ensures { IfOk result (λ numbers.
        numbers ≡ import_numbers (map module_of naming.now.modules.now) importing imports.now) }
{
    let mut numbers = ListOf::new(alloc);
    for name in imports {
        if let Import::Good(number) = naming.import(importing, name) {
            numbers.push(number)?;
        }
    }
    Ok(numbers)
}

fn is_root(naming: &Naming<'_>, number: usize) -> bool
    ensures { result ≡ is_root (slice_get (map module_of naming.now.modules.now) number) }
{
    match naming.modules.get(number) {
        Some(module) => module.root,
        None => false,
    }
}

impl Reach {
    /// No module reaches another one. It takes no memory.
    pub fn new(alloc: Global) -> Self
        ensures { result.rows ≡ [] }
    {
        Reach {
            rows: ListOf::new(alloc),
        }
    }

    fn says(&self, from: usize, to: usize) -> bool
        ensures { result ≡ says self.now from to }
    {
        match self.rows.get(from) {
            Some(row) => row.get(to).copied().unwrap_or(false),
            None => false,
        }
    }

    // Whether one of these modules reaches it.
    fn any_reaches(&self, numbers: &[usize], to: usize) -> bool
        ensures { result ≡ list_any (λ k. says self.now k to) numbers.now }
    {
        for number in numbers {
            if self.says(*number, to) {
                return true;
            }
        }
        false
    }

    /// Adds the next module, which imports these.
    pub fn add(
        &mut self,
        alloc: Global,
        naming: &Naming<'_>,
        imports: &[Named],
    ) -> Result<(), NoMemory>
        requires told { Tells self.old (map module_of naming.now.modules.now) }
        requires its { imports.now
            ≡ imports_of (slice_get (map module_of naming.now.modules.now) (length self.old.rows)) }
        ensures told { OnOk result (Tells self.new (map module_of naming.now.modules.now)) }
        ensures more { OnOk result (length self.new.rows ≡ length self.old.rows + 1) }
    {
        let number = self.rows.len();
        let goods = good_imports(alloc, naming, number, imports)?;
        let row = self.row(alloc, number, goods.as_slice())?;
        self.rows.push(row)
    }

    // What a module reaches that has these good imports.
    fn row(&self, alloc: Global, number: usize, goods: &[usize]) -> Result<ListOf<bool>, NoMemory>
        ensures { IfOk result (λ row.
            (to : ℕ) → row_says (Some row) to
            ≡ ((number == to) ||
            (nat_lt to number && list_any (λ k. says self.now k to) goods.now))) }
    {
        let mut row = ListOf::new(alloc);
        for to in 0..number {
            row.push(self.any_reaches(goods, to))?;
        }
        row.push(true)?;
        Ok(row)
    }

    // The one root below a number that reaches a module, where it is one alone.
    fn only_root(&self, naming: &Naming<'_>, below: usize, to: usize) -> Option<usize>
        requires told { Tells self.now (map module_of naming.now.modules.now) }
        requires there { below ≤ length self.now.rows }
        ensures { result ≡ only (roots_below (map module_of naming.now.modules.now) below to) }
    {
        let mut first = None;
        for number in 0..below {
            if is_root(naming, number) && self.says(number, to) {
                if first.is_some() {
                    return None;
                }
                first = Some(number);
            }
        }
        first
    }

    /// The lowest module of which this root is the second that reaches it.
    pub fn first_shared(&self, naming: &Naming<'_>, second: usize) -> Option<Shared>
        requires told { Tells self.now (map module_of naming.now.modules.now) }
        requires there { (second < length self.now.rows) × (length self.now.rows ≤ 64) }
        ensures { option_map shared_as result
            ≡ shared_at (map module_of naming.now.modules.now) second }
    {
        if !is_root(naming, second) {
            return None;
        }
        for to in 0..second {
            if self.says(second, to) {
                if let Some(first) = self.only_root(naming, second, to) {
                    return Some(Shared {
                        module: to.min(65_535) as u16,
                        first: first.min(65_535) as u16,
                    });
                }
            }
        }
        None
    }
}
