// Reading modules.
ghost use Rattle.std.specs.Prelude.{◌≡◌, ℕ, true, false, codes, map, Some, None, IfOk};
ghost use Rattle.circus_syntax.specs.Reader.{place, sees};
ghost use Rattle.circus_syntax.specs.Spelling.{most_levels};
ghost use Rattle.circus_expression.specs.Standing.{show_as};
ghost use Rattle.circus_lang.specs.ModuleTree.{variable_of, procedure_of, module_of};
ghost use Rattle.circus_lang.specs.ModuleStanding.{body_stands_for, procedure_stands_for, main_stands_for, module_stands_for};
ghost use Rattle.circus_lang.specs.ModuleReading.{variable, variables, body, procedure, procedures, main_procedure, imports, heading, module_end, serving_module, root_module, module_text, begins_module};

use crate::{ModuleText, ProcedureText, ProcedureTexts, VariableText, VariableTexts};
use circus_statement::{Statements, statements_text};
use circus_syntax::{MOST_LEVELS, Named, Nameds, Reader};
use circus_value::{Name, NoMemory};

/// Whether the next token begins a module or a root.
pub fn begins_module(reader: &Reader<'_>) -> bool
    ensures { result ≡ sees begins_module reader.now }
{
    reader.sees_word(b"MODULE") || reader.sees_word(b"ROOT")
}

/// Reads a module or a root of at most 64 levels, or stops (docs/LANGUAGE.md, "Modules").
pub fn module_or_root(reader: &mut Reader<'_>) -> Result<ModuleText, NoMemory>
    ensures { IfOk result (λ read.
        show_as module_stands_for (module_text most_levels reader.old)
        ≡ (module_of read, reader.new)) }
{
    if reader.sees_word(b"ROOT") {
        root(reader)
    } else {
        serving_module(reader)
    }
}

// A module that implements an interface.
fn serving_module(reader: &mut Reader<'_>) -> Result<ModuleText, NoMemory>
    ensures { IfOk result (λ read.
        show_as module_stands_for (serving_module most_levels reader.old)
        ≡ (module_of read, reader.new)) }
{
    reader.word(b"MODULE");
    let name = reader.name()?;
    reader.word(b"IMPLEMENTS");
    let interface = reader.name()?;
    let imports = heading(reader)?;
    let variables = variables(reader)?;
    let procedures = procedures(reader)?;
    module_end(reader);
    Ok(ModuleText {
        root: false,
        name,
        interface: Some(interface),
        imports,
        variables,
        procedures,
    })
}

fn root(reader: &mut Reader<'_>) -> Result<ModuleText, NoMemory>
    ensures { IfOk result (λ read.
        show_as module_stands_for (root_module most_levels reader.old)
        ≡ (module_of read, reader.new)) }
{
    reader.word(b"ROOT");
    let name = reader.name()?;
    let imports = heading(reader)?;
    let variables = variables(reader)?;
    let mut procedures = ProcedureTexts::new(reader.alloc());
    procedures.push(main_procedure(reader)?)?;
    module_end(reader);
    Ok(ModuleText {
        root: true,
        name,
        interface: None,
        imports,
        variables,
        procedures,
    })
}

// What stands behind the names of a module, up to its variables.
fn heading(reader: &mut Reader<'_>) -> Result<Nameds, NoMemory>
    ensures { IfOk result (λ read. heading reader.old ≡ (read, reader.new)) }
{
    let imports = imports(reader)?;
    reader.sign(b";");
    reader.word(b"BEGIN");
    Ok(imports)
}

fn imports(reader: &mut Reader<'_>) -> Result<Nameds, NoMemory>
    ensures { IfOk result (λ read. imports reader.old ≡ (read, reader.new)) }
{
    if reader.sees_word(b"IMPORTS") {
        reader.word(b"IMPORTS");
        reader.names()
    } else {
        Ok(Nameds::new(reader.alloc()))
    }
}

fn variables(reader: &mut Reader<'_>) -> Result<VariableTexts, NoMemory>
    ensures { IfOk result (λ read.
        variables most_levels reader.old ≡ (map variable_of read, reader.new)) }
{
    let mut variables = VariableTexts::new(reader.alloc());
    while reader.sees_word(b"VAR") {
        variables.push(variable(reader)?)?;
    }
    Ok(variables)
}

fn variable(reader: &mut Reader<'_>) -> Result<VariableText, NoMemory>
    ensures { IfOk result (λ read.
        variable most_levels reader.old ≡ (variable_of read, reader.new)) }
{
    reader.word(b"VAR");
    let name = reader.name()?;
    reader.sign(b":");
    let shape = reader.type_text(MOST_LEVELS)?;
    reader.sign(b";");
    Ok(VariableText { name, shape })
}

fn procedures(reader: &mut Reader<'_>) -> Result<ProcedureTexts, NoMemory>
    ensures { IfOk result (λ read.
        show_as (map procedure_stands_for) (procedures most_levels reader.old)
        ≡ (map procedure_of read, reader.new)) }
{
    let mut procedures = ProcedureTexts::new(reader.alloc());
    while reader.sees_word(b"PROCEDURE") {
        procedures.push(procedure(reader)?)?;
    }
    Ok(procedures)
}

fn procedure(reader: &mut Reader<'_>) -> Result<ProcedureText, NoMemory>
    ensures { IfOk result (λ read.
        show_as procedure_stands_for (procedure most_levels reader.old)
        ≡ (procedure_of read, reader.new)) }
{
    reader.word(b"PROCEDURE");
    let name = reader.name()?;
    let (variables, statements) = body(reader)?;
    Ok(ProcedureText {
        name,
        variables,
        statements,
    })
}

// The procedure of a root.
fn main_procedure(reader: &mut Reader<'_>) -> Result<ProcedureText, NoMemory>
    ensures { IfOk result (λ read.
        show_as main_stands_for (main_procedure most_levels reader.old)
        ≡ (procedure_of read, reader.new)) }
{
    let mut name = Name::new(reader.alloc());
    name.append(b"MAIN")?;
    let at = reader.place();
    reader.word(b"MAIN");
    let (variables, statements) = body(reader)?;
    Ok(ProcedureText {
        name: Named { name, at },
        variables,
        statements,
    })
}

fn body(reader: &mut Reader<'_>) -> Result<(VariableTexts, Statements), NoMemory>
    ensures { IfOk result (λ read.
        show_as body_stands_for (body most_levels reader.old)
        ≡ (record { variables = map variable_of read.0; statements = read.1 }, reader.new)) }
{
    let variables = variables(reader)?;
    let statements = statements_text(reader, b"BEGIN", MOST_LEVELS)?;
    reader.word(b"END");
    reader.sign(b";");
    Ok((variables, statements))
}

fn module_end(reader: &mut Reader<'_>)
    ensures { module_end reader.old ≡ (tt, reader.new) }
{
    reader.word(b"END");
    reader.sign(b".");
}
