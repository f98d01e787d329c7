// Reading program files.
ghost use Rattle.std.specs.Prelude.{◌≡◌, map, IfOk};
ghost use Rattle.circus_syntax.specs.InterfaceTree.{interface_of};
ghost use Rattle.circus_syntax.specs.Spelling.{most_levels};
ghost use Rattle.circus_expression.specs.Standing.{show_as};
ghost use Rattle.circus_lang.specs.ModuleTree.{module_of};
ghost use Rattle.circus_lang.specs.ModuleStanding.{module_stands_for};
ghost use Rattle.circus_file.specs.ProgramTree.{program_of, program_stands_for};
ghost use Rattle.circus_file.specs.ProgramReading.{format_number, heading, interfaces, modules, program};

use crate::{Format, InterfaceTexts, ProgramText};
use circus_lang::{ModuleTexts, begins_module, module_or_root};
use circus_syntax::Reader;
use circus_troupe::deployment;
use circus_value::NoMemory;

/// Reads a program file of at most 64 levels up to its last token, or stops: at the first token with which no program goes
/// on, or at the end of the text, and as `TooDeep` at the token that opens level 65. What a stop cuts is filled in, whose
/// places are that of the stop (docs/LANGUAGE.md, "Program files"). `NoMemory` is the only fault.
pub fn program(reader: &mut Reader<'_>) -> Result<ProgramText, NoMemory>
    ensures { IfOk result (λ read.
        show_as program_stands_for (program most_levels reader.old)
        ≡ (program_of read, reader.new)) }
{
    let format = heading(reader);
    let interfaces = interfaces(reader)?;
    let modules = modules(reader)?;
    let deployment = deployment(reader)?;
    Ok(ProgramText {
        format,
        interfaces,
        modules,
        deployment,
    })
}

#[tactic(auto, unfolding(crate::specs::ProgramReading::heading))]
fn heading(reader: &mut Reader<'_>) -> Format
    ensures { heading reader.old ≡ (result, reader.new) }
{
    reader.word(b"CIRCUS");
    let format = format_number(reader);
    reader.sign(b";");
    format
}

#[tactic(auto, unfolding(crate::specs::ProgramReading::format_number))]
fn format_number(reader: &mut Reader<'_>) -> Format
    ensures { format_number reader.old ≡ (result, reader.new) }
{
    if reader.sees_digits(b"2") {
        reader.digits(b"2");
        Format::Two
    } else {
        reader.digits(b"1");
        Format::One
    }
}

fn interfaces(reader: &mut Reader<'_>) -> Result<InterfaceTexts, NoMemory>
    ensures { IfOk result (λ read.
        interfaces most_levels reader.old ≡ (map interface_of read, reader.new)) }
{
    let mut interfaces = InterfaceTexts::new(reader.alloc());
    while reader.sees_name() {
        interfaces.push(reader.interface()?)?;
    }
    Ok(interfaces)
}

fn modules(reader: &mut Reader<'_>) -> Result<ModuleTexts, NoMemory>
    ensures { IfOk result (λ read.
        show_as (map module_stands_for) (modules most_levels reader.old)
        ≡ (map module_of read, reader.new)) }
{
    let mut modules = ModuleTexts::new(reader.alloc());
    while begins_module(reader) {
        modules.push(module_or_root(reader)?)?;
    }
    Ok(modules)
}
