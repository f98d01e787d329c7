//! How much a program, a thread, an execution and a module may have (docs/LANGUAGE.md, "Deployments" and "Program files").
#![tactic(auto)]

ghost use Rattle.std.specs.Prelude.{◌≡◌};
ghost use Rattle.circus_limits.specs.Limits.{limit_of};

/// How many modules a program has at most; a clock has a count for each.
pub const MOST_MODULES: usize = 32;

/// How many interfaces a program has at most.
pub const MOST_INTERFACES: usize = 32;

/// How many nodes a program has at most, the Ringmaster's among them.
pub const MOST_NODES: u8 = 64;

/// How many members a troupe has at most, at boot and later.
pub const MOST_MEMBERS: usize = 16;

/// The greatest number behind LEAST.
pub const MOST_NEEDED: u64 = 16;

/// How many characters the name of a node has at most.
pub const LONGEST_NAME: usize = 32;

/// The greatest port.
pub const GREATEST_PORT: u64 = 65_535;

/// How many asks an execution makes at most.
pub const MOST_ASKS: u16 = 65_535;

/// How many asks there are from a root down at most, since each goes to an earlier module.
pub const LONGEST_PATH: u16 = 31;

/// How many calls a thread makes at most.
pub const MOST_CALLS: u64 = 16_777_216;

/// How many bytes values have at most in a program of the first format.
pub const FIRST_LIMIT: u32 = 65_536;

/// How many bytes they have at most in one of the second format.
pub const MOST_BYTES: u32 = 1_048_576;

/// How many bytes, in external form, a state has at most in a program of a format, and so arguments, results and the values of
/// an error (docs/LANGUAGE.md, "Program files"). It takes no memory.
pub fn limit_of(format: u8) -> u32
    ensures { result ≡ limit_of format }
{
    if format == 1 { FIRST_LIMIT } else { MOST_BYTES }
}
