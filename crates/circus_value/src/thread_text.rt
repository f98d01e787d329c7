// The texts of names, clocks and paths.
ghost use Rattle.std.specs.Prelude.{◌≡◌, Some, IsAscii};
ghost use Rattle.circus_value.specs.ThreadText.{clock_text, path_text};

use crate::{Clock, Name, Path};
use std::{fmt, str};

/// A name as text, which takes no memory.
pub fn name_text(name: &Name) -> &str
    requires { IsAscii name.now }
    ensures { result.now ≡ name.now }
{
    str::from_utf8(name.as_slice()).unwrap()
}

/// A clock, written as its counts with a comma between two, as `1,0` (docs/FORMATS.md).
#[derive(Clone, Copy)]
pub struct ClockText<'a>(pub &'a Clock);

impl fmt::Display for ClockText<'_> {
    ghost output = { λ text. Some (clock_text text.0.now) };

    fn fmt<W: fmt::Write>(&self, f: &mut fmt::Formatter<W>) -> fmt::Result {
        let Some((first, others)) = self.0.as_slice().split_first() else {
            return Ok(());
        };
        write!(f, "{first}")?;
        for count in others {
            write!(f, ",{count}")?;
        }
        Ok(())
    }
}

/// A path, written as the root's name with a point and a number for each ask, as `Main.0.3` (docs/FORMATS.md).
#[derive(Clone, Copy)]
pub struct PathText<'a> {
    pub root: &'a str,
    pub asks: &'a Path,
}

impl fmt::Display for PathText<'_> {
    ghost output = { λ text. Some (path_text text.root.now text.asks.now) };

    fn fmt<W: fmt::Write>(&self, f: &mut fmt::Formatter<W>) -> fmt::Result {
        f.write_str(self.root)?;
        for number in self.asks.as_slice() {
            write!(f, ".{number}")?;
        }
        Ok(())
    }
}
