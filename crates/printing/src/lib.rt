// Lines that several programs print, each to the writer `to`: standard output, or standard error.
#![tactic(auto)]

ghost use Rattle.std.specs.Prelude.{OnOk};
ghost use Rattle.std.specs.Io.KnownBytes.{Appends};
ghost use Rattle.printing.specs.Lines.{field, code_line, broken_line, unread_line};

use std::io;
use std::io::Write;

// A name and its number, as a part of a line.
pub fn print_field<W: Write>(to: &mut W, name: &[u8], n: usize) -> io::Result<()>
    ensures { OnOk result (Appends (W.contents to.old) (W.contents to.new) (field name.now n)) }
{
    to.write_all(name)?;
    write!(to, " {n}")
}

// A code alone.
pub fn print_code<W: Write>(to: &mut W, code: usize) -> io::Result<()>
    ensures { OnOk result (Appends (W.contents to.old) (W.contents to.new) (code_line code)) }
{
    writeln!(to, "code {code}")
}

// Code 9, with its rule, its frame and the number of rows.
pub fn print_broken<W: Write>(to: &mut W, rows: usize, rule: usize, frame: usize) -> io::Result<()>
    ensures { OnOk result (Appends (W.contents to.old) (W.contents to.new) (broken_line rows rule frame)) }
{
    writeln!(to, "code 9 rule {rule} frame {frame} rows {rows}")
}

// The code of a data set that does not read, and the offset.
pub fn print_unread<W: Write>(to: &mut W, code: usize, offset: usize) -> io::Result<()>
    ensures { OnOk result (Appends (W.contents to.old) (W.contents to.new) (unread_line code offset)) }
{
    writeln!(to, "code {code} place {offset}")
}
