// The answers of the steps, in words and numbers. What a step lacks is printed as `lacks`.
use pixel::Geometry;
use shift::Shift;
use std::io;
use std::io::Write;
use value::{Function, Signed};
use window::Window;

pub fn print_number<W: Write>(to: &mut W, n: usize) -> io::Result<()> {
    write!(to, " {n}")
}

// A number with its sign; zero has none. A number that was not read, or not as a small whole one, is `other`.
fn print_signed<W: Write>(to: &mut W, n: Option<Signed>) -> io::Result<()> {
    match n {
        Some(Signed::Plus(k)) => print_number(to, k),
        Some(Signed::Minus(k)) => print_minus(to, k),
        None => to.write_all(b" other"),
    }
}

fn print_minus<W: Write>(to: &mut W, k: usize) -> io::Result<()> {
    if k == 0 {
        print_number(to, k)
    } else {
        write!(to, " -{k}")
    }
}

// Rows, Columns, bytes of a sample and bits stored in it.
pub fn print_size<W: Write>(to: &mut W, size: Option<Geometry>) -> io::Result<()> {
    match size {
        Some(g) => {
            to.write_all(b"size")?;
            print_number(to, g.rows)?;
            print_number(to, g.columns)?;
            print_number(to, g.width)?;
            print_number(to, g.stored)
        }
        None => to.write_all(b"size lacks"),
    }
}

pub fn print_inverse<W: Write>(to: &mut W, inverse: Option<bool>) -> io::Result<()> {
    match inverse {
        Some(true) => to.write_all(b" inverse yes"),
        Some(false) => to.write_all(b" inverse no"),
        None => to.write_all(b" inverse lacks"),
    }
}

// Step 3, TID: the mask frame, or that the frame is native.
pub fn print_tid<W: Write>(to: &mut W, frame: Option<Option<usize>>) -> io::Result<()> {
    match frame {
        Some(Some(n)) => {
            to.write_all(b" tid")?;
            print_number(to, n)
        }
        Some(None) => to.write_all(b" tid native"),
        None => to.write_all(b" tid lacks"),
    }
}

fn print_kind<W: Write>(to: &mut W, s: Shift) -> io::Result<()> {
    match s {
        Shift::None => to.write_all(b" shift none"),
        Shift::Item(_, _) => to.write_all(b" shift item"),
        Shift::Frame(_, _) => to.write_all(b" shift frame"),
    }
}

// Whose two numbers the shift has, and how far it moves the mask. The library reads only whole quarters from -64 to 64.
fn print_moves<W: Write>(to: &mut W, s: Shift) -> io::Result<()> {
    print_kind(to, s)?;
    let m = shift::short_moves_of(s);
    print_signed(to, m.vertical)?;
    print_signed(to, m.horizontal)
}

// Step 4.
pub fn print_shift<W: Write>(to: &mut W, shift: Option<Shift>) -> io::Result<()> {
    match shift {
        Some(s) => print_moves(to, s),
        None => to.write_all(b" shift lacks"),
    }
}

fn print_function<W: Write>(to: &mut W, function: Option<Function>) -> io::Result<()> {
    match function {
        Some(Function::Linear) => to.write_all(b" LINEAR"),
        Some(Function::Exact) => to.write_all(b" LINEAR_EXACT"),
        None => to.write_all(b" other"),
    }
}

// Step 6: the function, and the centre and the width in units of a DS number.
pub fn print_window<W: Write>(to: &mut W, window: Option<Window>) -> io::Result<()> {
    match window {
        Some(w) => {
            to.write_all(b" window")?;
            print_function(to, w.function)?;
            print_signed(to, w.center)?;
            print_signed(to, w.width)
        }
        None => to.write_all(b" window lacks"),
    }
}
