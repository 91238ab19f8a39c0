// Fits cells that are given by truth tables. Each line of standard input is `PIN KIND POL NAMED TABLE`, a line `.` ends a batch. For each batch it
// prints a line for each cell, rising by pin, and the fuse sum of the whole map, or `12 PIN` for the first line that doesn't fit; then `.`.
#![tactic(auto)]

ghost use Rattle.std.specs.Prelude.{◌-◌, ◌<◌, ◌≤◌, length, IfOk};

use cells::{Cells, Kind};
use fit::Fitted;
use std::io;
use std::io::Write;

// A cell in use, and what it is fitted with.
#[derive(Clone, Copy)]
struct Cell {
    registered: bool,
    fitted: Fitted,
}

// A variable that a table names: the bit of its pin in the number of a setting, and whether the variable is the complement of what the pin has.
#[derive(Clone, Copy)]
struct Named {
    bit: usize,
    flipped: bool,
}

// The byte d further, 0 behind the end.
fn at(text: &[u8], d: usize) -> u8 {
    *text.get(d).unwrap_or(&0)
}

// What comes d bytes further, at most nothing.
fn ahead(text: &[u8], d: usize) -> &[u8] {
    &text[d.min(text.len())..]
}

// What comes behind the line.
fn next_line(text: &[u8]) -> &[u8]
    ensures { length result.now ≤ length text.now - 1 }
{
    match text.iter().position(|&b| b == b'\n') {
        Some(i) => &text[i + 1..],
        None => &text[text.len()..],
    }
}

// What comes n lines later.
fn skip(text: &[u8], n: usize) -> &[u8]
    ensures { length result.now ≤ length text.now }
{
    let mut rest = text;
    for _ in 0..n {
        rest = next_line(rest);
    }
    rest
}

// The value of a digit.
fn digit(b: u8) -> usize
    ensures { result < 10 }
{
    match b {
        b'0'..=b'9' => (b - b'0') as usize,
        _ => 0,
    }
}

// The number of one or two digits that the text begins with.
fn number(text: &[u8]) -> usize
    ensures { result < 100 }
{
    let first = digit(at(text, 0));
    match at(text, 1) {
        ..b'0' => first,
        second => first * 10 + digit(second),
    }
}

// How many digits it has.
fn digits(text: &[u8]) -> usize {
    if at(text, 1) < b'0' { 1 } else { 2 }
}

// The cell of a pin.
fn cell_of(pin: usize) -> usize
    ensures { result < 10 }
{
    match pin {
        14..=23 => 23 - pin,
        _ => 0,
    }
}

// Whether a line's cell is registered.
fn is_registered(line: &[u8]) -> bool {
    at(line, 3) == b'R'
}

// Whether a register's pin shows Q.
fn shows_q(line: &[u8]) -> bool {
    at(line, 5) != b'L'
}

// How many cells a batch has.
fn cell_count(text: &[u8]) -> usize {
    let mut rest = text;
    for n in 0..10 {
        if at(rest, 0) < b'0' {
            return n;
        }
        rest = next_line(rest);
    }
    10
}

// Which of a batch's n cells show Q.
fn shown_in(text: &[u8], n: usize) -> [bool; 10] {
    let mut shown = [false; 10];
    let mut line = text;
    for _ in 0..n {
        shown[cell_of(number(line))] = shows_q(line);
        line = next_line(line);
    }
    shown
}

// The variable of a pin: the complement of its column pair's signal, counted from the last pair.
fn variable(pin: usize) -> usize
    ensures { result < 22 }
{
    match pin {
        2..=23 => 21 - device::pair(pin).min(21),
        _ => 0,
    }
}

// Whether the variable is the complement of what the pin has: an input, or a register whose pin shows the inverse of Q.
fn is_flipped(pin: usize, shown: &[bool; 10]) -> bool {
    pin < 14 || !shown[cell_of(pin)]
}

// The pins that a line names, as variables, and what comes behind them.
fn names<'a>(text: &'a [u8], shown: &[bool; 10]) -> ([Option<Named>; 22], &'a [u8]) {
    let mut named = [None; 22];
    let mut rest = text;
    for turn in 0..10usize {
        if at(rest, 0) < b'0' {
            return (named, ahead(rest, 2));
        }
        let pin = number(rest);
        named[variable(pin)] = Some(Named {
            bit: 1 << turn,
            flipped: is_flipped(pin, shown),
        });
        rest = ahead(rest, digits(rest));
        let separator = at(rest, 0);
        rest = ahead(rest, 1);
        if separator == b' ' {
            break;
        }
    }
    (named, rest)
}

// The variables named, as a mask.
fn mask(named: &[Option<Named>; 22]) -> u32 {
    let mut m = 0;
    for v in 0..22 {
        if named[v].is_some() {
            m |= 1 << v;
        }
    }
    m
}

// The setting of the pins at setting s of the variables.
fn setting(named: &[Option<Named>; 22], s: usize) -> usize {
    let mut left = s;
    let mut pins = 0;
    for v in named {
        if let Some(Named { bit, flipped }) = v {
            if (left % 2 == 1) != *flipped {
                pins |= *bit;
            }
            left /= 2;
        }
    }
    pins
}

// The table over the variables, from the one over the pins.
fn table_of(text: &[u8], named: &[Option<Named>; 22]) -> [u8; 1024] {
    let mut table = [0; 1024];
    for s in 0..1024 {
        table[s] = basics::byte_of(at(text, setting(named, s)) == b'1');
    }
    table
}

// Cell k from the table of the variables in the mask, if it fits.
#[tactic(auto, using(crate::proofs::Powers::few))]
fn fitted(
    k: usize,
    registered: bool,
    s0: bool,
    table: &[u8; 1024],
    mask: u32,
    room: &mut [u8; 65536],
) -> Option<Fitted>
    requires { k < 10 }
{
    let n = cover::width(mask);
    if 10 < n {
        return None;
    }
    let size = 2usize.pow(n as u32);
    fit::fit_cell(k, registered, s0, &table[..size], room, n, mask)
}

// The cell of a line, if it fits.
fn cell_in(line: &[u8], shown: &[bool; 10], room: &mut [u8; 65536]) -> Option<Cell> {
    let (named, rest) = names(ahead(line, 7), shown);
    let table = table_of(rest, &named);
    let k = cell_of(number(line));
    let registered = is_registered(line);
    let fitted = fitted(k, registered, shows_q(line), &table, mask(&named), room)?;
    Some(Cell { registered, fitted })
}

// The cells of a batch's n lines, or the pin of the first that doesn't fit.
fn cells_in(text: &[u8], n: usize, room: &mut [u8; 65536]) -> Result<[Option<Cell>; 10], usize> {
    let shown = shown_in(text, n);
    let mut cells = [None; 10];
    let mut line = text;
    for _ in 0..n {
        let pin = number(line);
        let cell = cell_in(line, &shown, room).ok_or(pin)?;
        cells[cell_of(pin)] = Some(cell);
        line = next_line(line);
    }
    Ok(cells)
}

// The factors of a cell's products.
fn factors(fitted: &Fitted) -> u32 {
    if fitted.n <= 16 {
        cells::factors(fitted.masks, fitted.n)
    } else {
        0
    }
}

// The line of a cell.
fn put_cell<W: Write>(to: &mut W, pin: usize, cell: &Cell) -> io::Result<()> {
    let fitted = &cell.fitted;
    let kind = if cell.registered { 'R' } else { 'C' };
    let s0 = if fitted.s0 { 'H' } else { 'L' };
    writeln!(to, "{pin} {kind} {s0} {} {}", fitted.n, factors(fitted))
}

// The lines of the cells in use, rising by pin.
fn put_cells<W: Write>(to: &mut W, cells: &[Option<Cell>; 10]) -> io::Result<()> {
    for pin in 14..24 {
        if let Some(cell) = &cells[23 - pin] {
            put_cell(to, pin, cell)?;
        }
    }
    Ok(())
}

// The cells as their map is written from them.
fn written_cells(cells: &[Option<Cell>; 10]) -> Cells {
    let mut masks = [[0; 16]; 10];
    let mut counts = [0; 10];
    let mut kinds = [Kind::Unused; 10];
    let mut s0s = [0; 10];
    for k in 0..10 {
        if let Some(Cell { registered, fitted }) = cells[k] {
            masks[k] = fitted.masks;
            counts[k] = (fitted.n % 256) as u8;
            kinds[k] = if registered {
                Kind::Registered
            } else {
                Kind::Combinational
            };
            s0s[k] = basics::byte_of(fitted.s0);
        }
    }
    Cells {
        masks,
        counts,
        kinds,
        s0s,
    }
}

// The sum of fuses in bytes, a byte's lowest fuse in its lowest bit.
fn fuse_sum(map: &[u8; 5892]) -> u16 {
    let mut sum = 0u16;
    for i in 0..5892 {
        if map[i] == 1 {
            sum = sum.wrapping_add(1 << (i % 8));
        }
    }
    sum
}

// The fuse sum of the map of these cells, in four hex digits, and the batch's last line.
fn put_sum<W: Write>(to: &mut W, cells: &[Option<Cell>; 10]) -> io::Result<()> {
    let mut map = [0; 5892];
    written_cells(cells).write_map(&mut map);
    write!(to, "{:04X}\n.\n", fuse_sum(&map))
}

// One batch; what comes behind it.
fn batch<'a, W: Write>(to: &mut W, text: &'a [u8], room: &mut [u8; 65536]) -> io::Result<&'a [u8]>
    ensures { IfOk result (λ rest. length rest.now ≤ length text.now - 1) }
{
    let n = cell_count(text);
    match cells_in(text, n, room) {
        Ok(cells) => {
            put_cells(to, &cells)?;
            put_sum(to, &cells)?;
        }
        Err(pin) => write!(to, "12 {pin}\n.\n")?,
    }
    Ok(next_line(skip(text, n)))
}

// All batches.
fn run<W: Write>(to: &mut W, text: &[u8], room: &mut [u8; 65536]) -> io::Result<()> {
    let mut rest = text;
    while !rest.is_empty() {
        rest = batch(to, rest, room)?;
    }
    Ok(())
}

fn main(rt: HostRuntime) -> io::Result<()> {
    let mut text = [0u8; 65536];
    let n = answers::read_full(&mut rt.stdin(), &mut text)?;
    let mut room = [0u8; 65536];
    run(&mut rt.stdout(), &text[..n], &mut room)
}
