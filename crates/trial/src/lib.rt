// What the test programs share: parts of buffers, hexadecimal fields, digests, what a call left alone, files of cases, and counts in columns. No function asks more of its caller than that a closure may be called.
#![tactic(auto)]

ghost use Rattle.std.specs.Prelude.{◌≤◌, length, IfSome};

use std::io;
use std::io::Read;
use std::rt::Files;

// What fills a buffer before a call: what is not to be written must still be it afterwards.
pub const FILL: u32 = 2863311530;

pub const FILL16: u16 = 43690;

pub const FILL8: u8 = 170;

// Numbers that fill a buffer.
pub trait Fill: Copy + PartialEq {
    const FILL: Self;
}

impl Fill for u16 {
    const FILL: u16 = FILL16;
}

impl Fill for u32 {
    const FILL: u32 = FILL;
}

// Where a digest begins.
pub const START: u64 = 14695981039346656037;

// The first n of a list; all, where it has fewer.
pub fn front<T>(s: &[T], n: usize) -> &[T] {
    &s[..s.len().min(n)]
}

// What stands behind the first n; all, where there are fewer.
pub fn behind<T>(s: &[T], n: usize) -> &[T] {
    s.get(n..).unwrap_or(s)
}

// The first n of a buffer, to lend to a call; all, where it has fewer.
pub fn lend<T>(s: &mut [T], n: usize) -> &mut [T] {
    let end = s.len().min(n);
    &mut s[..end]
}

// A length, or up to three more; or one less.
// Stays: `less` says which of two lengths a case wants; both callers pass it on.
fn near(n: usize, less: bool, over: u32) -> usize {
    if less && 0 < n {
        n - 1
    } else {
        n.wrapping_add(over as usize % 4)
    }
}

// Of a buffer that is longer than a call asks: the n numbers that it asks for, or up to three more; or one less.
pub fn lend_near<T>(s: &mut [T], n: usize, less: bool, over: u32) -> &mut [T] {
    lend(s, near(n, less, over))
}

fn low_half(n: u64) -> u32 {
    (n % 4294967296) as u32
}

// FNV-1a, 64 bits: one byte more.
fn mix_byte(h: u64, b: u8) -> u64 {
    (h ^ u64::from(b)).wrapping_mul(1099511628211)
}

// The digest of one number more: four bytes, lowest first.
pub fn mix(h: u64, n: u32) -> u64 {
    n.to_le_bytes().iter().fold(h, |d, b| mix_byte(d, *b))
}

// The digest of a number of 64 bits more.
pub fn mix_wide(h: u64, n: u64) -> u64 {
    mix(mix(h, low_half(n)), low_half(n >> 32))
}

// The digest of these numbers more.
pub fn digest<T: Copy + Into<u32>>(h: u64, s: &[T]) -> u64 {
    s.iter().fold(h, |d, x| mix(d, (*x).into()))
}

// Whether all numbers from here on are as before the call.
pub fn kept<T: Fill>(s: &[T], from: usize) -> bool {
    s.iter().skip(from).all(|x| *x == T::FILL)
}

fn nibble(b: u8) -> u64 {
    let low = u64::from(b % 16);
    if b'9' < b { low + 9 } else { low }
}

// The number in these hexadecimal digits.
pub fn hex(s: &[u8]) -> u64 {
    s.iter().fold(0, |v, b| (v << 4) | nibble(*b))
}

// Field i of a header: its fields have sixteen hexadecimal digits, and one byte behind each.
pub fn field(header: &[u8], i: usize) -> u64 {
    if header.len() / 17 <= i {
        return 0;
    }
    let at = 17 * i;
    hex(&header[at..at + 16])
}

// The same, of 32 bits.
pub fn number(header: &[u8], i: usize) -> u32 {
    low_half(field(header, i))
}

// Whether the fields of a header from this one on are these numbers.
pub fn tells(header: &[u8], from: usize, seen: &[u64]) -> bool {
    seen.iter()
        .enumerate()
        .all(|(i, n)| field(header, from.wrapping_add(i)) == *n)
}

// Fills a list with numbers of eight hexadecimal digits each, as far as they go.
fn numbers(s: &[u8], list: &mut [u32]) {
    for (n, digits) in list.iter_mut().zip(s.chunks_exact(8)) {
        *n = low_half(hex(digits));
    }
}

// The file of this name, open for reading; none where it cannot be opened.
pub fn open<R: Files>(rt: &R, name: &[u8]) -> Option<R::File> {
    named_files::open(rt, name)
}

// Reads until the bytes are full, the file ends or a read fails; says how many came.
pub fn read_full<F: Read>(file: &mut F, bytes: &mut [u8]) -> usize
    ensures { result ≤ length bytes.new }
{
    named_files::read_full(file, bytes).unwrap_or_else(|came| came)
}

// Reads the file of this name to the front of the bytes, as far as they go; says how many came, none where it cannot be opened.
pub fn read_file(rt: &impl Files, name: &[u8], bytes: &mut [u8]) -> Option<usize>
    ensures { IfSome result (λ n. n ≤ length bytes.new) }
{
    let mut file = open(rt, name)?;
    Some(read_full(&mut file, bytes))
}

// Reads so many bytes to the front of a buffer that has room for them; says how many came.
pub fn take<F: Read>(file: &mut F, buffer: &mut [u8], n: u64) -> usize {
    let m = n as usize;
    if buffer.len() < m {
        return 0;
    }
    read_full(file, &mut buffer[..m])
}

// Reads n numbers of eight hexadecimal digits each to the front of a list, 2,048 at most; says how many.
pub fn take_numbers<F: Read>(file: &mut F, n: u64, list: &mut [u32]) -> usize {
    let mut digits = [0u8; 16384];
    let count = n % 2049;
    let d = take(file, &mut digits, 8 * count);
    numbers(front(&digits, d), list);
    count as usize
}

// Tries the cases from 1 on, a thousand at most, until one says that there are no more.
pub fn each_case<F: FnMut(u32) -> io::Result<bool>>(mut next: F) -> io::Result<()>
    requires { F.IsAlwaysCallable next }
{
    for case in 1..=1000 {
        if !next(case)? {
            break;
        }
    }
    Ok(())
}

// So many more at this place of the counts; all stay within what a column holds.
pub fn add(counts: &mut [u32], at: usize, n: u32) {
    if at < counts.len() {
        counts[at] = counts[at] % 500000 + n % 500000;
    }
}

// Prints a count in eight columns.
fn show_count(rt: &impl Print, n: u32) -> io::Result<()> {
    let mut column = [b' '; 8];
    columns::put(&mut column, 2, n);
    rt.write_all(&column)
}

// Prints a line: a name, then each count in eight columns.
pub fn show(rt: &impl Print, name: &[u8], counts: &[u32]) -> io::Result<()> {
    rt.write_all(name)?;
    for n in counts {
        show_count(rt, *n)?;
    }
    rt.write_all(b"\n")
}
