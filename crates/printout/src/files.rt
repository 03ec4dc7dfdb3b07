// Reading a file by name: one that cannot be read counts as empty.
ghost use Rattle.io.specs.Counts.{IsPrefixLen};

use std::io;
use std::rt::Files;

// What a program did: how many bytes of the table and of the other file it read, how many of its text it handed to the output, and whether all of
// them could be written.
// Stays: what was read is told, and promised, also where not all could be written.
#[derive(Clone, Copy)]
pub struct Printed {
    pub table: usize,
    pub other: usize,
    pub text: usize,
    pub written: io::Result<()>,
}

// How many bytes of the file stand in front of the lent ones.
pub fn read_file(rt: &impl Files, name: &[u8], bytes: &mut [u8]) -> usize
    ensures { IsPrefixLen result bytes.new }
{
    match named_files::open(rt, name) {
        Some(mut file) => named_files::read_full(&mut file, bytes).unwrap_or(0),
        None => 0,
    }
}
