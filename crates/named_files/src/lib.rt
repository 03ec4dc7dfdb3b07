// Files by name: opening one, and filling lent bytes from it.
#![tactic(auto)]

ghost use Rattle.std.specs.Prelude.{◌<◌, length, IfOk, IfErr};
ghost use Rattle.io.specs.Counts.{IsPrefixLen};

use std::io::Read;
use std::rt::Files;
use std::{fs, str};

// The file of this name, open for reading; none where it cannot be opened.
pub fn open<R: Files>(rt: &R, name: &[u8]) -> Option<R::File> {
    let path = str::from_utf8(name).ok()?;
    fs::open(rt, path).ok()
}

// Reads until the bytes are full or the file ends, and says how many came; where a read fails, the error is how many came before it.
pub fn read_full<F: Read>(file: &mut F, bytes: &mut [u8]) -> Result<usize, usize>
    ensures all { IfOk result (λ n. IsPrefixLen n bytes.new) }
    ensures failed { IfErr result (λ n. n < length bytes.new) }
{
    let mut done = 0;
    while done < bytes.len() {
        match file.read(&mut bytes[done..]) {
            Ok(0) => break,
            Ok(more) => done += more,
            Err(_) => return Err(done),
        }
    }
    Ok(done)
}
