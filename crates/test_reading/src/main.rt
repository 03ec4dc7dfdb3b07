// Tries the boundary cases of reading: for each case of the data folder prints the case, the refusal's number, file and line, or zeros, and which files were there: 0 none, 1 the table, 3 the table and a target, 5 the table and a question, 9 the table and a question as text.
#![tactic(auto)]

ghost use Rattle.forms.specs.Readable.{Readable};

use refusals::Refusal;
use std::io;
use std::rt::Files;

// The files 001.table, 001.target, 001.question, 001.text, .. of the data folder (engine/boundaries.py says what each case is): a case has a table, and perhaps one of the others. In cases 128 to 130 and 290 a folder stands in the place of a file; case 131 has none.
const CASES: u32 = 334;

// The refusal's numbers, zeros where all is read, and the files that were there.
#[derive(Clone, Copy)]
struct Tried {
    number: u32,
    file: u32,
    line: u32,
    files: u32,
}

// All that was there is read, or turned back by this refusal.
fn outcome(refusal: Option<Refusal>, files: u32) -> Tried {
    let r = refusal.unwrap_or(Refusal {
        number: 0,
        file: 0,
        line: 0,
    });
    Tried {
        number: r.number,
        file: r.file,
        line: r.line,
        files,
    }
}

// The target of a case, if it has one.
fn try_target(rt: &impl Files, form: &[u32], a: u8, b: u8, c: u8) -> Tried {
    let name = [a, b, c, b'.', b't', b'a', b'r', b'g', b'e', b't'];
    let mut bytes = [0u8; 4096];
    let Some(n) = trial::read_file(rt, &name, &mut bytes) else {
        return outcome(None, 1);
    };
    let mut target = [0u32; forms::LENGTH];
    outcome(reader::read_target(form, &bytes[..n], &mut target).err(), 3)
}

// The question of a case, if it has one.
fn try_question(rt: &impl Files, form: &[u32], a: u8, b: u8, c: u8) -> Tried
    requires { Readable form.now }
{
    let name = [
        a, b, c, b'.', b'q', b'u', b'e', b's', b't', b'i', b'o', b'n',
    ];
    let mut bytes = [0u8; 4096];
    let Some(n) = trial::read_file(rt, &name, &mut bytes) else {
        return outcome(None, 1);
    };
    let mut rows = [0u32; 96];
    let registers = forms::registers(form) as u32;
    let constants = forms::constants(form) as u32;
    let locations = forms::locations(form) as u32;
    let reply = questions::read_question(registers, constants, locations, &bytes[..n], &mut rows);
    outcome(reply.err(), 5)
}

// The question as text of a case, if it has one.
fn try_text(rt: &impl Files, form: &[u32], a: u8, b: u8, c: u8) -> Tried
    requires { Readable form.now }
{
    let name = [a, b, c, b'.', b't', b'e', b'x', b't'];
    let mut bytes = [0u8; 4096];
    let Some(n) = trial::read_file(rt, &name, &mut bytes) else {
        return outcome(None, 1);
    };
    let mut rows = [0u32; 96];
    let registers = forms::registers(form) as u32;
    let constants = forms::constants(form) as u32;
    let locations = forms::locations(form) as u32;
    let reply = texts::read_text(registers, constants, locations, &bytes[..n], &mut rows);
    outcome(reply.err(), 9)
}

// The table of a case, and then its target, question or text.
fn try_case(rt: &impl Files, a: u8, b: u8, c: u8) -> Tried {
    let name = [a, b, c, b'.', b't', b'a', b'b', b'l', b'e'];
    let mut bytes = [0u8; 65536];
    let Some(n) = trial::read_file(rt, &name, &mut bytes) else {
        return outcome(None, 0);
    };
    let mut form = [0u32; forms::LENGTH];
    let mut labels = [0u8; 3370];
    if let Err(r) = opening::open_table(&bytes[..n], &mut form, &mut labels) {
        return outcome(Some(r), 1);
    }
    let target = try_target(rt, &form, a, b, c);
    if target.files == 3 {
        return target;
    }
    let question = try_question(rt, &form, a, b, c);
    if question.files == 5 {
        return question;
    }
    try_text(rt, &form, a, b, c)
}

fn digit(n: u32) -> u8 {
    b'0' + (n % 10) as u8
}

// Prints one case in columns.
fn show(rt: &impl Print, i: u32, r: Tried) -> io::Result<()> {
    let mut line = [b' '; 31];
    columns::put(&mut line, 0, i);
    columns::put(&mut line, 6, r.number);
    columns::put(&mut line, 12, r.file);
    columns::put(&mut line, 18, r.line);
    columns::put(&mut line, 24, r.files);
    line[30] = b'\n';
    rt.write_all(&line)
}

fn main(rt: HostRuntime) -> io::Result<()> {
    for i in 1..=CASES {
        show(
            &rt,
            i,
            try_case(&rt, digit(i / 100), digit(i / 10), digit(i)),
        )?;
    }
    Ok(())
}
