// Numbers in columns: how wide the fields of a line are, and numbers right-justified in a lent line, whose other bytes are kept.
#![tactic(auto)]

ghost use Rattle.std.specs.Prelude.{cond, ◌&&◌, not, ◌≡◌, ◌+◌, ◌%◌, ◌≤◌, eqb, length, get_or};
ghost use Rattle.std.proofs.lemmas.List.Edits.{sets};
ghost use Rattle.columns.specs.Widths.{identifier, width as width_of};
ghost use Rattle.columns.specs.Columns.{column, line_columns};

// The largest identifier.
pub const LARGEST: u64 = 4294967295;

// What lines stand on, as far as their widths differ.
#[derive(Clone, Copy)]
pub enum Sheet {
    // a table or a target
    Table,
    // the moments of a run
    Run,
    // the answer to a question
    Answer,
    // all others
    Plain,
}

// The field i of a line that begins with `first` is an identifier.
fn is_identifier(sheet: Sheet, first: u64, i: usize) -> bool
    ensures { result ≡ identifier sheet first i }
{
    match sheet {
        Sheet::Table => first == 2 && i == 1,
        Sheet::Run => 3 <= i,
        Sheet::Answer => first == 0 && 2 <= i,
        Sheet::Plain => false,
    }
}

// How many columns it has.
#[tactic(auto, unfolding(crate::specs::Widths::width))]
pub fn width(sheet: Sheet, first: u64, i: usize) -> usize
    ensures { result ≡ width_of sheet first i }
{
    if is_identifier(sheet, first, i) {
        12
    } else {
        6
    }
}

// The byte of a column, where `rest` is the number without the digits of the columns behind it: its last digit, or a space in front of the first.
fn byte_of(rest: u32, last: bool) -> u8
    ensures { result ≡ cond (eqb rest 0 && not last) 32 (48 + rest % 10) }
{
    if rest == 0 && !last {
        b' '
    } else {
        b'0' + (rest % 10) as u8
    }
}

// Writes v in `width` columns from byte `at` on.
pub fn put_in(line: &mut [u8], at: usize, width: usize, v: u32)
    requires { at + width ≤ length line.old }
    ensures { line.new ≡ sets line.old at (column width v) }
{
    let mut rest = v;
    for i in (0..width).rev() {
        line[at + i] = byte_of(rest, i + 1 == width);
        rest /= 10;
    }
}

// Writes v in six columns from byte `at` on.
pub fn put(line: &mut [u8], at: usize, v: u32)
    requires { at + 6 ≤ length line.old }
    ensures { line.new ≡ sets line.old at (column 6 v) }
{
    put_in(line, at, 6, v);
}

// Writes the numbers of a line from byte `at` on; returns where they end.
pub fn put_numbers(line: &mut [u8], at: usize, sheet: Sheet, numbers: &[u32]) -> usize
    requires { at + length (line_columns sheet numbers.now) ≤ length line.old }
    ensures { (result ≡ at + length (line_columns sheet numbers.now))
        × (line.new ≡ sets line.old at (line_columns sheet numbers.now)) }
{
    let first = numbers.first().map_or(0, |v| u64::from(*v));
    let mut end = at;
    for (i, v) in numbers.iter().enumerate() {
        let columns = width(sheet, first, i);
        put_in(line, end, columns, *v);
        end += columns;
    }
    end
}
