// Lines of numbers in a lent text: the columns of the numbers, byte 10 at the end. Every other byte of the text is kept.
ghost use Rattle.std.specs.Prelude.{[], ◌∷◌, ◌≡◌, ◌+◌, ◌*◌, ◌≤◌, length};
ghost use Rattle.io.specs.Counts.{IsPrefixLen};
ghost use Rattle.columns.specs.declared.Sheet.TheVariants.{Run, Plain};
ghost use Rattle.columns.specs.Columns.{file_bytes};
ghost use Rattle.printout.specs.PrintedLines.{shown, moments as moments_in};
ghost use Rattle.printout.specs.Text.{Put};

use columns::Sheet;
use std::io;

// Writes a line on this sheet from byte `at` on; returns where it ends.
pub fn put_line(text: &mut [u8], at: usize, sheet: Sheet, numbers: &[u32]) -> usize
    requires { at + length (file_bytes sheet (numbers.now ∷ [])) ≤ length text.old }
    ensures { Put (file_bytes sheet (numbers.now ∷ [])) at result text.old text.new × IsPrefixLen result text.new }
{
    let end = columns::put_numbers(text, at, sheet, numbers);
    text[end] = 10;
    end + 1
}

// Writes the line of a moment: of its twelve slots the first says how many numbers follow.
fn put_moment(text: &mut [u8], at: usize, slots: &[u32]) -> usize
    requires { (at + 115 ≤ length text.old) × (12 ≤ length slots.now) }
    ensures { (result ≤ at + 115) × Put (file_bytes Run (shown slots.now ∷ [])) at result text.old text.new }
{
    let end = 1 + slots[0].min(11) as usize;
    put_line(text, at, Sheet::Run, &slots[1..end])
}

// Writes the lines of the first moments.
pub fn put_moments(text: &mut [u8], at: usize, slots: &[u32], moments: usize) -> usize
    requires { (at + 115 * moments ≤ length text.old) × (12 * moments ≤ length slots.now) }
    ensures { (result ≤ at + 115 * moments) × Put (file_bytes Run (moments_in moments slots.now)) at result text.old text.new }
{
    let mut end = at;
    for k in 0..moments {
        end = put_moment(text, end, &slots[12 * k..]);
    }
    end
}

// Hands over a line with one number.
fn hand_over(rt: &impl Print, number: u32, text: &[u8]) -> io::Result<()>
    requires { text.now ≡ file_bytes Plain ((number ∷ []) ∷ []) }
{
    rt.write_all(text)
}

// Prints a line of its own, as a case's number, from a lent text.
pub fn print_line_over(rt: &impl Print, number: u32, text: &mut [u8]) -> io::Result<()>
    requires { 7 ≤ length text.old }
    ensures { Put (file_bytes Plain ((number ∷ []) ∷ [])) 0 7 text.old text.new }
{
    let end = put_line(text, 0, Sheet::Plain, &[number]);
    hand_over(rt, number, &text[..end])
}

// The same, over a text of its own.
pub fn print_line(rt: &impl Print, number: u32) -> io::Result<()> {
    let mut text = [b' '; 7];
    print_line_over(rt, number, &mut text)
}
