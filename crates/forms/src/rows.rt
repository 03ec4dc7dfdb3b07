// The rows of a form, read and written by row and column; past the end a number is 0, and nothing is written.

ghost use Rattle.std.specs.Prelude.{◌≡◌, ◌^◌, ◌≤◌, ◌<◌, length, get_or, set};
ghost use Rattle.lists.specs.Filling.{filled};
ghost use Rattle.forms.specs.TableForm.{cell, put};
ghost use Rattle.automata.specs.Questions.{row};
ghost use Rattle.forms.specs.QuestionForm.{put as put_row};

// The number in this row and column of a table's form.
pub fn cell(form: &[u32], row: usize, column: usize) -> u32
    requires { (row ≤ 2 ^ 40) × (column < 6) }
    ensures { result ≡ cell form.now row column }
{
    let i = 6 * row + column;
    form.get(i).copied().unwrap_or(0)
}

// Writes v at i.
fn store(form: &mut [u32], i: usize, v: u32)
    ensures { form.new ≡ set form.old i v }
{
    if i < form.len() {
        form[i] = v;
    }
}

// Writes the numbers f from i on.
fn store_all(form: &mut [u32], i: usize, f: &[u32])
    requires { (i ≤ 2 ^ 50) × (length f.now ≤ 6) }
    ensures { form.new ≡ filled form.old i (λ j. get_or f.now j 0) (length f.now) }
{
    for (j, v) in f.iter().enumerate() {
        store(form, i + j, *v);
    }
}

// Writes a line's numbers to its row of a table's form.
pub fn put_row(form: &mut [u32], row: usize, f: [u32; 6])
    requires { row ≤ 2 ^ 40 }
    ensures { form.new ≡ put form.old row f }
{
    store_all(form, 6 * row, &f);
}

// Writes row n, of kind k with the fields a and b, of a question's form.
pub fn put_question_row(form: &mut [u32], n: u32, k: u32, a: u32, b: u32)
    ensures { form.new ≡ put_row form.old n (row k a b) }
{
    store_all(form, 3 * (n as usize), &[k, a, b]);
}
