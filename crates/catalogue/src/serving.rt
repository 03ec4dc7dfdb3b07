// The lists of every number of registers and constants, served by rows of the catalogue.
ghost use Rattle.std.specs.Prelude.{◌≡◌, [], ◌+◌, ◌*◌, ◌-◌, ◌<◌, ◌≤◌, length, get_or};
ghost use Rattle.classes.specs.Classes.{lists};
ghost use Rattle.lists.specs.Arrays.{padded, written};
ghost use Rattle.lists.specs.Filling.{Begins};
ghost use Rattle.catalogue.specs.FlatCatalogue.{catalogue, row};
ghost use Rattle.catalogue.specs.Serving.{serves_label, serves, narrow, serving_rows};

// May a label stand in a register, which is there or not, of a table with c constants?
fn label_serves(there: bool, c: u8, x: u8) -> bool
    ensures { result ≡ serves_label there c x }
{
    if there { (x <= c) | (2 < x) } else { x == 1 }
}

// Does row n of the table serve r registers and c constants?
fn row_serves(table: &[u8], n: usize, r: usize, c: u8) -> bool
    requires { (n < 674) × (n * 5 + 5 ≤ length table.now) }
    ensures { result ≡ serves r c (row table.now n) }
{
    for i in 0..5 {
        if !label_serves(i < r, c, table[n * 5 + i]) {
            return false;
        }
    }
    true
}

// The numbers of the rows that serve r registers and c constants, in order, to the front of `rows`.
pub fn fill_rows(table: &[u8], r: usize, c: usize, rows: &mut [u16])
    requires { (table.now ≡ catalogue) × (r ≤ 5) × (c ≤ 2) × (length (lists r c) ≤ length rows.old) }
    ensures { rows.new ≡ written (serving_rows r c) rows.old }
{
    let mut count = 0;
    for n in 0..674 {
        if row_serves(table, n, r, c as u8) {
            rows[count] = n as u16;
            count += 1;
        }
    }
}

// A label of the catalogue, for c constants.
fn narrowed(c: u8, x: u8) -> u8
    requires { c ≤ 2 }
    ensures { result ≡ narrow c x }
{
    if x <= c { x } else { x.saturating_sub(2 - c) }
}

// The labels of the class with this number; zeros after them.
pub fn class_labels(table: &[u8], rows: &[u16], r: usize, c: usize, number: usize) -> [u8; 5]
    requires { (table.now ≡ catalogue) × (r ≤ 5) × (c ≤ 2) × Begins (serving_rows r c) rows.now × (number < length (lists r c)) }
    ensures { result ≡ padded 5 (get_or (lists r c) number []) }
{
    let at = rows[number] as usize * 5;
    let mut labels = [0u8; 5];
    for (i, x) in table[at..at + r].iter().enumerate() {
        labels[i] = narrowed(c as u8, *x);
    }
    labels
}
