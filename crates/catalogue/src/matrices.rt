// The matrix of contents and of a class, and the class of a matrix.
ghost use Rattle.std.specs.Prelude.{◌≡◌, cond, map, ◌+◌, ◌*◌, ◌<◌, ◌≤◌, eqb, length, take};
ghost use Rattle.classes.specs.Matrix.{cell, matrix, class_matrix};
ghost use Rattle.classes.specs.MatrixClasses.{class_of_matrix};
ghost use Rattle.lists.specs.Arrays.{padded, written};
ghost use Rattle.catalogue.specs.MatrixCells.{found, first_equal, register_of, valuation_of};

use crate::numbers::class_of;

// The entry of an identifier on the diagonal.
fn own_entry(constants: [u32; 2], c: usize, x: u32) -> u8
    requires { c ≤ 2 }
    ensures { result ≡ cell (take c constants) x x }
{
    let p = labelling::position_of(&constants, c, x);
    if p < c { (p + 2) as u8 } else { 1 }
}

// One row of a matrix: `own` where a register holds x, and 0 where it does not.
fn fill_row(x: u32, own: u8, contents: &[u32], row: &mut [u8])
    requires { length row.old ≡ length contents.now }
    ensures { row.new ≡ map (λ y. cond (eqb x y) own 0) contents.now }
{
    for (j, y) in contents.iter().enumerate() {
        row[j] = if *y == x { own } else { 0 };
    }
}

// The matrix of the contents of r registers, row after row, to the front of `out`.
pub fn matrix_of(constants: [u32; 2], c: usize, contents: [u32; 5], r: usize, out: &mut [u8])
    requires { (c ≤ 2) × (r ≤ 5) × (r * r ≤ length out.old) }
    ensures { out.new ≡ written (matrix (take c constants) (take r contents)) out.old }
{
    for (i, x) in contents[..r].iter().enumerate() {
        let own = own_entry(constants, c, *x);
        fill_row(*x, own, &contents[..r], &mut out[i * r..i * r + r]);
    }
}

// The matrix of a class: its list is a valuation too, with the labels 1 to c for constants.
pub fn class_matrix(c: usize, labels: [u8; 5], r: usize, out: &mut [u8])
    requires { (c ≤ 2) × (r ≤ 5) × (r * r ≤ length out.old) }
    ensures { out.new ≡ written (class_matrix c (take r labels)) out.old }
{
    matrix_of([1, 2], c, labelling::wide_labels(labels), r, out);
}

// The first of the n entries from place `at` on that is not 0, counted from there; n where all are 0.
fn first_equal(matrix: &[u8], at: usize, n: usize) -> u32
    requires { (n ≤ 5) × (at + n ≤ length matrix.now) }
    ensures { (result ≡ first_equal matrix.now at n) × (result ≤ 5) }
{
    matrix[at..at + n].iter().position(|x| *x != 0).unwrap_or(n) as u32
}

// An identifier for a register, by its entry on the diagonal and its first equal register.
fn register_of(d: u8, first: u32) -> u32
    requires { first ≤ 5 }
    ensures { result ≡ register_of d first }
{
    if 2 <= d { (d - 1) as u32 } else { 3 + first }
}

// A valuation of r registers, over the constants 1 and 2, that has the matrix where any has it; zeros after it.
fn valuation_of(matrix: &[u8], r: usize) -> [u32; 5]
    requires { (r ≤ 5) × (length matrix.now ≡ r * r) }
    ensures { result ≡ padded 5 (valuation_of r matrix.now) }
{
    let mut list = [0u32; 5];
    for i in 0..r {
        let at = i * r;
        list[i] = register_of(matrix[at + i], first_equal(matrix, at, r));
    }
    list
}

// The class of r registers and c constants that has a matrix, or that no contents have it.
pub fn class_of_matrix(matrix: &[u8], r: usize, c: usize) -> Option<usize>
    requires { (r ≤ 5) × (c ≤ 2) × (length matrix.now ≡ r * r) }
    ensures { result ≡ found r c (class_of_matrix r c matrix.now) }
{
    let contents = valuation_of(matrix, r);
    let mut own = [0u8; 25];
    matrix_of([1, 2], c, contents, r, &mut own);
    if labelling::same_entries(&own, matrix) {
        Some(class_of([1, 2], c, contents, r))
    } else {
        None
    }
}
