// Contents, classes and matrices alone: the calls that need no table. None asks anything of its caller.
#![tactic(auto)]

ghost use Rattle.std.specs.Prelude.{◌≡◌, List, [], ◌∷◌, ℕ, ◌*◌, ◌≤◌, ◌<◌, length, take};
ghost use Rattle.refusals.specs.Judged.{Judged, refusal, told};
ghost use Rattle.classes.specs.Classes.{lists};
ghost use Rattle.classes.specs.Contents.{contents};
ghost use Rattle.classes.specs.Renaming.{rising};
ghost use Rattle.lists.specs.Arrays.{padded, written};
ghost use Rattle.classification.specs.ClassTests.{test_counts, test_lists, number_of, numbers_of, done_of, written_numbers, written_of};
ghost use Rattle.classification.specs.ClassCalls.{
  list_of,
  class_count_for,
  class_for,
  contents_for,
  matrix_for,
  matrix_contents_for,
  class_matrix_for,
  matrix_class_for,
};
ghost use Rattle.classification.specs.ClassClaims.{
  CountMeans,
  ClassMeans,
  ContentsMean,
  MatrixMeans,
  ClassMatrixMeans,
  MatrixClassMeans,
  MatrixContentsMean,
};

use refusals::Refusal;

fn square(n: u32) -> usize
    ensures { result ≡ n * n }
{
    (n as usize) * (n as usize)
}

// Whether lengths and counts are taken.
fn test_counts(fits: bool, registers: u32, constants: usize) -> Result<(), Refusal>
    ensures { result ≡ done_of (test_counts fits registers constants) }
{
    if !fits {
        return Err(Refusal::of_call(9));
    }
    if 5 < registers || 2 < constants {
        return Err(Refusal::of_call(3));
    }
    Ok(())
}

// Do the constants, two at most, rise?
fn rises(constants: &[u32]) -> bool
    requires { length constants.now ≤ 2 }
    ensures { result ≡ rising constants.now }
{
    constants.len() < 2 || constants[0] < constants[1]
}

// Whether lengths, counts and constants are taken.
fn test_lists(fits: bool, registers: u32, constants: &[u32]) -> Result<(), Refusal>
    ensures { result ≡ done_of (test_lists fits registers constants.now) }
{
    test_counts(fits, registers, constants.len())?;
    if rises(constants) {
        Ok(())
    } else {
        Err(Refusal::of_call(4))
    }
}

// The numbers, N at most, in an array; zeros after them.
fn array_of<const N: usize>(list: &[u32]) -> [u32; N]
    requires { length list.now ≤ N }
    ensures { result ≡ padded N list.now }
{
    let mut array = [0u32; N];
    array[..list.len()].copy_from_slice(list);
    array
}

// The list of a class; zeros after it.
fn class_list(r: usize, c: usize, class: usize) -> [u8; 5]
    requires { (r ≤ 5) × (c ≤ 2) × (class < length (lists r c)) }
    ensures { result ≡ padded 5 (list_of r c class) }
{
    let table = catalogue::table();
    let mut rows = [0u16; 674];
    catalogue::fill_rows(&table, r, c, &mut rows);
    catalogue::class_labels(&table, &rows, r, c, class)
}

// The contents given back for a class, to the front of a buffer.
fn write_contents(r: usize, constants: &[u32], class: usize, out: &mut [u32])
    requires { (r ≤ 5) × (length constants.now ≤ 2) × (class < length (lists r (length constants.now))) × (r ≤ length out.old) }
    ensures { out.new ≡ written (contents constants.now (list_of r (length constants.now) class)) out.old }
{
    let c = constants.len();
    let labels = class_list(r, c, class);
    let list = catalogue::contents_of(array_of(constants), c, labels, r);
    out[..r].copy_from_slice(&list[..r]);
}

// The number of classes.
pub fn class_count(registers: u32, constants: u32) -> Result<usize, Refusal>
    ensures { let j : Judged ℕ = class_count_for registers constants in
        (result ≡ number_of j)
        × (numbers_of result ≡ told (λ n. n ∷ []) j)
        × CountMeans registers constants result }
{
    test_counts(true, registers, constants as usize)?;
    Ok(catalogue::class_count(registers as usize, constants as usize))
}

// The class number of contents.
pub fn class_of(registers: u32, constants: &[u32], contents: &[u32]) -> Result<usize, Refusal>
    ensures { let cs : List ℕ = constants.now in
        let v : List ℕ = contents.now in
        let j : Judged ℕ = class_for registers cs v in
        (result ≡ number_of j)
        × (numbers_of result ≡ told (λ n. n ∷ []) j)
        × ClassMeans registers cs v result }
{
    let fits = contents.len() == registers as usize;
    test_lists(fits, registers, constants)?;
    Ok(catalogue::class_of(
        array_of(constants),
        constants.len(),
        array_of(contents),
        contents.len(),
    ))
}

// The contents given back for a class.
pub fn contents_of(
    registers: u32,
    constants: &[u32],
    class: usize,
    out: &mut [u32],
) -> Result<(), Refusal>
    ensures { let cs : List ℕ = constants.now in
        let before : List ℕ = out.old in
        let after : List ℕ = out.new in
        let j : Judged (List ℕ) = contents_for registers cs class before in
        (result ≡ done_of j)
        × (written_numbers result ≡ told (λ xs. []) j)
        × (after ≡ written_of j before)
        × ContentsMean registers cs class result before after }
{
    let r = registers as usize;
    test_lists(r <= out.len(), registers, constants)?;
    if catalogue::class_count(r, constants.len()) <= class {
        return Err(Refusal::of_call(5));
    }
    write_contents(r, constants, class, out);
    Ok(())
}

// The matrix of contents.
pub fn matrix_of(
    registers: u32,
    constants: &[u32],
    contents: &[u32],
    out: &mut [u8],
) -> Result<(), Refusal>
    ensures { let cs : List ℕ = constants.now in
        let v : List ℕ = contents.now in
        let before : List ℕ = out.old in
        let after : List ℕ = out.new in
        let j : Judged (List ℕ) = matrix_for registers cs v before in
        (result ≡ done_of j)
        × (written_numbers result ≡ told (λ xs. []) j)
        × (after ≡ written_of j before)
        × MatrixMeans registers cs v result before after }
{
    let fits = contents.len() == registers as usize && square(registers) <= out.len();
    test_lists(fits, registers, constants)?;
    catalogue::matrix_of(
        array_of(constants),
        constants.len(),
        array_of(contents),
        contents.len(),
        out,
    );
    Ok(())
}

// The matrix of a class.
pub fn matrix_of_class(
    registers: u32,
    constants: u32,
    class: usize,
    out: &mut [u8],
) -> Result<(), Refusal>
    ensures { let before : List ℕ = out.old in
        let after : List ℕ = out.new in
        let j : Judged (List ℕ) = class_matrix_for registers constants class before in
        (result ≡ done_of j)
        × (written_numbers result ≡ told (λ xs. []) j)
        × (after ≡ written_of j before)
        × ClassMatrixMeans registers constants class result before after }
{
    let r = registers as usize;
    let c = constants as usize;
    test_counts(square(registers) <= out.len(), registers, c)?;
    if catalogue::class_count(r, c) <= class {
        return Err(Refusal::of_call(5));
    }
    catalogue::class_matrix(c, class_list(r, c, class), r, out);
    Ok(())
}

// The class number of a matrix.
pub fn class_of_matrix(registers: u32, constants: u32, matrix: &[u8]) -> Result<usize, Refusal>
    ensures { let m : List ℕ = matrix.now in
        let j : Judged ℕ = matrix_class_for registers constants m in
        (result ≡ number_of j)
        × (numbers_of result ≡ told (λ n. n ∷ []) j)
        × MatrixClassMeans registers constants m result }
{
    let c = constants as usize;
    test_counts(matrix.len() == square(registers), registers, c)?;
    catalogue::class_of_matrix(matrix, registers as usize, c).ok_or(Refusal::of_call(10))
}

// The contents given back for the class that has a matrix.
pub fn contents_of_matrix(
    registers: u32,
    constants: &[u32],
    matrix: &[u8],
    out: &mut [u32],
) -> Result<(), Refusal>
    ensures { let cs : List ℕ = constants.now in
        let m : List ℕ = matrix.now in
        let before : List ℕ = out.old in
        let after : List ℕ = out.new in
        let j : Judged (List ℕ) = matrix_contents_for registers cs m before in
        (result ≡ done_of j)
        × (written_numbers result ≡ told (λ xs. []) j)
        × (after ≡ written_of j before)
        × MatrixContentsMean registers cs m result before after }
{
    let r = registers as usize;
    let fits = matrix.len() == square(registers) && r <= out.len();
    test_lists(fits, registers, constants)?;
    let class = catalogue::class_of_matrix(matrix, r, constants.len()).ok_or(Refusal::of_call(10))?;
    write_contents(r, constants, class, out);
    Ok(())
}
