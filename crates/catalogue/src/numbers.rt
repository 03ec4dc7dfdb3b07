// The number of classes, and the number of a class by a few products.
ghost use Rattle.std.specs.Prelude.{◌≡◌, ◌<◌, ◌≤◌, length, take};
ghost use Rattle.classes.specs.Classes.{labels, lists, index};
ghost use Rattle.classes.specs.Contents.{Legal};
ghost use Rattle.catalogue.specs.Numbers.{list_count};

use crate::scan::labels_of;

// How many lists of n labels there are over b constants: row b, column n.
const COUNTS: [u16; 42] = [
    1, 1, 2, 5, 15, 52, 1, 2, 5, 15, 52, 203, 1, 3, 10, 37, 151, 674, 1, 4, 17, 77, 372, 1915, 1,
    5, 26, 141, 799, 4736, 1, 6, 37, 235, 1540, 10427, 1, 7, 50, 365, 2727, 20878,
];

pub fn count_of(n: usize, b: usize) -> u16
    requires { (n < 6) × (b < 7) }
    ensures { result ≡ list_count n b }
{
    COUNTS[b * 6 + n]
}

// The number of classes of r registers and c constants.
pub fn class_count(r: usize, c: usize) -> usize
    requires { (r ≤ 5) × (c ≤ 2) }
    ensures { result ≡ length (lists r c) }
{
    count_of(r, c) as usize
}

// The number of a class, from its labels.
pub fn class_number(r: usize, c: usize, labels: [u8; 5]) -> usize
    requires { (r ≤ 5) × (c ≤ 2) × Legal c (take r labels) }
    ensures { result ≡ index (lists r c) (take r labels) }
{
    let mut b = c;
    let mut sum = 0;
    for (i, x) in labels[..r].iter().enumerate() {
        let x = *x as usize;
        let each = count_of(r - (i + 1), b) as usize;
        sum += (x - 1) * each;
        b = b.max(x);
    }
    sum
}

// The number of the class of the contents of r registers.
pub fn class_of(constants: [u32; 2], c: usize, contents: [u32; 5], r: usize) -> usize
    requires { (c ≤ 2) × (r ≤ 5) }
    ensures { result ≡ index (lists r c) (labels (take c constants) (take r contents)) }
{
    class_number(r, c, labels_of(constants, c, contents, r))
}
