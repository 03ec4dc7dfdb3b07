// Labels: the labels of values, given the identifiers that have one already, and the smallest identifiers that have given labels.
#![tactic(auto)]

pub mod seen;

ghost use Rattle.std.specs.Prelude.{◌≡◌, ℕ, ◌<◌, ◌≤◌, length, get_or, take};
ghost use Rattle.graphs.specs.Lists.{eq_list};
ghost use Rattle.classes.specs.Classes.{position};
ghost use Rattle.classes.specs.Contents.{identifiers};
ghost use Rattle.lists.specs.Arrays.{padded};
ghost use Rattle.labelling.specs.Noted.{labelled};

pub use seen::Seen;

// The labels of some values, and the identifiers that have a label afterwards.
#[derive(Clone, Copy)]
pub struct Labelled {
    pub labels: [u8; 5],
    pub seen: Seen,
}

// The position of x among the first n of a list, or n where it is none of them.
pub fn position_of(list: &[u32], n: usize, x: u32) -> usize
    requires { n ≤ length list.now }
    ensures { (result ≡ position (take n list.now) x) × (result ≤ n) }
{
    list[..n].iter().position(|y| *y == x).unwrap_or(n)
}

// The labels of the first n values, given the identifiers that have a label already; zeros after them.
pub fn labels_of(s: Seen, values: [u32; 5], n: usize) -> Labelled
    requires { (length s ≤ 12) × (n ≤ 5) }
    ensures { result ≡ labelled s (take n values) }
{
    let mut seen = s;
    let mut labels = [0u8; 5];
    for i in 0..n {
        let x = values[i];
        labels[i] = (seen.place(x) + 1) as u8;
        seen.note(x);
    }
    Labelled { labels, seen }
}

// The smallest identifiers that have the first n labels, given the identifiers that have a label already; zeros after them.
pub fn identifiers_of(s: Seen, labels: [u8; 5], n: usize) -> [u32; 5]
    requires { (length s ≤ 12) × (n ≤ 5) × ((i : ℕ) → i < n → 1 ≤ get_or labels i 0) }
    ensures { result ≡ padded 5 (identifiers s (take n labels)) }
{
    let mut seen = s;
    let mut ids = [0u32; 5];
    for i in 0..n {
        let d = seen.identifier_of(labels[i]);
        ids[i] = d;
        seen.note(d);
    }
    ids
}

// The first c of two constants: they have a label before any register is seen.
pub fn constants_seen(constants: [u32; 2], c: usize) -> Seen
    requires { c ≤ 2 }
    ensures { result ≡ take c constants }
{
    let mut seen = Seen::new([0; 17], 0);
    for x in &constants[..c] {
        seen.push(*x);
    }
    seen
}

// Labels as identifiers: a class is itself a valuation, with the labels 1 and 2 for constants.
pub fn wide_labels(labels: [u8; 5]) -> [u32; 5]
    ensures { result ≡ labels }
{
    labels.map(|x| u32::from(x))
}

// Are the first entries of `a` those of `b`?
pub fn same_entries(a: &[u8], b: &[u8]) -> bool
    requires { length b.now ≤ length a.now }
    ensures { result ≡ eq_list (take (length b.now) a.now) b.now }
{
    // an index: the library's comparisons take longer on so few entries
    for i in 0..b.len() {
        if a[i] != b[i] {
            return false;
        }
    }
    true
}
