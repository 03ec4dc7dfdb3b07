// The labels of all classes, one list after another in dictionary order: each is made from the one before.
ghost use Rattle.std.specs.Prelude.{◌≡◌, ◌*◌, ◌-◌, ◌<◌, ◌≤◌, T, leb, length, take};
ghost use Rattle.graphs.specs.Lists.{all_of};
ghost use Rattle.classes.specs.Classes.{lists};
ghost use Rattle.lists.specs.Arrays.{written};
ghost use Rattle.lists.specs.Filling.{filled};
ghost use Rattle.catalogue.specs.Serving.{label_rows};
ghost use Rattle.catalogue.specs.Listing.{rising_from, raised};

use crate::numbers::class_count;

// The last register whose label may go up: it is a constant's or one of those before it.
fn rising(list: [u8; 5], r: usize, c: u8) -> usize
    requires { r ≤ 5 }
    ensures { (result ≡ rising_from c 0 0 (take r list)) × (result < 5) }
{
    let mut top = c;
    let mut at = 0;
    for (i, x) in list[..r].iter().enumerate() {
        if *x <= top {
            at = i;
        }
        top = top.max(*x);
    }
    at
}

// With label 1 in the registers from this one on.
fn ones(list: [u8; 5], from: usize, r: usize) -> [u8; 5]
    requires { r ≤ 5 }
    ensures { result ≡ filled list from (λ i. 1) (r - from) }
{
    let mut next = list;
    for i in from..r {
        next[i] = 1;
    }
    next
}

// The next list: a register goes up, and those behind it go to 1.
fn raise(list: [u8; 5], r: usize, c: u8) -> [u8; 5]
    requires { (r ≤ 5) × T (all_of (λ x. leb x 7) list) }
    ensures { result ≡ raised r c list }
{
    let at = rising(list, r, c);
    let mut next = list;
    next[at] += 1;
    ones(next, at + 1, r)
}

// The labels of all classes, five to a class, one class after another, to the front of `flat`.
pub fn fill_labels(r: usize, c: usize, flat: &mut [u8])
    requires { (r ≤ 5) × (c ≤ 2) × (5 * length (lists r c) ≤ length flat.old) }
    ensures { flat.new ≡ written (label_rows r c) flat.old }
{
    let mut labels = ones([0u8; 5], 0, r);
    for k in 0..class_count(r, c) {
        flat[k * 5..k * 5 + 5].copy_from_slice(&labels);
        labels = raise(labels, r, c as u8);
    }
}
