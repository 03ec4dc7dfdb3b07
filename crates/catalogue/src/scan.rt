// The labels of the contents of registers, and the contents given back for labels: the constants have a label before any register is seen.
ghost use Rattle.std.specs.Prelude.{◌≡◌, ◌≤◌, take};
ghost use Rattle.lists.specs.Arrays.{padded};
ghost use Rattle.classes.specs.Classes.{labels};
ghost use Rattle.classes.specs.Contents.{Legal, contents};

// The labels of the contents of r registers; zeros after them.
pub fn labels_of(constants: [u32; 2], c: usize, contents: [u32; 5], r: usize) -> [u8; 5]
    requires { (c ≤ 2) × (r ≤ 5) }
    ensures { result ≡ padded 5 (labels (take c constants) (take r contents)) }
{
    labelling::labels_of(labelling::constants_seen(constants, c), contents, r).labels
}

// The contents of r registers given back for a class; zeros after them.
pub fn contents_of(constants: [u32; 2], c: usize, labels: [u8; 5], r: usize) -> [u32; 5]
    requires { (c ≤ 2) × (r ≤ 5) × Legal c (take r labels) }
    ensures { result ≡ padded 5 (contents (take c constants) (take r labels)) }
{
    labelling::identifiers_of(labelling::constants_seen(constants, c), labels, r)
}
