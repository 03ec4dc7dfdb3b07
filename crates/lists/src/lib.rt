// Lists in arrays and buffers, and searches through numbers in a row: definitions in specs/, laws and turns of loops in proofs/; and the copy of a list into a buffer.
#![tactic(auto)]

ghost use Rattle.std.specs.Prelude.{◌≡◌, ◌+◌, ◌≤◌, length};
ghost use Rattle.std.proofs.Math.Seq.{paste};

// Writes the part to the list, from this place on.
pub fn put(list: &mut [u32], at: usize, part: &[u32])
    requires { at + length part.now ≤ length list.old }
    ensures { list.new ≡ paste list.old at part.now (length part.now) }
{
    list[at..at + part.len()].copy_from_slice(part);
}
