// Opening a table: it is read, the labels of its classes are written out once, and a table without a start is refused.
#![tactic(auto)]

ghost use Rattle.std.specs.Prelude.{◌≡◌, length, replicate};
ghost use Rattle.automata.specs.Automaton.{Automaton};
ghost use Rattle.automata.specs.WellFormed.{constant_count};
ghost use Rattle.forms.specs.FormAutomaton.{automaton_of};
ghost use Rattle.reader.specs.Table.{blank_form};
ghost use Rattle.forms.specs.Readable.{Readable};
ghost use Rattle.lists.specs.Arrays.{written};
ghost use Rattle.catalogue.specs.Serving.{label_rows};
ghost use Rattle.conditions.specs.Startable.{startable};
ghost use Rattle.opening.specs.Opening.{open_table};
ghost use Rattle.opening.specs.OpenedLabels.{Opened};

use forms::Form;
use refusals::Refusal;

// Writes the labels of a table's classes, and says whether one of them is a start.
pub fn classes_start(form: &[u32], flat: &mut [u8]) -> bool
    requires { Readable form.now × (length flat.old ≡ 3370) }
    ensures { let a : Automaton = automaton_of form.now in
        (result ≡ startable a)
        × (flat.new ≡ written (label_rows a.registers (constant_count a)) flat.old) }
{
    let registers = forms::registers(form);
    let constants = forms::constants(form);
    catalogue::fill_labels(registers, constants, flat);
    let n = catalogue::class_count(registers, constants);
    conditions::has_start(form, flat, n)
}

// Reads a table to the form and the labels of its classes, both blank.
pub fn open_table(s: &[u8], form: &mut Form, labels: &mut [u8; 3370]) -> Result<(), Refusal>
    requires { (form.old ≡ blank_form) × (labels.old ≡ replicate 3370 0) }
    ensures { Opened (open_table s.now) result form.new labels.new }
{
    reader::read_table(s, form)?;
    if !classes_start(form, labels) {
        return Err(Refusal {
            number: 7,
            file: 1,
            line: 0,
        });
    }
    Ok(())
}
