// What the calls take from an opened table.
ghost use Rattle.std.specs.Prelude.{◌≡◌, length};
ghost use Rattle.automata.specs.Configurations.{classes};
ghost use Rattle.forms.specs.FormAutomaton.{automaton_of};
ghost use Rattle.forms.specs.Readable.{Readable};

// The number of a table's classes.
pub(crate) fn classes_in(form: &[u32]) -> usize
    requires { Readable form.now }
    ensures { result ≡ length (classes (automaton_of form.now)) }
{
    catalogue::class_count(forms::registers(form), forms::constants(form))
}
