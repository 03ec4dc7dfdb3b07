// Replaying a run of a table: its length, the table's refusals, and then the verdict.
ghost use Rattle.std.specs.Prelude.{◌≡◌, length};
ghost use Rattle.refusals.specs.Judged.{told};
ghost use Rattle.claims.specs.Replaying.{whole_length, replay_of, replay_reply, replay_steps_of, replay_steps_reply, verdict_numbers, ReplayMeans, ReplayStepsMean};
ghost use Rattle.claims.specs.AnswerNumbers.{replayed_numbers};

use refusals::Refusal;
use replay::{Step, Verdict};

// Is this the length of a replayer's list?
fn whole(n: usize) -> bool
    ensures { result ≡ whole_length n }
{
    5 <= n && (n - 5) % 9 == 0
}

// Judges a run in the flat form: five start contents, then nine numbers for each step.
pub fn replay(table: &[u8], run: &[u32]) -> Result<Verdict, Refusal>
    ensures { (result ≡ replay_reply table.now run.now)
        × (replayed_numbers result ≡ told verdict_numbers (replay_of table.now run.now))
        × ReplayMeans table.now run.now result }
{
    if !whole(run.len()) {
        return Err(Refusal::of_call(9));
    }
    let mut form = [0u32; forms::LENGTH];
    let mut labels = [0u8; 3370];
    opening::open_table(table, &mut form, &mut labels)?;
    Ok(replay::replay(&form, run))
}

// Judges a run that is lent as steps.
pub fn replay_steps(table: &[u8], start: [u32; 5], steps: &[Step]) -> Result<Verdict, Refusal>
    ensures { (result ≡ replay_steps_reply table.now start steps.now)
        × (replayed_numbers result ≡ told verdict_numbers (replay_steps_of table.now start steps.now))
        × ReplayStepsMean table.now start steps.now result }
{
    let mut form = [0u32; forms::LENGTH];
    let mut labels = [0u8; 3370];
    opening::open_table(table, &mut form, &mut labels)?;
    Ok(replay::replay_steps(&form, start, steps))
}
