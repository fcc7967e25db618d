//! The numbers of a test run.
ghost use Rattle.std.specs.Prelude.{◌≡◌, ◌+◌, ◌<◌, ℕ, List, IfOk, length};
ghost use Rattle.std.specs.List.{sum_by};
ghost use Rattle.zy_capture.specs.declared.record.Record.{Record};
ghost use Rattle.zy_capture.specs.Streams.{sessions_of};
ghost use Rattle.zy_run.specs.Commands.{streams_in, commands_in};
ghost use Rattle.zy_run.specs.Spans.{Spans};
ghost use Rattle.zy_run.specs.Summary.{count_of_bytes, summary_of_run};
ghost use Rattle.zy_serving.specs.Headline.{outputs_of_records};
ghost use Rattle.zy_self.specs.Numbers.{all_held};

use mc_calls::Hold;
use zy_base::NoMemory;
use zy_capture::Outputs;
use zy_finish::Finished;
use zy_run::Summary;

/// Returns the numbers of a served run.
pub(crate) fn summary_of(done: &Finished) -> Result<Summary, NoMemory>
    ensures value { IfOk result (λ summary. (count version : ℕ) (records : List Record)
        → Spans done.now.journal.holds count (commands_in records)
        → done.now.outputs ≡ outputs_of_records version count records done.now.journal.entries
        → summary ≡ summary_of_run count (streams_in records) done.now.journal.entries) }
{
    let Some(calls) = done.journal.count() else {
        return Err(NoMemory);
    };
    Ok(Summary {
        commands: all_held(done.journal.holds())?,
        calls,
        reply_bytes: all_bytes(&done.outputs)?,
    })
}

// Adds up the counts of all holds.
fn all_held(holds: &[Hold]) -> Result<u64, NoMemory>
    ensures value { IfOk result (λ n. n ≡ all_held holds.now) }
{
    let mut total = 0;
    for at in 0..holds.len() {
        total = sum(total, holds[at].count as u64)?;
    }
    Ok(total)
}

// Returns how many bytes the outputs of all connections have.
fn all_bytes(outputs: &Outputs) -> Result<u64, NoMemory>
    ensures value { IfOk result (λ n. n ≡ count_of_bytes outputs.now.sessions) }
{
    let mut total = 0;
    for conn in 0..outputs.count() {
        total = sum(total, bytes_of(outputs, conn)?)?;
    }
    Ok(total)
}

// Returns how many bytes the outputs of a connection have.
fn bytes_of(outputs: &Outputs, conn: u32) -> Result<u64, NoMemory>
    requires within { conn < length outputs.now.sessions }
    ensures value { IfOk result (λ n. n ≡ sum_by length (sessions_of outputs.now.sessions conn)) }
{
    let mut total = 0;
    for session in 0..outputs.sessions(conn) {
        total = sum(total, outputs.output(conn, session).len() as u64)?;
    }
    Ok(total)
}

// Adds two numbers, if their sum fits in 64 bits.
fn sum(first: u64, second: u64) -> Result<u64, NoMemory>
    ensures value { IfOk result (λ n. n ≡ first + second) }
{
    match first.checked_add(second) {
        Some(total) => Ok(total),
        None => Err(NoMemory),
    }
}
