ghost use Rattle.std.specs.Prelude.{◌≡◌, ◌++◌, ◌*◌, IfOk, OnOk};
ghost use Rattle.rand_core.specs.Steps.{first_words};
ghost use Rattle.rand_pcg.specs.Pcg.{pcg32};
ghost use Rattle.tt_generate.specs.Workload.{line_and_newline, job_line, job_of, last_line, workload_text};
ghost use Rattle.tt_generate.specs.inside.JobLines.{job_lines};

use rand_core::SeedableRng;
use rand_core::utils::NextWord;
use rand_pcg::Lcg64Xsh32;
use std::alloc::Global;
use tt_text::{NoMemory, Text};

/// What stands before the jobs: a pool of workers, and no jobs posted to it yet.
const BEFORE_JOBS: &[u8] = b"set p [tpool::create -maxworkers 4]\nset jobs {}\n";

/// What stands after them: the jobs are waited for, and the sum of each key is written, in the order of the keys.
const AFTER_JOBS: &[u8] = b"while {[llength $jobs]} {tpool::wait $p $jobs jobs}\n\
      foreach k [lsort [tsv::array names sum]] {puts \"$k [tsv::get sum $k]\"}\n";

/// A job of a pool: it adds a value to the sum of a key.
#[derive(Clone, Copy)]
pub(crate) struct Job {
    /// Below 8.
    pub(crate) key: u32,
    /// Below 1000.
    pub(crate) value: u32,
}

/// A script that posts `size` jobs to a pool of at most 4 workers, waits for them all, and writes the sum of each key
/// and how many jobs there were. Keys and values are drawn from the generator that is seeded with `number`.
///
/// `NoMemory` if memory for the text is refused.
pub fn workload(alloc: Global, number: u64, size: u32) -> Result<Text, NoMemory>
    ensures made { IfOk result (λ text. text ≡ workload_text number size) }
{
    let mut generator = Lcg64Xsh32::seed_from_u64(number);
    let mut text = Text::from_bytes(alloc, BEFORE_JOBS)?;
    push_jobs(alloc, &mut text, &mut generator, size)?;
    text.push_bytes(AFTER_JOBS)?;
    push_count(alloc, &mut text, size)?;
    Ok(text)
}

/// Adds the line of each of this many jobs.
fn push_jobs(
    alloc: Global,
    text: &mut Text,
    generator: &mut Lcg64Xsh32,
    size: u32,
) -> Result<(), NoMemory>
    ensures { OnOk result (text.new ≡ text.old ++ job_lines (first_words pcg32 (2 * size) generator.old)) }
{
    for _ in 0..size {
        let job = next_job(generator);
        push_job(alloc, text, job)?;
    }
    Ok(())
}

/// The job that the next two words of the generator give.
fn next_job(generator: &mut Lcg64Xsh32) -> Job
    ensures job { result ≡ job_of (pcg32 generator.old).0 (pcg32 (pcg32 generator.old).1).0 }
    ensures rest { generator.new ≡ (pcg32 (pcg32 generator.old).1).1 }
{
    let word = generator.next_word();
    let next = generator.next_word();
    let key = word % 8;
    let value = next % 1000;
    Job { key, value }
}

/// Adds the line of a job.
fn push_job(alloc: Global, text: &mut Text, job: Job) -> Result<(), NoMemory>
    ensures { OnOk result (text.new ≡ text.old ++ line_and_newline (job_line job)) }
{
    let key = job.key;
    let value = job.value;
    let line = format!(in alloc;
        "lappend jobs [tpool::post $p {{tsv::incr sum k{key} {value}}}]\n"
    )?;
    text.push_bytes(line.as_bytes())
}

/// Adds the last line, which says how many jobs there were.
fn push_count(alloc: Global, text: &mut Text, size: u32) -> Result<(), NoMemory>
    ensures { OnOk result (text.new ≡ text.old ++ line_and_newline (last_line size)) }
{
    let line = format!(in alloc; "puts \"jobs {size}\"\n")?;
    text.push_bytes(line.as_bytes())
}
