//! The inputs of a plan: what each job reads its files as, and how many bytes of them.

ghost use Rattle.std.specs.Prelude.{◌≡◌, ◌<◌, ◌^◌, IfSome, option_map, option_to_list};
ghost use Rattle.gib_words.specs.Kept.{plan_of};
ghost use Rattle.gib_app.specs.{Causes.{first_of, further_of}, Formats.{dialect_of as dialect_read, format_of as format_read, inputs_of, limit_of, most_of}};
ghost use Rattle.gib_app.specs.Kept.{input_of};

use gib_base::limits::FILE_BYTES;
use gib_base::token::Dialect;
use gib_words::plan::{Document, Job, Plan};

/// What inputs are read as.
#[derive(Clone, Copy, PartialEq, Eq)]
pub enum Format {
    /// The packed file of a value.
    Packed,
    /// What is packed: the text of a value, or its packed file.
    Packable,
    /// A file whose value is shown.
    Shown,
    /// The packed file of a value, and a journal.
    Journaled,
}

/// An input: where it comes from, and how many bytes of it are read at most.
#[derive(Clone, Copy)]
pub struct Input<'a> {
    pub document: Document<'a>,
    pub most: u64,
}

/// What the second file of a job is read as, where there is one.
pub fn format_of(job: Job) -> Option<Format>
    ensures { result ≡ format_read job }
{
    match job {
        Job::Check | Job::Core | Job::Code => None,
        Job::Run | Job::Plain | Job::Gen | Job::Trace | Job::Local => Some(Format::Packed),
        Job::Pack => Some(Format::Packable),
        Job::Show => Some(Format::Shown),
        Job::Replay => Some(Format::Journaled),
    }
}

/// How the source of a job is read.
pub fn dialect_of(job: Job) -> Dialect
    ensures { result ≡ dialect_read job }
{
    match job {
        Job::Run | Job::Plain | Job::Check | Job::Core | Job::Code => Dialect::Source,
        Job::Pack | Job::Show | Job::Gen | Job::Trace | Job::Replay => Dialect::Source,
        Job::Local => Dialect::Located,
    }
}

impl Format {
    /// The greatest length of such a file, in bytes; of one that is shown, that of an image with all its chunks.
    pub fn limit(self) -> u64
        ensures limit { result ≡ limit_of self }
        ensures bound { result < 2 ^ 40 }
    {
        match self {
            Format::Packed => FILE_BYTES,
            Format::Packable => FILE_BYTES,
            Format::Shown => 268_435_480,
            Format::Journaled => FILE_BYTES,
        }
    }
}

/// The second file with its limit, where the job has one.
pub fn second_input<'a>(plan: Plan<'a>) -> Option<Input<'a>>
    ensures input { option_to_list (option_map input_of result) ≡ first_of (inputs_of (plan_of plan.entry)) }
    ensures most { IfSome result (λ i. i.most ≡ most_of plan.entry.job) }
    ensures bound { IfSome result (λ i. i.most < 2 ^ 40) }
{
    let Some(format) = format_of(plan.job) else {
        return None;
    };
    match plan.second {
        Some(document) => Some(Input {
            document,
            most: format.limit(),
        }),
        None => None,
    }
}

/// The third file with its limit, where the job has one.
pub fn third_input<'a>(plan: Plan<'a>) -> Option<Input<'a>>
    ensures input { option_to_list (option_map input_of result) ≡ further_of (inputs_of (plan_of plan.entry)) }
    ensures most { IfSome result (λ i. i.most ≡ 16777216) }
{
    let Some(Format::Journaled) = format_of(plan.job) else {
        return None;
    };
    if plan.second.is_none() {
        return None;
    }
    match plan.third {
        Some(document) => Some(Input {
            document,
            most: FILE_BYTES,
        }),
        None => None,
    }
}
