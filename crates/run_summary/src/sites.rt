//! Counts the sites of images.

ghost use Rattle.std.specs.Prelude.{◌≡◌, ◌+◌, IfOk, filter, length};
ghost use Rattle.run_summary.specs.Summaries.{choice_counts, counts_of, image_counts, is_rewritten, plus};

use link_core::Linked;
use relax_sites::Choice;
use std::alloc::AllocError;

/// How many sites there are, and how many of them were rewritten.
#[derive(Clone, Copy, PartialEq, Eq, Debug)]
pub struct SiteCounts {
    pub sites: u64,
    pub rewritten: u64,
}

/// Whether the site was rewritten.
fn is_rewritten(choice: Choice) -> bool
    ensures { result ≡ is_rewritten choice }
{
    match choice {
        Choice::Keep => false,
        _ => true,
    }
}

/// How many of the sites with these choices were rewritten.
fn rewritten_count(choices: &[Choice]) -> usize
    ensures count { result ≡ length (filter is_rewritten choices.now) }
{
    let mut count = 0;
    for choice in choices {
        if is_rewritten(*choice) {
            count += 1;
        }
    }
    count
}

/// The sum of two counts. Counts whose sum needs more than 64 bits fit in no memory.
pub(crate) fn plus(count: u64, more: u64) -> Result<u64, AllocError>
    ensures { IfOk result (λ sum. sum ≡ count + more) }
{
    match count.checked_add(more) {
        Some(sum) => Ok(sum),
        None => Err(AllocError),
    }
}

impl SiteCounts {
    /// The counts of all these images. The only error is `AllocError`.
    #[tactic(auto, unfolding(crate::specs::Summaries::counts_of))]
    pub fn of(images: &[Linked]) -> Result<SiteCounts, AllocError>
        ensures { IfOk result (λ counts. counts ≡ counts_of images.now) }
    {
        let mut counts = SiteCounts {
            sites: 0,
            rewritten: 0,
        };
        for image in images {
            counts = counts.with_image(image)?;
        }
        Ok(counts)
    }

    /// These counts, plus those of an image.
    fn with_image(self, image: &Linked) -> Result<SiteCounts, AllocError>
        ensures { IfOk result (λ counts. counts ≡ plus self (image_counts image.now)) }
    {
        let mut counts = self;
        for choices in image.choices.as_slice() {
            counts = counts.with_object(choices.as_slice())?;
        }
        Ok(counts)
    }

    /// These counts, plus those of an object, whose sites have these choices.
    fn with_object(self, choices: &[Choice]) -> Result<SiteCounts, AllocError>
        ensures { IfOk result (λ counts. counts ≡ plus self (choice_counts choices.now)) }
    {
        Ok(SiteCounts {
            sites: plus(self.sites, choices.len() as u64)?,
            rewritten: plus(self.rewritten, rewritten_count(choices) as u64)?,
        })
    }
}
