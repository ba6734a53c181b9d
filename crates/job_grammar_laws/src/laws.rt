//! Laws of the text of a job. Each function does nothing; what it ensures is the law.

ghost use Rattle.job_grammar_laws.specs.Derived.{DerivedTextsAreJobs, JobsAreDerived, TextsDeriveOneJob};
ghost use Rattle.job_grammar_laws.specs.Example.{ExampleIsDerived};
ghost use Rattle.job_grammar_laws.specs.Laws.{ImagesAreSpelled, NumbersAreWritten, SomeHaveNoText};
ghost use Rattle.job_grammar_laws.specs.Spellable.{TextsAreSpelled};

/// A text that derives a job spells that job.
pub fn derived_texts_are_jobs()
    ensures { DerivedTextsAreJobs }
{}

/// The job that a text spells is derived.
pub fn jobs_are_derived()
    ensures { JobsAreDerived }
{}

/// A text derives one job at most.
pub fn texts_derive_one_job()
    ensures { TextsDeriveOneJob }
{}

/// Four lines derive a job.
pub fn example_is_derived()
    ensures { ExampleIsDerived }
{}

/// Exactly these jobs have a text: what holds of their images, mentions, numbers, words and lines.
pub fn texts_are_spelled()
    ensures { TextsAreSpelled }
{}

/// The images of a job that a text spells: at most 64, each with a name and objects, no two of one name, in order.
pub fn images_are_spelled()
    ensures { ImagesAreSpelled }
{}

/// Two images of one name have no text, nor has an image without objects.
#[tactic(auto, using(crate::proofs::Spelled::some_without_text))]
pub fn some_have_no_text()
    ensures { SomeHaveNoText }
{}

/// A word is read as a number exactly where it writes it: as it is printed, or as `0x` and hexadecimal digits.
pub fn numbers_are_written()
    ensures { NumbersAreWritten }
{}
