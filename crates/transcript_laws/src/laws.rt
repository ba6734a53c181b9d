//! Laws of transcripts. Each function does nothing; what it ensures is the law.

ghost use Rattle.transcript_laws.specs.Laws.{TextsDetermineTranscripts, TranscriptsAreRead};

/// Each line and each event of a transcript over a job is read back from its text, and nothing else is.
#[tactic(auto, using(crate::proofs::Proved::transcripts_read))]
pub fn transcripts_are_read()
    ensures { TranscriptsAreRead }
{}

/// Two transcripts over a job that have one text are one.
#[tactic(auto, using(crate::proofs::Proved::texts_determine))]
pub fn texts_determine_transcripts()
    ensures { TextsDetermineTranscripts }
{}
