//! Laws of the meaning. Each function does nothing; what it ensures is the law.

ghost use Rattle.meaning_laws.specs.Laws.{ImagesWithoutDataShareNone, MeaningKnowsNoSetting, ThreadsMeanTheirOwn};
ghost use Rattle.meaning_laws.specs.Laws.{VerdictKnowsNoSetting};

/// If no image has data that threads write, a thread of a job takes the turns that it would take alone, so its lines
/// are the same. Its looks see fronts of the history, each of which the next one continues.
pub fn threads_mean_their_own()
    ensures { ThreadsMeanTheirOwn }
{}

/// Images whose objects have no byte in a writable section have no data that threads write.
pub fn images_without_data_share_none()
    ensures { ImagesWithoutDataShareNone }
{}

/// The meaning does not depend on whether sequences may be rewritten.
pub fn meaning_knows_no_setting()
    ensures { MeaningKnowsNoSetting }
{}

/// Nor does the verdict on a job, clean or with a first unclean step.
pub fn verdict_knows_no_setting()
    ensures { VerdictKnowsNoSetting }
{}
