//! Laws of sequences. Each function does nothing; what it ensures is the law.

ghost use Rattle.tied_sites.specs.Laws.{DescriptorSitesStand, GeneralSitesStand, InitialSitesStand, LocalSitesStand};
ghost use Rattle.tied_sites.specs.Laws.{SitesStand};

/// General Dynamic code, kept or rewritten, finds its variable.
pub fn general_sites_stand()
    ensures { GeneralSitesStand }
{}

/// Local Dynamic code finds its own instance's block, or the thread pointer, from which its offsets then count.
pub fn local_sites_stand()
    ensures { LocalSitesStand }
{}

/// Initial Exec code has its variable's distance from the thread pointer.
pub fn initial_sites_stand()
    ensures { InitialSitesStand }
{}

/// Descriptor code makes and calls the descriptor that its instance has for the symbol.
pub fn descriptor_sites_stand()
    ensures { DescriptorSitesStand }
{}

/// Wherever the meaning of a job has a sequence, the loaded code does what the sequence means.
pub fn sites_stand()
    ensures { SitesStand }
{}
