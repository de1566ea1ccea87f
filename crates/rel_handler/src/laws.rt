//! Laws of the bytes of disks, whatever boots them. Each function does nothing: its contract is the law.
ghost use Rattle.rel_handler.specs.Laws.{BootsOrIsRefused, ImagesAreStores, StandsForOneList, RefusesNoImage};

/// The bytes of a disk stand for one list, or a boot refuses them, and never both.
pub fn a_disk_boots_or_is_refused()
    ensures either { BootsOrIsRefused }
    ensures one { StandsForOneList }
    ensures never_both { RefusesNoImage }
{}

/// Bytes that stand for a list hold a store: so no node is made over one.
pub fn a_disk_with_a_list_holds_a_store()
    ensures { ImagesAreStores }
{}
