//! An omap that is listed page by page, each page from the last key of the page before.
ghost use Rattle.obj_laws.specs.Pages.{FullPagesAreFew, KeysRise, PagesTellAll, PagesTellEachOnce, ReadingEnds, ShortPageIsLast};

use obj_model::PairMap;

/// So many pages in turn tell so many of the entries behind their key, in order: `max` for each
/// page, or all that there are.
#[tactic(auto, using(crate::proofs::Paging::tell_each_once))]
pub fn pages_tell_each_once(_omap: &PairMap, _max: u64)
    ensures { PagesTellEachOnce _omap.now _max }
{}

/// No key is told twice, and none out of order: over all pages the keys rise.
#[tactic(auto, using(crate::proofs::Paging::keys_rise))]
pub fn keys_rise(_omap: &PairMap, _max: u64)
    ensures { KeysRise _omap.now _max }
{}

/// A page with fewer entries than were asked for is the last: it tells all that is left, and pages
/// behind it are empty.
pub fn short_page_is_last(_omap: &PairMap, _max: u64)
    ensures { ShortPageIsLast _omap.now _max }
{}

/// Pages in turn that end with a short one tell all entries, each once and in order.
pub fn pages_tell_all(_omap: &PairMap, _max: u64)
    ensures { PagesTellAll _omap.now _max }
{}

/// Pages are full no longer than there are entries to fill them.
#[tactic(auto, using(crate::proofs::Paging::full_are_few))]
pub fn full_pages_are_few(_omap: &PairMap, _max: u64)
    ensures { FullPagesAreFew _omap.now _max }
{}

/// Reading by pages comes to its short page, with no page more than it takes, where a page may have
/// an entry at all.
#[tactic(auto, using(crate::proofs::Paging::ends))]
pub fn reading_ends(_omap: &PairMap, _max: u64)
    ensures { ReadingEnds _omap.now _max }
{}
