//! How many chunks may still come behind others, and what becomes of that number.
ghost use Rattle.copy_laws.specs.Left.{AddingLeavesNoMore, FewAreLeft, FirstHasMostLeft};
ghost use Rattle.copy_laws.specs.Left.{NothingLeftIsWhole, TakenChunksAreFew};
ghost use Rattle.copy_laws.specs.Left.{TakenChunksLeaveFewer};

/// A chunk that stands at the wanted place and fits leaves fewer that may come behind it.
#[tactic(auto, using(crate::proofs::Leaving::taken_leaves_fewer))]
pub fn taken_chunks_leave_fewer()
    ensures { TakenChunksLeaveFewer }
{}

/// Whatever a gather does with a chunk, no more may come behind it than before.
#[tactic(auto, using(crate::proofs::Leaving::adding_leaves_no_more))]
pub fn adding_leaves_no_more()
    ensures { AddingLeavesNoMore }
{}

/// No chunk may come exactly where none is wanted, which is where the chunks join to a state.
#[tactic(auto, using(crate::proofs::Leaving::nothing_left_is_whole))]
pub fn nothing_left_is_whole()
    ensures { NothingLeftIsWhole }
{}

/// Before the first chunk 1,049,666 chunks may come: the head, the kept requests, and one for each
/// byte and each pair of the largest object.
#[tactic(auto, using(crate::proofs::Leaving::first_has_most_left))]
pub fn first_has_most_left()
    ensures { FirstHasMostLeft }
{}

/// Behind no list of chunks may more come than before the first.
#[tactic(auto, using(crate::proofs::Leaving::few_are_left))]
pub fn few_are_left()
    ensures { FewAreLeft }
{}

/// The chunks that a gather takes, one behind the other, are with those that may still come behind
/// them no more than those that could come before them: whatever it ignored or refused in between.
#[tactic(auto, using(crate::proofs::Leaving::taken_are_few))]
pub fn taken_chunks_are_few()
    ensures { TakenChunksAreFew }
{}
