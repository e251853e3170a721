// Search, insertion and removal by rank, over a slice that the caller lends. The records stand at its front, in rank order,
// and their number goes along; what lies behind them is left as it is.
// A rule of the project asks for this form.
ghost use Rattle.std.specs.Prelude.{◌≡◌, ℕ, ◌+◌, ◌-◌, ◌<◌, ◌≤◌, true, false, ◌++◌, length, MatchOption};
ghost use Rattle.ranked.specs.Ranks.{Alike, InsertedByRank, Place, RemovedFrom};

use crate::ranking::Ranking;

// The place of a record among ranked ones: how many of them come before it.
// By a walk, since it promises its answer of any list, and a search by halves only of a ranked one.
pub fn place<R, K: Ranking<R>>(ranking: &K, items: &[R], item: &R) -> usize
    ensures { Place K.before items.now item.now result }
{
    items
        .iter()
        .take_while(|other| ranking.before(other, item))
        .count()
}

// Puts a record among the ranked ones at its place, which is answered; `None` if the slice has no room, and then it is as it was.
pub fn insert<R: Copy, K: Ranking<R>>(
    ranking: &K,
    slots: &mut [R],
    count: usize,
    item: R,
) -> Option<usize>
    ensures { MatchOption result ((length slots.old ≤ count) × (slots.new ≡ slots.old)) (λ place. InsertedByRank K.before (Alike K.before) count item slots.old place slots.new) }
{
    // A test and no `get`, since no place is read.
    if count >= slots.len() {
        return None;
    }
    let place = place(ranking, &slots[..count], &item);
    slots.copy_within(place..count, place + 1);
    slots[place] = item;
    Some(place)
}

// Takes the record at a place out of the ranked ones, and answers it; `None` if there is none, and then the slice is as it was.
pub fn remove<R: Copy>(slots: &mut [R], count: usize, place: usize) -> Option<R>
    ensures { MatchOption result ((place < count → length slots.old < count) × (slots.new ≡ slots.old)) (λ item. RemovedFrom count slots.old place item slots.new) }
{
    let item = *slots.get(..count)?.get(place)?;
    slots.copy_within(place + 1..count, place);
    Some(item)
}
