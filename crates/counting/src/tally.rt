ghost use Rattle.std.specs.Prelude.{◌≡◌, fold, take};
ghost use Rattle.protocol.specs.Heard.{as_heard};
ghost use Rattle.protocol.specs.Places.{places};
ghost use Rattle.counting.specs.Leader.{ahead, counted, leader, Leads, LeadsAlone};
ghost use Rattle.counting.specs.Majority.{OnlyCandidate, Majority};

use protocol::{Heard, SILENT, Value};

// Each clause names the row as heard and its places: the value of a ghost model has to be data, and a row as it is read
// is a function of the place.

/// The value that most places read as, the least one on equal counts, with their number. By the rules a pair, rest with
/// 0 where no place reads as a value.
pub fn leader<V: Value>(heard: Heard) -> (V, usize)
    ensures value { result ≡ leader V.Value.kind (as_heard heard.entry) heard.entry.setup.n }
    ensures leads { Leads V.Value.kind (as_heard heard.entry) heard.entry.setup.n result }
    ensures alone { LeadsAlone V.Value.kind (as_heard heard.entry) heard.entry.setup.n result }
{
    // a majority leads, and two passes over the row find it
    if let Some(best) = majority::<V>(heard) {
        return best;
    }
    leader_by_counting(heard)
}

// Which is ahead among rest and the values that places read as, taken one after the other.
fn leader_by_counting<V: Value>(heard: Heard) -> (V, usize)
    ensures { result ≡ fold (ahead V.Value.kind) (V.Value.kind.rest, 0)
        (counted V.Value.kind (as_heard heard.entry) heard.entry.setup.n) }
{
    (0..heard.setup.n)
        .filter_map(|j| V::read(heard.at(j)))
        .map(|v| (v, places_of(heard, v)))
        .fold((V::rest(), 0), ahead)
}

// The first of two values with their counts, unless the second beats it: a larger count, or an equal one and less. By
// `max` it would be no plainer: pairs of a count and a `Reverse` of the value, made and taken apart again.
fn ahead<V: Value>(a: (V, usize), b: (V, usize)) -> (V, usize)
    ensures { result ≡ ahead V.Value.kind a b }
{
    if a.1 < b.1 || (a.1 == b.1 && b.0.less(a.0)) {
        b
    } else {
        a
    }
}

// The value that more than half of the places read as, if there is one.
fn majority<V: Value>(heard: Heard) -> Option<(V, usize)>
    ensures { Majority V.Value.kind (as_heard heard.entry) heard.entry.setup.n result }
{
    let v = V::read(candidate(heard))?;
    let count = places_of(heard, v);
    if heard.setup.n / 2 < count {
        Some((v, count))
    } else {
        None
    }
}

// The only word that may stand at more than half of the places: each other word is set off against one that differs
// (Boyer and Moore). The lead is 0 where no word is in front; an `Option` would only add a case. Tried as a `fold`: the
// proof did not close, since a closure has no invariant that would bound the lead.
fn candidate(heard: Heard) -> u64
    ensures { OnlyCandidate (as_heard heard.entry) heard.entry.setup.n result }
{
    let mut word = SILENT;
    let mut lead: usize = 0;
    for j in 0..heard.setup.n {
        let next = heard.at(j);
        if lead == 0 {
            word = next;
            lead = 1;
        } else if next == word {
            lead += 1;
        } else {
            lead -= 1;
        }
    }
    word
}

// How many places read as the value `v`. By the rules of counting this is a loop over the words with their index.
fn places_of<V: Value>(heard: Heard, v: V) -> usize
    ensures { result ≡ places (as_heard heard.entry) (V.Value.kind.word v) heard.entry.setup.n }
{
    let Heard { setup, said, row } = heard;
    let word = v.word();
    let front = front(row, setup.n);
    let mut count = 0;
    for (j, x) in front.iter().enumerate() {
        let w = if j == setup.own { said } else { *x };
        if w == word {
            count += 1;
        }
    }
    // past the end of a short row only the own place can hold a value
    if front.len() <= setup.own && setup.own < setup.n && said == word {
        count += 1;
    }
    count
}

// The part of a row that is read: the places of n stations.
fn front(row: &[u64], n: usize) -> &[u64]
    ensures { result.now ≡ take n row.now }
{
    row.get(..n).unwrap_or(row)
}
