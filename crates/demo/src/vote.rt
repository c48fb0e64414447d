ghost use Rattle.std.specs.Prelude.{◌≡◌};
ghost use Rattle.protocol.specs.Protocol.{Takes};
ghost use Rattle.demo.specs.Promise.{sent_in, answers_to, Promise};

use protocol::{FullVote, Machine, SILENT, Setup, Value, runs_exist};

// The words that the faulty station sends in a round, as they go over the wire: the silent word is none.
fn sent_in(forged: &[[u64; 3]], round: usize) -> [u64; 3]
    ensures { result ≡ sent_in forged.now round }
{
    forged.get(round).copied().unwrap_or([SILENT; 3])
}

/// Runs a whole vote of four stations of which station 0 is faulty: what stations 1, 2 and 3 answer that enter these
/// values, and to each of which station 0 sends the words forged for it, round by round.
pub fn vote<V: Value, M: FullVote + Machine<Value = V>>(
    entries: &[V; 3],
    forged: &[[u64; 3]],
) -> [Option<V>; 3]
    ensures answers { result ≡ answers_to V.Value.kind M.Machine.model
        entries.now forged.now }
    ensures promise { Takes M.Machine.model 4 1 → Promise V.Value.kind entries.now result }
{
    // these two do nothing when they run: the promise rests on what their contracts say
    runs_exist::<M>();
    M::full_law();
    let [x, y, z] = *entries;
    let begin = |own, entry| M::begin(Setup { n: 4, t: 1, own }, entry);
    let (mut first, mut second, mut third) = (begin(1, x), begin(2, y), begin(3, z));
    // By number, as the contract speaks of rounds. Tried with an array of stations: the proof did not close, since
    // `iter_mut` asks that three machines fit in memory, and the size of a machine of any type has no bound.
    for k in 0..M::rounds(4, 1) {
        let [to_first, to_second, to_third] = sent_in(forged, k);
        let (a, b, c) = (first.say(), second.say(), third.say());
        first.hear(&[to_first, a, b, c]);
        second.hear(&[to_second, a, b, c]);
        third.hear(&[to_third, a, b, c]);
    }
    [first.answer(), second.answer(), third.answer()]
}
