// The places that want a word, by the clock at which it is due, so that in a clock only those are looked at whose word is due in it.
ghost use Rattle.std.specs.Prelude.{◌≡◌, ◌<◌, length};
ghost use Rattle.first_clocks.specs.Queue.{dues_in, Enqueued, Queued, QueuedWithin, TakenTo};

use areas::at_or;

// The area of the queue: for each slot its first place, a clock's slot being the clock modulo 1,024; for each place the next one of its slot; and when its word is due.
const NEXTS: usize = 1024;

const DUES: usize = 4096;

// Puts place k first in the slot of its clock.
pub fn enqueue(due: u16, k: usize, queue: &mut [u16])
    requires place { k < 3072 }
    requires queue { length queue.old ≡ 7168 }
    ensures { Enqueued queue.old due k queue.new }
{
    let slot = due as usize % 1024;
    queue[NEXTS + k] = queue[slot];
    queue[DUES + k] = due;
    queue[slot] = k as u16;
}

// Takes the words that are due at clock t, whose words are given: each goes over the number of the node that has it.
pub fn take_due(queue: &[u16], t: u16, words: &[u16], found: &mut [u16])
    requires queue { length queue.now ≡ 7168 }
    requires chains { Queued queue.now 0 }
    requires within { QueuedWithin queue.now (length found.old) }
    requires comes { t < 65535 }
    ensures { TakenTo (dues_in queue.now) t words.now found.old found.new 3072 }
{
    let mut k = queue[t as usize % 1024] as usize;
    // From place to place along the chain of a slot: no range counts them.
    while k < 3072 {
        let due = queue[DUES + k];
        if due == t {
            found[k] = at_or(words, found[k] as usize, 0);
        }
        k = queue[NEXTS + k] as usize;
    }
}
