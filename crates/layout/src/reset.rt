// The reset words of the planned nodes: those that ROMs take over are in the plan, those of the registers and the constants of the gates are found.
ghost use Rattle.std.specs.Prelude.{◌≡◌, ◌≤◌, length};
ghost use Rattle.netlist.specs.Net.{in_clock};
ghost use Rattle.circuit.specs.Order.{Complete};
ghost use Rattle.evaluate.specs.Clock.{Inside};
ghost use Rattle.retiming.specs.Modes.{mode_timing};
ghost use Rattle.first_clocks.specs.Wanted.{WordsAt};
ghost use Rattle.wiring.specs.Wiring.{Timed};
ghost use Rattle.plan.specs.Areas.{words_in};
ghost use Rattle.steering.specs.Gated.{Steering};
ghost use Rattle.layout.specs.EntryWords.{EntryWords};
ghost use Rattle.layout.specs.Planned.{PlannedBy};

use circuit::Netlist;
use first_clocks::first_words;
use plan::{FIRSTS, LATE, OWNERS, PLAN, WORDS};
use steering::Steered;
use wires::TIMING;

// The words of the entries, and 0 behind them: what a register resets to whose clock is before the first.
fn entry_words(plan: &[u16; PLAN], entries: usize, words: &mut [u16; 1024])
    requires { entries ≤ 1024 }
    ensures { EntryWords (words_in plan.now) entries words.new }
{
    words.fill(0);
    let end = WORDS + entries;
    words[..entries].copy_from_slice(&plan[WORDS..end]);
}

pub fn reset_words(
    net: &Netlist,
    timing: &[u16; TIMING],
    start: &[u16; 1024],
    plan: &[u16; PLAN],
    made: Steered,
    queue: &mut [u16],
    words: &mut [u16; 1024],
)
    requires timed { let N = net.now.net in Timed N (mode_timing made.mode N) timing.now }
    requires inside { Inside net.now.net }
    requires complete { Complete in_clock net.now.net net.now.order }
    requires start { WordsAt net.now.net 0 start.now }
    requires queue { length queue.old ≡ 7168 }
    requires steering { let N = net.now.net in
        Steering N (mode_timing made.mode N) plan.now made.entries made.wired made.chain made.total }
    requires few { made.total ≤ 1024 }
    ensures { PlannedBy net.now.net made plan.now words.new }
{
    entry_words(plan, made.entries, words);
    first_words(
        net,
        timing,
        start,
        &plan[LATE..FIRSTS],
        &plan[OWNERS..WORDS],
        queue,
        words,
    );
}
