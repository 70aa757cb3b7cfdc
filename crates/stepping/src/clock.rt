// One clock: a row of inputs is put at its places, the lines are done, a row of outputs is written, and the next state comes to the state's places.
ghost use Rattle.std.specs.Prelude.{◌≡◌, true, ℕ, ◌+◌, ◌*◌, ◌/◌, ◌<◌, ◌≤◌, length, get_or};
ghost use Rattle.words.specs.Words.{word};
ghost use Rattle.netlist.specs.Checks.{WellFormed};
ghost use Rattle.behaviour.specs.Run.{run_outputs, run_state};
ghost use Rattle.behaviour.specs.Runs.{input_widths, state_widths, fitting};
ghost use Rattle.behaviour.specs.Service.{bytes_of, words_in};
ghost use Rattle.schedule.specs.Lines.{schedule_words, place_on, Scheduled};
ghost use Rattle.stepping.specs.Step.{line_next, FitTo};
ghost use Rattle.stepping.specs.Putting.{Put};
ghost use Rattle.stepping.specs.Looking.{Read};
ghost use Rattle.stepping.specs.Clock.{state_in};

use super::step_lines;
use circuit::Netlist;
use circuit::codes::REGISTER;
use evaluate::lent::store_words;
use schedule::{CODE, HELD, OUTPUTS, PLACES, RUN_END, Sizes, part_of};
use words::word_at;

// The words of a row: a place for each line, then the next state until the clock is over.
pub const WORDS: usize = 3072;

const NEXT: usize = 2048;

// Puts the words of a lent row at the places from one on. (The words are a slice, of any length that has room.)
pub fn put_row(bytes: &[u8], from: usize, words: &mut [u16])
    requires { from + length bytes.now / 2 ≤ length words.old }
    ensures { Put from (length bytes.now / 2) (λ j. word bytes.now (2 * j)) words.old words.new }
{
    let n = bytes.len() / 2;
    for j in 0..n {
        words[from + j] = word_at(bytes, 2 * j);
    }
}

// Puts what each register and clocked ROM reads behind the places, so that no register sees another's new word.
fn put_read(schedule: &[u16], sizes: Sizes, words: &mut [u16])
    requires schedule { schedule_words ≤ length schedule.now }
    requires lines { sizes.inputs + sizes.held ≤ 2048 }
    requires held { sizes.held ≤ 1024 }
    requires words { 3072 ≤ length words.old }
    requires places { (j : ℕ) → j < sizes.held → place_on schedule.now (sizes.inputs + j) 0 < 2048 }
    ensures { Put 2048 sizes.held (λ j. get_or words.old (place_on schedule.now (sizes.inputs + j) 0) 0) words.old words.new }
{
    let from = sizes.inputs;
    let held = sizes.held;
    for j in 0..held {
        words[NEXT + j] = words[part_of(schedule, from + j, PLACES)];
    }
}

// Puts the table's word where a clocked ROM has read an address. What a register has read is what it holds next: runs of registers are passed by, since a branch
// for each of them would be foreseen wrong where a ROM stands among them.
fn look_up(net: &Netlist, schedule: &[u16], sizes: Sizes, words: &mut [u16])
    requires formed { WellFormed net.now.net }
    requires scheduled { Scheduled net.now.net schedule.now sizes }
    requires words { 3072 ≤ length words.old }
    requires fit { FitTo net.now.net schedule.now words.old sizes.lines }
    requires read { Read schedule.now sizes words.old }
    ensures { Put 2048 sizes.held (λ j. line_next net.now.net schedule.now words.old (sizes.inputs + j)) words.old words.new }
{
    let from = sizes.inputs;
    let held = sizes.held;
    let front = from + held;
    // A loop by hand: it jumps over runs.
    let mut i = from;
    while i < front {
        if part_of(schedule, i, CODE) == REGISTER {
            i = part_of(schedule, i, RUN_END);
        } else {
            let at = NEXT + i - from;
            words[at] = net.table_word(part_of(schedule, i, HELD), words[at] as usize);
            i += 1;
        }
    }
}

// Puts the next state behind the places.
fn put_next(net: &Netlist, schedule: &[u16], sizes: Sizes, words: &mut [u16])
    requires formed { WellFormed net.now.net }
    requires scheduled { Scheduled net.now.net schedule.now sizes }
    requires words { 3072 ≤ length words.old }
    requires fit { FitTo net.now.net schedule.now words.old sizes.lines }
    ensures { Put 2048 sizes.held (λ j. line_next net.now.net schedule.now words.old (sizes.inputs + j)) words.old words.new }
{
    put_read(schedule, sizes, words);
    look_up(net, schedule, sizes, words);
}

// Brings the next state to the state's places.
fn keep_next(sizes: Sizes, words: &mut [u16])
    requires lines { sizes.inputs + sizes.held ≤ 2048 }
    requires held { sizes.held ≤ 1024 }
    requires words { 3072 ≤ length words.old }
    ensures { Put sizes.inputs sizes.held (λ j. get_or words.old (2048 + j) 0) words.old words.new }
{
    let from = sizes.inputs;
    let held = sizes.held;
    for j in 0..held {
        words[from + j] = words[NEXT + j];
    }
}

// One clock over a schedule. (Slices, as of `step_lines`.)
pub fn clock(
    net: &Netlist,
    schedule: &[u16],
    sizes: Sizes,
    inputs: &[u8],
    words: &mut [u16],
    outputs: &mut [u8],
)
    requires formed { WellFormed net.now.net }
    requires scheduled { Scheduled net.now.net schedule.now sizes }
    requires words { 3072 ≤ length words.old }
    requires inputs { length inputs.now ≡ 2 * sizes.inputs }
    requires outputs { length outputs.old ≡ 2 * sizes.outputs }
    requires input_words { fitting (input_widths net.now.net) (words_in inputs.now) ≡ true }
    requires state_words { fitting (state_widths net.now.net) (state_in sizes words.old) ≡ true }
    ensures outputs { outputs.new ≡ bytes_of (run_outputs net.now.net (state_in sizes words.old) (words_in inputs.now)) }
    ensures state { state_in sizes words.new ≡ run_state net.now.net (state_in sizes words.old) (words_in inputs.now) }
{
    put_row(inputs, 0, words);
    step_lines(net, schedule, sizes, words);
    let end = OUTPUTS + sizes.outputs;
    store_words(&schedule[OUTPUTS..end], words, outputs);
    put_next(net, schedule, sizes, words);
    keep_next(sizes, words);
}
