// A list of runs in one call: the file is opened once, every check is passed before anything is written, and then clock follows clock.
#![tactic(auto)]

ghost use Rattle.std.specs.Prelude.{◌≡◌, true, ◌+◌, ◌*◌, ◌≤◌, length, eqb};
ghost use Rattle.lists.specs.Lists.{below, concat_map};
ghost use Rattle.netlist.specs.Net.{size};
ghost use Rattle.netlist.specs.Checks.{WellFormed};
ghost use Rattle.netlist.specs.Refusal.{said, answered};
ghost use Rattle.circuit.specs.Circuit.{net_of, Circuit};
ghost use Rattle.behaviour.specs.Runs.{input_widths, output_widths, state_widths, fitting};
ghost use Rattle.behaviour.specs.Service.{bytes_of, words_in};
ghost use Rattle.behaviour.specs.RunList.{room_for_rows, fitting_rows, list_verdict, run_list_file};
ghost use Rattle.behaviour.specs.RunListLaws.{states_from, row_words};
ghost use Rattle.evaluate.specs.Rows.{row_members, row_widths};
ghost use Rattle.evaluate.specs.Clock.{Inside};
ghost use Rattle.schedule.specs.Lines.{Scheduled};
ghost use Rattle.stepping.specs.Clock.{state_in};
ghost use Rattle.run_list.specs.Clocks.{shown_at};
ghost use Rattle.run_list.specs.ListNet.{list_net, Asked};

use checks::open_file;
use circuit::Netlist;
use evaluate::Row;
use evaluate::lent::{load_row, row_members};
use grouping::group_nodes;
use netlist::{Answer, Refusal};
use schedule::{SCHEDULE, Sizes, lay_out};
use stepping::clock::{WORDS, clock, put_row};
use words::put_word;

// ---- 15 and 16

// Whether so many bytes are just so many rows. Rows times clocks can be past every number.
fn are_rows(bytes: usize, row: usize, clocks: usize) -> bool
    ensures { result ≡ eqb bytes (row * clocks) }
{
    match row.checked_mul(clocks) {
        Some(all) => bytes == all,
        None => false,
    }
}

// Whether the inputs are so many rows of fitting words. The words that are loaded are of no use: a work area.
fn rows_fit(net: &Netlist, members: &[u16], inputs: &[u8], clocks: usize, words: &mut [u16]) -> bool
    requires formed { WellFormed net.now.net }
    requires words { size net.now.net ≤ length words.old }
    requires members { members.now ≡ row_members Row.Inputs net.now.net }
    ensures { result ≡ fitting_rows clocks (row_widths Row.Inputs net.now.net) inputs.now }
{
    let row = 2 * members.len();
    if !are_rows(inputs.len(), row, clocks) {
        return false;
    }
    let mut at: usize = 0;
    for _i in 0..clocks {
        let end = at + row;
        if !load_row(net, Row::Inputs, &inputs[at..end], members, words) {
            return false;
        }
        at = end;
    }
    true
}

// 15, then 16, over the whole list. It only looks.
fn check_list(
    net: &Netlist,
    state: &[u8],
    inputs: &[u8],
    outputs: &[u8],
    clocks: usize,
) -> Result<(), Refusal>
    requires { WellFormed net.now.net }
    ensures { said result ≡ list_verdict net.now.net state.now inputs.now outputs.now clocks }
{
    net.bounds();
    let mut words = [0u16; 1024];
    let mut members = [0u16; 1024];
    let k = row_members(net, Row::Inputs, &mut members);
    if !rows_fit(net, &members[..k], inputs, clocks, &mut words) {
        return Err(Refusal::Words);
    }
    let m = row_members(net, Row::Outputs, &mut members);
    if !are_rows(outputs.len(), 2 * m, clocks) {
        return Err(Refusal::Words);
    }
    let h = row_members(net, Row::State, &mut members);
    if !load_row(net, Row::State, state, &members[..h], &mut words) {
        return Err(Refusal::State);
    }
    Ok(())
}

// ---- the clocks

// Clock follows clock, each with its row of the inputs and its row of the outputs.
fn step_clocks(
    net: &Netlist,
    schedule: &[u16],
    sizes: Sizes,
    inputs: &[u8],
    words: &mut [u16],
    outputs: &mut [u8],
    clocks: usize,
)
    requires formed { WellFormed net.now.net }
    requires scheduled { Scheduled net.now.net schedule.now sizes }
    requires words { 3072 ≤ length words.old }
    requires rows { fitting_rows clocks (input_widths net.now.net) inputs.now ≡ true }
    requires room { room_for_rows clocks (output_widths net.now.net) outputs.old ≡ true }
    requires state { fitting (state_widths net.now.net) (state_in sizes words.old) ≡ true }
    ensures outputs { outputs.new ≡ concat_map (shown_at net.now.net (state_in sizes words.old) inputs.now) (below clocks) }
    ensures state { let N = net.now.net in state_in sizes words.new ≡ states_from N (state_in sizes words.old) (row_words N inputs.now) clocks }
{
    let in_row = 2 * sizes.inputs;
    let out_row = 2 * sizes.outputs;
    // No chunks of the slices: a row may have no bytes.
    let mut from: usize = 0;
    let mut to: usize = 0;
    for _i in 0..clocks {
        let from_end = from + in_row;
        let to_end = to + out_row;
        clock(
            net,
            schedule,
            sizes,
            &inputs[from..from_end],
            words,
            &mut outputs[to..to_end],
        );
        from = from_end;
        to = to_end;
    }
}

// Writes the state back.
fn store_state(words: &[u16], sizes: Sizes, state: &mut [u8])
    requires words { sizes.inputs + sizes.held ≤ length words.now }
    requires room { length state.old ≡ 2 * sizes.held }
    ensures { state.new ≡ bytes_of (state_in sizes words.now) }
{
    let from = sizes.inputs;
    let held = sizes.held;
    for j in 0..held {
        put_word(state, 2 * j, words[from + j]);
    }
}

// All clocks, over a schedule of the circuit.
fn run_clocks(net: &Netlist, state: &mut [u8], inputs: &[u8], outputs: &mut [u8], clocks: usize)
    requires { Asked net.now.net net.now.order state.old inputs.now outputs.old clocks }
    ensures state { let N = net.now.net in state.new ≡ bytes_of (states_from N (words_in state.old) (row_words N inputs.now) clocks) }
    ensures outputs { outputs.new ≡ concat_map (shown_at net.now.net (words_in state.old) inputs.now) (below clocks) }
{
    let mut schedule = [0u16; SCHEDULE];
    let sizes = lay_out(net, &mut schedule);
    let mut words = [0u16; WORDS];
    put_row(state, sizes.inputs, &mut words);
    step_clocks(net, &schedule, sizes, inputs, &mut words, outputs, clocks);
    store_state(&words, sizes, state);
}

// ---- the service

// A list of runs over an opened file; gives the length of the outputs. Its nodes are put into an order in which equal operations stand together, since they are gone
// through many times.
fn list_opened(
    file: &[u8],
    net: &mut [u16],
    state: &mut [u8],
    inputs: &[u8],
    outputs: &mut [u8],
    clocks: usize,
) -> Result<usize, Refusal>
    requires circuit { Circuit file.now net.old }
    requires formed { WellFormed (net_of file.now net.old) }
    requires inside { Inside (net_of file.now net.old) }
    ensures answer { answered result ≡ (list_net (net_of file.now net.old) state.old inputs.now outputs.old clocks).answer }
    ensures state { state.new ≡ (list_net (net_of file.now net.old) state.old inputs.now outputs.old clocks).state }
    ensures outputs { outputs.new ≡ (list_net (net_of file.now net.old) state.old inputs.now outputs.old clocks).outputs }
{
    check_list(&Netlist::of(file, net), state, inputs, outputs, clocks)?;
    group_nodes(file, net);
    run_clocks(&Netlist::of(file, net), state, inputs, outputs, clocks);
    Ok(outputs.len())
}

// So many runs, each with its row of the inputs and its row of the outputs; all of them, or a refusal that changes nothing.
pub fn run_list(
    file: &[u8],
    state: &mut [u8],
    inputs: &[u8],
    outputs: &mut [u8],
    clocks: usize,
) -> Answer
    ensures answer { result ≡ (run_list_file file.now state.old inputs.now outputs.old clocks).answer }
    ensures state { state.new ≡ (run_list_file file.now state.old inputs.now outputs.old clocks).state }
    ensures outputs { outputs.new ≡ (run_list_file file.now state.old inputs.now outputs.old clocks).outputs }
{
    let mut net = [0u16; circuit::WORDS];
    match open_file(file, &mut net) {
        Ok(()) => Answer::from(list_opened(file, &mut net, state, inputs, outputs, clocks)),
        Err(r) => Answer::from(r),
    }
}
