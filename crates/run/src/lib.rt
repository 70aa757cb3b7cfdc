// The reset service and the run of one clock, on the bytes that a host lends. Nothing is written before every check is passed.
#![tactic(auto)]

ghost use Rattle.std.specs.Prelude.{◌≡◌, true, ◌*◌, ◌<◌, length};
ghost use Rattle.netlist.specs.Net.{size, element_at, in_clock};
ghost use Rattle.netlist.specs.Checks.{WellFormed};
ghost use Rattle.netlist.specs.Refusal.{answered};
ghost use Rattle.circuit.specs.Order.{Complete};
ghost use Rattle.behaviour.specs.Run.{holds_first, reset_state, next_state};
ghost use Rattle.behaviour.specs.Service.{bytes_of, words_in, reset_net, reset_file, run_net, run_file};
ghost use Rattle.evaluate.specs.Rows.{row_test, row_members};
ghost use Rattle.evaluate.specs.Clock.{Inside};
ghost use Rattle.evaluate.specs.Next.{WordsFit};

use checks::open_file;
use circuit::{Netlist, WORDS};
use evaluate::lent::{load_row, row_members, store_words};
use evaluate::{Row, evaluate, next_word};
use netlist::{Answer, Refusal};
use words::put_word;

// ---- reset

// The word that a register or a clocked ROM holds after reset.
fn reset_word(net: &Netlist, v: usize) -> u16
    requires node { v < size net.now.net }
    requires holds { row_test Row.State net.now.net v ≡ true }
    ensures { result ≡ holds_first (element_at net.now.net v) }
{
    net.number(v) as u16
}

// Fills a state with the reset words. (The loop of evaluate's `store_words` over another word: a function of both would take the word as a closure, and its clause would be
// the closure's.)
fn store_reset(net: &Netlist, members: &[u16], state: &mut [u8])
    requires members { members.now ≡ row_members Row.State net.now.net }
    requires state { length state.old ≡ 2 * length members.now }
    ensures { state.new ≡ bytes_of (reset_state net.now.net) }
{
    for i in 0..members.len() {
        put_word(state, 2 * i, reset_word(net, members[i] as usize));
    }
}

// The reset service over an opened file: 16 where the state's length does not fit.
fn reset_opened(net: &Netlist, state: &mut [u8]) -> Result<usize, Refusal>
    ensures answer { answered result ≡ (reset_net net.now.net state.old).answer }
    ensures state { state.new ≡ (reset_net net.now.net state.old).state }
{
    let mut members = [0u16; 1024];
    let count = row_members(net, Row::State, &mut members);
    if state.len() != 2 * count {
        return Err(Refusal::State);
    }
    store_reset(net, &members[..count], state);
    Ok(state.len())
}

// ---- run

// Puts the next state in the state's place. The words of the clock stay as they are, so no register sees another's new word.
fn store_state(net: &Netlist, members: &[u16], words: &[u16], state: &mut [u8])
    requires formed { WellFormed net.now.net }
    requires members { members.now ≡ row_members Row.State net.now.net }
    requires state { length state.old ≡ 2 * length members.now }
    requires fit { WordsFit net.now.net words.now }
    ensures { state.new ≡ bytes_of (next_state net.now.net (words_in state.old) words.now) }
{
    for k in 0..members.len() {
        let v = members[k] as usize;
        put_word(state, 2 * k, next_word(net, v, words));
    }
}

// A run over an opened file: 15, then 16, and only then a write.
fn run_opened(
    net: &Netlist,
    state: &mut [u8],
    inputs: &[u8],
    outputs: &mut [u8],
) -> Result<usize, Refusal>
    requires formed { WellFormed net.now.net }
    requires inside { Inside net.now.net }
    requires complete { Complete in_clock net.now.net net.now.order }
    ensures answer { answered result ≡ (run_net net.now.net state.old inputs.now outputs.old).answer }
    ensures state { state.new ≡ (run_net net.now.net state.old inputs.now outputs.old).state }
    ensures outputs { outputs.new ≡ (run_net net.now.net state.old inputs.now outputs.old).outputs }
{
    net.bounds();
    let mut words = [0u16; 1024];
    let mut ports = [0u16; 1024];
    let mut holders = [0u16; 1024];
    let n = row_members(net, Row::Inputs, &mut ports);
    if !load_row(net, Row::Inputs, inputs, &ports[..n], &mut words) {
        return Err(Refusal::Words);
    }
    let m = row_members(net, Row::Outputs, &mut ports);
    if outputs.len() != 2 * m {
        return Err(Refusal::Words);
    }
    let k = row_members(net, Row::State, &mut holders);
    if !load_row(net, Row::State, state, &holders[..k], &mut words) {
        return Err(Refusal::State);
    }
    evaluate(net, &mut words);
    store_words(&ports[..m], &words, outputs);
    store_state(net, &holders[..k], &words, state);
    Ok(outputs.len())
}

// ---- the services

// Opens a file, and fills a lent state with the reset words.
fn open_and_reset(file: &[u8], state: &mut [u8]) -> Result<usize, Refusal>
    ensures answer { answered result ≡ (reset_file file.now state.old).answer }
    ensures state { state.new ≡ (reset_file file.now state.old).state }
{
    let mut words = [0u16; WORDS];
    open_file(file, &mut words)?;
    let net = Netlist::of(file, &words);
    reset_opened(&net, state)
}

// Fills a lent state with the reset words.
pub fn reset_state(file: &[u8], state: &mut [u8]) -> Answer
    ensures answer { result ≡ (reset_file file.now state.old).answer }
    ensures state { state.new ≡ (reset_file file.now state.old).state }
{
    Answer::from(open_and_reset(file, state))
}

// Opens a file, and runs one clock.
fn open_and_run(
    file: &[u8],
    state: &mut [u8],
    inputs: &[u8],
    outputs: &mut [u8],
) -> Result<usize, Refusal>
    ensures answer { answered result ≡ (run_file file.now state.old inputs.now outputs.old).answer }
    ensures state { state.new ≡ (run_file file.now state.old inputs.now outputs.old).state }
    ensures outputs { outputs.new ≡ (run_file file.now state.old inputs.now outputs.old).outputs }
{
    let mut words = [0u16; WORDS];
    open_file(file, &mut words)?;
    let net = Netlist::of(file, &words);
    run_opened(&net, state, inputs, outputs)
}

// One clock: from a state and a word for each input port, a word for each output port, and the next state in the state's place.
pub fn run_clock(file: &[u8], state: &mut [u8], inputs: &[u8], outputs: &mut [u8]) -> Answer
    ensures answer { result ≡ (run_file file.now state.old inputs.now outputs.old).answer }
    ensures state { state.new ≡ (run_file file.now state.old inputs.now outputs.old).state }
    ensures outputs { outputs.new ≡ (run_file file.now state.old inputs.now outputs.old).outputs }
{
    Answer::from(open_and_run(file, state, inputs, outputs))
}
