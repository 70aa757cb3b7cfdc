// The new netlist of a file as a circuit: checks 1 to 13, in either mode. The preview tells its size, and the rewriter writes it.
#![tactic(auto)]

ghost use Rattle.std.specs.Prelude.{◌≡◌, false, ◌≤◌, length, IfOk};
ghost use Rattle.netlist.specs.Net.{in_clock};
ghost use Rattle.netlist.specs.Checks.{HasTables, WellFormed};
ghost use Rattle.netlist.specs.File.{decode, decoded_net};
ghost use Rattle.netlist.specs.Refusal.{said};
ghost use Rattle.circuit.specs.Circuit.{circuit_words, net_of, Circuit};
ghost use Rattle.circuit.specs.Order.{Complete};
ghost use Rattle.evaluate.specs.Clock.{Inside};
ghost use Rattle.behaviour.specs.Run.{zero_word};
ghost use Rattle.retiming.specs.Gates.{gated_with};
ghost use Rattle.retiming.specs.Modes.{mode_closed, mode_timing, mode_trimmed, mode_net, mode_verdict, mode_file_verdict};
ghost use Rattle.wiring.specs.Wiring.{Timed};
ghost use Rattle.retime.specs.Laying.{grown_verdict, mode_lead, NewIs};

use checks::open_file;
use circuit::{Netlist, WORDS};
use first_clocks::{QUEUE, first_clock};
use layout::lay_circuit;
use layout::reset::reset_words;
use leads::find_leads;
use leads::largest::largest_lead;
use netlist::Refusal;
use plan::{PLAN, make_plan};
use retiming::Mode;
use steering::add_gates;
use trimming::trim_tables;
use wires::{TIMING, find_roots};
use wiring::WIRES;

// 13, of a netlist whose timing is known: the first clock, the plan, the gates, the reset words; then the circuit.
fn lay_timed(
    net: &Netlist,
    mode: Mode,
    timing: &[u16; TIMING],
    new: &mut [u16],
) -> Result<(), Refusal>
    requires timed { let N = net.now.net in Timed N (mode_timing mode N) timing.now }
    requires inside { Inside net.now.net }
    requires complete { Complete in_clock net.now.net net.now.order }
    requires new_is { NewIs mode net.now.net }
    requires room { circuit_words ≤ length new.old }
    ensures verdict { said result ≡ grown_verdict mode net.now.net }
    ensures net { let N = net.now.net in IfOk result (λ _. net_of net.now.file new.new ≡ gated_with N (mode_timing mode N) (zero_word N)) }
    ensures circuit { IfOk result (λ _. Circuit net.now.file new.new) }
{
    let mut start = [0u16; 1024];
    first_clock(net, &mut start);
    let mut plan = [0u16; PLAN];
    // Until the circuit is laid, its area is the wires', and then the queue's.
    let made = make_plan(net, mode, timing, &start, &mut new[..WIRES], &mut plan);
    let steered = add_gates(net, timing, made, &mut plan);
    let total = steered.total;
    let grown = 1024 < total;
    if grown {
        return Err(Refusal::Grown);
    }
    let mut words = [0u16; 1024];
    reset_words(
        net,
        timing,
        &start,
        &plan,
        steered,
        &mut new[..QUEUE],
        &mut words,
    );
    lay_circuit(net, steered, &plan, &words, new);
    Ok(())
}

// Leaves out the tables that no node of the new circuit reads. The plain mode has none such. (A `match` on the mode, here and below: a closure would be no plainer.)
fn leave_out_tables(file: &[u8], mode: Mode, new: &mut [u16])
    requires circuit { Circuit file.now new.old }
    requires tables { HasTables (net_of file.now new.old) }
    ensures net { net_of file.now new.new ≡ mode_trimmed mode (net_of file.now new.old) }
    ensures circuit { Circuit file.now new.new }
{
    match mode {
        Mode::Plain => {}
        Mode::Late => trim_tables(file, new),
    }
}

// What the preview tells of the leads: nobody asks for it in the late mode.
fn lead_told(net: &Netlist, mode: Mode, timing: &[u16; TIMING]) -> u16
    requires timed { let N = net.now.net in Timed N (mode_timing mode N) timing.now }
    requires no_debt { mode_closed mode net.now.net ≡ false }
    ensures { result ≡ mode_lead mode net.now.net }
{
    match mode {
        Mode::Plain => largest_lead(net, timing),
        Mode::Late => 0,
    }
}

// 13, then what the mode leaves out, and what is told of the leads.
fn retime_timed(
    net: &Netlist,
    mode: Mode,
    timing: &[u16; TIMING],
    new: &mut [u16],
) -> Result<u16, Refusal>
    requires timed { let N = net.now.net in Timed N (mode_timing mode N) timing.now }
    requires inside { Inside net.now.net }
    requires complete { Complete in_clock net.now.net net.now.order }
    requires new_is { NewIs mode net.now.net }
    requires no_debt { mode_closed mode net.now.net ≡ false }
    requires room { circuit_words ≤ length new.old }
    ensures verdict { said result ≡ grown_verdict mode net.now.net }
    ensures net { IfOk result (λ _. net_of net.now.file new.new ≡ mode_net mode net.now.net) }
    ensures circuit { IfOk result (λ _. Circuit net.now.file new.new) }
    ensures lead { IfOk result (λ lead. lead ≡ mode_lead mode net.now.net) }
{
    lay_timed(net, mode, timing, new)?;
    leave_out_tables(net.file(), mode, new);
    Ok(lead_told(net, mode, timing))
}

// 11 to 13, of a netlist that the reader takes: its leads, then its wires.
fn retime_opened(net: &Netlist, mode: Mode, new: &mut [u16]) -> Result<u16, Refusal>
    requires formed { WellFormed net.now.net }
    requires inside { Inside net.now.net }
    requires complete { Complete in_clock net.now.net net.now.order }
    requires room { circuit_words ≤ length new.old }
    ensures verdict { said result ≡ mode_verdict mode net.now.net }
    ensures net { IfOk result (λ _. net_of net.now.file new.new ≡ mode_net mode net.now.net) }
    ensures circuit { IfOk result (λ _. Circuit net.now.file new.new) }
    ensures lead { IfOk result (λ lead. lead ≡ mode_lead mode net.now.net) }
{
    let mut timing = [0u16; TIMING];
    find_leads(net, mode, &mut timing)?;
    find_roots(net, &mut timing);
    retime_timed(net, mode, &timing, new)
}

// Lays the new netlist of a file as a circuit, and answers the largest lead, which is of the plain mode; or says the refusal, 1 to 13, and nothing of the area.
pub fn retime_file(file: &[u8], mode: Mode, new: &mut [u16]) -> Result<u16, Refusal>
    requires { circuit_words ≤ length new.old }
    ensures verdict { said result ≡ mode_file_verdict mode file.now }
    ensures net { IfOk result (λ _. net_of file.now new.new ≡ mode_net mode (decoded_net (decode file.now))) }
    ensures circuit { IfOk result (λ _. Circuit file.now new.new) }
    ensures lead { IfOk result (λ lead. lead ≡ mode_lead mode (decoded_net (decode file.now))) }
{
    let mut words = [0u16; WORDS];
    open_file(file, &mut words)?;
    retime_opened(&Netlist::of(file, &words), mode, new)
}
