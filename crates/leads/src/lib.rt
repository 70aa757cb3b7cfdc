// The leads of an opened netlist, and with them the checks 11 and 12, in either mode. Numbers, counted from an origin, are raised until no reader asks more of what it
// reads. 0 says that no walk counts.
#![tactic(auto)]

pub mod largest;
mod modes;
mod worklist;

ghost use Rattle.std.specs.Prelude.{◌≡◌, Bool, [], ◌∷◌, ℕ, ◌+◌, ◌<◌, ◌≤◌, length, get_or, ltb, is_ok, OnOk, IfErr};
ghost use Rattle.lists.specs.Lists.{any_below};
ghost use Rattle.netlist.specs.Net.{size, Sourced};
ghost use Rattle.netlist.specs.Refusal.{said};
ghost use Rattle.netlist.specs.Verdict.{at_lowest, verdict};
ghost use Rattle.retiming.specs.AtMostRoms.{rom_count};
ghost use Rattle.retiming.specs.LateLeads.{origin};
ghost use Rattle.retiming.specs.Modes.{mode_ends, mode_timing};
ghost use Rattle.leads.specs.Debts.{owing_by, debts_verdict};
ghost use Rattle.leads.specs.Progress.{Walked, Content, Quiet, Raise, Progress};
ghost use Rattle.leads.specs.Settled.{LeadsIn, Outcome};

use circuit::Netlist;
use circuit::codes::ASYNC_ROM;
use modes::{begin, finish, origin};
use netlist::Refusal;
use retiming::Mode;
use worklist::spread;

// The numbers stand first in the caller's area, one for each node that there may be.
const NODES: usize = 1024;

// No number is higher where there is no closed debt.
fn highest(net: &Netlist) -> usize
    ensures bound { result ≡ origin net.now.net + rom_count net.now.net }
    ensures few { result < 65535 }
{
    net.bounds();
    origin(net) as usize + net.count_code(ASYNC_ROM)
}

// Raises the number of u to due - taken where it is lower; gives how many numbers it raised, 1 or 0, which its caller adds up.
fn raise(leads: &mut [u16; NODES], u: usize, due: usize, taken: usize) -> usize
    requires inside { u < 1024 }
    requires due { due ≤ 65535 }
    requires taken { taken ≤ 1 }
    ensures { Raise leads.old u due taken leads.new result }
{
    if leads[u] as usize + taken < due {
        leads[u] = (due - taken) as u16;
        return 1;
    }
    0
}

// Raises the numbers of what x reads as far as x asks, and gives how many it raised. Where no walk counts nothing is asked, and a number over the bound shows a closed
// debt, and asks for no more.
fn relax(net: &Netlist, bound: usize, x: usize, leads: &mut [u16; NODES]) -> usize
    requires sourced { Sourced net.now.net }
    requires bound { bound < 65535 }
    requires node { x < size net.now.net }
    ensures few { result ≤ 3 }
    ensures progress { let N = net.now.net in Progress N bound leads.old leads.new result (Content N bound x) }
{
    net.bounds();
    let own = leads[x] as usize;
    if own == 0 {
        return 0;
    }
    if bound < own {
        return 0;
    }
    // A register takes one off what is asked, and an asynchronous ROM asks one more.
    let taken = net.is_register(x) as usize;
    let mut raised = 0;
    for p in 0..net.source_count(x) {
        let u = net.source(x, p);
        raised += raise(leads, u, net.is_async_rom(u) as usize + own, taken);
    }
    raised
}

// ---- passes until no reader asks more

// One pass over all readers; gives how many numbers it raised.
fn pass(net: &Netlist, bound: usize, leads: &mut [u16; NODES]) -> usize
    requires sourced { Sourced net.now.net }
    requires bound { bound < 65535 }
    ensures { let N = net.now.net in Progress N bound leads.old leads.new result (Quiet N bound (size N)) }
{
    let mut raised = 0;
    for x in 0..net.node_count() {
        raised += relax(net, bound, x, leads);
    }
    raised
}

// Whether one of the first n numbers is over the bound.
fn over_bound(leads: &[u16; NODES], n: usize, bound: usize) -> bool
    requires { n ≤ 1024 }
    ensures { result ≡ any_below n (λ v. ltb bound (get_or leads.now v 0)) }
{
    for v in 0..n {
        if bound < leads[v] as usize {
            return true;
        }
    }
    false
}

// The numbers settle, or there is a closed debt.
fn settle(net: &Netlist, bound: usize, leads: &mut [u16; NODES]) -> Result<(), Refusal>
    requires sourced { Sourced net.now.net }
    requires bound { bound ≡ origin net.now.net + rom_count net.now.net }
    ensures outcome { (ends : ℕ → Bool) → Walked net.now.net ends leads.old → Outcome net.now.net ends leads.new (is_ok result) }
    ensures debt { IfErr result (λ r. r ≡ Refusal.ClosedDebt) }
{
    let n = net.node_count();
    // Passes go on until one raises nothing: no range counts them.
    loop {
        if over_bound(leads, n, bound) {
            return Err(Refusal::ClosedDebt);
        }
        if pass(net, bound, leads) == 0 {
            return Ok(());
        }
    }
}

// Check 11: finds the leads, counted from the origin, where there is no closed debt.
fn search_leads(net: &Netlist, mode: Mode, leads: &mut [u16; NODES]) -> Result<(), Refusal>
    requires sourced { Sourced net.now.net }
    ensures outcome { Outcome net.now.net (mode_ends mode net.now.net) leads.new (is_ok result) }
    ensures debt { IfErr result (λ r. r ≡ Refusal.ClosedDebt) }
{
    let bound = highest(net);
    begin(net, mode, leads);
    spread(net, bound, leads);
    settle(net, bound, leads)
}

// ---- check 12

// Whether v is an input port with a positive lead: its number is above the origin.
fn owes(net: &Netlist, base: u16, leads: &[u16; NODES], v: usize) -> bool
    requires node { v < size net.now.net }
    ensures { result ≡ owing_by net.now.net base leads.now v }
{
    net.bounds();
    net.is_input(v) && base < leads[v]
}

// Check 12, by numbers that are counted from the origin.
fn check_ports(net: &Netlist, leads: &[u16; NODES]) -> Result<(), Refusal>
    ensures { let N = net.now.net in said result ≡ verdict (at_lowest 12 (size N) (owing_by N (origin N) leads.now) ∷ []) }
{
    let base = origin(net);
    for v in 0..net.node_count() {
        if owes(net, base, leads, v) {
            return Err(Refusal::PortDebt(v as u16));
        }
    }
    Ok(())
}

// Finds the leads of a netlist, or says 11 or 12; nothing is then said of the numbers left in the work area.
// The circuit's order is a hint, best an evaluation order of the nodes: it saves time, and any numbers will do.
// (A slice: it may be longer, where an array would ask for just so many words.)
pub fn find_leads(net: &Netlist, mode: Mode, leads: &mut [u16]) -> Result<(), Refusal>
    requires sourced { Sourced net.now.net }
    requires room { 1024 ≤ length leads.old }
    ensures verdict { said result ≡ debts_verdict mode net.now.net }
    ensures leads { OnOk result (LeadsIn net.now.net (mode_timing mode net.now.net) leads.new) }
{
    net.bounds();
    let numbers = leads.first_chunk_mut::<NODES>().unwrap();
    search_leads(net, mode, numbers)?;
    check_ports(net, numbers)?;
    finish(net, mode, numbers);
    Ok(())
}
