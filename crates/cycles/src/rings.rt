// Check 10 by ranks: where a rank falls along each step into a register there is no ring. The ranks are proposed, not trusted: they are looked over once.
ghost use Rattle.std.specs.Prelude.{◌≡◌, true, ◌≤◌, ◌<◌, length, get_or};
ghost use Rattle.lists.specs.Lists.{lowest};
ghost use Rattle.netlist.specs.Net.{Net, size, in_registers, Sourced, RankedIn};
ghost use Rattle.netlist.specs.Reach.{reaches_itself};
ghost use Rattle.cycles.specs.Falls.{Falls};

use super::lowest_on_cycle;
use areas::{at_or, put, read_at, write_at};
use circuit::Netlist;
use order::Steps;
use proposal::{AREA, propose};

// A rank for each node that a netlist can have.
const RANKS: usize = 1024;

// Whether v is a register.
fn register_at(net: &Netlist, v: usize) -> bool {
    v < net.node_count() && net.is_register(v)
}

// What v reads first, 0 where it is no node.
fn source_at(net: &Netlist, v: usize) -> usize
    ensures { result ≤ 65535 }
{
    if v < net.node_count() {
        net.source(v, 0)
    } else {
        0
    }
}

// Registers of which each reads the next: how many, and the rank of what the last one reads.
#[derive(Clone, Copy)]
pub struct Chain {
    pub length: usize,
    pub base: usize,
}

// The registers back from a start up to one that has a rank; each is marked with the highest rank, so that a ring ends too.
fn mark_chain(net: &Netlist, start: usize, ranks: &mut [u16; RANKS]) -> Chain
    ensures { result.length ≤ 1024 }
{
    let mut v = start;
    for length in 0..RANKS {
        if !register_at(net, v) {
            return Chain { length, base: 0 };
        }
        let rank = at_or(ranks, v, 0) as usize;
        if 0 < rank {
            return Chain { length, base: rank };
        }
        put(ranks, v, 65535);
        v = source_at(net, v);
    }
    Chain {
        length: RANKS,
        base: 0,
    }
}

// Gives the registers of a chain their ranks, from the start down; those that lead to a ring keep the mark.
fn rank_chain(net: &Netlist, start: usize, chain: Chain, ranks: &mut [u16; RANKS])
    requires { chain.length ≤ 1024 }
{
    if 64511 < chain.base {
        return;
    }
    let mut v = start;
    for left in (0..chain.length).rev() {
        put(ranks, v, (chain.base + left + 1) as u16);
        v = source_at(net, v);
    }
}

// Ranks register v, where it has no rank from a chain before, and the registers back from it.
fn rank_register(net: &Netlist, v: usize, ranks: &mut [u16; RANKS])
    requires { v < 1024 }
{
    if !register_at(net, source_at(net, v)) {
        write_at(ranks, v, 1);
        return;
    }
    if read_at(ranks, v) == 0 {
        let chain = mark_chain(net, v, ranks);
        rank_chain(net, v, chain, ranks);
    }
}

// Ranks all registers.
fn rank_registers(net: &Netlist, ranks: &mut [u16; RANKS]) {
    let n = net.node_count();
    for v in 0..n {
        if net.is_register(v) {
            rank_register(net, v, ranks);
        }
    }
}

// Whether v is no register, or has a higher rank than what it reads.
fn falls(net: &Netlist, v: usize, ranks: &[u16; RANKS]) -> bool
    requires sourced { Sourced net.now.net }
    requires node { v < size net.now.net }
    ensures { result ≡ true → Falls net.now.net (λ u. get_or ranks.now u 0) v }
{
    net.bounds();
    if net.is_register(v) {
        read_at(ranks, net.source(v, 0)) < read_at(ranks, v)
    } else {
        true
    }
}

// Whether each register has a higher rank than what it reads.
fn ranked(net: &Netlist, ranks: &[u16; RANKS]) -> bool
    requires sourced { Sourced net.now.net }
    ensures { result ≡ true → RankedIn in_registers net.now.net (λ v. get_or ranks.now v 0) }
{
    let n = net.node_count();
    for v in 0..n {
        if !falls(net, v, ranks) {
            return false;
        }
    }
    true
}

// The lowest register on a ring, or the number of nodes.
pub fn lowest_ring(net: &Netlist) -> usize
    requires { Sourced net.now.net }
    ensures { let N = net.now.net in result ≡ lowest (size N) (reaches_itself in_registers N) }
{
    let mut ranks = [0u16; RANKS];
    rank_registers(net, &mut ranks);
    if ranked(net, &ranks) {
        return net.node_count();
    }
    let mut area = [0u16; AREA];
    propose(net, Steps::InRegisters, &mut area);
    lowest_on_cycle(net, Steps::InRegisters, &area)
}
