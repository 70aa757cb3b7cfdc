// The schedule of a circuit: the work of a clock laid out in lines, so that whoever steps it reads line by line.
#![tactic(auto)]

mod lines;
mod listing;

ghost use Rattle.std.specs.Prelude.{◌≡◌, ◌+◌, ◌*◌, ◌<◌, ◌≤◌, length};
ghost use Rattle.netlist.specs.Net.{in_clock};
ghost use Rattle.netlist.specs.Checks.{WellFormed};
ghost use Rattle.circuit.specs.Order.{Complete};
ghost use Rattle.evaluate.specs.Clock.{Inside};
ghost use Rattle.schedule.specs.Lines.{schedule_words, part, Scheduled};

use circuit::Netlist;
use lines::{put_lines, put_ports};
use listing::{first_places, list_nodes};

// The words of a schedule, and where its list of output ports begins.
pub const SCHEDULE: usize = 17408;

pub const OUTPUTS: usize = 16384;

// The words of a list of the lines' nodes and the output ports.
const LISTED: usize = 3072;

// The words of a line.
pub const CODE: usize = 0;

pub const RUN_END: usize = 1;

pub const WIDTH: usize = 2;

pub const PLACES: usize = 3;

pub const HELD: usize = 6;

pub const NODE: usize = 7;

// How many lines input ports have, what holds a word, and all together; and how many output ports there are, which have none.
#[derive(Clone, Copy)]
pub struct Sizes {
    pub inputs: usize,
    pub held: usize,
    pub lines: usize,
    pub outputs: usize,
}

// Word j of line i.
pub fn part_of(schedule: &[u16], i: usize, j: usize) -> usize
    requires { 8 * i + j < length schedule.now }
    ensures part { result ≡ part schedule.now i j }
    ensures word { result ≤ 65535 }
{
    schedule[8 * i + j] as usize
}

// Lays the work of a clock out: once for a netlist, however many clocks it is stepped. (A slice: it may be longer, where an array would ask for just so many words.)
pub fn lay_out(net: &Netlist, schedule: &mut [u16]) -> Sizes
    requires formed { WellFormed net.now.net }
    requires inside { Inside net.now.net }
    requires complete { Complete in_clock net.now.net net.now.order }
    requires schedule { schedule_words ≤ length schedule.old }
    ensures { Scheduled net.now.net schedule.new result }
{
    let mut nodes = [0u16; LISTED];
    let mut places = [0u16; 1024];
    let sizes = list_nodes(net, &mut nodes);
    first_places(&nodes, sizes.lines, &mut places);
    put_lines(net, &nodes, sizes.lines, &places, schedule);
    put_ports(net, &nodes, sizes, &places, schedule);
    sizes
}
