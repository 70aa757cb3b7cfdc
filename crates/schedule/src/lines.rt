// The lines, each with all that its operation asks for, and where the output ports read.
ghost use Rattle.std.specs.Prelude.{◌≡◌, ℕ, ◌+◌, ◌<◌, ◌≤◌, length, get_or};
ghost use Rattle.netlist.specs.Net.{size, element_at, width_at, source};
ghost use Rattle.circuit.specs.Code.{code_of};
ghost use Rattle.evaluate.specs.Clock.{Inside};
ghost use Rattle.schedule.specs.Lines.{schedule_words, asked_by, Holds};
ghost use Rattle.schedule.specs.Laid.{Laid, RunsOn, LinePut, LaidFrom};
ghost use Rattle.schedule.specs.Ports.{PortsPut};

use super::{CODE, LISTED, OUTPUTS, RUN_END, Sizes, part_of};
use circuit::Netlist;
use circuit::codes::JOIN;

// The place of source p of node v.
fn source_place(net: &Netlist, places: &[u16; 1024], v: usize, p: usize) -> u16
    requires inside { Inside net.now.net }
    requires node { v < size net.now.net }
    requires source { p < 3 }
    ensures { result ≡ get_or places.now (source net.now.net v p) 0 }
{
    net.bounds();
    places[net.source(v, p)]
}

// The width that node v asks for: a join's is that of its low part. Asked of the code: by the element, and with the copy below, a list of one
// clock took 5.8 % longer than before, past the bar of 3 %.
fn asked_width(net: &Netlist, v: usize, code: usize) -> usize
    requires inside { Inside net.now.net }
    requires node { v < size net.now.net }
    requires code { code ≡ code_of (element_at net.now.net v) }
    ensures width { let N = net.now.net in result ≡ asked_by (element_at N v) (width_at N v) (width_at N (source N v 1)) }
    ensures byte { result < 256 }
{
    if code == JOIN {
        net.width(net.source(v, 1))
    } else {
        net.width(v)
    }
}

// The table of node v where it is a memory, else the number that it holds.
fn held_number(net: &Netlist, v: usize) -> usize
    requires { v < size net.now.net }
    ensures held { Holds (element_at net.now.net v) result }
    ensures word { result ≤ 65535 }
{
    if net.is_memory(v) {
        net.table(v)
    } else {
        net.number(v)
    }
}

// Where a run of a code ends that has come up to line i.
fn run_end(schedule: &[u16], lines: usize, i: usize, code: usize) -> usize
    requires few { lines ≤ 2048 }
    requires line { i ≤ lines }
    requires schedule { schedule_words ≤ length schedule.now }
    ensures run { RunsOn schedule.now lines i code result }
    ensures word { result ≤ 65535 }
{
    if i < lines {
        if part_of(schedule, i, CODE) == code {
            part_of(schedule, i, RUN_END)
        } else {
            i
        }
    } else {
        i
    }
}

// The words of line i, which is node v's. The lines behind it are there, and tell where its run ends.
fn line_of(
    net: &Netlist,
    places: &[u16; 1024],
    schedule: &[u16],
    lines: usize,
    i: usize,
    v: usize,
) -> [u16; 8]
    requires inside { Inside net.now.net }
    requires node { v < size net.now.net }
    requires few { lines ≤ 2048 }
    requires line { i < lines }
    requires schedule { schedule_words ≤ length schedule.now }
    ensures laid { Laid net.now.net places.now (λ k. get_or result k 0) v }
    ensures run { RunsOn schedule.now lines (i + 1) (get_or result 0 0) (get_or result 1 0) }
{
    net.bounds();
    let code = net.code(v);
    [
        code as u16,
        run_end(schedule, lines, i + 1, code) as u16,
        asked_width(net, v, code) as u16,
        source_place(net, places, v, 0),
        source_place(net, places, v, 1),
        source_place(net, places, v, 2),
        held_number(net, v) as u16,
        v as u16,
    ]
}

// Puts line i, over no word of the lines behind it.
fn put_line(
    net: &Netlist,
    places: &[u16; 1024],
    schedule: &mut [u16],
    lines: usize,
    i: usize,
    v: usize,
)
    requires inside { Inside net.now.net }
    requires node { v < size net.now.net }
    requires few { lines ≤ 2048 }
    requires line { i < lines }
    requires schedule { schedule_words ≤ length schedule.old }
    ensures { LinePut net.now.net places.now schedule.old schedule.new lines i v }
{
    let line = line_of(net, places, schedule, lines, i, v);
    // Word by word: by `copy_from_slice` the line is laid down twice, and past the bar of speed (see above).
    for k in 0..8usize {
        schedule[8 * i + k] = line[k];
    }
}

// The lines of all nodes, from the last one down: where a run ends is known from the line behind.
pub fn put_lines(
    net: &Netlist,
    nodes: &[u16; LISTED],
    lines: usize,
    places: &[u16; 1024],
    schedule: &mut [u16],
)
    requires inside { Inside net.now.net }
    requires few { lines ≤ 2048 }
    requires known { (i : ℕ) → i < lines → get_or nodes.now i 0 < size net.now.net }
    requires schedule { schedule_words ≤ length schedule.old }
    ensures { LaidFrom net.now.net nodes.now places.now schedule.new lines 0 }
{
    for i in (0..lines).rev() {
        put_line(net, places, schedule, lines, i, nodes[i] as usize);
    }
}

// Where the output ports read: they stand behind the lines in the list of nodes.
pub fn put_ports(
    net: &Netlist,
    nodes: &[u16; LISTED],
    sizes: Sizes,
    places: &[u16; 1024],
    schedule: &mut [u16],
)
    requires inside { Inside net.now.net }
    requires few { sizes.outputs ≤ 1024 }
    requires nodes { sizes.lines + sizes.outputs ≤ 3072 }
    requires known { (j : ℕ) → j < sizes.outputs → get_or nodes.now (sizes.lines + j) 0 < size net.now.net }
    requires schedule { schedule_words ≤ length schedule.old }
    ensures { PortsPut net.now.net nodes.now places.now schedule.old schedule.new sizes.lines sizes.outputs }
{
    let from = sizes.lines;
    for j in 0..sizes.outputs {
        let v = nodes[from + j] as usize;
        schedule[OUTPUTS + j] = source_place(net, places, v, 0);
    }
}
