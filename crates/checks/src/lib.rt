// The reader's layer as run and rewriter see it: checks 1 to 10 and 17, a node by its number, a table's stored words.
#![tactic(auto)]

ghost use Rattle.std.specs.Prelude.{◌≡◌, ◌≤◌, length, IfOk, IfErr};
ghost use Rattle.netlist.specs.Net.{in_clock, Sourced};
ghost use Rattle.netlist.specs.NodeField.{no_node};
ghost use Rattle.netlist.specs.Verdict.{verdict, reader_verdict, Refuses};
ghost use Rattle.netlist.specs.Refusal.{number_of, place_of, said, refused};
ghost use Rattle.netlist.specs.File.{check_answer, file_verdict};
ghost use Rattle.circuit.specs.Circuit.{circuit_words, order_of, net_of, Circuit};
ghost use Rattle.circuit.specs.Order.{Complete};
ghost use Rattle.checks.specs.Open.{from_nine, Open};
ghost use Rattle.checks.specs.Services.{node_of_file, words_of_file};
ghost use Rattle.checks.specs.TablePlaces.{Placed};

use circuit::{Netlist, WORDS};
use cycles::lowest_cycle;
use cycles::rings::lowest_ring;
use netlist::{Answer, Element, Node, Refusal};
use opening::fill_circuit;
use reader::table_part;
use rules::readers::lowest_unread;
use rules::sources::lowest_bad_source;
use rules::tables::lowest_unread_table;
use rules::widths::lowest_bad_width;

// A node, or why there is none: the answer stands beside the node.
#[derive(Clone, Copy)]
pub struct NodeAnswer {
    pub answer: Answer,
    pub node: Node,
}

// The stored words of a table, as the part of the caller's file that holds them, or why there are none: then the part is empty.
#[derive(Clone, Copy)]
pub struct TableAnswer<'a> {
    pub answer: Answer,
    pub words: &'a [u8],
}

// Checks 9 and 10; where neither refuses, the words have an order.
fn check_cycles(file: &[u8], net: &mut [u16]) -> Result<(), Refusal>
    requires circuit { Circuit file.now net.old }
    requires sourced { Sourced (net_of file.now net.old) }
    ensures net { net_of file.now net.new ≡ net_of file.now net.old }
    ensures circuit { Circuit file.now net.new }
    ensures verdict { said result ≡ verdict (from_nine (net_of file.now net.old)) }
    ensures complete { IfOk result (λ _. Complete in_clock (net_of file.now net.old) (order_of net.new)) }
{
    let loop_node = lowest_cycle(file, net);
    let shown = Netlist::of(file, net);
    let n = shown.node_count();
    if loop_node < n {
        return Err(Refusal::Loop(loop_node as u16));
    }
    let ring_node = lowest_ring(&shown);
    if ring_node < n {
        return Err(Refusal::Ring(ring_node as u16));
    }
    Ok(())
}

// Checks 6 to 10, and 17 among them.
fn check_net(file: &[u8], net: &mut [u16]) -> Result<(), Refusal>
    requires { Circuit file.now net.old }
    ensures net { net_of file.now net.new ≡ net_of file.now net.old }
    ensures circuit { Circuit file.now net.new }
    ensures verdict { said result ≡ reader_verdict (net_of file.now net.old) }
    ensures complete { IfOk result (λ _. Complete in_clock (net_of file.now net.old) (order_of net.new)) }
{
    let shown = Netlist::of(file, net);
    let n = shown.node_count();
    let mut marks = [0u8; 1024];
    let source = lowest_bad_source(&shown, &mut marks);
    if source < n {
        return Err(Refusal::Source(source as u16));
    }
    let width = lowest_bad_width(&shown);
    if width < n {
        return Err(Refusal::Width(width as u16));
    }
    let unread = lowest_unread(&shown, &marks);
    if unread < n {
        return Err(Refusal::Unread(unread as u16));
    }
    let table = lowest_unread_table(&shown);
    if table < shown.table_count() {
        return Err(Refusal::UnreadTable(table as u16));
    }
    check_cycles(file, net)
}

// Checks 1 to 10, and 17 among them: the circuit of the file's netlist is left in the words lent, for whoever goes on.
pub fn open_file(file: &[u8], net: &mut [u16]) -> Result<(), Refusal>
    requires { circuit_words ≤ length net.old }
    ensures ok { IfOk result (λ _. Open file.now net.new) }
    ensures err { IfErr result (λ r. file_verdict file.now ≡ Refuses (number_of r) (place_of r)) }
{
    fill_circuit(file, net)?;
    check_net(file, net)
}

// Checks a file: accepted with its length, or the refusal.
pub fn check_file(file: &[u8]) -> Answer
    ensures { result ≡ check_answer file.now }
{
    let mut words = [0u16; WORDS];
    match open_file(file, &mut words) {
        Ok(()) => Answer::Accepted(file.len()),
        Err(r) => Answer::from(r),
    }
}

// Node v of a file, with the number of its nodes: 6 where there is none.
fn find_node(file: &[u8], v: usize) -> Result<NodeAnswer, Refusal>
    ensures ok { IfOk result (λ found. found ≡ node_of_file file.now v) }
    ensures err { IfErr result (λ r. record { answer = refused r; node = no_node } ≡ node_of_file file.now v) }
{
    let mut words = [0u16; WORDS];
    open_file(file, &mut words)?;
    let net = Netlist::of(file, &words);
    let n = net.node_count();
    if v < n {
        Ok(NodeAnswer {
            answer: Answer::Accepted(n),
            node: net.node(v),
        })
    } else {
        Err(Refusal::Source(65535))
    }
}

pub fn read_node(file: &[u8], v: usize) -> NodeAnswer
    ensures { result ≡ node_of_file file.now v }
{
    match find_node(file, v) {
        Ok(found) => found,
        Err(r) => NodeAnswer {
            answer: Answer::from(r),
            node: Node {
                element: Element::Input,
                width: 0,
                sources: [0, 0, 0],
            },
        },
    }
}

// Where table k of a file stands: 6 where there is none.
fn place_of(file: &[u8], k: usize) -> Result<usize, Refusal>
    ensures { Placed file.now k result }
{
    let mut words = [0u16; WORDS];
    open_file(file, &mut words)?;
    let net = Netlist::of(file, &words);
    if k < net.table_count() {
        Ok(net.table_place(k))
    } else {
        Err(Refusal::Source(65535))
    }
}

// The stored words of table k.
pub fn table_words<'a>(file: &'a [u8], k: usize) -> TableAnswer<'a>
    ensures answer { result.answer ≡ (words_of_file file.now k).answer }
    ensures words { result.words.now ≡ (words_of_file file.now k).words }
{
    match place_of(file, k) {
        Ok(at) => {
            let words = table_part(file, at);
            TableAnswer {
                answer: Answer::Accepted(words.len()),
                words,
            }
        }
        Err(refusal) => TableAnswer {
            answer: Answer::from(refusal),
            words: &file[..0],
        },
    }
}
