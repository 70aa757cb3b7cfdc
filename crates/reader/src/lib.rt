// Reads the fields of a file one by one, in their order: the head, tables, nodes, the end. Checks 2 to 5.
#![tactic(auto)]

pub mod parts;
mod tables;

ghost use Rattle.std.specs.Prelude.{◌≡◌, ◌+◌, ◌≤◌, length, drop, true, IfOk, IfErr};
ghost use Rattle.netlist.specs.Field.{tag_at, field_end, content};
ghost use Rattle.netlist.specs.TableField.{stored_from};
ghost use Rattle.netlist.specs.Refusal.{number_of, place_of};
ghost use Rattle.netlist.specs.Scan.{TableField, NodeField, EndField, refused, after_head, table_step, node_step};
ghost use Rattle.netlist.specs.ScanLaws.{TableAt, NodeAt};
ghost use Rattle.netlist.specs.File.{node_in};
ghost use Rattle.reader.specs.Head.{Headed};
ghost use Rattle.reader.specs.Fields.{whole, table_stands, node_stands, stepped, last_step};

use netlist::Refusal;
use nodes::good::content_good;
use tables::table_good;
use words::word_at;

// The tags of the fields; a table with a fill word has its own.
const HEAD: u8 = 1;

const TABLE: u8 = 2;

const NODE: u8 = 3;

const END: u8 = 4;

const FILLED: u8 = 5;

// The head: what does not begin with one is refused at 0.
#[tactic(auto, using(std::proofs::lemmas::Bool::Decides::nat_tests), unfolding(netlist::specs::Scan::after_head, lists::specs::Paths::pick))]
pub fn check_head(file: &[u8]) -> Result<(), Refusal>
    ensures ok { IfOk result (λ _. Headed file.now) }
    ensures err { IfErr result (λ r. after_head file.now ≡ refused (number_of r) (place_of r)) }
{
    if file.len() < 3 {
        return Err(Refusal::Short(0));
    }
    let len = word_at(file, 1) as usize;
    if file.len() < 3 + len {
        return Err(Refusal::Short(0));
    }
    if file[0] != HEAD || len != 1 || file[3] != 1 {
        return Err(Refusal::Tag(0));
    }
    Ok(())
}

// Whether the field at an offset is not cut off.
#[tactic(auto, using(std::proofs::lemmas::Bool::Decides::nat_tests), unfolding(crate::specs::Fields::whole, lists::specs::Paths::pick))]
fn is_whole(file: &[u8], at: usize) -> bool
    requires small { length file.now ≤ 46000 }
    requires inside { at ≤ length file.now }
    ensures whole { result ≡ whole file.now at }
    ensures head { result ≡ true → at + 3 ≤ length file.now }
{
    at + 3 <= file.len() && at + 3 + word_at(file, at + 1) as usize <= file.len()
}

// Whether a whole table field stands at an offset, of either tag.
#[tactic(auto, using(std::proofs::lemmas::Bool::Decides::nat_tests), unfolding(crate::specs::Fields::table_stands, lists::specs::Paths::pick))]
pub fn table_stands(file: &[u8], at: usize) -> bool
    requires small { length file.now ≤ 46000 }
    requires inside { at ≤ length file.now }
    ensures { result ≡ table_stands file.now at }
{
    is_whole(file, at) && (file[at] == TABLE || file[at] == FILLED)
}

// The offset behind a whole table field, after t tables, where no node has come yet.
#[tactic(auto, using(std::proofs::lemmas::Bool::Decides::nat_tests), unfolding(netlist::specs::Scan::table_step, lists::specs::Paths::pick))]
pub fn table_end(file: &[u8], at: usize, t: usize) -> Result<usize, Refusal>
    requires small { length file.now ≤ 46000 }
    requires inside { field_end file.now at ≤ length file.now }
    ensures { table_step file.now at t 0 ≡ stepped TableField result }
{
    if t < 16 {
        let from = at + 3;
        let to = from + word_at(file, at + 1) as usize;
        if table_good(file[at], &file[from..to]) {
            return Ok(to);
        }
    }
    Err(Refusal::Table(at as u16))
}

// Whether a whole node field stands at an offset.
#[tactic(auto, using(std::proofs::lemmas::Bool::Decides::nat_tests), unfolding(crate::specs::Fields::node_stands, lists::specs::Paths::pick))]
pub fn node_stands(file: &[u8], at: usize) -> bool
    requires small { length file.now ≤ 46000 }
    requires inside { at ≤ length file.now }
    ensures { result ≡ node_stands file.now at }
{
    is_whole(file, at) && file[at] == NODE
}

// The offset behind a whole node field, after n nodes.
#[tactic(auto, using(std::proofs::lemmas::Bool::Decides::nat_tests), unfolding(netlist::specs::Scan::node_step, lists::specs::Paths::pick))]
pub fn node_end(file: &[u8], at: usize, n: usize) -> Result<usize, Refusal>
    requires small { length file.now ≤ 46000 }
    requires inside { field_end file.now at ≤ length file.now }
    ensures { node_step file.now at n ≡ stepped NodeField result }
{
    if n < 1024 {
        let from = at + 3;
        let to = from + word_at(file, at + 1) as usize;
        if content_good(&file[from..to]) {
            return Ok(to);
        }
    }
    Err(Refusal::Node(at as u16))
}

// What stands behind tables and nodes is the end, and nothing after it.
#[tactic(auto, using(std::proofs::lemmas::Bool::Decides::nat_tests), unfolding(crate::specs::Fields::last_step, netlist::specs::Scan::end_step, lists::specs::Paths::pick))]
pub fn check_end(file: &[u8], at: usize) -> Result<(), Refusal>
    requires small { length file.now ≤ 46000 }
    requires inside { at ≤ length file.now }
    ensures { last_step file.now at ≡ stepped (λ _. EndField) result }
{
    if !is_whole(file, at) {
        return Err(Refusal::Short(at as u16));
    }
    if file[at] != END || word_at(file, at + 1) != 0 {
        return Err(Refusal::Tag(at as u16));
    }
    if at + 3 != file.len() {
        return Err(Refusal::Tag((at + 3) as u16));
    }
    Ok(())
}

// The width of the node whose field stands at an offset. The field passed check 5, so its bytes are read without tests.
pub fn width_at(file: &[u8], at: usize) -> u8
    requires { NodeAt file.now at }
    ensures { result ≡ (node_in file.now at).width }
{
    let after_kind = at + 4;
    file[after_kind]
}

// Where the stored words begin in a table's content: behind address bits and width, of tag 5 behind the fill word.
#[tactic(auto, unfolding(lists::specs::Paths::pick))]
fn stored_from(tag: u8) -> usize
    ensures from { result ≡ stored_from tag }
    ensures few { result ≤ 4 }
{
    if tag == TABLE { 2 } else { 4 }
}

// The stored words of the table whose field stands at an offset, as a part of the file.
pub fn table_part(file: &[u8], at: usize) -> &[u8]
    requires { TableAt file.now at }
    ensures { result.now ≡ drop (stored_from (tag_at file.now at)) (content file.now at) }
{
    let from = at + 3 + stored_from(file[at]);
    let to = at + 3 + word_at(file, at + 1) as usize;
    &file[from..to]
}
