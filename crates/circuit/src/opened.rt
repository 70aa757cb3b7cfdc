// An opened netlist, for whoever reads it: contracts see what it shows.
ghost use Rattle.std.specs.Prelude.{◌≡◌, ◌^◌, ◌<◌, ◌≤◌, length, get_or, eqb};
ghost use Rattle.netlist.specs.Net.{no_table, spelled, size, node_at, element_at, width_at, source, operands, is_input, is_output, is_register, is_async, is_clocked, is_memory, count_of};
ghost use Rattle.netlist.specs.ScanLaws.{TableAt};
ghost use Rattle.netlist.specs.File.{table_in};
ghost use Rattle.circuit.specs.Code.{code_of, number_or, table_or};
ghost use Rattle.circuit.specs.Circuit.{Circuit};
ghost use Rattle.circuit.specs.Shown.{shown_by};

use super::codes::{ASYNC_ROM, CLOCKED_ROM, INPUT, OUTPUT, REGISTER};
use super::rows::{element_of, node_of};
use super::{
    address_bits, code_of, count_kind, node_count, number_of, order_of, source_count, source_of,
    table_count, table_of, table_place, table_word, width_of, word_width,
};
use netlist::{Element, Node};
use std::marker::Model;

#[derive(Drop)]
pub struct Netlist<'f, 'n> {
    file: &'f [u8],
    net: &'n [u16],
}

impl<'f, 'n> Model for Netlist<'f, 'n> {
    ghost use Rattle.circuit.specs.Circuit.{Circuit};
    ghost use Rattle.circuit.specs.Shown.{Shown, shown_by};

    ghost Value = { Shown };

    ghost view = { λ o. shown_by o.file.now o.net.now };

    ghost invariant = { λ o. Circuit o.file.now o.net.now };
}

impl<'f, 'n> Netlist<'f, 'n> {
    // What the words of a circuit show.
    pub fn of(file: &'f [u8], net: &'n [u16]) -> Netlist<'f, 'n>
        requires { Circuit file.now net.now }
        ensures { result ≡ shown_by file.now net.now }
    {
        Netlist { file, net }
    }

    // The words again, for a function over slices.
    pub fn parts(&self) -> (&'f [u8], &'n [u16])
        ensures circuit { Circuit result.0.now result.1.now }
        ensures shown { shown_by result.0.now result.1.now ≡ self.now }
    {
        (self.file, self.net)
    }

    // What is true of every netlist that was opened, for proofs: it does nothing.
    pub fn bounds(&self)
        ensures nodes { size self.now.net ≤ 1024 }
        ensures tables { length self.now.net.tables ≤ 16 }
        ensures order { length self.now.order ≡ size self.now.net }
    {
        let _ = &self.net;
        let _nodes = self.node_count();
        let _tables = self.table_count();
    }

    // The number of nodes.
    pub fn node_count(&self) -> usize
        ensures count { result ≡ size self.now.net }
        ensures few { result ≤ 1024 }
    {
        node_count(self.file, self.net)
    }

    // The code of node v.
    pub fn code(&self, v: usize) -> usize
        requires { v < size self.now.net }
        ensures code { result ≡ code_of (element_at self.now.net v) }
        ensures few { result < 20 }
    {
        code_of(self.file, self.net, v)
    }

    // The width of node v.
    pub fn width(&self, v: usize) -> usize
        requires { v < size self.now.net }
        ensures width { result ≡ width_at self.now.net v }
        ensures byte { result < 256 }
    {
        width_of(self.file, self.net, v)
    }

    // What node v is, and its record.
    pub fn element(&self, v: usize) -> Element
        requires { v < size self.now.net }
        ensures { result ≡ element_at self.now.net v }
    {
        element_of(self.file, self.net, v)
    }

    pub fn node(&self, v: usize) -> Node
        requires { v < size self.now.net }
        ensures { result ≡ node_at self.now.net v }
    {
        node_of(self.file, self.net, v)
    }

    // How many sources node v has.
    pub fn source_count(&self, v: usize) -> usize
        requires { v < size self.now.net }
        ensures count { result ≡ operands (element_at self.now.net v) }
        ensures few { result ≤ 3 }
    {
        source_count(self.file, self.net, v)
    }

    // Source p of node v.
    pub fn source(&self, v: usize, p: usize) -> usize
        requires node { v < size self.now.net }
        requires place { p < 3 }
        ensures source { result ≡ source self.now.net v p }
        ensures word { result ≤ 65535 }
    {
        source_of(self.file, self.net, v, p)
    }

    // The number that node v holds: what it is where it has one.
    pub fn number(&self, v: usize) -> usize
        requires { v < size self.now.net }
        ensures number { result ≡ number_or result (element_at self.now.net v) }
        ensures word { result ≤ 65535 }
    {
        number_of(self.file, self.net, v)
    }

    // The table of node v: what it is where it has one.
    pub fn table(&self, v: usize) -> usize
        requires { v < size self.now.net }
        ensures table { result ≡ table_or result (element_at self.now.net v) }
        ensures byte { result < 256 }
    {
        table_of(self.file, self.net, v)
    }

    // The node whose turn comes at place i of the order.
    pub fn turn(&self, i: usize) -> usize
        requires { i < size self.now.net }
        ensures turn { result ≡ get_or self.now.order i 0 }
        ensures word { result ≤ 65535 }
    {
        order_of(self.file, self.net, i)
    }

    pub fn is_input(&self, v: usize) -> bool
        requires { v < size self.now.net }
        ensures { result ≡ is_input (element_at self.now.net v) }
    {
        self.code(v) == INPUT
    }

    pub fn is_output(&self, v: usize) -> bool
        requires { v < size self.now.net }
        ensures { result ≡ is_output (element_at self.now.net v) }
    {
        self.code(v) == OUTPUT
    }

    pub fn is_register(&self, v: usize) -> bool
        requires { v < size self.now.net }
        ensures { result ≡ is_register (element_at self.now.net v) }
    {
        self.code(v) == REGISTER
    }

    pub fn is_async_rom(&self, v: usize) -> bool
        requires { v < size self.now.net }
        ensures { result ≡ is_async (element_at self.now.net v) }
    {
        self.code(v) == ASYNC_ROM
    }

    pub fn is_clocked_rom(&self, v: usize) -> bool
        requires { v < size self.now.net }
        ensures { result ≡ is_clocked (element_at self.now.net v) }
    {
        self.code(v) == CLOCKED_ROM
    }

    // Whether node v is a ROM, which alone has a table.
    pub fn is_memory(&self, v: usize) -> bool
        requires { v < size self.now.net }
        ensures { result ≡ is_memory (element_at self.now.net v) }
    {
        self.is_async_rom(v) | self.is_clocked_rom(v)
    }

    // How many nodes have a code.
    pub fn count_code(&self, code: usize) -> usize
        ensures count { result ≡ count_of (λ e. eqb (code_of e) code) self.now.net }
        ensures few { result ≤ 1024 }
    {
        count_kind(self.file, self.net, code)
    }

    // The number of tables.
    pub fn table_count(&self) -> usize
        ensures count { result ≡ length self.now.net.tables }
        ensures few { result ≤ 16 }
    {
        table_count(self.file, self.net)
    }

    // The address bits of table k, and the width of its words; past the last 1, as the definitions say.
    pub fn address_bits(&self, k: usize) -> u8
        ensures { result ≡ (get_or self.now.net.tables k no_table).bits }
    {
        address_bits(self.file, self.net, k)
    }

    pub fn word_width(&self, k: usize) -> u8
        ensures { result ≡ (get_or self.now.net.tables k no_table).wide }
    {
        word_width(self.file, self.net, k)
    }

    // The file that holds the tables, and where the field of table k stands in it.
    pub fn file(&self) -> &'f [u8]
        ensures { result.now ≡ self.now.file }
    {
        self.file
    }

    pub fn table_place(&self, k: usize) -> usize
        requires { k < length self.now.net.tables }
        ensures stands { TableAt self.now.file result }
        ensures table { table_in self.now.file result ≡ get_or self.now.net.tables k no_table }
    {
        table_place(self.file, self.net, k)
    }

    // The word of table k at an address: there is one for every address.
    pub fn table_word(&self, k: usize, a: usize) -> u16
        requires table { k < length self.now.net.tables }
        requires address { a < 2 ^ (get_or self.now.net.tables k no_table).bits }
        ensures { result ≡ get_or (spelled (get_or self.now.net.tables k no_table)) a 0 }
    {
        table_word(self.file, self.net, k, a)
    }
}
