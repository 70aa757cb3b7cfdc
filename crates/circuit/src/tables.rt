// A table's word at an address, by the tag of its field.
ghost use Rattle.std.specs.Prelude.{◌≡◌, ◌+◌, ◌^◌, ◌<◌, ◌≤◌, length, get_or};
ghost use Rattle.words.specs.Words.{word};
ghost use Rattle.netlist.specs.Net.{spelled};
ghost use Rattle.netlist.specs.Field.{tag_at};
ghost use Rattle.netlist.specs.ScanLaws.{TableAt};
ghost use Rattle.netlist.specs.File.{table_in};

use words::word_at;

// Tag 5: a fill word, then the first words. Where the word of an address stands: past the last of them it is the fill word. Addresses follow no pattern, so a
// place is chosen and not a way to go.
fn filled_place(file: &[u8], at: usize, a: usize) -> usize
    requires short { length file.now ≤ 46000 }
    requires stands { TableAt file.now at }
    requires address { a < 2 ^ (table_in file.now at).bits }
    requires tag { tag_at file.now at ≡ 5 }
    ensures word { word file.now result ≡ get_or (spelled (table_in file.now at)) a 0 }
    ensures inside { result + 1 < length file.now }
{
    let stored = (word_at(file, at + 1) as usize - 4) / 2;
    if stored <= a { at + 5 } else { at + 7 + 2 * a }
}

// The word of the table whose field stands at an offset. Tag 2 has one for each address.
pub fn word_in(file: &[u8], at: usize, a: usize) -> u16
    requires short { length file.now ≤ 46000 }
    requires stands { TableAt file.now at }
    requires address { a < 2 ^ (table_in file.now at).bits }
    ensures { result ≡ get_or (spelled (table_in file.now at)) a 0 }
{
    if file[at] == 2 {
        word_at(file, at + 5 + 2 * a)
    } else {
        word_at(file, filled_place(file, at, a))
    }
}
