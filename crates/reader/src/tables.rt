// Whether a table's content is well made, by the tag of its field: check 4 but for the count of tables.
ghost use Rattle.std.specs.Prelude.{◌≡◌, ◌*◌, ◌/◌, ◌^◌, ◌≤◌, max, length};
ghost use Rattle.lists.specs.Lists.{largest, all_below};
ghost use Rattle.words.specs.Words.{fits, word};
ghost use Rattle.netlist.specs.TableField.{words_good, filled_good, body_good, table_good};
ghost use Rattle.reader.specs.Fields.{Sized};

use super::{FILLED, TABLE};
use words::{fits_width, word_at};

// The largest of a list of words. One test of it stands for a test of each, so that the loop has no exit and runs wide.
fn largest_word(words: &[u8]) -> u16
    ensures { result ≡ largest (length words.now / 2) (λ a. word words.now (2 * a)) }
{
    let mut most: u16 = 0;
    for i in 0..words.len() / 2 {
        most = most.max(word_at(words, 2 * i));
    }
    most
}

// Whether all words of a list fit a width.
fn words_fit(words: &[u8], width: u8) -> bool
    requires { width ≤ 16 }
    ensures { result ≡ all_below (length words.now / 2) (λ a. fits (word words.now (2 * a)) width) }
{
    // Every word is one of 16 bits.
    if width == 16 {
        return true;
    }
    fits_width(largest_word(words), width)
}

// How many words a table of so many address bits has.
fn word_count(bits: u8) -> usize
    requires { bits ≤ 10 }
    ensures count { result ≡ 2 ^ bits }
    ensures few { result ≤ 1024 }
{
    1usize << bits
}

// Tag 2: a word for each address.
#[tactic(auto, using(std::proofs::lemmas::Bool::Decides::nat_tests, crate::proofs::Largest::behind_fit), unfolding(netlist::specs::TableField::words_good, lists::specs::Paths::pick))]
fn words_good(c: &[u8]) -> bool
    requires { Sized c.now }
    ensures { result ≡ words_good c.now }
{
    c.len() == 2 + 2 * word_count(c[0]) && words_fit(&c[2..], c[1])
}

// Tag 5: a fill word, then from one word to a word for each address.
#[tactic(auto, using(std::proofs::lemmas::Bool::Decides::nat_tests, crate::proofs::Largest::behind_fit), unfolding(netlist::specs::TableField::filled_good, lists::specs::Paths::pick))]
fn filled_good(c: &[u8]) -> bool
    requires { Sized c.now }
    ensures { result ≡ filled_good c.now }
{
    let len = c.len();
    // The fill word is among them, also where no address reads it.
    6 <= len && len <= 4 + 2 * word_count(c[0]) && len % 2 == 0 && words_fit(&c[2..], c[1])
}

// What follows address bits and width.
#[tactic(auto, using(std::proofs::lemmas::Bool::Decides::nat_tests), unfolding(netlist::specs::TableField::body_good, lists::specs::Paths::pick))]
fn body_good(tag: u8, c: &[u8]) -> bool
    requires { Sized c.now }
    ensures { result ≡ body_good tag c.now }
{
    match tag {
        TABLE => words_good(c),
        FILLED => filled_good(c),
        _ => false,
    }
}

#[tactic(auto, using(std::proofs::lemmas::Bool::Decides::nat_tests), unfolding(netlist::specs::TableField::table_good, lists::specs::Paths::pick))]
pub fn table_good(tag: u8, c: &[u8]) -> bool
    ensures { result ≡ table_good tag c.now }
{
    if c.len() < 2 {
        return false;
    }
    let bits = c[0];
    let width = c[1];
    1 <= bits && bits <= 10 && 1 <= width && width <= 16 && body_good(tag, c)
}
