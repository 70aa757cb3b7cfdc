// The preview: what rewriting a file into an output as long as is wanted would give. Checks 1 to 13; then 14, where the list for the registers by source is
// too short. Nothing else is written.
#![tactic(auto)]

mod sources;

ghost use Rattle.std.specs.Prelude.{◌≡◌};
ghost use Rattle.retiming.specs.Preview.{preview_file};
ghost use Rattle.preview.specs.Previewing.{Measures, told};

use circuit::codes::{CLOCKED_ROM, REGISTER};
use circuit::{Netlist, WORDS};
use netlist::Refusal;
use retime::retime_file;
use retiming::{Mode, Preview, Size};
use saving::circuit_length;
use sources::list_sources;

// The size of a netlist, beside the largest lead of the one that it was made from.
fn measure(net: &Netlist, lead: u16) -> Size
    ensures { Measures net.now.net lead result }
{
    let registers = net.count_code(REGISTER);
    Size {
        clocked: net.count_code(CLOCKED_ROM) as u16,
        registers: registers as u16,
        length: circuit_length(net),
        lead,
        sources: (net.node_count() - registers) as u16,
    }
}

// The size and the list of the rewritten netlist, where the list is long enough: 14.
fn measure_into(file: &[u8], list: &mut [u8]) -> Result<Size, Refusal>
    ensures preview { told result ≡ (preview_file file.now list.old).preview }
    ensures list { list.new ≡ (preview_file file.now list.old).list }
{
    let mut words = [0u16; WORDS];
    let lead = retime_file(file, Mode::Plain, &mut words)?;
    let new = Netlist::of(file, &words);
    let size = measure(&new, lead);
    let sources = size.sources as usize;
    if list.len() < 2 * sources {
        return Err(Refusal::Out);
    }
    list_sources(&new, sources, list);
    Ok(size)
}

// The new file's size, and its registers by source in the list; or the refusal, after which no byte of the list differs.
pub fn preview_file(file: &[u8], list: &mut [u8]) -> Preview
    ensures preview { result ≡ (preview_file file.now list.old).preview }
    ensures list { list.new ≡ (preview_file file.now list.old).list }
{
    match measure_into(file, list) {
        Ok(size) => Preview::Fits(size),
        Err(r) => Preview::Refused(r.number(), r.place()),
    }
}
